ghost use Rattle.std.specs.Prelude.{◌≡◌};
ghost use Rattle.mechanism.specs.Paddings.{padded};

// The first N bytes, filled up with zeros.
#[tactic(auto, using(crate::proofs::Paddings::padded_put))]
pub fn padded<const N: usize>(bytes: &[u8]) -> [u8; N]
    ensures { result ≡ padded N bytes.now }
{
    let mut filled = [0; N];
    let len = bytes.len().min(N);
    filled[..len].copy_from_slice(&bytes[..len]);
    filled
}
