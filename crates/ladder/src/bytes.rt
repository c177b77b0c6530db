ghost use Rattle.std.specs.Prelude.{◌≡◌, ◌+◌, ◌≤◌, ◌∷◌, length, take, drop};

// Writes a head byte and a tail to the front of `out`, and gives their length.
#[tactic(auto, using(crate::proofs::Puts::headed_front, std::proofs::lemmas::Slice::overwrites))]
pub(crate) fn put_headed(out: &mut [u8], head: u8, tail: &[u8]) -> usize
    requires { 1 + length tail.now ≤ length out.old }
    ensures count { result ≡ 1 + length tail.now }
    ensures front { take result out.new ≡ head ∷ tail.now }
    ensures back { drop result out.new ≡ drop result out.old }
{
    out[0] = head;
    let end = 1 + tail.len();
    out[1..end].copy_from_slice(tail);
    end
}
