ghost use Rattle.std.specs.Prelude.{◌≡◌, Ok};
ghost use Rattle.mechanism.specs.Promises.{Carries};

use crate::mechanism::Sealer;
use sspi::Fault;

// Makes a MIC over some data with one value, and checks it over some data with another. It is accepted only if the data are the same.
#[tactic(auto, using(crate::proofs::Sealable::same_data, crate::proofs::Sealable::carries))]
pub fn carry<M: Sealer>(
    maker: &mut M,
    checker: &mut M,
    sent: &[u8],
    heard: &[u8],
) -> Result<(), Fault>
    ensures answer { Carries M.Sealer.sealing maker.old checker.old sent.now heard.now maker.new checker.new result }
    ensures same { result ≡ Ok tt → sent.now ≡ heard.now }
{
    let mut mic = [0; 160];
    let n = maker.make(sent, &mut mic)?;
    checker.check(heard, &mic[..n])
}
