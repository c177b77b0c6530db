ghost use Rattle.std.specs.Prelude.{◌≡◌};
ghost use Rattle.packages.specs.Protocols.{protocol_of};

use sspi::{ErrorKind, Fault, Layer};
use std::str::FromStr;

// The protocol that runs: one of three mechanisms.
#[derive(Clone, Copy, PartialEq, Eq, Debug)]
pub enum Protocol {
    Kerberos,
    Ntlm,
    Pku2u,
}

// The protocol that a word of the configuration names, letter by letter.
impl FromStr for Protocol {
    type Err = Fault;

    ghost from_str_gives = { λ word r. r ≡ protocol_of word };

    #[tactic(auto, unfolding(crate::specs::Protocols::protocol_of))]
    fn from_str(word: &str) -> Result<Protocol, Fault> {
        match word {
            "Kerberos" => Ok(Protocol::Kerberos),
            "NTLM" => Ok(Protocol::Ntlm),
            "PKU2U" => Ok(Protocol::Pku2u),
            _ => Err(Layer::Negotiation.fault(ErrorKind::SecurityPackageNotFound)),
        }
    }
}
