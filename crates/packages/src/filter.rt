ghost use Rattle.std.specs.Prelude.{◌≡◌, true, false, Ok, Err};
ghost use Rattle.packages.specs.Filter.{filtered, is_open};
ghost use Rattle.packages.specs.Packages.{any_open};
ghost use Rattle.packages.specs.Protocols.{refused};
ghost use Rattle.packages.specs.declared.protocol.Protocol.TheVariants.{Ntlm};
ghost use Rattle.sspi.specs.declared.error_kind.ErrorKind.TheVariants.{NoCredentials, InternalError};

use crate::package_list::PackageListConfig;
use crate::protocol::Protocol;
use sspi::{ErrorKind, Fault, Layer};

// The protocol that runs from now on, once it is known which packages are open.
// An open protocol goes on running. A closed one gives way to NTLM, and closed NTLM, for a client, to Kerberos.
#[tactic(auto, unfolding(crate::specs::Filter::filtered))]
pub fn filter_protocol(
    running: Protocol,
    open: PackageListConfig,
    is_client: bool,
) -> Result<Protocol, Fault>
    ensures answer { result ≡ filtered running «open» is_client }
    ensures keeps { is_open «open» running ≡ true → result ≡ Ok running }
    ensures closed { any_open «open» ≡ false → result ≡ Err (refused NoCredentials) }
    ensures only_closed { result ≡ Err (refused NoCredentials) → any_open «open» ≡ false }
    ensures stuck { result ≡ Err (refused InternalError) → (running ≡ Ntlm) × («open».ntlm ≡ false) × (is_client ≡ false) × (any_open «open» ≡ true) }
{
    if !open.any() {
        return Err(Layer::Negotiation.fault(ErrorKind::NoCredentials));
    }
    if open.is_open(running) {
        return Ok(running);
    }
    match running {
        Protocol::Kerberos | Protocol::Pku2u => Ok(Protocol::Ntlm),
        Protocol::Ntlm if is_client => Ok(Protocol::Kerberos),
        Protocol::Ntlm => Err(Layer::Negotiation.fault(ErrorKind::InternalError)),
    }
}
