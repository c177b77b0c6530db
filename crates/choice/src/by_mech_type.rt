ghost use Rattle.std.specs.Prelude.{◌≡◌};
ghost use Rattle.choice.specs.Agreeing.{agreed};
ghost use Rattle.choice.specs.Promises.{Agreement};

use crate::extractors::NO_MECHANISM;
use names::Mech;
use packages::{PackageListConfig, Protocol};
use sspi::Fault;

// What an initiator holds to after it heard the acceptor's choice.
#[derive(Clone, Copy, PartialEq, Debug)]
pub struct Agreed {
    pub enabled: PackageListConfig,
    pub running: Protocol,
    pub mic_needed: bool,
}

// What follows for an initiator from the mechanism that the acceptor chose; `guest` says that the user of this call is a guest.
// Kerberos closes NTLM, and a MIC is owed if Kerberos did not run before; NTLM closes Kerberos, and everybody but a guest owes a MIC.
pub fn negotiate_protocol_by_mech_type(
    mech_type: &[u8],
    enabled: PackageListConfig,
    running: Protocol,
    mic_needed: bool,
    guest: bool,
) -> Result<Agreed, Fault>
    ensures answer { result ≡ agreed mech_type.now enabled running mic_needed guest }
    ensures means { Agreement mech_type.now enabled result }
{
    match Mech::try_from(mech_type) {
        Ok(Mech::MsKrb5 | Mech::Krb5) if enabled.kerberos => Ok(Agreed {
            enabled: PackageListConfig {
                ntlm: false,
                ..enabled
            },
            running: Protocol::Kerberos,
            mic_needed: mic_needed || running != Protocol::Kerberos,
        }),
        Ok(Mech::Ntlm) if enabled.ntlm => Ok(Agreed {
            enabled: PackageListConfig {
                kerberos: false,
                ..enabled
            },
            running: Protocol::Ntlm,
            mic_needed: !guest,
        }),
        _ => Err(NO_MECHANISM),
    }
}
