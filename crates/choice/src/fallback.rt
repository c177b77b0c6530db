ghost use Rattle.std.specs.Prelude.{◌≡◌, Decides};
ghost use Rattle.choice.specs.Fallback.{falls_back, Among, fallback_kinds};

use sspi::ErrorKind;

// The kinds of fault of Kerberos after which NTLM is tried: the clocks differ, no KDC was found, its certificate is not trusted, or
// it does not know the service.
pub const NTLM_FALLBACK_ERROR_KINDS: [ErrorKind; 4] = [
    ErrorKind::TimeSkew,
    ErrorKind::NoAuthenticatingAuthority,
    ErrorKind::CertificateUnknown,
    ErrorKind::UnknownCredentials,
];

// Whether a fault of this kind leads from Kerberos to NTLM.
#[tactic(auto, unfolding(crate::specs::Fallback::falls_back))]
pub fn leads_to_ntlm(kind: ErrorKind) -> bool
    ensures answer { result ≡ falls_back kind }
    ensures exactly { Decides result (Among kind fallback_kinds) }
{
    NTLM_FALLBACK_ERROR_KINDS.contains(&kind)
}
