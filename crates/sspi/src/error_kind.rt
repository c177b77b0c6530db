ghost use Rattle.std.specs.Prelude.{◌≡◌, ◌==◌, Some, Ok, Decides};
ghost use Rattle.sspi.specs.Kinds.{kind_number, kind_of};
ghost use Rattle.sspi.specs.Numbers.{numbered};
ghost use Rattle.std.specs.Cmp.Rules.{comparing};
ghost use Rattle.std.proofs.Common.{rules};

use crate::numbers::{Numbered, UnknownNumber, with_number};

// What went wrong, with the numbers that Windows gives to these errors.
#[derive(Clone, Copy, Debug)]
pub enum ErrorKind {
    Unknown = 0,
    InsufficientMemory = 0x80090300,
    InvalidHandle = 0x80090301,
    UnsupportedFunction = 0x80090302,
    TargetUnknown = 0x80090303,
    InternalError = 0x80090304,
    SecurityPackageNotFound = 0x80090305,
    NotOwned = 0x80090306,
    CannotInstall = 0x80090307,
    InvalidToken = 0x80090308,
    CannotPack = 0x80090309,
    OperationNotSupported = 0x8009030a,
    NoImpersonation = 0x8009030b,
    LogonDenied = 0x8009030c,
    UnknownCredentials = 0x8009030d,
    NoCredentials = 0x8009030e,
    MessageAltered = 0x8009030f,
    OutOfSequence = 0x80090310,
    NoAuthenticatingAuthority = 0x80090311,
    BadPackageId = 0x80090316,
    ContextExpired = 0x80090317,
    IncompleteMessage = 0x80090318,
    IncompleteCredentials = 0x80090320,
    BufferTooSmall = 0x80090321,
    WrongPrincipalName = 0x80090322,
    TimeSkew = 0x80090324,
    UntrustedRoot = 0x80090325,
    IllegalMessage = 0x80090326,
    CertificateUnknown = 0x80090327,
    CertificateExpired = 0x80090328,
    EncryptFailure = 0x80090329,
    DecryptFailure = 0x80090330,
    AlgorithmMismatch = 0x80090331,
    SecurityQosFailed = 0x80090332,
    UnfinishedContextDeleted = 0x80090333,
    NoTgtReply = 0x80090334,
    NoIpAddress = 0x80090335,
    WrongCredentialHandle = 0x80090336,
    CryptoSystemInvalid = 0x80090337,
    MaxReferralsExceeded = 0x80090338,
    MustBeKdc = 0x80090339,
    StrongCryptoNotSupported = 0x8009033a,
    TooManyPrincipals = 0x8009033b,
    NoPaData = 0x8009033c,
    PkInitNameMismatch = 0x8009033d,
    SmartCardLogonRequired = 0x8009033e,
    ShutdownInProgress = 0x8009033f,
    KdcInvalidRequest = 0x80090340,
    KdcUnknownEType = 0x80090341,
    KdcUnknownEType2 = 0x80090342,
    UnsupportedPreAuth = 0x80090343,
    DelegationRequired = 0x80090345,
    BadBindings = 0x80090346,
    MultipleAccounts = 0x80090347,
    NoKerbKey = 0x80090348,
    CertWrongUsage = 0x80090349,
    DowngradeDetected = 0x80090350,
    SmartCardCertificateRevoked = 0x80090351,
    IssuingCAUntrusted = 0x80090352,
    RevocationOffline = 0x80090353,
    PkInitClientFailure = 0x80090354,
    SmartCardCertExpired = 0x80090355,
    NoS4uProtSupport = 0x80090356,
    CrossRealmDelegationFailure = 0x80090357,
    RevocationOfflineKdc = 0x80090358,
    IssuingCaUntrustedKdc = 0x80090359,
    KdcCertExpired = 0x8009035a,
    KdcCertRevoked = 0x8009035b,
    InvalidParameter = 0x8009035d,
    DelegationPolicy = 0x8009035e,
    PolicyNtlmOnly = 0x8009035f,
    NoContext = 0x80090361,
    Pku2uCertFailure = 0x80090362,
    MutualAuthFailed = 0x80090363,
    OnlyHttpsAllowed = 0x80090365,
    ApplicationProtocolMismatch = 0x80090367,
}

// Every kind, in the order of the declaration.
const KINDS: [ErrorKind; 76] = [
    ErrorKind::Unknown,
    ErrorKind::InsufficientMemory,
    ErrorKind::InvalidHandle,
    ErrorKind::UnsupportedFunction,
    ErrorKind::TargetUnknown,
    ErrorKind::InternalError,
    ErrorKind::SecurityPackageNotFound,
    ErrorKind::NotOwned,
    ErrorKind::CannotInstall,
    ErrorKind::InvalidToken,
    ErrorKind::CannotPack,
    ErrorKind::OperationNotSupported,
    ErrorKind::NoImpersonation,
    ErrorKind::LogonDenied,
    ErrorKind::UnknownCredentials,
    ErrorKind::NoCredentials,
    ErrorKind::MessageAltered,
    ErrorKind::OutOfSequence,
    ErrorKind::NoAuthenticatingAuthority,
    ErrorKind::BadPackageId,
    ErrorKind::ContextExpired,
    ErrorKind::IncompleteMessage,
    ErrorKind::IncompleteCredentials,
    ErrorKind::BufferTooSmall,
    ErrorKind::WrongPrincipalName,
    ErrorKind::TimeSkew,
    ErrorKind::UntrustedRoot,
    ErrorKind::IllegalMessage,
    ErrorKind::CertificateUnknown,
    ErrorKind::CertificateExpired,
    ErrorKind::EncryptFailure,
    ErrorKind::DecryptFailure,
    ErrorKind::AlgorithmMismatch,
    ErrorKind::SecurityQosFailed,
    ErrorKind::UnfinishedContextDeleted,
    ErrorKind::NoTgtReply,
    ErrorKind::NoIpAddress,
    ErrorKind::WrongCredentialHandle,
    ErrorKind::CryptoSystemInvalid,
    ErrorKind::MaxReferralsExceeded,
    ErrorKind::MustBeKdc,
    ErrorKind::StrongCryptoNotSupported,
    ErrorKind::TooManyPrincipals,
    ErrorKind::NoPaData,
    ErrorKind::PkInitNameMismatch,
    ErrorKind::SmartCardLogonRequired,
    ErrorKind::ShutdownInProgress,
    ErrorKind::KdcInvalidRequest,
    ErrorKind::KdcUnknownEType,
    ErrorKind::KdcUnknownEType2,
    ErrorKind::UnsupportedPreAuth,
    ErrorKind::DelegationRequired,
    ErrorKind::BadBindings,
    ErrorKind::MultipleAccounts,
    ErrorKind::NoKerbKey,
    ErrorKind::CertWrongUsage,
    ErrorKind::DowngradeDetected,
    ErrorKind::SmartCardCertificateRevoked,
    ErrorKind::IssuingCAUntrusted,
    ErrorKind::RevocationOffline,
    ErrorKind::PkInitClientFailure,
    ErrorKind::SmartCardCertExpired,
    ErrorKind::NoS4uProtSupport,
    ErrorKind::CrossRealmDelegationFailure,
    ErrorKind::RevocationOfflineKdc,
    ErrorKind::IssuingCaUntrustedKdc,
    ErrorKind::KdcCertExpired,
    ErrorKind::KdcCertRevoked,
    ErrorKind::InvalidParameter,
    ErrorKind::DelegationPolicy,
    ErrorKind::PolicyNtlmOnly,
    ErrorKind::NoContext,
    ErrorKind::Pku2uCertFailure,
    ErrorKind::MutualAuthFailed,
    ErrorKind::OnlyHttpsAllowed,
    ErrorKind::ApplicationProtocolMismatch,
];

impl Numbered for ErrorKind {
    ghost number_of = { kind_number };

    fn code(self) -> u32 {
        self as u32
    }
}

// The number, by which the kind is found again.
impl From<ErrorKind> for u32 {
    ghost from_gives = { λ kind n. n ≡ kind_number kind };

    #[tactic(auto, unfolding(crate::specs::Kinds::kind_of))]
    fn from(kind: ErrorKind) -> u32
        ensures answer { result ≡ kind_number kind }
        ensures back { kind_of result ≡ Some kind }
    {
        kind.code()
    }
}

// The kind that has the number.
impl TryFrom<u32> for ErrorKind {
    type Error = UnknownNumber;

    ghost try_from_gives = { λ n kind. kind ≡ numbered n (kind_of n) };

    #[tactic(auto, unfolding(crate::specs::Kinds::kind_of))]
    fn try_from(n: u32) -> Result<ErrorKind, UnknownNumber>
        ensures answer { result ≡ numbered n (kind_of n) }
        ensures back { (kind : ErrorKind) → result ≡ Ok kind → kind_number kind ≡ n }
    {
        with_number(&KINDS, n).ok_or(UnknownNumber(n))
    }
}

// Equal where the numbers are, since no two have the same. By hand: at 76 kinds the search does not find that a derived one decides equality.
impl PartialEq for ErrorKind {
    ghost eq = { λ a b. kind_number a == kind_number b };

    ghost laws = { Prim.search (comparing, rules) };

    fn eq(&self, other: &ErrorKind) -> bool
        ensures numbers { result ≡ (kind_number self.now == kind_number other.now) }
        ensures same { Decides result (self.now ≡ other.now) }
    {
        u32::from(*self) == u32::from(*other)
    }
}
