ghost use Rattle.std.specs.Prelude.{◌≡◌, Some, Ok};
ghost use Rattle.sspi.specs.Numbers.{numbered};
ghost use Rattle.sspi.specs.Statuses.{status_number, status_of};

use crate::numbers::{Numbered, UnknownNumber, with_number};

// How a step that was not refused ended, with the numbers that Windows gives to these statuses.
#[derive(Clone, Copy, PartialEq, Debug)]
pub enum SecurityStatus {
    Ok = 0,
    ContinueNeeded = 0x00090312,
    CompleteNeeded = 0x00090313,
    CompleteAndContinue = 0x00090314,
    LocalLogon = 0x00090315,
    ContextExpired = 0x00090317,
    IncompleteCredentials = 0x00090320,
    Renegotiate = 0x00090321,
    NoLsaContext = 0x00090323,
}

// Every status, in the order of the declaration.
const STATUSES: [SecurityStatus; 9] = [
    SecurityStatus::Ok,
    SecurityStatus::ContinueNeeded,
    SecurityStatus::CompleteNeeded,
    SecurityStatus::CompleteAndContinue,
    SecurityStatus::LocalLogon,
    SecurityStatus::ContextExpired,
    SecurityStatus::IncompleteCredentials,
    SecurityStatus::Renegotiate,
    SecurityStatus::NoLsaContext,
];

impl Numbered for SecurityStatus {
    ghost number_of = { status_number };

    fn code(self) -> u32 {
        self as u32
    }
}

// The number, by which the status is found again.
impl From<SecurityStatus> for u32 {
    ghost from_gives = { λ status n. n ≡ status_number status };

    #[tactic(auto, unfolding(crate::specs::Statuses::status_of))]
    fn from(status: SecurityStatus) -> u32
        ensures answer { result ≡ status_number status }
        ensures back { status_of result ≡ Some status }
    {
        status.code()
    }
}

// The status that has the number.
impl TryFrom<u32> for SecurityStatus {
    type Error = UnknownNumber;

    ghost try_from_gives = { λ n status. status ≡ numbered n (status_of n) };

    #[tactic(auto, unfolding(crate::specs::Statuses::status_of))]
    fn try_from(n: u32) -> Result<SecurityStatus, UnknownNumber>
        ensures answer { result ≡ numbered n (status_of n) }
        ensures back { (status : SecurityStatus) → result ≡ Ok status → status_number status ≡ n }
    {
        with_number(&STATUSES, n).ok_or(UnknownNumber(n))
    }
}
