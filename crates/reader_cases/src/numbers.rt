use sspi::{ErrorKind, Fault, Layer, SecurityStatus, UnknownNumber};
use std::fmt::Debug;
use std::process::Abort;

// Each number gives the value beside it, or none.
fn values_at<T>(rt: &impl Abort, rows: &[(u32, Option<T>)])
where
    T: TryFrom<u32, Error = UnknownNumber> + Copy + PartialEq + Debug,
{
    for (n, value) in rows {
        assert_eq!(rt; T::try_from(*n).ok(), *value);
    }
}

#[test]
fn kinds_by_number(rt: HostRuntime) {
    values_at(
        &rt,
        &[
            (0, Some(ErrorKind::Unknown)),
            (0x80090300, Some(ErrorKind::InsufficientMemory)),
            (0x80090303, Some(ErrorKind::TargetUnknown)),
            (0x80090308, Some(ErrorKind::InvalidToken)),
            (0x8009030C, Some(ErrorKind::LogonDenied)),
            (0x8009030F, Some(ErrorKind::MessageAltered)),
            (0x80090311, Some(ErrorKind::NoAuthenticatingAuthority)),
            (0x80090318, Some(ErrorKind::IncompleteMessage)),
            (0x80090321, Some(ErrorKind::BufferTooSmall)),
            (0x80090345, Some(ErrorKind::DelegationRequired)),
            (0x8009035D, Some(ErrorKind::InvalidParameter)),
            (0x80090367, Some(ErrorKind::ApplicationProtocolMismatch)),
        ],
    );
}

#[test]
fn numbers_of_no_kind(rt: HostRuntime) {
    values_at::<ErrorKind>(
        &rt,
        &[
            (1, None),
            (0x00090312, None),
            (0x800902FF, None),
            (0x80090312, None),
            (0x8009035C, None),
            (0x80090366, None),
            (0x80090368, None),
            (0xFFFFFFFF, None),
        ],
    );
}

#[test]
fn statuses_by_number(rt: HostRuntime) {
    values_at(
        &rt,
        &[
            (0, Some(SecurityStatus::Ok)),
            (0x00090312, Some(SecurityStatus::ContinueNeeded)),
            (0x00090314, Some(SecurityStatus::CompleteAndContinue)),
            (0x00090317, Some(SecurityStatus::ContextExpired)),
            (0x00090323, Some(SecurityStatus::NoLsaContext)),
            (1, None),
            (0x00090316, None),
            (0x80090312, None),
        ],
    );
}

#[test]
fn layers(rt: HostRuntime) {
    assert_eq!(rt; Layer::Token.name(), "token");
    assert_eq!(rt; Layer::Negotiation.name(), "negotiation");
    assert_eq!(rt; Layer::Mechanism.name(), "mechanism");
    assert_ne!(rt; Layer::Token, Layer::Mechanism);
}

#[test]
fn faults(rt: HostRuntime) {
    let fault = Fault {
        kind: ErrorKind::InvalidToken,
        layer: Layer::Token,
    };
    assert_eq!(rt; fault, fault);
    assert_ne!(rt;
        fault,
        Fault {
            kind: ErrorKind::InvalidToken,
            layer: Layer::Negotiation,
        }
    );
    assert_ne!(rt;
        fault,
        Fault {
            kind: ErrorKind::LogonDenied,
            layer: Layer::Token,
        }
    );
}
