use sspi::{ErrorKind, Fault, Layer};
use std::process::Abort;

const INVALID: Fault = Fault {
    kind: ErrorKind::InvalidParameter,
    layer: Layer::Negotiation,
};

// Each row is refused as invalid: `refusal` reads it, and gives the refusal if there is one. The reader's tests have such a loop too: no crate of tests uses another.
pub(crate) fn refused<F: Fn(&[u8]) -> Option<Fault>>(rt: &impl Abort, refusal: F, rows: &[&[u8]])
    requires { F.IsAlwaysCallable refusal }
{
    for row in rows {
        assert_eq!(rt; refusal(row), Some(INVALID));
    }
}
