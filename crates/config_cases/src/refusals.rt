use sspi::{ErrorKind, Fault, Layer};

pub const NO_CREDENTIALS: Fault = Fault {
    kind: ErrorKind::NoCredentials,
    layer: Layer::Negotiation,
};

pub const INTERNAL: Fault = Fault {
    kind: ErrorKind::InternalError,
    layer: Layer::Negotiation,
};

pub const UNKNOWN: Fault = Fault {
    kind: ErrorKind::SecurityPackageNotFound,
    layer: Layer::Negotiation,
};
