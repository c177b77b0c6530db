#![tactic(auto)]

mod error_kind;
mod fault;
mod laws;
mod numbers;
mod security_status;

pub use error_kind::ErrorKind;
pub use fault::{Fault, Layer};
pub use laws::equal_is_the_same;
pub use numbers::UnknownNumber;
pub use security_status::SecurityStatus;
