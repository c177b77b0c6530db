#![tactic(auto)]

mod bytes;
mod identity;
mod mechanism;
mod sealing;

pub use bytes::padded;
pub use identity::{Identity, Part};
pub use mechanism::{Mechanism, Sealer, Side, may_seal};
pub use sealing::carry;
