#![tactic(auto)]

mod mech;
mod named;
mod neg_state;

pub use mech::Mech;
pub use named::Unnamed;
pub use neg_state::NegState;
