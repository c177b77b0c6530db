#![tactic(auto)]

mod fields;
mod init;
mod lengths;
mod part;
mod targ;
mod token;

pub use init::write_init;
pub use targ::write_targ;
