#![tactic(auto)]

mod fields;
mod laws;
mod neg_token_init;
mod neg_token_targ;
mod part;

pub use fields::{Layout, TokenFields};
pub use laws::{a_legal_token_has_no_other_writing, fields_written_are_read_back};
pub use neg_token_init::NegTokenInit;
pub use neg_token_targ::NegTokenTarg;
pub use part::{Field, Kind};
