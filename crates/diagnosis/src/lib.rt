// What the program prints beside the fields: where a refused token went wrong, and bytes in hexadecimal. The explanations are tested, not proved.
#![tactic(auto)]

mod digits;
mod walk;

pub use digits::{Hex, Line};
pub use walk::{Reason, Trouble, explain};
