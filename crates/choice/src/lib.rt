#![tactic(auto)]

mod by_mech_type;
mod extractors;
mod fallback;

pub use by_mech_type::{Agreed, negotiate_protocol_by_mech_type};
pub use extractors::{negotiate_mech_type, runs_after};
pub use fallback::{NTLM_FALLBACK_ERROR_KINDS, leads_to_ntlm};
