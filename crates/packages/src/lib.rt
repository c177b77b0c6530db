#![tactic(auto)]

mod filter;
mod package_list;
mod protocol;

pub use filter::filter_protocol;
pub use package_list::PackageListConfig;
pub use protocol::Protocol;
