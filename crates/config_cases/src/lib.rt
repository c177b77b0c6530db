// Examples of package lists, of words, of the choice of a protocol and of drafts, as tests. They stand apart from the libraries, since a crate with tests is proved twice.
#![tactic(auto)]

#[cfg(test)]
mod drafts;
#[cfg(test)]
mod lists;
#[cfg(test)]
mod protocols;
#[cfg(test)]
mod refusals;
pub mod spending;
