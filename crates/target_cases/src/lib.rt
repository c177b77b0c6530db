// Targets that are named by an address and targets that are not, as tests. They stand apart from the library, since a crate with tests is proved twice.
#![tactic(auto)]

#[cfg(test)]
mod rows;
