// Examples of what the writers do, as tests. They stand apart from the libraries, since a crate with tests is proved twice.
#![tactic(auto)]

#[cfg(test)]
mod writing;
