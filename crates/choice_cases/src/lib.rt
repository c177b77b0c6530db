// The choice of a mechanism, the tokens that a party sends and the worked examples, as tests. They stand apart from the libraries, since a crate with tests is proved twice.
#![tactic(auto)]

#[cfg(test)]
mod choosing;
#[cfg(test)]
mod sending;
#[cfg(test)]
mod worked;
