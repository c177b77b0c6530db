// Examples of numbers, of legal and illegal tokens and of explanations, as tests. They stand apart from the libraries, since a crate with tests is proved twice.
#![tactic(auto)]

#[cfg(test)]
mod explaining;
#[cfg(test)]
mod numbers;
#[cfg(test)]
mod reading;
