// Examples of books and account books at their bounds, as tests. They stand apart from the libraries, since a crate with tests is proved twice.
#![tactic(auto)]

#[cfg(test)]
mod accounting;
#[cfg(test)]
mod booking;
#[cfg(test)]
mod refusing;
