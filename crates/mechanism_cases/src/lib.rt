// Scripts and ladders, and the generic call on sealers, as tests. They stand apart from the libraries, since a crate with tests is proved twice.
#![tactic(auto)]

#[cfg(test)]
mod answering;
#[cfg(test)]
mod climbing;
#[cfg(test)]
mod identifying;
#[cfg(test)]
mod playing;
#[cfg(test)]
mod sealing;
#[cfg(test)]
mod vouching;
