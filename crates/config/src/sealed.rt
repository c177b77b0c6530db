use crate::{Client, Server};

// No type of another crate is of this trait.
pub trait Sealed {}

impl Sealed for Client {}

impl Sealed for Server {}
