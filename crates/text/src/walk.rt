ghost use Rattle.std.specs.Iterator.{YieldsFirstRef, item_count};
ghost use Rattle.text.specs.Pieces.{pieces_left};

use crate::split_once;

// Gives the pieces of a text that are still to come; at the end none is left.
#[derive(Drop)]
pub struct Pieces<'a> {
    pub(crate) rest: Option<&'a [u8]>,
    pub(crate) mark: u8,
}

impl<'a> Iterator for Pieces<'a> {
    type Item = &'a [u8];

    ghost next_gives = { YieldsFirstRef pieces_left };

    ghost remaining = { item_count pieces_left };

    fn next(&mut self) -> Option<&'a [u8]> {
        let (piece, rest) = split_once(self.rest?, self.mark);
        self.rest = rest;
        Some(piece)
    }
}
