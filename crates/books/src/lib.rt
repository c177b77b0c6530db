#![tactic(auto)]

ghost use Rattle.std.specs.Prelude.{◌≡◌, ◌+◌, ◌<◌, true, length, is_ok, MatchOption};
ghost use Rattle.books.specs.Books.{be16, count_of, pairs_end, Pairs, is_book, book_or_empty, entries, entry_at};
ghost use Rattle.books.specs.Laws.{LaidOut, Listed};

use sspi::{ErrorKind, Fault, Layer};
use std::ops::Range;

// What a byte string that is no book, or not a book of the kind that is asked for, is refused with.
pub const INVALID: Fault = Fault {
    kind: ErrorKind::InvalidParameter,
    layer: Layer::Negotiation,
};

// The number in the two bytes at a place, the high one first; 0 if the byte string ends before them.
#[tactic(auto, using(std::proofs::lemmas::Bool::Decides::nat_tests, std::proofs::lemmas::Grind::common_steps), unfolding(crate::specs::Books::be16))]
fn number_at(bytes: &[u8], at: usize) -> u16
    ensures { result ≡ be16 bytes.now at }
{
    match bytes.get(at..) {
        Some([high, low, ..]) => u16::from_be_bytes([*high, *low]),
        _ => 0,
    }
}

// The pairs behind the count, if the byte string has as many as it counts.
fn pairs(bytes: &[u8]) -> Option<&[[u8; 4]]>
    ensures { MatchOption result (length bytes.now < pairs_end bytes.now) (λ p. Pairs bytes.now p.now) }
{
    let n = number_at(bytes, 0) as usize;
    let (pairs, _) = bytes.get(2..2 + 4 * n)?.as_chunks();
    Some(pairs)
}

// Where the entry of a pair lies.
fn place(pair: &[u8; 4]) -> Range<usize>
    ensures start { result.start ≡ be16 pair.now 0 }
    ensures end { result.end ≡ be16 pair.now 0 + be16 pair.now 2 }
{
    let at = number_at(pair, 0) as usize;
    at..at + number_at(pair, 2) as usize
}

// Whether the byte string is a book.
#[tactic(auto, using(std::proofs::lemmas::Bool::Decides::nat_tests, crate::proofs::Places::at_place, crate::proofs::Places::order_all), unfolding(crate::specs::Books::is_book))]
fn is_book(bytes: &[u8]) -> bool
    ensures { result ≡ is_book bytes.now }
{
    let Some(pairs) = pairs(bytes) else {
        return false;
    };
    if bytes.len() > 8192 || pairs.len() > 128 {
        return false;
    }
    let mut end = 2 + 4 * pairs.len();
    for pair in pairs {
        let place = place(pair);
        if place.start < end || place.end > bytes.len() {
            return false;
        }
        end = place.end;
    }
    true
}

// A book: byte strings one behind the other in one, with their places at the front. Its bytes are a book, or none at all.
#[derive(Clone, Copy)]
pub struct Book<'a> {
    bytes: &'a [u8],
    pub ghost sound: { book_or_empty bytes.now ≡ bytes.now },
}

impl<'a> Book<'a> {
    ghost use Rattle.books.specs.Views.{book_bytes, book_read, read_book, entries_left, seen};

    // Reads a book that fills the bytes.
    #[tactic(auto, using(crate::proofs::Places::laid_out))]
    pub fn read(bytes: &'a [u8]) -> Result<Book<'a>, Fault>
        ensures answer { book_read result ≡ read_book bytes.now }
        ensures test { is_ok result ≡ is_book bytes.now }
        ensures laid { is_book bytes.now ≡ true → LaidOut bytes.now }
    {
        if is_book(bytes) {
            Ok(Book { bytes })
        } else {
            Err(INVALID)
        }
    }

    // The book that fills the bytes, and an empty one if they are no book.
    pub fn or_empty(bytes: &'a [u8]) -> Book<'a>
        ensures { book_bytes result ≡ book_or_empty bytes.now }
    {
        Book::read(bytes).unwrap_or(Book { bytes: &[] })
    }

    // How many entries the book counts.
    pub fn len(&self) -> usize
        ensures answer { result ≡ count_of (book_bytes self.now) }
        ensures bound { result < 65536 }
    {
        number_at(self.bytes, 0) as usize
    }

    // Entry i, if the book has one: a part of the book.
    #[tactic(auto, using(crate::proofs::Places::fits, crate::proofs::Places::entry_past, crate::proofs::Places::entry_paired))]
    pub fn entry(&self, i: usize) -> Option<&'a [u8]>
        ensures answer { seen result ≡ entry_at (book_bytes self.now) i }
        ensures listed { Listed (book_bytes self.now) i }
    {
        let place = place(pairs(self.bytes)?.get(i)?);
        Some(&self.bytes[place])
    }

    // The entries in their order.
    pub fn entries(&self) -> Entries<'a>
        ensures { entries_left result ≡ entries (book_bytes self.now) }
    {
        Entries { book: *self, at: 0 }
    }
}

// The entries of a book that are still to come, from entry `at` on. The place is kept, and not the pairs left, since `entry` finds an entry by it.
#[derive(Drop)]
pub struct Entries<'a> {
    book: Book<'a>,
    at: usize,
}

impl<'a> Iterator for Entries<'a> {
    type Item = &'a [u8];

    ghost use Rattle.books.specs.Views.{entries_left};
    ghost use Rattle.std.specs.Iterator.{YieldsFirstRef, item_count};

    ghost next_gives = { YieldsFirstRef entries_left };

    ghost remaining = { item_count entries_left };

    #[tactic(auto, using(crate::proofs::Places::next_entry, crate::proofs::Places::no_entry))]
    fn next(&mut self) -> Option<&'a [u8]> {
        let entry = self.book.entry(self.at)?;
        self.at += 1;
        Some(entry)
    }
}
