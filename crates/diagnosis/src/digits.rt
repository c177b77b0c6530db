ghost use Rattle.std.specs.Prelude.{◌≡◌, ◌<◌, IfSome};
ghost use Rattle.diagnosis.specs.Hex.{digit_of, pair_of};

use std::alloc::{AllocError, Global};
use std::fmt;

// What a line of the input is.
#[derive(Drop)]
pub enum Line {
    Passed,
    NotHex,
    Token(Vec<u8>),
}

impl Line {
    // A comment and a line of blanks are passed over.
    pub fn read(heap: Global, line: &[u8]) -> Result<Line, AllocError> {
        let line = match line {
            [b'#', ..] => return Ok(Line::Passed),
            [front @ .., b'\r'] => front,
            _ => line,
        };
        match decode(heap, line)? {
            None => Ok(Line::NotHex),
            Some(bytes) if bytes.is_empty() => Ok(Line::Passed),
            Some(bytes) => Ok(Line::Token(bytes)),
        }
    }
}

// The bytes that the text writes in hexadecimal, its blanks skipped.
fn decode(heap: Global, text: &[u8]) -> Result<Option<Vec<u8>>, AllocError> {
    let mut bytes = Vec::new(heap);
    let mut high = None;
    for c in text {
        if matches!(*c, b' ' | b'\t') {
            continue;
        }
        let Some(first) = high else {
            high = Some(*c);
            continue;
        };
        let Some(byte) = pair(first, *c) else {
            return Ok(None);
        };
        bytes.push(byte)?;
        high = None;
    }
    match high {
        None => Ok(Some(bytes)),
        Some(_) => Ok(None),
    }
}

// The byte that two hexadecimal digits write.
fn pair(high: u8, low: u8) -> Option<u8>
    ensures { result ≡ pair_of (digit_of high) (digit_of low) }
{
    Some(digit(high)? * 16 + digit(low)?)
}

// The value of a hexadecimal digit of either case.
fn digit(c: u8) -> Option<u8>
    ensures value { result ≡ digit_of c }
    ensures small { IfSome result (λ d. d < 16) }
{
    Some(char::from(c).to_digit(16)? as u8)
}

// Bytes, to be shown in capital hexadecimal.
#[derive(Clone, Copy)]
pub struct Hex<'a>(pub &'a [u8]);

impl fmt::Display for Hex<'_> {
    fn fmt<W: fmt::Write>(&self, f: &mut fmt::Formatter<W>) -> fmt::Result {
        for b in self.0 {
            write!(f, "{b:02X}")?;
        }
        Ok(())
    }
}
