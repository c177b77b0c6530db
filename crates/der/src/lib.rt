#![tactic(auto)]

ghost use Rattle.std.specs.Prelude.{◌≡◌, Decides};
ghost use Rattle.der.specs.Reading.{head_of, take_of, only_of, one_element, optional_of, plain_head, plain_taken, plain_part, plain_optional};
ghost use Rattle.der.specs.Elements.{oid, bit_string, ObjectIdentifier, BitString};
ghost use Rattle.der.specs.Laws.{ReadBack, OnlyWritten, RefusedIllegal, OneWriting};
ghost use Rattle.der.specs.Writing.{element_len};

mod placed;
mod writer;

pub use placed::{put_bytes, put_element, put_header};
use sspi::{ErrorKind, Fault, Layer};
pub use writer::Writer;

// What every illegal byte string is refused with.
pub const ILLEGAL: Fault = Fault {
    kind: ErrorKind::InvalidToken,
    layer: Layer::Token,
};

// What parts that make no legal token are refused with.
pub const INVALID: Fault = Fault {
    kind: ErrorKind::InvalidParameter,
    layer: Layer::Token,
};

// What a writing that is longer than its room is refused with.
pub const TOO_SMALL: Fault = Fault {
    kind: ErrorKind::BufferTooSmall,
    layer: Layer::Token,
};

// Tag, length of the content, and what follows; only the shortest form of a length is legal.
fn head(input: &[u8]) -> Result<(u8, usize, &[u8]), Fault>
    ensures { plain_head result ≡ head_of input.now }
{
    match input {
        [tag, n @ 0..=0x7f, rest @ ..] => Ok((*tag, *n as usize, rest)),
        [tag, 0x81, n @ 0x80..=0xff, rest @ ..] => Ok((*tag, *n as usize, rest)),
        [tag, 0x82, high @ 1..=0xff, low, rest @ ..] => Ok((
            *tag,
            u16::from_be_bytes([*high, *low]) as usize,
            rest,
        )),
        _ => Err(ILLEGAL),
    }
}

// Takes one element off the front: its tag, its content, and what follows it.
pub fn take(input: &[u8]) -> Result<(u8, &[u8], &[u8]), Fault>
    ensures { plain_taken result ≡ take_of input.now }
{
    let (tag, n, rest) = head(input)?;
    if tag & 0x1f == 0x1f || rest.len() < n {
        return Err(ILLEGAL);
    }
    let (content, rest) = rest.split_at(n);
    Ok((tag, content, rest))
}

// The content of the one element, of this tag, that fills the input.
pub fn only(input: &[u8], tag: u8) -> Result<&[u8], Fault>
    ensures { plain_part result ≡ only_of tag input.now }
{
    let (found, content, rest) = take(input)?;
    if found != tag || !rest.is_empty() {
        return Err(ILLEGAL);
    }
    Ok(content)
}

// Whether one element, of any tag, fills the input.
#[tactic(auto, unfolding(crate::specs::Reading::one_element))]
pub fn is_element(input: &[u8]) -> bool
    ensures { result ≡ one_element input.now }
{
    take(input).is_ok_and(|(_, _, rest)| rest.is_empty())
}

// The content of an element of this tag, if the input begins with the tag, and what follows.
pub fn optional(input: &[u8], tag: u8) -> Result<(Option<&[u8]>, &[u8]), Fault>
    ensures { plain_optional result ≡ optional_of tag input.now }
{
    if input.first() != Some(&tag) {
        return Ok((None, input));
    }
    let (_, content, rest) = take(input)?;
    Ok((Some(content), rest))
}

// Whether this is the content of an object identifier.
#[tactic(auto, unfolding(crate::specs::Elements::oid))]
pub fn is_oid(content: &[u8]) -> bool
    ensures answer { result ≡ oid content.now }
    ensures rule { Decides result (ObjectIdentifier content.now) }
{
    if content.is_empty() {
        return false;
    }
    let mut begins = true;
    for b in content {
        if begins && *b == 0x80 {
            return false;
        }
        begins = *b < 0x80;
    }
    begins // the last byte ended an arc
}

// Whether this is the content of a bit string.
#[tactic(auto, unfolding(crate::specs::Elements::bit_string))]
pub fn is_bit_string(content: &[u8]) -> bool
    ensures answer { result ≡ bit_string content.now }
    ensures rule { Decides result (BitString content.now) }
{
    match content {
        [] => false,
        [unused] => *unused == 0,
        [unused, ..] => *unused <= 7,
    }
}

// The length of an element with n bytes of content.
pub fn element_len(n: usize) -> Result<usize, Fault>
    ensures { result ≡ element_len n }
{
    if n < 0x80 {
        Ok(n + 2)
    } else if n < 0x100 {
        Ok(n + 3)
    } else if n < 0x10000 {
        Ok(n + 4)
    } else {
        Err(INVALID)
    }
}

// The law of reading and writing: a legal element is read back, nothing but its one writing is read, and all else is refused as illegal.
pub fn an_element_has_one_writing()
    ensures back { ReadBack }
    ensures only { OnlyWritten }
    ensures refused { RefusedIllegal }
    ensures one { OneWriting }
{}
