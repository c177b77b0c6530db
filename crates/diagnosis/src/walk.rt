ghost use Rattle.std.specs.Prelude.{◌≡◌, IsErr};
ghost use Rattle.diagnosis.specs.Walk.{Shorter};

use spnego::{Kind, Layout};
use std::fmt;

// What is wrong at a place of a token; tags and bytes are named by their values.
#[derive(Clone, Copy)]
pub enum Reason {
    Empty,
    NoToken(u8),
    NoElement,
    NoTag(u8),
    LongTag(u8),
    OtherTag(u8, u8),
    NoLength,
    CutLength,
    LongForm,
    Indefinite,
    LongLength,
    CutContent(usize),
    Behind,
    Repeated(u8),
    OutOfOrder(u8),
    Unknown(u8),
    EmptyOid,
    CutArc,
    PaddedArc,
    NoUnused,
    Unused(u8),
    NoBits,
}

impl fmt::Display for Reason {
    fn fmt<W: fmt::Write>(&self, f: &mut fmt::Formatter<W>) -> fmt::Result {
        match *self {
            Reason::Empty => f.write_str("the token is empty"),
            Reason::NoToken(tag) => write!(f, "the token begins with {tag:02X}, neither 60 nor A1"),
            Reason::NoElement => f.write_str("an element is missing"),
            Reason::NoTag(wanted) => write!(f, "nothing where tag {wanted:02X} was expected"),
            Reason::LongTag(tag) => write!(f, "tag {tag:02X} begins a tag of several bytes"),
            Reason::OtherTag(tag, wanted) => write!(
                f,
                "tag {tag:02X} where {wanted:02X} was expected"
            ),
            Reason::NoLength => f.write_str("the length is missing"),
            Reason::CutLength => f.write_str("the length is cut off"),
            Reason::LongForm => f.write_str("the length is not in its shortest form"),
            Reason::Indefinite => f.write_str("the length is indefinite"),
            Reason::LongLength => f.write_str("the length takes more than two bytes"),
            Reason::CutContent(n) => write!(f, "the content is cut off, missing bytes: {n}"),
            Reason::Behind => f.write_str("bytes follow the end of the element"),
            Reason::Repeated(tag) => write!(f, "field {tag:02X} is repeated"),
            Reason::OutOfOrder(tag) => write!(f, "field {tag:02X} is out of order"),
            Reason::Unknown(tag) => write!(f, "field {tag:02X} is unknown"),
            Reason::EmptyOid => f.write_str("the object identifier is empty"),
            Reason::CutArc => f.write_str("the object identifier ends inside an arc"),
            Reason::PaddedArc => f.write_str("an arc of the object identifier begins with 80"),
            Reason::NoUnused => f.write_str("the bit string lacks its first byte"),
            Reason::Unused(n) => write!(f, "the bit string begins with {n:02X}, which is over 07"),
            Reason::NoBits => f.write_str("the bit string has unused bits but no bytes"),
        }
    }
}

// The first thing that is wrong with a token; where a byte is missing, the offset is its place.
#[derive(Clone, Copy)]
pub struct Trouble {
    pub offset: usize,
    pub reason: Reason,
}

impl fmt::Display for Trouble {
    fn fmt<W: fmt::Write>(&self, f: &mut fmt::Formatter<W>) -> fmt::Result {
        let offset = self.offset;
        let reason = self.reason;
        write!(f, "offset {offset}: {reason}")
    }
}

// A part of the token, and the offset at which it begins.
#[derive(Clone, Copy)]
struct Part<'a> {
    bytes: &'a [u8],
    offset: usize,
}

impl<'a> Part<'a> {
    // A trouble n bytes behind the beginning.
    fn fail<T>(self, n: usize, reason: Reason) -> Result<T, Trouble>
        ensures { IsErr result }
    {
        Err(Trouble {
            offset: self.offset.saturating_add(n),
            reason,
        })
    }

    // The bytes that begin n bytes behind the beginning.
    fn part(self, n: usize, bytes: &'a [u8]) -> Part<'a>
        ensures { result.bytes.now ≡ bytes.now }
    {
        Part {
            bytes,
            offset: self.offset.saturating_add(n),
        }
    }

    // The first byte, if it is a tag of one byte.
    fn tag(self) -> Result<Option<u8>, Trouble> {
        match self.bytes.first().copied() {
            Some(tag) if tag & 0x1f == 0x1f => self.fail(0, Reason::LongTag(tag)),
            first => Ok(first),
        }
    }

    // The length of the content, and what follows the length.
    fn length(self) -> Result<(usize, Part<'a>), Trouble>
        ensures { Shorter self.entry result }
    {
        match self.bytes {
            [] => self.fail(0, Reason::NoElement),
            [_] => self.fail(1, Reason::NoLength),
            [_, n @ 0..=0x7f, rest @ ..] => Ok((*n as usize, self.part(2, rest))),
            [_, 0x81, n @ 0x80..=0xff, rest @ ..] => Ok((*n as usize, self.part(3, rest))),
            [_, 0x82, high @ 1..=0xff, low, rest @ ..] => Ok((
                u16::from_be_bytes([*high, *low]) as usize,
                self.part(4, rest),
            )),
            [_, 0x81, _, ..] | [_, 0x82, 0, ..] => self.fail(1, Reason::LongForm),
            [_, 0x81 | 0x82, ..] => self.fail(self.bytes.len(), Reason::CutLength),
            [_, 0x80, ..] => self.fail(1, Reason::Indefinite),
            _ => self.fail(1, Reason::LongLength),
        }
    }

    // The content of the element at the front, and what follows it.
    fn take(self) -> Result<(Part<'a>, Part<'a>), Trouble>
        ensures { Shorter self.entry result }
    {
        self.tag()?;
        let (n, body) = self.length()?;
        let present = body.bytes.len();
        if present < n {
            return body.fail(present, Reason::CutContent(n - present));
        }
        let (content, rest) = body.bytes.split_at(n);
        Ok((body.part(0, content), body.part(n, rest)))
    }

    // Whether this tag begins the part.
    fn expect(self, wanted: u8) -> Result<(), Trouble> {
        match self.tag()? {
            None => self.fail(0, Reason::NoTag(wanted)),
            Some(tag) if tag != wanted => self.fail(0, Reason::OtherTag(tag, wanted)),
            Some(_) => Ok(()),
        }
    }

    // The content of the element at the front, which has this tag, and what follows it.
    fn take_tagged(self, wanted: u8) -> Result<(Part<'a>, Part<'a>), Trouble>
        ensures { Shorter self.entry result }
    {
        self.expect(wanted)?;
        self.take()
    }

    // Whether nothing is left.
    fn end(self) -> Result<(), Trouble> {
        if self.bytes.is_empty() {
            Ok(())
        } else {
            self.fail(0, Reason::Behind)
        }
    }

    // The content of the one element, with this tag, that fills the part.
    fn only(self, wanted: u8) -> Result<Part<'a>, Trouble> {
        let (content, rest) = self.take_tagged(wanted)?;
        rest.end()?;
        Ok(content)
    }

    // Whether this is the content of an object identifier.
    fn oid(self) -> Result<(), Trouble> {
        if self.bytes.is_empty() {
            return self.fail(0, Reason::EmptyOid);
        }
        let mut begins = true;
        for (i, b) in self.bytes.iter().enumerate() {
            if begins && *b == 0x80 {
                return self.fail(i, Reason::PaddedArc);
            }
            begins = *b < 0x80;
        }
        if begins {
            Ok(())
        } else {
            self.fail(self.bytes.len(), Reason::CutArc)
        }
    }

    // Whether this is the content of a bit string.
    fn bit_string(self) -> Result<(), Trouble> {
        match self.bytes {
            [] => self.fail(0, Reason::NoUnused),
            [unused @ 8..=0xff, ..] => self.fail(0, Reason::Unused(*unused)),
            [1..=7] => self.fail(0, Reason::NoBits),
            _ => Ok(()),
        }
    }

    // Whether this is a list of object identifiers.
    fn mech_types(self) -> Result<(), Trouble> {
        let mut list = self.only(0x30)?;
        while !list.bytes.is_empty() {
            let (oid, others) = list.take_tagged(0x06)?;
            oid.oid()?;
            list = others;
        }
        Ok(())
    }

    // Whether this is what a field of the kind holds.
    fn inner(self, kind: Kind) -> Result<(), Trouble> {
        let part = match kind.wrapper() {
            None => self,
            Some(tag) => self.only(tag)?,
        };
        match kind {
            Kind::Element => part.take()?.1.end(),
            Kind::MechTypes => part.mech_types(),
            Kind::Oid => part.oid(),
            Kind::BitString => part.bit_string(),
            Kind::OctetString => Ok(()),
        }
    }

    // Whether this is a sequence of the four fields.
    fn sequence(self, layout: Layout) -> Result<(), Trouble> {
        let mut rest = self.only(0x30)?;
        let mut fields = layout.fields().map(|field| (field, false));
        for (field, seen) in &mut fields {
            if rest.tag()? == Some(field.tag) {
                let (content, others) = rest.take()?;
                content.inner(field.kind)?;
                *seen = true;
                rest = others;
            }
        }
        let Some(tag) = rest.tag()? else {
            return Ok(());
        };
        let reason = match fields.iter().find(|(field, _)| field.tag == tag) {
            None => Reason::Unknown(tag),
            Some((_, true)) => Reason::Repeated(tag),
            Some((_, false)) => Reason::OutOfOrder(tag),
        };
        rest.fail(0, reason)
    }
}

// Finds the first thing that is wrong with a token, by a walk over its bytes that is not the reader's.
pub fn explain(token: &[u8]) -> Result<(), Trouble> {
    let part = Part {
        bytes: token,
        offset: 0,
    };
    match part.tag()? {
        None => part.fail(0, Reason::Empty),
        Some(0x60) => {
            let (mech, rest) = part.only(0x60)?.take_tagged(0x06)?;
            mech.oid()?;
            rest.only(0xa0)?.sequence(Layout::INIT)
        }
        Some(0xa1) => part.only(0xa1)?.sequence(Layout::TARG),
        Some(tag) => part.fail(0, Reason::NoToken(tag)),
    }
}
