ghost use Rattle.std.specs.Prelude.{◌≡◌};
ghost use Rattle.der.specs.Reading.{plain_part, plain_optional};
ghost use Rattle.spnego.specs.Reading.{legal_test, part_of, inner_of, field_of};
ghost use Rattle.spnego.specs.Tokens.{wrapper};

use der::{ILLEGAL, is_bit_string, is_element, is_oid, only, optional};
use mech_types::MechTypeList;
use sspi::Fault;

// What a field of a token holds.
#[derive(Clone, Copy)]
pub enum Kind {
    Element,
    MechTypes,
    Oid,
    BitString,
    OctetString,
}

impl Kind {
    // The tag of the element around a part of this kind, if the part is not an element itself.
    pub fn wrapper(self) -> Option<u8>
        ensures { result ≡ wrapper self }
    {
        match self {
            Kind::Element | Kind::MechTypes => None,
            Kind::Oid => Some(0x06),
            Kind::BitString => Some(0x03),
            Kind::OctetString => Some(0x04),
        }
    }

    // Takes that element off.
    fn part(self, content: &[u8]) -> Result<&[u8], Fault>
        ensures { plain_part result ≡ part_of self content.now }
    {
        match self.wrapper() {
            None => Ok(content),
            Some(tag) => only(content, tag),
        }
    }

    // Whether a field of this kind may hold the part.
    pub fn is_legal(self, part: &[u8]) -> bool
        ensures { result ≡ legal_test self part.now }
    {
        match self {
            Kind::Element => is_element(part),
            Kind::MechTypes => MechTypeList::read(part).is_ok(),
            Kind::Oid => is_oid(part),
            Kind::BitString => is_bit_string(part),
            Kind::OctetString => true,
        }
    }

    // The part that stands inside a field.
    fn inner(self, content: &[u8]) -> Result<&[u8], Fault>
        ensures { plain_part result ≡ inner_of self content.now }
    {
        let part = self.part(content)?;
        if !self.is_legal(part) {
            return Err(ILLEGAL);
        }
        Ok(part)
    }
}

// A field of a token, which may be absent: its tag, and what it holds.
#[derive(Clone, Copy)]
pub struct Field {
    pub tag: u8,
    pub kind: Kind,
}

impl Field {
    // The part that the field holds, if the input begins with its tag, and what follows.
    pub(crate) fn read(self, input: &[u8]) -> Result<(Option<&[u8]>, &[u8]), Fault>
        ensures { plain_optional result ≡ field_of self.tag self.kind input.now }
    {
        let (content, rest) = optional(input, self.tag)?;
        match content {
            None => Ok((None, rest)),
            Some(content) => Ok((Some(self.kind.inner(content)?), rest)),
        }
    }
}
