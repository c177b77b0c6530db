ghost use Rattle.std.specs.Prelude.{◌≡◌, [], ◌∷◌};
ghost use Rattle.spnego.specs.Reading.{fields_of, sequence_of};
ghost use Rattle.spnego.specs.Views.{fields_read};

use crate::part::{Field, Kind};
use der::{ILLEGAL, only};
use sspi::Fault;

// What the first two of the four fields that end a token hold; the others are octet strings.
#[derive(Clone, Copy)]
pub struct Layout {
    pub first: Kind,
    pub second: Kind,
}

impl Layout {
    pub const INIT: Layout = Layout {
        first: Kind::MechTypes,
        second: Kind::BitString,
    };

    pub const TARG: Layout = Layout {
        first: Kind::Element,
        second: Kind::Oid,
    };

    // The four fields, in their order.
    pub fn fields(self) -> [Field; 4]
        ensures { result
            ≡ record { tag = 0xa0; kind = self.first }
            ∷ record { tag = 0xa1; kind = self.second }
            ∷ record { tag = 0xa2; kind = Kind.OctetString }
            ∷ record { tag = 0xa3; kind = Kind.OctetString }
            ∷ [] }
    {
        [
            Field {
                tag: 0xa0,
                kind: self.first,
            },
            Field {
                tag: 0xa1,
                kind: self.second,
            },
            Field {
                tag: 0xa2,
                kind: Kind::OctetString,
            },
            Field {
                tag: 0xa3,
                kind: Kind::OctetString,
            },
        ]
    }
}

// The parts that the four fields hold.
#[derive(Clone, Copy)]
pub struct TokenFields<'a> {
    pub first: Option<&'a [u8]>,
    pub second: Option<&'a [u8]>,
    pub third: Option<&'a [u8]>,
    pub fourth: Option<&'a [u8]>,
}

// Reads the four fields, in their order, which fill the input.
fn fields(input: &[u8], layout: Layout) -> Result<TokenFields<'_>, Fault>
    ensures { fields_read result ≡ fields_of layout.first layout.second input.now }
{
    let [a, b, c, d] = layout.fields();
    let (first, rest) = a.read(input)?;
    let (second, rest) = b.read(rest)?;
    let (third, rest) = c.read(rest)?;
    let (fourth, rest) = d.read(rest)?;
    if !rest.is_empty() {
        return Err(ILLEGAL);
    }
    Ok(TokenFields {
        first,
        second,
        third,
        fourth,
    })
}

// Reads the sequence of the four fields, which fills the input.
pub(crate) fn sequence(input: &[u8], layout: Layout) -> Result<TokenFields<'_>, Fault>
    ensures { fields_read result ≡ sequence_of layout.first layout.second input.now }
{
    fields(only(input, 0x30)?, layout)
}
