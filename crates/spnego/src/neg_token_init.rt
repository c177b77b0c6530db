ghost use Rattle.std.specs.Prelude.{◌≡◌, IfOk};
ghost use Rattle.der.specs.Promises.{Exact};
ghost use Rattle.spnego.specs.Places.{Within, Parts};
ghost use Rattle.spnego.specs.Reading.{read_init};
ghost use Rattle.spnego.specs.Tokens.{init_fields, init_bytes, InitWellFormed};
ghost use Rattle.spnego.specs.Views.{plain_fields, plain_init, init_read};

use crate::fields::{Layout, TokenFields, sequence};
use der::only;
use mech_types::next_oid;
use sspi::Fault;

// The initiator's first token: each field but the first is absent or a part of the input.
#[derive(Clone, Copy)]
pub struct NegTokenInit<'a> {
    pub this_mech: &'a [u8],
    pub mech_types: Option<&'a [u8]>,
    pub req_flags: Option<&'a [u8]>,
    pub mech_token: Option<&'a [u8]>,
    pub mech_list_mic: Option<&'a [u8]>,
}

impl<'a> NegTokenInit<'a> {
    // Reads a token that fills the input.
    #[tactic(auto, unfolding(crate::specs::Reading::read_init))]
    pub fn read(input: &'a [u8]) -> Result<NegTokenInit<'a>, Fault>
        ensures answer { init_read result ≡ read_init input.now }
        ensures exact { Exact InitWellFormed init_bytes input.now (init_read result) }
        ensures parts { IfOk (init_read result) (λ t. Within t.this_mech input.now × Parts input.now (init_fields t)) }
    {
        let (this_mech, rest) = next_oid(only(input, 0x60)?)?;
        let fields = sequence(only(rest, 0xa0)?, Layout::INIT)?;
        Ok(NegTokenInit {
            this_mech,
            mech_types: fields.first,
            req_flags: fields.second,
            mech_token: fields.third,
            mech_list_mic: fields.fourth,
        })
    }
}

// The four fields that end the token.
impl<'a> From<&NegTokenInit<'a>> for TokenFields<'a> {
    ghost from_gives = { λ t f. plain_fields f ≡ init_fields (plain_init t.now) };

    fn from(token: &NegTokenInit<'a>) -> TokenFields<'a> {
        TokenFields {
            first: token.mech_types,
            second: token.req_flags,
            third: token.mech_token,
            fourth: token.mech_list_mic,
        }
    }
}
