ghost use Rattle.std.specs.Prelude.{◌≡◌, IfOk};
ghost use Rattle.der.specs.Promises.{Exact};
ghost use Rattle.spnego.specs.Places.{Parts};
ghost use Rattle.spnego.specs.Reading.{read_targ};
ghost use Rattle.spnego.specs.Tokens.{targ_fields, targ_bytes, TargWellFormed};
ghost use Rattle.spnego.specs.Views.{plain_fields, plain_targ, targ_read};

use crate::fields::{Layout, TokenFields, sequence};
use der::only;
use sspi::Fault;

// A token of either side after the first: each field is absent or a part of the input.
#[derive(Clone, Copy)]
pub struct NegTokenTarg<'a> {
    pub neg_state: Option<&'a [u8]>,
    pub supported_mech: Option<&'a [u8]>,
    pub response_token: Option<&'a [u8]>,
    pub mech_list_mic: Option<&'a [u8]>,
}

impl<'a> NegTokenTarg<'a> {
    // Reads a token that fills the input.
    #[tactic(auto, unfolding(crate::specs::Reading::read_targ))]
    pub fn read(input: &'a [u8]) -> Result<NegTokenTarg<'a>, Fault>
        ensures answer { targ_read result ≡ read_targ input.now }
        ensures exact { Exact TargWellFormed targ_bytes input.now (targ_read result) }
        ensures parts { IfOk (targ_read result) (λ t. Parts input.now (targ_fields t)) }
    {
        let fields = sequence(only(input, 0xa1)?, Layout::TARG)?;
        Ok(NegTokenTarg {
            neg_state: fields.first,
            supported_mech: fields.second,
            response_token: fields.third,
            mech_list_mic: fields.fourth,
        })
    }
}

// The four fields of the token, which has other names for them than `NegTokenInit`.
impl<'a> From<&NegTokenTarg<'a>> for TokenFields<'a> {
    ghost from_gives = { λ t f. plain_fields f ≡ targ_fields (plain_targ t.now) };

    fn from(token: &NegTokenTarg<'a>) -> TokenFields<'a> {
        TokenFields {
            first: token.neg_state,
            second: token.supported_mech,
            third: token.response_token,
            fourth: token.mech_list_mic,
        }
    }
}
