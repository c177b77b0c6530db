#![tactic(auto)]

ghost use Rattle.std.specs.Prelude.{◌≤◌, length};
ghost use Rattle.generators.specs.Sending.{Offers, first_token, first_reply, final_token, next_token, size_of, InitSent, TargSent};
ghost use Rattle.spnego.specs.Reading.{seen};
ghost use Rattle.spnego.specs.declared.part.Kind.TheVariants.{MechTypes};
ghost use Rattle.spnego.specs.Tokens.{Legal};

use mech_types::MechTypeList;
use names::{Mech, NegState};
use spnego::{NegTokenInit, NegTokenTarg};
use spnego_writer::{write_init, write_targ};
use sspi::{ErrorKind, Fault, Layer};

// There is no mechanism to offer.
const NOTHING_TO_OFFER: Fault = Fault {
    kind: ErrorKind::InvalidParameter,
    layer: Layer::Negotiation,
};

// Writes the list of the mechanisms that an initiator offers to the front of `out`, and gives its length.
pub fn generate_mech_type_list(kerberos: bool, ntlm: bool, out: &mut [u8]) -> Result<usize, Fault>
    ensures { Offers kerberos ntlm out.old out.new result }
{
    match (kerberos, ntlm) {
        (true, true) => MechTypeList::write(
            &[Mech::MsKrb5.oid(), Mech::Krb5.oid(), Mech::Ntlm.oid()],
            out,
        ),
        (true, false) => MechTypeList::write(&[Mech::MsKrb5.oid(), Mech::Krb5.oid()], out),
        (false, true) => MechTypeList::write(&[Mech::Ntlm.oid()], out),
        (false, false) => Err(NOTHING_TO_OFFER),
    }
}

// Writes the initiator's first token: the list of mechanisms, and a token of the first of them.
#[tactic(auto, using(crate::proofs::Sizes::init_sent))]
pub fn generate_neg_token_init<'a>(
    mech_list: &'a [u8],
    mech_token: Option<&'a [u8]>,
    out: &mut [u8],
) -> Result<usize, Fault>
    ensures { InitSent 66 (Legal MechTypes mech_list.now × (length mech_list.now ≤ 36)) (first_token mech_list.now (seen mech_token.entry)) out.old out.new result }
{
    write_init(
        &NegTokenInit {
            this_mech: Mech::Spnego.oid(),
            mech_types: Some(mech_list),
            req_flags: None,
            mech_token,
            mech_list_mic: None,
        },
        out,
    )
}

// Writes the acceptor's first reply, which names the mechanism chosen.
#[tactic(auto, using(crate::proofs::Sizes::reply_sent))]
pub fn generate_neg_token_targ(
    neg_result: NegState,
    mech_type: Mech,
    response_token: Option<&[u8]>,
    out: &mut [u8],
) -> Result<usize, Fault>
    ensures { TargSent 35 (Unit {0}) (first_reply neg_result mech_type (seen response_token.entry)) out.old out.new result }
{
    write_targ(
        &NegTokenTarg {
            neg_state: Some(neg_result.bytes()),
            supported_mech: Some(mech_type.oid()),
            response_token,
            mech_list_mic: None,
        },
        out,
    )
}

// Writes a token on the way to an agreement.
#[tactic(auto, using(crate::proofs::Sizes::next_sent))]
pub fn generate_neg_token_targ_1(
    response_token: Option<&[u8]>,
    out: &mut [u8],
) -> Result<usize, Fault>
    ensures { TargSent 21 (Unit {0}) (next_token (seen response_token.entry)) out.old out.new result }
{
    generate_final_neg_token_targ(NegState::Incomplete, response_token, None, out)
}

// Writes a party's last token, perhaps with a MIC over the list of mechanisms.
#[tactic(auto, using(crate::proofs::Sizes::final_sent))]
pub fn generate_final_neg_token_targ<'a>(
    neg_result: NegState,
    response_token: Option<&'a [u8]>,
    mech_list_mic: Option<&'a [u8]>,
    out: &mut [u8],
) -> Result<usize, Fault>
    ensures { TargSent 187 (size_of (seen mech_list_mic.entry) ≤ 160) (final_token neg_result (seen response_token.entry) (seen mech_list_mic.entry)) out.old out.new result }
{
    write_targ(
        &NegTokenTarg {
            neg_state: Some(neg_result.bytes()),
            supported_mech: None,
            response_token,
            mech_list_mic,
        },
        out,
    )
}
