ghost use Rattle.der.specs.Promises.{Writes};
ghost use Rattle.spnego.specs.Tokens.{targ_bytes, TargWellFormed};
ghost use Rattle.spnego.specs.Views.{plain_targ};
ghost use Rattle.spnego_writer.specs.Writing.{targ_lens};

use crate::fields::{put_sequence, sequence_len};
use crate::lengths::Lengths;
use crate::token::{Token, write};
use der::{Writer, element_len};
use spnego::{Layout, NegTokenTarg, TokenFields};
use sspi::Fault;

impl Token for NegTokenTarg<'_> {
    ghost good = { λ t. TargWellFormed (plain_targ t) };

    ghost bytes = { λ t. targ_bytes (plain_targ t) };

    ghost lens = { λ t. targ_lens (plain_targ t) };

    fn lengths(&self) -> Result<Lengths, Fault> {
        let (body, sequence) = sequence_len(TokenFields::from(self), Layout::TARG)?;
        let token = element_len(sequence)?;
        Ok(Lengths {
            body,
            sequence,
            content: sequence,
            token,
        })
    }

    fn put(&self, w: &mut Writer<'_>, n: Lengths) -> Result<(), Fault> {
        w.put_header(0xa1, n.content)?;
        put_sequence(w, TokenFields::from(self), Layout::TARG, n.body)
    }
}

// Writes the token to the front of `out`, and gives its length.
pub fn write_targ(token: &NegTokenTarg<'_>, out: &mut [u8]) -> Result<usize, Fault>
    ensures { Writes (TargWellFormed (plain_targ token.now)) (targ_bytes (plain_targ token.now)) out.old out.new result }
{
    write(token, out)
}
