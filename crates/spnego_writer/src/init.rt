ghost use Rattle.der.specs.Promises.{Writes};
ghost use Rattle.spnego.specs.Tokens.{init_bytes, InitWellFormed};
ghost use Rattle.spnego.specs.Views.{plain_init};
ghost use Rattle.spnego_writer.specs.Writing.{init_lens};

use crate::fields::{put_sequence, sequence_len};
use crate::lengths::Lengths;
use crate::token::{Token, write};
use der::{INVALID, Writer, element_len, is_oid};
use spnego::{Layout, NegTokenInit, TokenFields};
use sspi::Fault;

impl Token for NegTokenInit<'_> {
    ghost good = { λ t. InitWellFormed (plain_init t) };

    ghost bytes = { λ t. init_bytes (plain_init t) };

    ghost lens = { λ t. init_lens (plain_init t) };

    fn lengths(&self) -> Result<Lengths, Fault> {
        if !is_oid(self.this_mech) {
            return Err(INVALID);
        }
        let mech = element_len(self.this_mech.len())?;
        let (body, sequence) = sequence_len(TokenFields::from(self), Layout::INIT)?;
        let content = mech + element_len(sequence)?;
        let token = element_len(content)?;
        Ok(Lengths {
            body,
            sequence,
            content,
            token,
        })
    }

    fn put(&self, w: &mut Writer<'_>, n: Lengths) -> Result<(), Fault> {
        w.put_header(0x60, n.content)?;
        w.put_element(0x06, self.this_mech)?;
        w.put_header(0xa0, n.sequence)?;
        put_sequence(w, TokenFields::from(self), Layout::INIT, n.body)
    }
}

// Writes the token to the front of `out`, and gives its length.
pub fn write_init(token: &NegTokenInit<'_>, out: &mut [u8]) -> Result<usize, Fault>
    ensures { Writes (InitWellFormed (plain_init token.now)) (init_bytes (plain_init token.now)) out.old out.new result }
{
    write(token, out)
}
