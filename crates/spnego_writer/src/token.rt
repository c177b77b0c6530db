ghost use Rattle.std.specs.Prelude.{◌≡◌, ℕ, List, length, Ok, Result, MatchResult};
ghost use Rattle.der.specs.Promises.{Writes};
ghost use Rattle.der.specs.Writing.{Adds, invalid};
ghost use Rattle.spnego_writer.specs.Views.{plain_lens, lens_read};
ghost use Rattle.spnego_writer.specs.Writing.{Lens};
ghost use Rattle.sspi.specs.declared.fault.Fault.{Fault};

use crate::lengths::Lengths;
use der::{TOO_SMALL, Writer};
use sspi::Fault;

// A token that can be written.
pub(crate) trait Token {
    // which tokens are well-formed, the bytes of each, and the lengths that are computed
    ghost good: { Self → Type 0 };

    ghost bytes: { Self → List ℕ };

    ghost lens: { Self → Result Lens Fault };

    // The lengths of the token and of what it holds, if it is well-formed.
    fn lengths(&self) -> Result<Lengths, Fault>
        ensures computed { lens_read result ≡ lens self.now }
        ensures sized { MatchResult result
            (λ n. good self.now × (n.token ≡ length (bytes self.now)))
            (λ e. (good self.now → ⊥) × (e ≡ invalid)) };

    // Writes the token, whose lengths these are.
    fn put(&self, w: &mut Writer<'_>, n: Lengths) -> Result<(), Fault>
        requires { lens self.now ≡ Ok (plain_lens n) }
        ensures { Adds (bytes self.now) w.old w.new result };
}

// Writes the token to the front of `out`, and gives its length.
pub(crate) fn write<T: Token>(token: &T, out: &mut [u8]) -> Result<usize, Fault>
    ensures { Writes (T.good token.now) (T.bytes token.now) out.old out.new result }
{
    let n = token.lengths()?;
    if out.len() < n.token {
        return Err(TOO_SMALL);
    }
    let mut w = Writer::new(out);
    token.put(&mut w, n)?;
    Ok(w.len())
}
