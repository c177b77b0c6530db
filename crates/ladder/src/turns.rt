ghost use Rattle.std.specs.Prelude.{◌≡◌};
ghost use Rattle.ladder.specs.Givens.{given};
ghost use Rattle.ladder.specs.Steps.{longest_heard, behind, name_heard};
ghost use Rattle.mechanism.specs.Identities.{who_if};

use mechanism::{Identity, Side};
use std::marker::Model;

// What one step is given: who takes it, account and secret of the identity, and the input.
#[derive(Drop)]
pub(crate) struct Turn<'a> {
    pub(crate) side: Side,
    pub(crate) account: &'a [u8],
    pub(crate) secret: &'a [u8],
    pub(crate) input: &'a [u8],
}

impl<'a> Model for Turn<'a> {
    ghost use Rattle.ladder.specs.Givens.{Given};

    ghost Value = { Given };

    ghost view = { λ a. record { by = a.side; account = a.account.now; secret = a.secret.now; input = a.input.now } };
}

impl<'a> Turn<'a> {
    pub(crate) fn new(side: Side, identity: Option<&'a Identity>, input: &'a [u8]) -> Turn<'a>
        ensures { result ≡ given side (who_if identity.entry) input.now }
    {
        Turn {
            side,
            account: identity.map_or(&[], |who| who.account.as_slice()),
            secret: identity.map_or(&[], |who| who.secret.as_slice()),
            input,
        }
    }

    // What the side's leg holds behind its number.
    pub(crate) fn behind(&self) -> &'a [u8]
        ensures { result.now ≡ behind self.now.by self.now.account }
    {
        match self.side {
            Side::Client => self.account,
            Side::Server => &[],
        }
    }

    // The name in the client's leg, which the client makes and the server has heard.
    pub(crate) fn name(&self) -> &'a [u8]
        ensures { result.now ≡ name_heard self.now.by self.now.account self.now.input }
    {
        match (self.side, self.input) {
            (Side::Client, _) => self.account,
            (Side::Server, [_, name @ ..]) => name,
            (Side::Server, []) => &[],
        }
    }

    // The longest leg that the side hears.
    pub(crate) fn longest_heard(&self) -> usize
        ensures { result ≡ longest_heard self.now.by }
    {
        match self.side {
            Side::Client => 1,
            Side::Server => 65,
        }
    }
}
