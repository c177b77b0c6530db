ghost use Rattle.std.specs.Prelude.{◌≡◌, ◌≤◌, length};
ghost use Rattle.ladder.specs.Lawful.{ladder_lawful_steps};
ghost use Rattle.ladder.specs.Rungs.{accepted, called};
ghost use Rattle.ladder.specs.Steps.{rests, begins, is_leg, name_heard, topped, status_at, climbed, onward, Did, ladder_stepping};

use crate::Ladder;
use crate::bytes::put_headed;
use crate::turns::Turn;
use mechanism::{Identity, Mechanism, Part, Side, padded};
use sspi::{ErrorKind, Fault, Layer, SecurityStatus};

impl Ladder {
    // Whether the ladder is climbed and no leg comes.
    fn rests(&self, input: &[u8]) -> bool
        ensures { result ≡ rests self.now input.now }
    {
        self.is_up() && input.is_empty()
    }

    // Whether this is a client who has not begun.
    fn begins(&self, side: Side) -> bool
        ensures { result ≡ begins self.now side }
    {
        side == Side::Client && self.height == 0
    }

    // Whether the input is the next leg of the other side.
    fn is_leg(&self, turn: &Turn) -> bool
        ensures { result ≡ is_leg self.now turn.now }
    {
        self.height < self.legs
            && turn.input.len() <= turn.longest_heard()
            && turn.input.first() == Some(&(self.height + 1))
    }

    // What a step answers that leaves the ladder as it stands.
    fn status(&self) -> SecurityStatus
        ensures { result ≡ status_at self.now.height self.now.legs }
    {
        if self.is_up() {
            SecurityStatus::Ok
        } else {
            SecurityStatus::ContinueNeeded
        }
    }

    // Notes an accepted step, after which the last leg is `leg`.
    fn accept(&mut self, turn: &Turn, leg: u8)
        ensures { self.new ≡ accepted self.old turn.now leg }
    {
        if turn.side == Side::Client {
            self.client_key = padded(turn.secret);
        }
        self.side = turn.side;
        self.height = leg;
    }

    // Keeps the name in a client's leg.
    fn call(&mut self, turn: &Turn)
        ensures { self.new ≡ called self.old (name_heard turn.now.by turn.now.account turn.now.input) }
    {
        self.account = Some(Part::cut(turn.name()));
    }

    // Reaches the top by a leg that was heard.
    fn top(&mut self, turn: &Turn)
        ensures { self.new ≡ topped self.old turn.now }
    {
        self.accept(turn, self.legs);
        if turn.side == Side::Server {
            self.call(turn);
        }
    }

    // Makes the leg, if it fits.
    fn climb(
        &mut self,
        turn: &Turn,
        work: &mut [u8],
        leg: u8,
    ) -> Result<(SecurityStatus, usize), Fault>
        ensures { Did (climbed self.old turn.now (length work.old) leg) self.new work.old work.new result }
    {
        let tail = turn.behind();
        if work.len() <= tail.len() {
            return Err(Layer::Mechanism.fault(ErrorKind::BufferTooSmall));
        }
        let len = put_headed(work, leg, tail);
        self.accept(turn, leg);
        self.call(turn);
        Ok((self.status(), len))
    }

    // Goes on from the last leg that was seen.
    fn onward(
        &mut self,
        turn: &Turn,
        work: &mut [u8],
        seen: u8,
    ) -> Result<(SecurityStatus, usize), Fault>
        requires { seen ≤ self.old.legs }
        ensures { Did (onward self.old turn.now (length work.old) seen) self.new work.old work.new result }
    {
        if seen == self.legs {
            self.top(turn);
            return Ok((SecurityStatus::Ok, 0));
        }
        self.climb(turn, work, seen + 1)
    }
}

impl Mechanism for Ladder {
    ghost stepping = { ladder_stepping };

    ghost lawful_steps = { ladder_lawful_steps };

    fn fresh(&mut self, kdc: Option<u32>) {
        *self = Ladder::start(self.legs);
    }

    fn step(
        &mut self,
        side: Side,
        flags: u32,
        identity: Option<&Identity>,
        input: &[u8],
        work: &mut [u8],
    ) -> Result<(SecurityStatus, usize), Fault> {
        let turn = Turn::new(side, identity, input);
        if self.rests(input) {
            self.accept(&turn, self.height);
            return Ok((SecurityStatus::Ok, 0));
        }
        if self.begins(side) {
            return self.onward(&turn, work, 0);
        }
        if !self.is_leg(&turn) {
            return Err(Layer::Mechanism.fault(ErrorKind::IllegalMessage));
        }
        self.onward(&turn, work, self.height + 1)
    }

    fn name(&self, name: &mut [u8; 64]) -> Result<usize, Fault> {
        // By reference: the name is copied once, into the caller's buffer.
        let Some(account) = &self.account else {
            return Err(Layer::Mechanism.fault(ErrorKind::NoContext));
        };
        let held = account.as_slice();
        name[..held.len()].copy_from_slice(held);
        Ok(held.len())
    }

    fn allow(&mut self, identity: &Identity, new_set: bool) -> Result<(), Fault> {
        if new_set || self.allowed_key.is_none() {
            self.allowed_key = Some(padded(identity.secret.as_slice()));
        }
        Ok(())
    }
}
