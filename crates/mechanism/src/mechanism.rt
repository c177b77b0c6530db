ghost use Rattle.std.specs.Prelude.{◌≡◌};
ghost use Rattle.mechanism.specs.Identities.{who, who_if};
ghost use Rattle.mechanism.specs.Laws.{LawfulSealing, LawfulStepping};
ghost use Rattle.mechanism.specs.Meaning.{Sealing, Stepping};
ghost use Rattle.mechanism.specs.Promises.{may_seal, Makes, Checks, Steps, Names, Allows};
ghost use Rattle.mechanism.specs.Sides.{other_side};

use crate::identity::Identity;
use sspi::{ErrorKind, Fault, Layer, SecurityStatus};

// Whether data may be sealed: it is not too long, and the session is up.
pub fn may_seal(data: &[u8], up: bool) -> Result<(), Fault>
    ensures { result ≡ may_seal up «data».now }
{
    if data.len() > 128 {
        return Err(Layer::Mechanism.fault(ErrorKind::InvalidParameter));
    }
    if !up {
        return Err(Layer::Mechanism.fault(ErrorKind::NoContext));
    }
    Ok(())
}

// Who takes a step.
#[derive(Clone, Copy, PartialEq, Eq, Debug)]
pub enum Side {
    Client,
    Server,
}

impl Side {
    // The side that this one speaks with.
    pub fn other(self) -> Side
        ensures { result ≡ other_side self }
    {
        match self {
            Side::Client => Side::Server,
            Side::Server => Side::Client,
        }
    }
}

// What makes MICs over data and checks them, once a session is up. Its memory is lent by the caller, for there is no heap.
pub trait Sealer {
    ghost sealing: { Sealing Self };

    // Writes the MIC over the data to the front of `mic`, and gives its length.
    fn make(&mut self, data: &[u8], mic: &mut [u8; 160]) -> Result<usize, Fault>
        ensures { Makes sealing self.old «data».now mic.old self.new mic.new result };

    // Accepts the MICs over the data that are taken, and refuses every other.
    fn check(&mut self, data: &[u8], mic: &[u8]) -> Result<(), Fault>
        ensures { Checks sealing self.old «data».now mic.now self.new result };

    // What is owed besides: MICs of at most 160 bytes, the MIC law, and what holds of notes.
    ghost lawful: { LawfulSealing sealing };
}

// A security mechanism: it takes steps with tokens until its session is up, and then seals.
pub trait Mechanism: Sealer {
    ghost stepping: { Stepping Self };

    // Begins anew, perhaps with the number of a KDC.
    fn fresh(&mut self, kdc: Option<u32>)
        ensures { self.new ≡ stepping.fresh_next self.old kdc };

    // Takes a step; a token to send goes to the front of `work`, and its length is given.
    fn step(
        &mut self,
        side: Side,
        flags: u32,
        identity: Option<&Identity>,
        input: &[u8],
        work: &mut [u8],
    ) -> Result<(SecurityStatus, usize), Fault>
        ensures { Steps stepping self.old side flags (who_if identity.entry) input.now work.old self.new work.new result };

    // Writes the peer's name to the front of `name`, and gives its length.
    fn name(&self, name: &mut [u8; 64]) -> Result<usize, Fault>
        ensures { Names stepping self.now name.old name.new result };

    // Allows an identity to log on, perhaps as the first of a new set.
    fn allow(&mut self, identity: &Identity, new_set: bool) -> Result<(), Fault>
        ensures { Allows stepping self.old (who identity.now) new_set self.new result };

    // What the steps owe besides.
    ghost lawful_steps: { LawfulStepping Self.Sealer.sealing stepping };
}
