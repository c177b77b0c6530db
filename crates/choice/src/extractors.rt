ghost use Rattle.std.specs.Prelude.{◌≡◌, ℕ, List, Ok};
ghost use Rattle.choice.specs.Choosing.{place_of, standing, chosen_of, choice, runs_after};
ghost use Rattle.choice.specs.Rules.{eligible};
ghost use Rattle.choice.specs.Promises.{Choice};
ghost use Rattle.mech_types.specs.Reading.{read_mech_type_list};
ghost use Rattle.mech_types.specs.Listed.{items};

use mech_types::MechTypeList;
use names::Mech;
use packages::{PackageListConfig, Protocol};
use sspi::{ErrorKind, Fault, Layer};

// No mechanism can be agreed on.
pub(crate) const NO_MECHANISM: Fault = Fault {
    kind: ErrorKind::InvalidToken,
    layer: Layer::Negotiation,
};

// The acceptor's order of preference.
const PREFERRED: [Mech; 3] = [Mech::MsKrb5, Mech::Krb5, Mech::Ntlm];

// What an acceptor chooses by.
#[derive(Clone, Copy)]
struct Acceptor {
    enabled: PackageListConfig,
    running: Protocol,
}

impl Acceptor {
    // Whether it may choose the mechanism: Kerberos only if it runs already.
    fn is_eligible(self, mech: Mech) -> bool
        ensures { result ≡ eligible self.enabled self.running mech }
    {
        match mech {
            Mech::MsKrb5 | Mech::Krb5 => {
                self.enabled.kerberos && self.running == Protocol::Kerberos
            }
            Mech::Ntlm => self.enabled.ntlm,
            Mech::Spnego => false,
        }
    }

    // Where a mechanism that it may choose is listed first.
    fn find(self, mech: Mech, list: MechTypeList<'_>) -> Option<usize>
        ensures { result ≡ standing (items list.entry) self.enabled self.running mech }
    {
        if !self.is_eligible(mech) {
            return None;
        }
        position(list, mech.oid())
    }

    // The first of these mechanisms that it may choose and that is listed: its number and its first place.
    fn choose(self, mechs: &[Mech], list: MechTypeList<'_>) -> Result<(u32, usize), Fault>
        ensures { result ≡ chosen_of mechs.now (items list.entry) self.enabled self.running }
    {
        // A loop: `find_map` speaks of places only, and the contract did not follow.
        for mech in mechs {
            if let Some(i) = self.find(*mech, list) {
                return Ok((u32::from(*mech), i));
            }
        }
        Err(NO_MECHANISM)
    }
}

// The first place of an object identifier in the list.
fn position(list: MechTypeList<'_>, oid: &[u8]) -> Option<usize>
    ensures { result ≡ place_of oid.now (items list.entry) }
{
    // A loop: with `list.position(..)` the contract did not follow.
    for (i, listed) in list.enumerate() {
        if listed == oid {
            return Some(i);
        }
    }
    None
}

// The acceptor's choice from a list of mechanisms as it was received: the number of the mechanism, and its first place.
// The answer is a pair of plain numbers, which is a rule of this project.
pub fn negotiate_mech_type(
    mech_types: &[u8],
    enabled: PackageListConfig,
    running: Protocol,
) -> Result<(u32, usize), Fault>
    ensures answer { result ≡ choice mech_types.now enabled running }
    ensures means { (os : List (List ℕ)) → read_mech_type_list mech_types.now ≡ Ok os → Choice os enabled running result }
{
    let list = MechTypeList::read(mech_types)?;
    Acceptor { enabled, running }.choose(&PREFERRED, list)
}

// Which protocol runs after the choice of the mechanism with this number, which is plain as in that choice.
pub fn runs_after(mech: u32, running: Protocol) -> Protocol
    ensures { result ≡ runs_after mech running }
{
    if mech == u32::from(Mech::Ntlm) {
        Protocol::Ntlm
    } else {
        running
    }
}
