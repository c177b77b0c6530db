#![tactic(auto)]

ghost use Rattle.std.specs.Prelude.{◌≡◌, ◌↔◌, Ok};
ghost use Rattle.climb.specs.Tops.{Agree, Climbed, exchanged};
ghost use Rattle.ladder.specs.Rungs.{legs_of};
ghost use Rattle.mechanism.specs.Identities.{who};

use ladder::Ladder;
use mechanism::{Identity, Mechanism, Side, carry};
use sspi::Fault;

// The longest leg: its number and the name of an account.
const LONGEST: usize = 65;

// Rounds that suffice for the longest ladder.
const ROUNDS: usize = 5;

// Two ladders that a client and a server climb against each other.
#[derive(Clone, Copy)]
pub struct Climbers {
    pub client: Ladder,
    pub server: Ladder,
}

// Lets a client climb a ladder against a server that allows one identity.
pub fn climb(legs: u8, client: &Identity, allowed: &Identity) -> Result<Climbers, Fault>
    ensures { Climbed (legs_of legs) (who client.now) (who allowed.now) result }
{
    let mut below = Ladder::new(legs);
    let mut above = Ladder::new(legs);
    above.allow(allowed, true)?;
    let mut called = [0; LONGEST];
    let mut answered = [0; LONGEST];
    let mut len = 0;
    for _round in 0..ROUNDS {
        let (_, sent) = below.step(Side::Client, 0, Some(client), &answered[..len], &mut called)?;
        let (_, back) = above.step(Side::Server, 0, None, &called[..sent], &mut answered)?;
        len = back;
    }
    Ok(Climbers {
        client: below,
        server: above,
    })
}

// Lets both climb, and then each take the other's MIC, which is made over `sent`, for `heard`.
pub fn exchange(
    legs: u8,
    client: &Identity,
    allowed: &Identity,
    sent: &[u8],
    heard: &[u8],
) -> Result<(), Fault>
    ensures answer { result ≡ exchanged (who client.now) (who allowed.now) sent.now heard.now }
    ensures agree { result ≡ Ok tt ↔ Agree (who client.now) (who allowed.now) sent.now heard.now }
{
    let mut top = climb(legs, client, allowed)?;
    carry(&mut top.client, &mut top.server, sent, heard)?;
    carry(&mut top.server, &mut top.client, sent, heard)
}
