#![tactic(auto)]

ghost use Rattle.std.specs.Prelude.{◌≡◌};
ghost use Rattle.ladder.specs.Rungs.{legs_of, started};

use mechanism::{Part, Side};

mod bytes;
mod seals;
mod steps;
mod turns;

// A mechanism that climbs a ladder of legs, which client and server make in turn; at its top the session is up.
#[derive(Clone, Copy)]
pub struct Ladder {
    legs: u8,
    // The last leg seen or made.
    height: u8,
    // Who took the last accepted step.
    side: Side,
    client_key: [u8; 8],
    // The key of the first allowed identity.
    allowed_key: Option<[u8; 8]>,
    // The name in the last client's leg.
    account: Option<Part>,
}

impl Ladder {
    // A ladder of 1 to 8 legs; any other number means 8.
    pub fn new(legs: u8) -> Ladder
        ensures { result ≡ started (legs_of legs) }
    {
        match legs {
            1..=8 => Ladder::start(legs),
            _ => Ladder::start(8),
        }
    }

    fn start(legs: u8) -> Ladder
        ensures { result ≡ started legs }
    {
        Ladder {
            legs,
            height: 0,
            side: Side::Client,
            client_key: [0; 8],
            allowed_key: None,
            account: None,
        }
    }
}
