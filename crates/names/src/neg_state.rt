ghost use Rattle.std.specs.Prelude.{◌≡◌, Some, Ok};
ghost use Rattle.names.specs.Names.{state_bytes, state_of, state_word, named};

use crate::named::{Named, Unnamed, with_spelling};
use std::fmt;

const COMPLETE: [u8; 3] = [0x0a, 1, 0];

const INCOMPLETE: [u8; 3] = [0x0a, 1, 1];

const REJECT: [u8; 3] = [0x0a, 1, 2];

const REQUEST_MIC: [u8; 3] = [0x0a, 1, 3];

// How far a negotiation is, as a token says it.
#[derive(Clone, Copy, PartialEq, Eq, Debug)]
pub enum NegState {
    Complete,
    Incomplete,
    Reject,
    RequestMic,
}

const STATES: [NegState; 4] = [
    NegState::Complete,
    NegState::Incomplete,
    NegState::Reject,
    NegState::RequestMic,
];

impl Named for NegState {
    ghost spelling = { state_bytes };

    fn spelled(self) -> &'static [u8] {
        match self {
            NegState::Complete => &COMPLETE,
            NegState::Incomplete => &INCOMPLETE,
            NegState::Reject => &REJECT,
            NegState::RequestMic => &REQUEST_MIC,
        }
    }
}

impl NegState {
    // The element that says it, lent without a writer.
    pub fn bytes(self) -> &'static [u8]
        ensures { result.now ≡ state_bytes self }
    {
        self.spelled()
    }
}

impl fmt::Display for NegState {
    ghost output = { λ state. Some (state_word state) };

    fn fmt<W: fmt::Write>(&self, f: &mut fmt::Formatter<W>) -> fmt::Result {
        f.write_str(match self {
            NegState::Complete => "complete",
            NegState::Incomplete => "incomplete",
            NegState::Reject => "reject",
            NegState::RequestMic => "request-mic",
        })
    }
}

// The state that this element says.
impl TryFrom<&[u8]> for NegState {
    type Error = Unnamed;

    ghost try_from_gives = { λ bytes state. state ≡ named (state_of bytes.now) };

    #[tactic(auto, unfolding(crate::specs::Names::state_of))]
    fn try_from(bytes: &[u8]) -> Result<NegState, Unnamed>
        ensures answer { result ≡ named (state_of bytes.now) }
        ensures back { (s : NegState) → result ≡ Ok s → bytes.now ≡ state_bytes s }
        ensures found { (s : NegState) → bytes.now ≡ state_bytes s → result ≡ Ok s }
    {
        with_spelling(&STATES, bytes).ok_or(Unnamed)
    }
}
