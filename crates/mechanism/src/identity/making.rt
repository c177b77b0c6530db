ghost use Rattle.std.specs.Prelude.{◌≡◌, ◌≤◌, length, take};
ghost use Rattle.mechanism.specs.Identities.{held, cut, short, part_read, part_of, identity_read, identity_of};

use crate::bytes::padded;
use crate::identity::{Identity, Part};
use sspi::{ErrorKind, Fault, Layer};

// Whether the bytes are few enough for a part.
fn is_short(bytes: &[u8]) -> bool
    ensures { result ≡ short bytes.now }
{
    bytes.len() <= 64
}

impl Part {
    // A copy of the bytes, refused if there are more than 64.
    pub fn new(bytes: &[u8]) -> Result<Part, Fault>
        ensures { part_read result ≡ part_of bytes.now }
    {
        if !is_short(bytes) {
            return Err(Layer::Negotiation.fault(ErrorKind::InvalidParameter));
        }
        Ok(Part::cut(bytes))
    }

    // A copy of the first 64 bytes.
    #[tactic(auto, using(crate::proofs::Paddings::take_padded, crate::proofs::Paddings::whole_padded))]
    pub fn cut(bytes: &[u8]) -> Part
        ensures zeros_behind { result ≡ cut bytes.now }
        ensures holds { held result ≡ take 64 bytes.now }
        ensures whole { length bytes.now ≤ 64 → held result ≡ bytes.now }
    {
        Part {
            bytes: padded(bytes),
            len: bytes.len().min(64),
        }
    }

    // What the part holds.
    pub fn as_slice(&self) -> &[u8]
        ensures { result.now ≡ held self.now }
    {
        &self.bytes[..self.len]
    }
}

impl Identity {
    // An identity of lent parts, refused where one has more than 64 bytes.
    pub fn new(
        user: &[u8],
        account: &[u8],
        domain: &[u8],
        secret: &[u8],
        kdc: Option<u32>,
    ) -> Result<Identity, Fault>
        ensures { identity_read result ≡ identity_of (record { user = user.entry.now; account = account.now; domain = domain.now; secret = secret.now; kdc = kdc }) }
    {
        // All parts are tested before the first is copied.
        if !is_short(user) || !is_short(account) || !is_short(domain) || !is_short(secret) {
            return Err(Layer::Negotiation.fault(ErrorKind::InvalidParameter));
        }
        Ok(Identity {
            user: Part::cut(user),
            account: Part::cut(account),
            domain: Part::cut(domain),
            secret: Part::cut(secret),
            kdc,
        })
    }
}
