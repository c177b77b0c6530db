use books::Book;
use mechanism::{Identity, Mechanism, Sealer, Side};
use sspi::{ErrorKind, Fault, Layer, SecurityStatus};
use std::process::Abort;
use std::test::Fail;

// A refusal of a mechanism.
pub(crate) fn refusal(kind: ErrorKind) -> Fault {
    Layer::Mechanism.fault(kind)
}

// A book of these entries.
pub(crate) fn book_of(rt: &(impl Abort + AllocGlobal), entries: &[&[u8]]) -> Result<Vec<u8>, Fail> {
    let mut book = Vec::new(rt.alloc());
    let count = u16::try_from(entries.len())?;
    book.extend_from_slice(&count.to_be_bytes())?;
    let mut at = count
        .checked_mul(4)
        .ok_or("many")?
        .checked_add(2)
        .ok_or("many")?;
    for entry in entries {
        let len = u16::try_from(entry.len())?;
        book.extend_from_slice(&at.to_be_bytes())?;
        book.extend_from_slice(&len.to_be_bytes())?;
        at = at.checked_add(len).ok_or("long")?;
    }
    for entry in entries {
        book.extend_from_slice(entry)?;
    }
    assert!(rt; Book::read(&book)?.entries().eq(entries.iter().copied()));
    Ok(book)
}

// An identity with this account and this secret.
pub(crate) fn who(account: &[u8], secret: &[u8]) -> Result<Identity, Fault> {
    Identity::new(b"", account, b"", secret, None)
}

// What a step answers, with the token that it writes.
fn stepped<'a>(
    mechanism: &mut impl Mechanism,
    side: Side,
    identity: Option<&Identity>,
    input: &[u8],
    work: &'a mut [u8],
) -> Result<(SecurityStatus, &'a [u8]), Fault> {
    let (status, n) = mechanism.step(side, 0, identity, input, work)?;
    Ok((status, &work[..n]))
}

// A step is answered so: a status and a token, or a fault.
pub(crate) fn steps(
    rt: &impl Abort,
    mechanism: &mut impl Mechanism,
    side: Side,
    identity: Option<&Identity>,
    input: &[u8],
    work: &mut [u8],
    want: Result<(SecurityStatus, &[u8]), Fault>,
) {
    assert_eq!(rt; stepped(mechanism, side, identity, input, work), want);
}

// The MIC over the data is made so, or refused.
pub(crate) fn makes(
    rt: &impl Abort,
    sealer: &mut impl Sealer,
    data: &[u8],
    want: Result<&[u8], Fault>,
) {
    let mut mic = [0; 160];
    let answer = match sealer.make(data, &mut mic) {
        Ok(n) => Ok(&mic[..n]),
        Err(fault) => Err(fault),
    };
    assert_eq!(rt; answer, want);
}

// The peer's name is this, or refused.
pub(crate) fn is_named(rt: &impl Abort, mechanism: &impl Mechanism, want: Result<&[u8], Fault>) {
    let mut name = [0; 64];
    let answer = match mechanism.name(&mut name) {
        Ok(n) => Ok(&name[..n]),
        Err(fault) => Err(fault),
    };
    assert_eq!(rt; answer, want);
}
