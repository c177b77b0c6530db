use crate::answering::{book_of, refusal, steps};
use mechanism::{Mechanism, Side};
use script::Script;
use sspi::{ErrorKind, SecurityStatus};
use std::process::Abort;
use std::test::Fail;

// The next entry is refused with this kind, whatever the step is given.
fn refuses(rt: &impl Abort, script: &mut Script, work: &mut [u8], kind: ErrorKind) {
    steps(
        rt,
        script,
        Side::Server,
        None,
        b"unheard",
        work,
        Err(refusal(kind)),
    );
}

// The next entry is answered with this status and this token.
fn answers(
    rt: &impl Abort,
    script: &mut Script,
    work: &mut [u8],
    status: SecurityStatus,
    token: &[u8],
) {
    steps(
        rt,
        script,
        Side::Client,
        None,
        b"",
        work,
        Ok((status, token)),
    );
}

#[test]
fn every_status(rt: HostRuntime) -> Result<(), Fail> {
    let rows: [(&[u8], SecurityStatus, &[u8]); 9] = [
        (b"\x00\x09\x03\x12a", SecurityStatus::ContinueNeeded, b"a"),
        (b"\x00\x09\x03\x13b", SecurityStatus::CompleteNeeded, b"b"),
        (
            b"\x00\x09\x03\x14c",
            SecurityStatus::CompleteAndContinue,
            b"c",
        ),
        (b"\x00\x09\x03\x15d", SecurityStatus::LocalLogon, b"d"),
        (b"\x00\x09\x03\x17e", SecurityStatus::ContextExpired, b"e"),
        (
            b"\x00\x09\x03\x20f",
            SecurityStatus::IncompleteCredentials,
            b"f",
        ),
        (b"\x00\x09\x03\x21g", SecurityStatus::Renegotiate, b"g"),
        (b"\x00\x09\x03\x23h", SecurityStatus::NoLsaContext, b"h"),
        (b"\x00\x00\x00\x00i", SecurityStatus::Ok, b"i"),
    ];
    let book = book_of(&rt, &rows.map(|(entry, _, _)| entry))?;
    let mut script = Script::new(&book);
    for (_, status, token) in rows {
        answers(&rt, &mut script, &mut [0; 4], status, token);
    }
    Ok(())
}

// Each moves on.
#[test]
fn a_dozen_kinds(rt: HostRuntime) -> Result<(), Fail> {
    let rows: [(&[u8], ErrorKind); 12] = [
        (b"\x80\x09\x03\x00", ErrorKind::InsufficientMemory),
        (b"\x80\x09\x03\x02", ErrorKind::UnsupportedFunction),
        (b"\x80\x09\x03\x08", ErrorKind::InvalidToken),
        (b"\x80\x09\x03\x0c and bytes", ErrorKind::LogonDenied),
        (b"\x80\x09\x03\x0f", ErrorKind::MessageAltered),
        (b"\x80\x09\x03\x10", ErrorKind::OutOfSequence),
        (b"\x80\x09\x03\x17", ErrorKind::ContextExpired),
        (b"\x80\x09\x03\x20", ErrorKind::IncompleteCredentials),
        (b"\x80\x09\x03\x26", ErrorKind::IllegalMessage),
        (b"\x80\x09\x03\x5d", ErrorKind::InvalidParameter),
        (b"\x80\x09\x03\x61", ErrorKind::NoContext),
        (b"\x80\x09\x03\x67", ErrorKind::ApplicationProtocolMismatch),
    ];
    let book = book_of(&rt, &rows.map(|(entry, _)| entry))?;
    let mut script = Script::new(&book);
    for (_, kind) in rows {
        refuses(&rt, &mut script, &mut [0; 4], kind);
    }
    Ok(())
}

// Each moves on, to the end of the book.
#[test]
fn entries_that_say_nothing(rt: HostRuntime) -> Result<(), Fail> {
    let rows: [&[u8]; 8] = [
        b"",
        b"\x00",
        b"\x00\x09\x03",
        b"\x00\x00\x00\x01t",
        b"\x00\x09\x03\x16t",
        b"\x80\x09\x03\x12t",
        b"\x12\x03\x09\x00t",
        b"\xff\xff\xff\xfft",
    ];
    let book = book_of(&rt, &rows)?;
    let mut script = Script::new(&book);
    for _ in rows {
        refuses(&rt, &mut script, &mut [0; 4], ErrorKind::InternalError);
    }
    refuses(&rt, &mut script, &mut [0; 4], ErrorKind::OutOfSequence);
    Ok(())
}

#[test]
fn past_the_end(rt: HostRuntime) -> Result<(), Fail> {
    let mut work = [0; 4];
    let book = book_of(&rt, &[b"\x00\x09\x03\x12t"])?;
    let mut script = Script::new(&book);
    answers(
        &rt,
        &mut script,
        &mut work,
        SecurityStatus::ContinueNeeded,
        b"t",
    );
    refuses(&rt, &mut script, &mut work, ErrorKind::OutOfSequence);
    refuses(&rt, &mut script, &mut work, ErrorKind::OutOfSequence);
    // no entry, no bytes, and an entry that ends one past the end
    for bytes in [
        b"\x00\x00".as_slice(),
        b"",
        b"\x00\x01\x00\x06\x00\x05\x00\x09\x03\x12",
    ] {
        let mut script = Script::new(bytes);
        refuses(&rt, &mut script, &mut work, ErrorKind::OutOfSequence);
    }
    Ok(())
}

#[test]
fn rooms(rt: HostRuntime) -> Result<(), Fail> {
    let book = book_of(
        &rt,
        &[
            b"\x00\x09\x03\x12four",
            b"\x00\x09\x03\x12",
            b"\x00\x09\x03\x13five5",
        ],
    )?;
    let mut script = Script::new(&book);
    refuses(&rt, &mut script, &mut [], ErrorKind::BufferTooSmall);
    refuses(&rt, &mut script, &mut [0; 3], ErrorKind::BufferTooSmall);
    answers(
        &rt,
        &mut script,
        &mut [0; 4],
        SecurityStatus::ContinueNeeded,
        b"four",
    );
    answers(
        &rt,
        &mut script,
        &mut [],
        SecurityStatus::ContinueNeeded,
        b"",
    );
    refuses(&rt, &mut script, &mut [0; 4], ErrorKind::BufferTooSmall);
    answers(
        &rt,
        &mut script,
        &mut [0; 9],
        SecurityStatus::CompleteNeeded,
        b"five5",
    );
    Ok(())
}

// An entry of the kind BufferTooSmall does not move on either.
#[test]
fn a_room_that_is_never_enough(rt: HostRuntime) -> Result<(), Fail> {
    let book = book_of(&rt, &[b"\x80\x09\x03\x21", b"\x00\x09\x03\x12t"])?;
    let mut script = Script::new(&book);
    refuses(&rt, &mut script, &mut [0; 99], ErrorKind::BufferTooSmall);
    refuses(&rt, &mut script, &mut [0; 99], ErrorKind::BufferTooSmall);
    Ok(())
}

#[test]
fn fresh_rewinds(rt: HostRuntime) -> Result<(), Fail> {
    let mut work = [0; 4];
    let book = book_of(&rt, &[b"\x00\x09\x03\x12t", b"\x80\x09\x03\x0c"])?;
    let mut script = Script::new(&book);
    answers(
        &rt,
        &mut script,
        &mut work,
        SecurityStatus::ContinueNeeded,
        b"t",
    );
    script.fresh(None);
    answers(
        &rt,
        &mut script,
        &mut work,
        SecurityStatus::ContinueNeeded,
        b"t",
    );
    refuses(&rt, &mut script, &mut work, ErrorKind::LogonDenied);
    refuses(&rt, &mut script, &mut work, ErrorKind::OutOfSequence);
    script.fresh(Some(9));
    answers(
        &rt,
        &mut script,
        &mut work,
        SecurityStatus::ContinueNeeded,
        b"t",
    );
    Ok(())
}
