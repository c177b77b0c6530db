use crate::answering::{book_of, makes, refusal, steps, who};
use mechanism::{Mechanism, Sealer, Side};
use script::Script;
use sspi::{ErrorKind, Fault, SecurityStatus};
use std::process::Abort;
use std::test::Fail;

// The entries of a script whose session is up after one step.
const OK: &[&[u8]] = &[b"\x00\x00\x00\x00"];

// The next entry, which has no token, is answered so.
fn plays(rt: &impl Abort, script: &mut Script, want: Result<SecurityStatus, Fault>) {
    let want = match want {
        Ok(status) => Ok((status, b"".as_slice())),
        Err(fault) => Err(fault),
    };
    steps(rt, script, Side::Client, None, b"", &mut [], want);
}

// Makes no MIC and takes none, since the session is down.
fn is_down(rt: &impl Abort, script: &mut Script) {
    let down = refusal(ErrorKind::NoContext);
    makes(rt, script, b"abc", Err(down));
    assert_eq!(rt; script.check(b"abc", b"Sabc"), Err(down));
}

// Makes a MIC and takes it.
fn is_up(rt: &impl Abort, script: &mut Script) {
    makes(rt, script, b"abc", Ok(b"Sabc"));
    assert_eq!(rt; script.check(b"abc", b"Sabc"), Ok(()));
}

#[test]
fn sessions(rt: HostRuntime) -> Result<(), Fail> {
    let book = book_of(
        &rt,
        &[
            b"\x00\x09\x03\x12",
            b"\x80\x09\x03\x0c",
            b"\x00\x00\x00\x00",
            b"\x80\x09\x03\x0c",
        ],
    )?;
    let refused = Err(refusal(ErrorKind::LogonDenied));
    let mut script = Script::new(&book);
    is_down(&rt, &mut script);
    plays(&rt, &mut script, Ok(SecurityStatus::ContinueNeeded));
    is_down(&rt, &mut script);
    plays(&rt, &mut script, refused);
    is_down(&rt, &mut script);
    plays(&rt, &mut script, Ok(SecurityStatus::Ok));
    is_up(&rt, &mut script);
    plays(&rt, &mut script, refused);
    plays(&rt, &mut script, Err(refusal(ErrorKind::OutOfSequence)));
    is_up(&rt, &mut script);
    script.fresh(None);
    is_down(&rt, &mut script);
    Ok(())
}

// A token that does not fit starts no session.
#[test]
fn ok_without_room(rt: HostRuntime) -> Result<(), Fail> {
    let book = book_of(&rt, &[b"\x00\x00\x00\x00t"])?;
    let mut script = Script::new(&book);
    plays(&rt, &mut script, Err(refusal(ErrorKind::BufferTooSmall)));
    is_down(&rt, &mut script);
    let want = Ok((SecurityStatus::Ok, b"t".as_slice()));
    steps(&rt, &mut script, Side::Client, None, b"", &mut [0; 1], want);
    is_up(&rt, &mut script);
    Ok(())
}

#[test]
fn mics_that_are_not_taken(rt: HostRuntime) -> Result<(), Fail> {
    let book = book_of(&rt, OK)?;
    let mut script = Script::new(&book);
    plays(&rt, &mut script, Ok(SecurityStatus::Ok));
    let rows: [&[u8]; 8] = [
        b"", b"S", b"Sab", b"Sabcd", b"Sabd", b"Cabc", b"sabc", b"abc",
    ];
    for mic in rows {
        assert_eq!(rt;
            script.check(b"abc", mic),
            Err(refusal(ErrorKind::MessageAltered))
        );
    }
    assert_eq!(rt; script.check(b"", b"S"), Ok(()));
    Ok(())
}

#[test]
fn lengths_of_data(rt: HostRuntime) -> Result<(), Fail> {
    let long = refusal(ErrorKind::InvalidParameter);
    let bytes = [b'd'; 129];
    let mut mic = [b'd'; 129];
    mic[0] = 0x53;
    let book = book_of(&rt, OK)?;
    let mut script = Script::new(&book);
    // before the session, the length is looked at first
    makes(&rt, &mut script, &bytes, Err(long));
    assert_eq!(rt; script.check(&bytes, &mic), Err(long));
    is_down(&rt, &mut script);
    plays(&rt, &mut script, Ok(SecurityStatus::Ok));
    makes(&rt, &mut script, &bytes[..128], Ok(&mic));
    assert_eq!(rt; script.check(&bytes[..128], &mic), Ok(()));
    makes(&rt, &mut script, &bytes, Err(long));
    assert_eq!(rt; script.check(&bytes, &mic), Err(long));
    Ok(())
}

// What a refused call or a short MIC or name leaves of the buffer.
#[test]
fn the_rest_is_kept(rt: HostRuntime) -> Result<(), Fail> {
    let book = book_of(&rt, OK)?;
    let mut script = Script::new(&book);
    let mut mic = [0xee; 160];
    assert_eq!(rt;
        script.make(b"abc", &mut mic),
        Err(refusal(ErrorKind::NoContext))
    );
    assert_eq!(rt; mic, [0xee; 160]);
    plays(&rt, &mut script, Ok(SecurityStatus::Ok));
    assert_eq!(rt; script.make(b"abc", &mut mic), Ok(4));
    assert_eq!(rt; &mic[4..], [0xee; 156].as_slice());
    let mut name = [0xee; 64];
    assert_eq!(rt; script.name(&mut name), Ok(6));
    assert_eq!(rt; &name[..6], b"flat12".as_slice());
    assert_eq!(rt; &name[6..], [0xee; 58].as_slice());
    Ok(())
}

#[test]
fn allowed_identities(rt: HostRuntime) -> Result<(), Fail> {
    let ann = who(b"Ann", b"password")?;
    let mut script = Script::new(b"\x00\x00");
    assert_eq!(rt; script.count(), 0);
    for (i, new_set) in [true, false, true].into_iter().enumerate() {
        assert_eq!(rt; script.allow(&ann, new_set), Ok(()));
        assert_eq!(rt; script.count() as usize, i + 1);
    }
    script.fresh(Some(1));
    assert_eq!(rt; script.count(), 3);
    Ok(())
}
