use crate::answering::{book_of, is_named, makes, refusal, steps, who};
use ladder::Ladder;
use mechanism::{Identity, Mechanism, Sealer, Side, carry};
use script::Script;
use sspi::{ErrorKind, Fault, SecurityStatus};
use std::process::Abort;
use std::test::Fail;

// A client and a server at the top of a ladder, with the secrets of the client and of the identity that the server allows.
fn climbed(secret: &[u8], allowed: &[u8]) -> Result<(Ladder, Ladder), Fault> {
    let ann = who(b"Ann", secret)?;
    let mut client = Ladder::new(2);
    let mut server = Ladder::new(2);
    server.allow(&who(b"Ann", allowed)?, true)?;
    let _ = client.step(Side::Client, 0, Some(&ann), b"", &mut [0; 4])?;
    let _ = server.step(Side::Server, 0, None, b"\x01Ann", &mut [0; 1])?;
    let _ = client.step(Side::Client, 0, Some(&ann), b"\x02", &mut [])?;
    Ok((client, server))
}

// The ladder makes no MIC and takes none, since its session is down.
fn is_down(rt: &impl Abort, ladder: &mut Ladder) {
    let down = refusal(ErrorKind::NoContext);
    assert_eq!(rt; ladder.make(b"data", &mut [0; 160]), Err(down));
    assert_eq!(rt; ladder.check(b"data", b"\0\0\0\0\0\0\0\0Sdata"), Err(down));
}

#[test]
fn mics_both_ways(rt: HostRuntime) -> Result<(), Fail> {
    let altered = Err(refusal(ErrorKind::MessageAltered));
    let (mut client, mut server) = climbed(b"password", b"password")?;
    makes(&rt, &mut client, b"data", Ok(b"passwordCdata"));
    makes(&rt, &mut server, b"data", Ok(b"passwordSdata"));
    assert_eq!(rt; server.check(b"data", b"passwordCdata"), Ok(()));
    assert_eq!(rt; client.check(b"data", b"passwordSdata"), Ok(()));
    // its own, over other data, by another key, a byte short, a byte more
    for mic in [
        b"passwordSdata".as_slice(),
        b"passwordCdate",
        b"passwoRdCdata",
        b"passwordCdat",
        b"passwordCdata\0",
        b"",
    ] {
        assert_eq!(rt; server.check(b"data", mic), altered);
    }
    assert_eq!(rt; client.check(b"data", b"passwordCdata"), altered);
    Ok(())
}

// Keys are the first 8 bytes of a secret, filled up with zeros.
#[test]
fn keys(rt: HostRuntime) -> Result<(), Fail> {
    let taken = Ok(());
    let altered = Err(refusal(ErrorKind::MessageAltered));
    let rows: [(&[u8], &[u8], Result<(), Fault>); 6] = [
        (b"password", b"password", taken),
        (b"password", b"passwore", altered),
        (b"password1", b"password2", taken),
        (b"pass", b"pass\0\0\0\0word", taken),
        (b"pass", b"passw", altered),
        (b"", b"", taken),
    ];
    for (secret, allowed, want) in rows {
        let (mut client, mut server) = climbed(secret, allowed)?;
        assert_eq!(rt; carry(&mut client, &mut server, b"data", b"data"), want);
        assert_eq!(rt; carry(&mut server, &mut client, b"data", b"data"), want);
    }
    Ok(())
}

#[test]
fn carried(rt: HostRuntime) -> Result<(), Fail> {
    let altered = Err(refusal(ErrorKind::MessageAltered));
    let (mut client, mut server) = climbed(b"password", b"password")?;
    let rows: [(&[u8], &[u8], Result<(), Fault>); 5] = [
        (b"data", b"data", Ok(())),
        (b"data", b"date", altered),
        (b"data", b"dat", altered),
        (b"data", b"data\0", altered),
        (b"", b"", Ok(())),
    ];
    for (sent, heard, want) in rows {
        assert_eq!(rt; carry(&mut client, &mut server, sent, heard), want);
        assert_eq!(rt; carry(&mut server, &mut client, sent, heard), want);
    }
    let mut twin = client;
    assert_eq!(rt; carry(&mut client, &mut twin, b"data", b"data"), altered);
    let down = Err(refusal(ErrorKind::NoContext));
    assert_eq!(rt;
        carry(&mut client, &mut Ladder::new(2), b"data", b"data"),
        down
    );
    assert_eq!(rt;
        carry(&mut Ladder::new(2), &mut server, b"data", b"data"),
        down
    );
    Ok(())
}

#[test]
fn lengths_of_data(rt: HostRuntime) -> Result<(), Fail> {
    let long = refusal(ErrorKind::InvalidParameter);
    let bytes = [b'd'; 129];
    let mut mic = [b'd'; 137];
    mic[..9].copy_from_slice(b"passwordC");
    let (mut client, mut server) = climbed(b"password", b"password")?;
    let mut room = [0xee; 160];
    assert_eq!(rt; client.make(&bytes, &mut room), Err(long));
    assert_eq!(rt; room, [0xee; 160]);
    assert_eq!(rt; client.make(&bytes[..128], &mut room), Ok(137));
    assert_eq!(rt; &room[..137], mic.as_slice());
    assert_eq!(rt; &room[137..], [0xee; 23].as_slice());
    assert_eq!(rt; server.check(&bytes[..128], &mic), Ok(()));
    assert_eq!(rt; server.check(&bytes, &mic), Err(long));
    // before the session, the length is looked at first
    assert_eq!(rt; Ladder::new(2).make(&bytes, &mut room), Err(long));
    assert_eq!(rt; Ladder::new(2).check(&bytes, &mic), Err(long));
    Ok(())
}

#[test]
fn sessions(rt: HostRuntime) -> Result<(), Fail> {
    let ann = who(b"Ann", b"password")?;
    let mut client = Ladder::new(2);
    let mut server = Ladder::new(2);
    is_down(&rt, &mut client);
    is_down(&rt, &mut server);
    let _ = client.step(Side::Client, 0, Some(&ann), b"", &mut [0; 4])?;
    is_down(&rt, &mut client);
    let _ = server.step(Side::Server, 0, None, b"\x01Ann", &mut [0; 1])?;
    makes(&rt, &mut server, b"data", Ok(b"\0\0\0\0\0\0\0\0Sdata"));
    let _ = client.step(Side::Client, 0, Some(&ann), b"\x02", &mut [])?;
    makes(&rt, &mut client, b"data", Ok(b"passwordCdata"));
    Ok(())
}

// A step at the top makes the side its own, and a client's the key.
#[test]
fn steps_at_the_top(rt: HostRuntime) -> Result<(), Fail> {
    let (mut client, _) = climbed(b"password", b"")?;
    client.allow(&who(b"bob", b"87654321")?, false)?;
    let eve = who(b"eve", b"12345678")?;
    let rows: [(Side, Option<&Identity>, &[u8]); 4] = [
        (Side::Server, Some(&eve), b"87654321Sdata"),
        (Side::Client, Some(&eve), b"12345678Cdata"),
        (Side::Server, None, b"87654321Sdata"),
        (Side::Client, None, b"\0\0\0\0\0\0\0\0Cdata"),
    ];
    for (side, identity, mic) in rows {
        steps(
            &rt,
            &mut client,
            side,
            identity,
            b"",
            &mut [],
            Ok((SecurityStatus::Ok, b"")),
        );
        makes(&rt, &mut client, b"data", Ok(mic));
        is_named(&rt, &client, Ok(b"Ann"));
    }
    Ok(())
}

// The key is that of the first identity of the latest set.
#[test]
fn sets_that_are_allowed(rt: HostRuntime) -> Result<(), Fail> {
    let mut server = Ladder::new(1);
    let _ = server.step(Side::Server, 0, None, b"\x01Ann", &mut [])?;
    makes(&rt, &mut server, b"data", Ok(b"\0\0\0\0\0\0\0\0Sdata"));
    let rows: [(&[u8], bool, &[u8]); 5] = [
        (b"aaaaaaaa", false, b"aaaaaaaaSdata"),
        (b"bbbbbbbb", false, b"aaaaaaaaSdata"),
        (b"cccccccc", true, b"ccccccccSdata"),
        (b"dd", true, b"dd\0\0\0\0\0\0Sdata"),
        (b"eeeeeeee", false, b"dd\0\0\0\0\0\0Sdata"),
    ];
    for (secret, new_set, mic) in rows {
        assert_eq!(rt; server.allow(&who(b"Ann", secret)?, new_set), Ok(()));
        makes(&rt, &mut server, b"data", Ok(mic));
    }
    Ok(())
}

// All is forgotten but the number of legs.
#[test]
fn fresh_forgets(rt: HostRuntime) -> Result<(), Fail> {
    let (_, mut server) = climbed(b"password", b"password")?;
    server.fresh(Some(3));
    is_down(&rt, &mut server);
    is_named(&rt, &server, Err(refusal(ErrorKind::NoContext)));
    steps(
        &rt,
        &mut server,
        Side::Server,
        None,
        b"",
        &mut [0; 1],
        Err(refusal(ErrorKind::IllegalMessage)),
    );
    steps(
        &rt,
        &mut server,
        Side::Server,
        None,
        b"\x01bob",
        &mut [0; 1],
        Ok((SecurityStatus::Ok, b"\x02")),
    );
    is_named(&rt, &server, Ok(b"bob"));
    makes(&rt, &mut server, b"data", Ok(b"\0\0\0\0\0\0\0\0Sdata"));
    Ok(())
}

// The generic call with scripts, each of which takes what the other makes.
#[test]
fn carried_by_scripts(rt: HostRuntime) -> Result<(), Fail> {
    let book = book_of(&rt, &[b"\x00\x00\x00\x00"])?;
    let mut one = Script::new(&book);
    let mut other = Script::new(&book);
    let _ = one.step(Side::Client, 0, None, b"", &mut [])?;
    let _ = other.step(Side::Client, 0, None, b"", &mut [])?;
    assert_eq!(rt; carry(&mut one, &mut other, b"data", b"data"), Ok(()));
    let altered = Err(refusal(ErrorKind::MessageAltered));
    assert_eq!(rt; carry(&mut one, &mut other, b"data", b"date"), altered);
    Ok(())
}
