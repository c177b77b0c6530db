use crate::answering::{is_named, makes, refusal, steps, who};
use ladder::Ladder;
use mechanism::{Mechanism, Side};
use sspi::{ErrorKind, Fault, SecurityStatus};
use std::process::Abort;
use std::test::Fail;

const GO: SecurityStatus = SecurityStatus::ContinueNeeded;

const DONE: SecurityStatus = SecurityStatus::Ok;

// The steps of a ladder of eight legs.
const EIGHT: &[(SecurityStatus, &[u8])] = &[
    (GO, b"\x01Ann"),
    (GO, b"\x02"),
    (GO, b"\x03Ann"),
    (GO, b"\x04"),
    (GO, b"\x05Ann"),
    (GO, b"\x06"),
    (GO, b"\x07Ann"),
    (DONE, b"\x08"),
    (DONE, b""),
    (DONE, b""),
];

// Client and server step in turn, the client first, each given what the other made, and answer as the rows say.
fn climb(rt: &impl Abort, legs: u8, rows: &[(SecurityStatus, &[u8])]) -> Result<(), Fault> {
    let ann = who(b"Ann", b"password")?;
    let mut client = Ladder::new(legs);
    let mut server = Ladder::new(legs);
    let mut input = b"".as_slice();
    for (i, (status, token)) in rows.iter().enumerate() {
        let want = Ok((*status, *token));
        let mut work = [0; 4];
        if i % 2 == 0 {
            steps(
                rt,
                &mut client,
                Side::Client,
                Some(&ann),
                input,
                &mut work,
                want,
            );
        } else {
            steps(rt, &mut server, Side::Server, None, input, &mut work, want);
        }
        input = token;
    }
    is_named(rt, &client, Ok(b"Ann"));
    is_named(rt, &server, Ok(b"Ann"));
    Ok(())
}

#[test]
fn full_climbs(rt: HostRuntime) -> Result<(), Fail> {
    climb(&rt, 1, &[(DONE, b"\x01Ann"), (DONE, b""), (DONE, b"")])?;
    climb(
        &rt,
        2,
        &[(GO, b"\x01Ann"), (DONE, b"\x02"), (DONE, b""), (DONE, b"")],
    )?;
    climb(
        &rt,
        3,
        &[
            (GO, b"\x01Ann"),
            (GO, b"\x02"),
            (DONE, b"\x03Ann"),
            (DONE, b""),
            (DONE, b""),
        ],
    )?;
    Ok(())
}

#[test]
fn eight_legs(rt: HostRuntime) -> Result<(), Fail> {
    for legs in [8, 0, 9, 255] {
        climb(&rt, legs, EIGHT)?;
    }
    Ok(())
}

// A step with a working buffer of four bytes answers with this status and this token.
fn answers(
    rt: &impl Abort,
    ladder: &mut Ladder,
    side: Side,
    input: &[u8],
    want: (SecurityStatus, &[u8]),
) -> Result<(), Fault> {
    let ann = who(b"Ann", b"password")?;
    steps(rt, ladder, side, Some(&ann), input, &mut [0; 4], Ok(want));
    Ok(())
}

// None of these is the next leg, whoever is on the ladder.
fn refuses(
    rt: &impl Abort,
    ladder: &mut Ladder,
    side: Side,
    inputs: &[&[u8]],
) -> Result<(), Fault> {
    let bob = who(b"bob", b"12345678")?;
    for input in inputs {
        steps(
            rt,
            ladder,
            side,
            Some(&bob),
            input,
            &mut [0; 4],
            Err(refusal(ErrorKind::IllegalMessage)),
        );
    }
    Ok(())
}

#[test]
fn legs_that_a_server_refuses(rt: HostRuntime) -> Result<(), Fail> {
    let side = Side::Server;
    let mut server = Ladder::new(4);
    refuses(
        &rt,
        &mut server,
        side,
        &[b"", b"\x00Ann", b"\x02Ann", b"\x03Ann", b"Ann"],
    )?;
    answers(&rt, &mut server, side, b"\x01Ann", (GO, b"\x02"))?;
    refuses(
        &rt,
        &mut server,
        side,
        &[b"", b"\x01Ann", b"\x02", b"\x04Ann", b"\x05Ann"],
    )?;
    answers(&rt, &mut server, side, b"\x03Ann", (DONE, b"\x04"))?;
    refuses(&rt, &mut server, side, &[b"\x03Ann", b"\x04", b"\x05Ann"])?;
    answers(&rt, &mut server, side, b"", (DONE, b""))?;
    is_named(&rt, &server, Ok(b"Ann"));
    Ok(())
}

#[test]
fn legs_that_a_client_refuses(rt: HostRuntime) -> Result<(), Fail> {
    let side = Side::Client;
    let mut client = Ladder::new(3);
    // the first input is not looked at
    answers(&rt, &mut client, side, b"unheard", (GO, b"\x01Ann"))?;
    refuses(
        &rt,
        &mut client,
        side,
        &[b"", b"\x01", b"\x02\x02", b"\x03", b"\x04"],
    )?;
    answers(&rt, &mut client, side, b"\x02", (DONE, b"\x03Ann"))?;
    refuses(&rt, &mut client, side, &[b"\x02", b"\x03", b"\x04"])?;
    answers(&rt, &mut client, side, b"", (DONE, b""))?;
    is_named(&rt, &client, Ok(b"Ann"));
    makes(&rt, &mut client, b"x", Ok(b"passwordCx"));
    Ok(())
}

#[test]
fn the_longest_account(rt: HostRuntime) -> Result<(), Fail> {
    let account = [b'n'; 64];
    let mut leg = [b'n'; 66];
    leg[0] = 1;
    let who = who(&account, b"")?;
    let mut client = Ladder::new(1);
    let mut server = Ladder::new(1);
    steps(
        &rt,
        &mut client,
        Side::Client,
        Some(&who),
        b"",
        &mut [0; 65],
        Ok((DONE, &leg[..65])),
    );
    steps(
        &rt,
        &mut server,
        Side::Server,
        None,
        &leg,
        &mut [],
        Err(refusal(ErrorKind::IllegalMessage)),
    );
    steps(
        &rt,
        &mut server,
        Side::Server,
        None,
        &leg[..65],
        &mut [],
        Ok((DONE, b"")),
    );
    is_named(&rt, &client, Ok(&account));
    is_named(&rt, &server, Ok(&account));
    Ok(())
}

// A client's leg of four bytes does not fit three, and is made afterwards where it fits.
#[test]
fn rooms_of_a_client(rt: HostRuntime) -> Result<(), Fail> {
    let side = Side::Client;
    let small = Err(refusal(ErrorKind::BufferTooSmall));
    let none = Err(refusal(ErrorKind::NoContext));
    let ann = who(b"Ann", b"password")?;
    let mut client = Ladder::new(5);
    steps(&rt, &mut client, side, Some(&ann), b"", &mut [], small);
    steps(&rt, &mut client, side, Some(&ann), b"", &mut [0; 3], small);
    is_named(&rt, &client, none);
    answers(&rt, &mut client, side, b"", (GO, b"\x01Ann"))?;
    steps(
        &rt,
        &mut client,
        side,
        Some(&ann),
        b"\x02",
        &mut [0; 3],
        small,
    );
    answers(&rt, &mut client, side, b"\x02", (GO, b"\x03Ann"))?;
    Ok(())
}

#[test]
fn rooms_of_a_server(rt: HostRuntime) -> Result<(), Fail> {
    let side = Side::Server;
    let mut server = Ladder::new(3);
    steps(
        &rt,
        &mut server,
        side,
        None,
        b"\x01Ann",
        &mut [],
        Err(refusal(ErrorKind::BufferTooSmall)),
    );
    is_named(&rt, &server, Err(refusal(ErrorKind::NoContext)));
    steps(
        &rt,
        &mut server,
        side,
        None,
        b"\x01Ann",
        &mut [0; 1],
        Ok((GO, b"\x02")),
    );
    // the last leg is heard, and nothing is sent
    steps(
        &rt,
        &mut server,
        side,
        None,
        b"\x03Ann",
        &mut [],
        Ok((DONE, b"")),
    );
    Ok(())
}

#[test]
fn names(rt: HostRuntime) -> Result<(), Fail> {
    let side = Side::Server;
    let none = refusal(ErrorKind::NoContext);
    let mut name = [0xee; 64];
    let mut server = Ladder::new(6);
    assert_eq!(rt; server.name(&mut name), Err(none));
    assert_eq!(rt; name, [0xee; 64]);
    let rows: [(&[u8], &[u8]); 3] = [(b"\x01Ann", b"Ann"), (b"\x03", b""), (b"\x05bob", b"bob")];
    for (leg, want) in rows {
        let _ = server.step(side, 0, None, leg, &mut [0; 1])?;
        is_named(&rt, &server, Ok(want));
    }
    assert_eq!(rt; server.name(&mut name), Ok(3));
    assert_eq!(rt; &name[..4], b"bob\xee".as_slice());
    let mut client = Ladder::new(2);
    assert_eq!(rt; client.name(&mut name), Err(none));
    steps(
        &rt,
        &mut client,
        Side::Client,
        None,
        b"",
        &mut [0; 1],
        Ok((GO, b"\x01")),
    );
    assert_eq!(rt; client.name(&mut name), Ok(0));
    Ok(())
}
