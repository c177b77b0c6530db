use diagnosis::{Line, explain};
use std::test::Fail;

#[test]
fn explains(rt: HostRuntime) -> Result<(), Fail> {
    let rows: [(&[u8], &str); 8] = [
        (b"", "offset 0: the token is empty"),
        (
            b"\x7e",
            "offset 0: the token begins with 7E, neither 60 nor A1",
        ),
        (
            b"\xa1\x03\x30\x81\x00",
            "offset 3: the length is not in its shortest form",
        ),
        (
            b"\xa1\x02\x30\x00\x00",
            "offset 4: bytes follow the end of the element",
        ),
        (
            b"\xa1\x02\x31\x00",
            "offset 2: tag 31 where 30 was expected",
        ),
        (
            b"\xa1\x05\x30\x00",
            "offset 4: the content is cut off, missing bytes: 3",
        ),
        (b"\xa1\x04\x30\x02\xa4\x00", "offset 4: field A4 is unknown"),
        (
            b"\x60\x02\x06\x00",
            "offset 4: the object identifier is empty",
        ),
    ];
    for (token, want) in rows {
        let Err(trouble) = explain(token) else {
            return Err(Fail::new("no trouble was found"));
        };
        assert_eq!(rt; format!(in rt.alloc(); "{trouble}")?.as_str(), want);
    }
    Ok(())
}

#[test]
fn finds_no_trouble_in_legal_tokens(rt: HostRuntime) {
    assert!(rt; explain(b"\xa1\x02\x30\x00").is_ok());
    assert!(rt; explain(b"\x60\x0b\x06\x01\x2a\xa0\x06\x30\x04\xa0\x02\x30\x00").is_ok());
}

#[test]
fn reads_lines(rt: HostRuntime) -> Result<(), Fail> {
    let hex: [&[u8]; 3] = [b"A10f", b" a1\t0F \r", b"a 1 0 f"];
    for line in hex {
        let Line::Token(token) = Line::read(rt.alloc(), line)? else {
            return Err(Fail::new("no token was read"));
        };
        assert_eq!(rt; token.as_slice(), b"\xa1\x0f".as_slice());
    }
    let passed: [&[u8]; 4] = [b"", b" \t", b"\r", b"# A1"];
    for line in passed {
        assert!(rt; matches!(Line::read(rt.alloc(), line)?, Line::Passed));
    }
    let bad: [&[u8]; 5] = [b"A", b"A1G0", b"A1 #", b"A1\r0F", b"\xff\xfe"];
    for line in bad {
        assert!(rt; matches!(Line::read(rt.alloc(), line)?, Line::NotHex));
    }
    Ok(())
}
