use mech_types::MechTypeList;
use spnego::{NegTokenInit, NegTokenTarg};
use sspi::{ErrorKind, Fault, Layer};
use std::process::Abort;
use std::test::Fail;

const ILLEGAL: Fault = Fault {
    kind: ErrorKind::InvalidToken,
    layer: Layer::Token,
};

const NONE: Option<&[u8]> = None;

// Each row is refused as an illegal token by this reader, which gives its refusal.
fn refused_by<F>(rt: &impl Abort, refusal: F, rows: &[&[u8]])
where
    F: Fn(&[u8]) -> Option<Fault>,
    requires { F.IsAlwaysCallable refusal }
{
    for row in rows {
        assert_eq!(rt; refusal(row), Some(ILLEGAL));
    }
}

// Each row is refused as an illegal NegTokenTarg.
fn no_targ(rt: &impl Abort, rows: &[&[u8]]) {
    refused_by(rt, |row| NegTokenTarg::read(row).err(), rows);
}

#[test]
fn smallest_targ(rt: HostRuntime) -> Result<(), Fail> {
    let token = NegTokenTarg::read(&[0xa1, 0x02, 0x30, 0x00])?;
    assert_eq!(rt;
        (
            token.neg_state,
            token.supported_mech,
            token.response_token,
            token.mech_list_mic,
        ),
        (NONE, NONE, NONE, NONE)
    );
    Ok(())
}

#[test]
fn fields_of_a_targ(rt: HostRuntime) -> Result<(), Fail> {
    // negState incomplete, NTLM, an empty response token, a MIC of three bytes
    let token = NegTokenTarg::read(
        b"\xa1\x20\x30\x1e\xa0\x03\x0a\x01\x01\xa1\x0c\x06\x0a\x2b\x06\x01\x04\x01\x82\x37\x02\x02\x0a\xa2\x02\x04\x00\xa3\x05\x04\x03\x01\x02\x03",
    )?;
    assert_eq!(rt;
        (
            token.neg_state,
            token.supported_mech,
            token.response_token,
            token.mech_list_mic,
        ),
        (
            Some(b"\x0a\x01\x01".as_slice()),
            Some(b"\x2b\x06\x01\x04\x01\x82\x37\x02\x02\x0a".as_slice()),
            Some(b"".as_slice()),
            Some(b"\x01\x02\x03".as_slice()),
        )
    );
    Ok(())
}

#[test]
fn lengths_that_are_not_legal(rt: HostRuntime) {
    no_targ(
        &rt,
        &[
            b"",
            b"\xa1",
            b"\xa1\x02\x30",
            b"\xa1\x03\x30\x81\x00",
            b"\xa1\x81\x02\x30\x00",
            b"\xa1\x82\x00\x02\x30\x00",
            b"\xa1\x83\x00\x00\x02\x30\x00",
            b"\xa1\x80\x30\x00\x00\x00",
            b"\xa1\x81",
            b"\xa1\x82\x01",
            b"\xa1\x02\x30\x00\x00",
            b"\xa1\x03\x30\x00\x00",
            b"\xa1\x01\x30\x00",
        ],
    );
}

#[test]
fn tags_that_are_not_legal(rt: HostRuntime) {
    no_targ(
        &rt,
        &[
            b"\xa0\x02\x30\x00",
            b"\xa1\x02\x31\x00",
            b"\xa1\x06\x30\x04\xa0\x02\x1f\x00",
            b"\xa1\x06\x30\x04\xa4\x02\x04\x00",
            b"\xa1\x04\x30\x02\xa0\x00",
            b"\xa1\x08\x30\x06\xa0\x04\x0a\x00\x0a\x00",
            b"\xa1\x07\x30\x05\xa1\x03\x05\x01\x2a",
            b"\xa1\x06\x30\x04\xa2\x02\x03\x00",
            b"\xa1\x06\x30\x04\xa3\x02\x05\x00",
        ],
    );
}

#[test]
fn fields_out_of_order_or_repeated(rt: HostRuntime) {
    no_targ(
        &rt,
        &[
            b"\xa1\x0a\x30\x08\xa3\x02\x04\x00\xa2\x02\x04\x00",
            b"\xa1\x0b\x30\x09\xa1\x03\x06\x01\x2a\xa0\x02\x0a\x00",
            b"\xa1\x0b\x30\x09\xa2\x02\x04\x00\xa1\x03\x06\x01\x2a",
            b"\xa1\x0a\x30\x08\xa2\x02\x04\x00\xa2\x02\x04\x00",
            b"\xa1\x0a\x30\x08\xa2\x06\x04\x00\xa3\x02\x04\x00",
        ],
    );
}

#[test]
fn object_identifiers(rt: HostRuntime) -> Result<(), Fail> {
    let _ = NegTokenTarg::read(b"\xa1\x07\x30\x05\xa1\x03\x06\x01\x00")?;
    let _ = NegTokenTarg::read(b"\xa1\x09\x30\x07\xa1\x05\x06\x03\x2a\x81\x80")
        .err()
        .ok_or("an OID that ends inside an arc")?;
    no_targ(
        &rt,
        &[
            b"\xa1\x06\x30\x04\xa1\x02\x06\x00",
            b"\xa1\x07\x30\x05\xa1\x03\x06\x01\x80",
            b"\xa1\x07\x30\x05\xa1\x03\x06\x01\x81",
            b"\xa1\x08\x30\x06\xa1\x04\x06\x02\x80\x01",
            b"\xa1\x09\x30\x07\xa1\x05\x06\x03\x2a\x80\x01",
        ],
    );
    Ok(())
}

#[test]
fn fields_of_an_init(rt: HostRuntime) -> Result<(), Fail> {
    let token = NegTokenInit::read(
        b"\x60\x27\x06\x06\x2b\x06\x01\x05\x05\x02\xa0\x1d\x30\x1b\xa0\x09\x30\x07\x06\x02\x2a\x03\x06\x01\x2b\xa1\x04\x03\x02\x06\x40\xa2\x02\x04\x00\xa3\x04\x04\x02\x01\x02",
    )?;
    assert_eq!(rt; token.this_mech, b"\x2b\x06\x01\x05\x05\x02".as_slice());
    assert_eq!(rt;
        (
            token.mech_types,
            token.req_flags,
            token.mech_token,
            token.mech_list_mic,
        ),
        (
            Some(b"\x30\x07\x06\x02\x2a\x03\x06\x01\x2b".as_slice()),
            Some(b"\x06\x40".as_slice()),
            Some(b"".as_slice()),
            Some(b"\x01\x02".as_slice()),
        )
    );
    Ok(())
}

#[test]
fn inits_that_are_not_legal(rt: HostRuntime) -> Result<(), Fail> {
    refused_by(
        &rt,
        |row| NegTokenInit::read(row).err(),
        &[
            b"\x61\x07\x06\x01\x2b\xa0\x02\x30\x00",
            b"\x60\x04\xa0\x02\x30\x00",
            b"\x60\x06\x06\x00\xa0\x02\x30\x00",
            b"\x60\x07\x06\x01\x80\xa0\x02\x30\x00",
            b"\x60\x07\x06\x01\x2b\xa1\x02\x30\x00",
            b"\x60\x08\x06\x01\x2b\xa0\x02\x30\x00\x00",
            b"\x60\x0b\x06\x01\x2b\xa0\x06\x30\x04\xa0\x02\x31\x00",
            b"\x60\x0b\x06\x01\x2b\xa0\x06\x30\x04\xa1\x02\x03\x00",
            b"\x60\x0c\x06\x01\x2b\xa0\x07\x30\x05\xa1\x03\x03\x01\x01",
            b"\x60\x0d\x06\x01\x2b\xa0\x08\x30\x06\xa1\x04\x03\x02\x08\x00",
        ],
    );
    let empty = NegTokenInit::read(b"\x60\x07\x06\x01\x2b\xa0\x02\x30\x00")?;
    assert_eq!(rt; empty.mech_types, NONE);
    Ok(())
}

#[test]
fn lists(rt: HostRuntime) -> Result<(), Fail> {
    let list = MechTypeList::read(b"\x30\x07\x06\x02\x2a\x03\x06\x01\x2b")?;
    let (first, rest) = list.split_first().ok_or("no first")?;
    assert_eq!(rt; first, b"\x2a\x03".as_slice());
    let (second, rest) = rest.split_first().ok_or("no second")?;
    assert_eq!(rt; second, b"\x2b".as_slice());
    assert!(rt; rest.split_first().is_none());
    assert!(rt; MechTypeList::read(b"\x30\x00")?.split_first().is_none());
    refused_by(
        &rt,
        |row| MechTypeList::read(row).err(),
        &[
            b"\x31\x00",
            b"\x30\x02\x05\x00",
            b"\x30\x02\x06\x00",
            b"\x30\x05\x06\x01\x2b\x06\x00",
            b"\x30\x03\x06\x01\x2b\x00",
        ],
    );
    Ok(())
}
