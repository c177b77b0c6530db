use mech_types::MechTypeList;
use spnego::{NegTokenInit, NegTokenTarg};
use spnego_writer::{write_init, write_targ};
use sspi::{ErrorKind, Fault, Layer};
use std::process::Abort;
use std::test::Fail;

const INVALID: Fault = Fault {
    kind: ErrorKind::InvalidParameter,
    layer: Layer::Token,
};

const TOO_SMALL: Fault = Fault {
    kind: ErrorKind::BufferTooSmall,
    layer: Layer::Token,
};

const EMPTY: NegTokenTarg<'static> = NegTokenTarg {
    neg_state: None,
    supported_mech: None,
    response_token: None,
    mech_list_mic: None,
};

#[test]
fn the_rest_is_kept(rt: HostRuntime) {
    let mut out = [0xee; 11];
    let token = NegTokenTarg {
        neg_state: Some(b"\x0a\x01\x00"),
        supported_mech: None,
        response_token: None,
        mech_list_mic: None,
    };
    assert_eq!(rt; write_targ(&token, &mut out), Ok(9));
    assert_eq!(rt;
        &out[0..11],
        b"\xa1\x07\x30\x05\xa0\x03\x0a\x01\x00\xee\xee".as_slice()
    );
}

#[test]
fn a_refusal_touches_nothing(rt: HostRuntime) {
    let mut out = [0xee; 3];
    assert_eq!(rt; write_targ(&EMPTY, &mut out), Err(TOO_SMALL));
    assert_eq!(rt; out, [0xee, 0xee, 0xee]);
    let token = NegTokenTarg {
        neg_state: Some(&[0x0a, 0x01]),
        supported_mech: None,
        response_token: None,
        mech_list_mic: None,
    };
    assert_eq!(rt; write_targ(&token, &mut out), Err(INVALID));
    assert_eq!(rt; out, [0xee, 0xee, 0xee]);
}

#[test]
fn parts_that_are_not_legal(rt: HostRuntime) {
    let mut out = [0xee; 64];
    let bad = NegTokenTarg {
        neg_state: None,
        supported_mech: Some(&[0x80]),
        response_token: None,
        mech_list_mic: None,
    };
    assert_eq!(rt; write_targ(&bad, &mut out), Err(INVALID));
    let bad = NegTokenInit {
        this_mech: &[],
        mech_types: None,
        req_flags: None,
        mech_token: None,
        mech_list_mic: None,
    };
    assert_eq!(rt; write_init(&bad, &mut out), Err(INVALID));
    let bad = NegTokenInit {
        this_mech: &[0x2b],
        mech_types: Some(&[0x30, 0x01]),
        req_flags: None,
        mech_token: None,
        mech_list_mic: None,
    };
    assert_eq!(rt; write_init(&bad, &mut out), Err(INVALID));
    let bad = NegTokenInit {
        this_mech: &[0x2b],
        mech_types: None,
        req_flags: Some(&[0x08, 0x00]),
        mech_token: None,
        mech_list_mic: None,
    };
    assert_eq!(rt; write_init(&bad, &mut out), Err(INVALID));
    assert_eq!(rt; out[0], 0xee);
}

#[test]
fn an_init(rt: HostRuntime) {
    let mut out = [0xee; 32];
    let token = NegTokenInit {
        this_mech: &[0x2b],
        mech_types: Some(&[0x30, 0x03, 0x06, 0x01, 0x2a]),
        req_flags: None,
        mech_token: Some(&[]),
        mech_list_mic: None,
    };
    assert_eq!(rt; write_init(&token, &mut out), Ok(20));
    assert_eq!(rt;
        &out[0..21],
        b"\x60\x12\x06\x01\x2b\xa0\x0d\x30\x0b\xa0\x05\x30\x03\x06\x01\x2a\xa2\x02\x04\x00\xee".as_slice()
    );
}

#[test]
fn a_list(rt: HostRuntime) {
    let mut out = [0xee; 12];
    assert_eq!(rt;
        MechTypeList::write(&[&[0x2a, 0x03], &[0x2b]], &mut out),
        Ok(9)
    );
    assert_eq!(rt;
        &out[0..10],
        b"\x30\x07\x06\x02\x2a\x03\x06\x01\x2b\xee".as_slice()
    );
    assert_eq!(rt; MechTypeList::write(&[], &mut out), Ok(2));
    assert_eq!(rt;
        MechTypeList::write(&[&[0x2b], &[]], &mut out),
        Err(INVALID)
    );
    assert_eq!(rt;
        MechTypeList::write(&[&[0x2a, 0x03], &[0x2b]], &mut out[0..8]),
        Err(TOO_SMALL)
    );
}

// A token with a response token of n bytes takes `size` bytes, begins so, and is read back.
fn response_of(
    rt: &impl Abort,
    n: usize,
    size: usize,
    begins: &[u8],
    zeros: &[u8],
    out: &mut [u8],
) -> Result<(), Fail> {
    assert!(rt; n <= zeros.len());
    let response = &zeros[0..n];
    let token = NegTokenTarg {
        neg_state: None,
        supported_mech: None,
        response_token: Some(response),
        mech_list_mic: None,
    };
    assert_eq!(rt; write_targ(&token, out), Ok(size));
    assert!(rt; size <= out.len());
    let written = &out[0..size];
    assert!(rt; written.starts_with(begins));
    let read = NegTokenTarg::read(written)?;
    assert_eq!(rt; read.response_token, Some(response));
    Ok(())
}

#[test]
fn lengths_at_their_bounds(rt: HostRuntime) -> Result<(), Fail> {
    let zeros = vec![in rt.alloc(); 0u8; 66000]?;
    let mut out = vec![in rt.alloc(); 0xeeu8; 66000]?;
    response_of(
        &rt,
        127,
        138,
        b"\xa1\x81\x87\x30\x81\x84\xa2\x81\x81\x04\x7f",
        &zeros,
        &mut out,
    )?;
    response_of(
        &rt,
        128,
        140,
        b"\xa1\x81\x89\x30\x81\x86\xa2\x81\x83\x04\x81\x80",
        &zeros,
        &mut out,
    )?;
    response_of(
        &rt,
        255,
        270,
        b"\xa1\x82\x01\x0a\x30\x82\x01\x06\xa2\x82\x01\x02\x04\x81\xff",
        &zeros,
        &mut out,
    )?;
    response_of(
        &rt,
        256,
        272,
        b"\xa1\x82\x01\x0c\x30\x82\x01\x08\xa2\x82\x01\x04\x04\x82\x01\x00",
        &zeros,
        &mut out,
    )?;
    response_of(
        &rt,
        65523,
        65539,
        b"\xa1\x82\xff\xff\x30\x82\xff\xfb\xa2\x82\xff\xf7\x04\x82\xff\xf3",
        &zeros,
        &mut out,
    )
}

// A response token that makes the outermost content longer than 65,535 bytes is refused.
fn too_long(rt: &impl Abort, response: &[u8]) {
    let mut out = [0xee; 3];
    let long = NegTokenTarg {
        neg_state: None,
        supported_mech: None,
        response_token: Some(response),
        mech_list_mic: None,
    };
    assert_eq!(rt; write_targ(&long, &mut out), Err(INVALID));
}

#[test]
fn a_content_too_long(rt: HostRuntime) -> Result<(), Fail> {
    let zeros = vec![in rt.alloc(); 0u8; 65524]?;
    too_long(&rt, &zeros);
    Ok(())
}
