use generators::{
    generate_final_neg_token_targ, generate_mech_type_list, generate_neg_token_init,
    generate_neg_token_targ, generate_neg_token_targ_1,
};
use names::{Mech, NegState};
use sspi::{ErrorKind, Fault, Layer};
use std::test::Fail;

#[test]
fn lists_that_are_offered(rt: HostRuntime) {
    let mut out = [0; 36];
    assert_eq!(rt; generate_mech_type_list(true, true, &mut out), Ok(36));
    assert_eq!(rt; generate_mech_type_list(true, false, &mut out), Ok(24));
    assert_eq!(rt; generate_mech_type_list(false, true, &mut out), Ok(14));
    assert_eq!(rt;
        generate_mech_type_list(false, false, &mut out),
        Err(Fault {
            kind: ErrorKind::InvalidParameter,
            layer: Layer::Negotiation,
        })
    );
    assert_eq!(rt;
        &out[0..14],
        b"\x30\x0c\x06\x0a\x2b\x06\x01\x04\x01\x82\x37\x02\x02\x0a".as_slice()
    );
}

// An absent token of the mechanism leaves its field out, and an empty one does not.
#[test]
fn absent_is_not_empty(rt: HostRuntime) {
    let mut out = [0; 64];
    assert_eq!(rt; generate_neg_token_targ_1(None, &mut out), Ok(9));
    assert_eq!(rt; generate_neg_token_targ_1(Some(b""), &mut out), Ok(13));
    assert_eq!(rt;
        &out[0..13],
        b"\xa1\x0b\x30\x09\xa0\x03\x0a\x01\x01\xa2\x02\x04\x00".as_slice()
    );
}

#[test]
fn a_first_token(rt: HostRuntime) -> Result<(), Fail> {
    let mut list = [0; 36];
    let mut out = [0; 64];
    let token = [0x50];
    let n = generate_mech_type_list(false, true, &mut list)?;
    assert_eq!(rt;
        generate_neg_token_init(&list[0..n], Some(&token), &mut out),
        Ok(35)
    );
    assert_eq!(rt;
        &out[0..35],
        b"\x60\x21\x06\x06\x2b\x06\x01\x05\x05\x02\xa0\x17\x30\x15\xa0\x0e\x30\x0c\x06\x0a\x2b\x06\x01\x04\x01\x82\x37\x02\x02\x0a\xa2\x03\x04\x01P".as_slice()
    );
    Ok(())
}

#[test]
fn a_first_reply(rt: HostRuntime) {
    let mut out = [0; 64];
    assert_eq!(rt;
        generate_neg_token_targ(NegState::RequestMic, Mech::Ntlm, Some(b"P"), &mut out),
        Ok(28)
    );
    assert_eq!(rt;
        &out[0..28],
        b"\xa1\x1a\x30\x18\xa0\x03\x0a\x01\x03\xa1\x0c\x06\x0a\x2b\x06\x01\x04\x01\x82\x37\x02\x02\x0a\xa2\x03\x04\x01P".as_slice()
    );
}

// With the longest token of a mechanism each token is longer by just its greatest overhead.
#[test]
fn greatest_overheads(rt: HostRuntime) -> Result<(), Fail> {
    let token = [0x5a; 16384];
    let mic = [0x4d; 160];
    let mut list = [0; 36];
    let mut out = [0; 16640];
    let n = generate_mech_type_list(true, true, &mut list)?;
    assert_eq!(rt;
        generate_neg_token_init(&list[0..n], Some(&token), &mut out),
        Ok(16384 + 66)
    );
    assert_eq!(rt;
        generate_neg_token_targ(NegState::Incomplete, Mech::Ntlm, Some(&token), &mut out),
        Ok(16384 + 35)
    );
    assert_eq!(rt;
        generate_neg_token_targ_1(Some(&token), &mut out),
        Ok(16384 + 21)
    );
    assert_eq!(rt;
        generate_final_neg_token_targ(NegState::Complete, Some(&token), Some(&mic), &mut out),
        Ok(16384 + 187)
    );
    Ok(())
}
