use mechanism::{Identity, Part};
use sspi::{ErrorKind, Fault, Layer};
use std::test::Fail;

const LONG: Fault = Fault {
    kind: ErrorKind::InvalidParameter,
    layer: Layer::Negotiation,
};

#[test]
fn parts(rt: HostRuntime) -> Result<(), Fail> {
    let bytes = [b'p'; 65];
    assert_eq!(rt; Part::new(b"")?.as_slice(), b"".as_slice());
    assert_eq!(rt; Part::new(&bytes[..64])?.as_slice(), &bytes[..64]);
    assert_eq!(rt; Part::new(&bytes).err(), Some(LONG));
    assert_eq!(rt; Part::cut(&bytes[..64]).as_slice(), &bytes[..64]);
    assert_eq!(rt; Part::cut(&bytes).as_slice(), &bytes[..64]);
    Ok(())
}

#[test]
fn identities(rt: HostRuntime) -> Result<(), Fail> {
    let bytes = [b'p'; 65];
    let long = bytes.as_slice();
    let full = &bytes[..64];
    let it = Identity::new(full, b"a", full, b"", Some(7))?;
    assert_eq!(rt; it.user.as_slice(), full);
    assert_eq!(rt; it.account.as_slice(), b"a".as_slice());
    assert_eq!(rt; it.domain.as_slice(), full);
    assert_eq!(rt; it.secret.as_slice(), b"".as_slice());
    assert_eq!(rt; it.kdc, Some(7));
    let rows = [
        [long, full, full, full],
        [full, long, full, full],
        [full, full, long, full],
        [full, full, full, long],
    ];
    for [user, account, domain, secret] in rows {
        let refusal = Identity::new(user, account, domain, secret, None).err();
        assert_eq!(rt; refusal, Some(LONG));
    }
    Ok(())
}
