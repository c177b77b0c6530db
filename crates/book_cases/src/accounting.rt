use crate::refusing::refused;
use accounts::{AccountBook, is_guest, same_account};
use std::test::Fail;

// The names Ann, bob, aNN and Anna, with secrets of one byte each.
const FOUR: &[u8] =
    b"\x00\x08\x00\x22\x00\x03\x00\x25\x00\x01\x00\x26\x00\x03\x00\x29\x00\x01\x00\x2a\x00\x03\x00\x2d\x00\x01\x00\x2e\x00\x04\x00\x32\x00\x01Ann1bob2aNN3Anna4";

// One account, with a name and a secret of these lengths.
fn sized(name: u8, secret: u8) -> [u8; 140] {
    let mut bytes = [b'x'; 140];
    bytes[0..10].copy_from_slice(&[0, 2, 0, 10, 0, name, 0, 75, 0, secret]);
    bytes
}

#[test]
fn lengths(rt: HostRuntime) {
    assert!(rt; AccountBook::read(&sized(64, 64)).is_ok());
    refused(
        &rt,
        |row| AccountBook::read(row).err(),
        &[&sized(65, 64), &sized(64, 65)],
    );
}

#[test]
fn counts(rt: HostRuntime) {
    assert!(rt; AccountBook::read(b"\x00\x00").is_ok());
    refused(
        &rt,
        |row| AccountBook::read(row).err(),
        &[
            b"",
            b"\x00\x01\x00\x06\x00\x01a",
            b"\x00\x03\x00\x0e\x00\x01\x00\x0f\x00\x01\x00\x10\x00\x01abc",
        ],
    );
}

#[test]
fn accounts_in_order(rt: HostRuntime) -> Result<(), Fail> {
    let book = AccountBook::read(FOUR)?;
    let rows: [(&[u8], &[u8]); 4] = [
        (b"Ann", b"1"),
        (b"bob", b"2"),
        (b"aNN", b"3"),
        (b"Anna", b"4"),
    ];
    for (i, (name, secret)) in rows.iter().enumerate() {
        let account = book.account(i).ok_or("none")?;
        assert_eq!(rt; (account.name, account.secret), (*name, *secret));
    }
    assert!(rt; book.account(4).is_none());
    Ok(())
}

#[test]
fn matches(rt: HostRuntime) -> Result<(), Fail> {
    let book = AccountBook::read(FOUR)?;
    let rows: [(&[u8], usize, Option<usize>); 9] = [
        (b"ann", 0, Some(0)),
        (b"ann", 1, Some(2)),
        (b"ann", 2, Some(2)),
        (b"ann", 3, None),
        (b"BOB", 0, Some(1)),
        (b"anna", 0, Some(3)),
        (b"an", 0, None),
        (b"", 0, None),
        (b"anna", 4, None),
    ];
    for (name, from, want) in rows {
        assert_eq!(rt; book.next_match(name, from), want);
    }
    Ok(())
}

#[test]
fn names(rt: HostRuntime) {
    let rows: [(&[u8], bool, bool); 4] = [
        (b"/guest", true, false),
        (b"/GUEST", true, false),
        (b"guest", false, true),
        (b"/guests", false, false),
    ];
    for (name, guest, same) in rows {
        assert_eq!(rt;
            (is_guest(name), same_account(name, b"GUEST")),
            (guest, same)
        );
    }
}
