use crate::refusing::refused;
use books::Book;
use std::process::Abort;
use std::test::Fail;

// Each row is read as a book with the entries beside it, and no others.
fn reads(rt: &impl Abort, rows: &[(&[u8], &[&[u8]])]) -> Result<(), Fail> {
    for (bytes, entries) in rows {
        let book = Book::read(bytes)?;
        assert_eq!(rt; book.len(), entries.len());
        for (i, entry) in entries.iter().enumerate() {
            assert_eq!(rt; book.entry(i), Some(*entry));
        }
        assert_eq!(rt; book.entry(entries.len()), None);
        assert!(rt; book.entries().eq(entries.iter().copied()));
    }
    Ok(())
}

// A byte string that counts n entries, with 129 pairs: each an empty entry at the end.
fn counting(n: u8) -> [u8; 518] {
    let mut bytes = [0; 518];
    bytes[1] = n;
    let (pairs, _) = bytes[2..].as_chunks_mut();
    pairs.fill([2, 6, 0, 0]);
    bytes
}

#[test]
fn counts(rt: HostRuntime) {
    assert!(rt; Book::read(&counting(128)).is_ok());
    refused(&rt, |row| Book::read(row).err(), &[&counting(129)]);
}

#[test]
fn sizes(rt: HostRuntime) {
    let bytes = [0; 8193];
    assert!(rt; Book::read(&bytes[0..8192]).is_ok());
    refused(&rt, |row| Book::read(row).err(), &[&bytes]);
}

#[test]
fn places(rt: HostRuntime) -> Result<(), Fail> {
    reads(
        &rt,
        &[
            // no entry
            (b"\x00\x00", &[]),
            // two entries that touch, two with a gap, two with bytes before and behind them, and two empty ones
            (
                b"\x00\x02\x00\x0a\x00\x02\x00\x0c\x00\x01abc",
                &[b"ab", b"c"],
            ),
            (
                b"\x00\x02\x00\x0a\x00\x01\x00\x0c\x00\x01abc",
                &[b"a", b"c"],
            ),
            (
                b"\x00\x02\x00\x0b\x00\x01\x00\x0c\x00\x01abcd",
                &[b"b", b"c"],
            ),
            (b"\x00\x02\x00\x0a\x00\x00\x00\x0a\x00\x00", &[b"", b""]),
        ],
    )
}

#[test]
fn places_that_are_not_legal(rt: HostRuntime) {
    refused(
        &rt,
        |row| Book::read(row).err(),
        &[
            // no count
            b"",
            b"\x00",
            b"\x01",
            // the first entry begins inside the pairs
            b"\x00\x02\x00\x09\x00\x01\x00\x0a\x00\x01abc",
            // the second begins before the first ends, and before the first begins
            b"\x00\x02\x00\x0a\x00\x02\x00\x0b\x00\x01abc",
            b"\x00\x02\x00\x0b\x00\x01\x00\x0a\x00\x01abc",
            // an entry ends one past the end, an empty one begins there, and the pairs end there
            b"\x00\x02\x00\x0a\x00\x01\x00\x0b\x00\x03abc",
            b"\x00\x02\x00\x0a\x00\x01\x00\x0e\x00\x00abc",
            b"\x00\x02\x00\x0a\x00\x00\x00\x0a\x00",
        ],
    );
}
