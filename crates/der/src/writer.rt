ghost use Rattle.std.specs.Prelude.{◌≡◌, ◌+◌, ◌<◌, ◌≤◌, [], length, MatchResult};

use crate::{INVALID, TOO_SMALL, element_len};
use sspi::Fault;

// A place in a lent buffer: what is before it has been written, and what is behind it is room.
#[derive(Drop)]
pub struct Writer<'a> {
    out: &'a mut [u8],
    at: usize,
    ghost within: { at ≤ length out.now },
}

impl<'a> Writer<'a> {
    ghost use Rattle.der.specs.Elements.{header, element};
    ghost use Rattle.der.specs.Writing.{written, room, too_small, Puts};

    // A writer at the front of the buffer.
    pub fn new(out: &'a mut [u8]) -> Writer<'a>
        ensures lent { result.out.ghost_name ≡ out.entry.ghost_name }
        ensures written { written result ≡ [] }
        ensures room { room result ≡ out.old }
    {
        Writer { out, at: 0 }
    }

    // How many bytes have been written.
    pub fn len(&self) -> usize
        ensures { result ≡ length (written self.now) }
    {
        self.at
    }

    // How many bytes there is room for.
    pub fn room(&self) -> usize
        ensures { result ≡ length (room self.now) }
    {
        self.out.len() - self.at
    }

    // Goes over the next n bytes, which stay as they are.
    pub(crate) fn skip(&mut self, n: usize) -> Result<(), Fault>
        ensures lent { self.new.out.ghost_name ≡ self.old.out.ghost_name }
        ensures buffer { self.new.out.now ≡ self.old.out.now }
        ensures place { MatchResult result
            (λ _. (n ≤ length (room self.old)) × (self.new.at ≡ self.old.at + n))
            (λ e. (e ≡ too_small) × (length (room self.old) < n) × (self.new.at ≡ self.old.at)) }
    {
        if n > self.room() {
            return Err(TOO_SMALL);
        }
        self.at += n;
        Ok(())
    }

    // Writes the bytes.
    pub fn put_bytes(&mut self, bytes: &[u8]) -> Result<(), Fault>
        ensures { Puts (Unit {0}) bytes.now self.old self.new result }
    {
        let n = bytes.len();
        if n > self.room() {
            return Err(TOO_SMALL);
        }
        self.out[self.at..self.at + n].copy_from_slice(bytes);
        self.at += n;
        Ok(())
    }

    // Writes the header of an element with n bytes of content.
    pub fn put_header(&mut self, tag: u8, n: usize) -> Result<(), Fault>
        ensures { Puts (n < 65536) (header tag n) self.old self.new result }
    {
        if n < 0x80 {
            self.put_bytes(&[tag, n as u8])
        } else if n < 0x100 {
            self.put_bytes(&[tag, 0x81, n as u8])
        } else if n < 0x10000 {
            // By division: with `to_be_bytes` the contract did not follow.
            self.put_bytes(&[tag, 0x82, (n / 256) as u8, (n % 256) as u8])
        } else {
            Err(INVALID)
        }
    }

    // Writes an element: its header, and behind it the content.
    pub fn put_element(&mut self, tag: u8, content: &[u8]) -> Result<(), Fault>
        ensures { Puts (length content.now < 65536) (element tag content.now) self.old self.new result }
    {
        if element_len(content.len())? > self.room() {
            return Err(TOO_SMALL);
        }
        self.put_header(tag, content.len())?;
        self.put_bytes(content)
    }
}
