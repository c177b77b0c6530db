ghost use Rattle.std.specs.Prelude.{◌≡◌, length};
ghost use Rattle.der.specs.Elements.{header, element};
ghost use Rattle.der.specs.Placing.{end_of, put, end_if, put_if};

use crate::{Writer, element_len};
use sspi::Fault;

// Writes the bytes from the place `at` on, and gives the place behind them.
pub fn put_bytes(out: &mut [u8], at: usize, bytes: &[u8]) -> Result<usize, Fault>
    ensures answer { result ≡ end_of out.old at bytes.now }
    ensures holds { out.new ≡ put out.old at bytes.now }
{
    let mut w = Writer::new(out);
    w.skip(at)?;
    w.put_bytes(bytes)?;
    Ok(w.len())
}

// Writes the header of an element with n bytes of content.
pub fn put_header(out: &mut [u8], at: usize, tag: u8, n: usize) -> Result<usize, Fault>
    ensures answer { result ≡ end_if n out.old at (header tag n) }
    ensures holds { out.new ≡ put_if n out.old at (header tag n) }
{
    element_len(n)?;
    let mut w = Writer::new(out);
    w.skip(at)?;
    w.put_header(tag, n)?;
    Ok(w.len())
}

// Writes an element: its header, and behind it the content.
pub fn put_element(out: &mut [u8], at: usize, tag: u8, content: &[u8]) -> Result<usize, Fault>
    ensures answer { result ≡ end_if (length content.now) out.old at (element tag content.now) }
    ensures holds { out.new ≡ put_if (length content.now) out.old at (element tag content.now) }
{
    element_len(content.len())?;
    let mut w = Writer::new(out);
    w.skip(at)?;
    w.put_element(tag, content)?;
    Ok(w.len())
}
