ghost use Rattle.std.specs.Prelude.{◌≡◌, ◌<◌, length};
ghost use Rattle.der.specs.Writing.{Adds};
ghost use Rattle.spnego.specs.Reading.{seen};
ghost use Rattle.spnego.specs.Tokens.{field as fieldBytes, inside};
ghost use Rattle.spnego_writer.specs.Writing.{inside_len, field_len};

use der::{INVALID, Writer, element_len};
use spnego::{Field, Kind};
use sspi::Fault;

// The length of a part of n bytes, as it stands inside its field.
fn inside_len(kind: Kind, n: usize) -> Result<usize, Fault>
    ensures { result ≡ inside_len kind n }
{
    match kind.wrapper() {
        None => Ok(n),
        Some(_) => element_len(n),
    }
}

// The length of a field whose part is legal.
pub(crate) fn field_len(kind: Kind, part: Option<&[u8]>) -> Result<usize, Fault>
    ensures { result ≡ field_len kind (seen part.entry) }
{
    let Some(part) = part else {
        return Ok(0);
    };
    if !kind.is_legal(part) {
        return Err(INVALID);
    }
    element_len(inside_len(kind, part.len())?)
}

// Writes the part as it stands inside its field. As above it, its length is known: all lengths are computed before the first byte is written.
fn put_inside(w: &mut Writer<'_>, kind: Kind, part: &[u8]) -> Result<(), Fault>
    requires { length (inside kind part.now) < 65536 }
    ensures { Adds (inside kind part.now) w.old w.new result }
{
    match kind.wrapper() {
        None => w.put_bytes(part),
        Some(tag) => w.put_element(tag, part),
    }
}

// Writes a field, which may be absent.
pub(crate) fn put_field(w: &mut Writer<'_>, field: Field, part: Option<&[u8]>) -> Result<(), Fault>
    requires { length (fieldBytes field.tag field.kind (seen part)) < 65536 }
    ensures { Adds (fieldBytes field.tag field.kind (seen part.entry)) w.old w.new result }
{
    let Some(part) = part else {
        return Ok(());
    };
    w.put_header(field.tag, inside_len(field.kind, part.len())?)?;
    put_inside(w, field.kind, part)
}
