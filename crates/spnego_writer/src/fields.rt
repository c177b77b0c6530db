ghost use Rattle.std.specs.Prelude.{◌≡◌, ◌<◌, length};
ghost use Rattle.der.specs.Writing.{Adds};
ghost use Rattle.spnego.specs.Tokens.{four_fields, sequence};
ghost use Rattle.spnego.specs.Views.{plain_fields};
ghost use Rattle.spnego_writer.specs.Writing.{sequence_len};

use crate::part::{field_len, put_field};
use der::{Writer, element_len};
use spnego::{Layout, TokenFields};
use sspi::Fault;

// The lengths of the four fields, whose parts are legal, and of the sequence around them.
pub(crate) fn sequence_len(fields: TokenFields<'_>, layout: Layout) -> Result<(usize, usize), Fault>
    ensures { result ≡ sequence_len layout.first layout.second (plain_fields fields.entry) }
{
    let [a, b, c, d] = layout.fields();
    let a = field_len(a.kind, fields.first)?;
    let b = field_len(b.kind, fields.second)?;
    let c = field_len(c.kind, fields.third)?;
    let d = field_len(d.kind, fields.fourth)?;
    let body = a + b + c + d;
    Ok((body, element_len(body)?))
}

// Writes the sequence of the four fields, which take `body` bytes.
pub(crate) fn put_sequence(
    w: &mut Writer<'_>,
    fields: TokenFields<'_>,
    layout: Layout,
    body: usize,
) -> Result<(), Fault>
    requires { (body ≡ length (four_fields layout.first layout.second (plain_fields fields))) × (body < 65536) }
    ensures { Adds (sequence layout.first layout.second (plain_fields fields.entry)) w.old w.new result }
{
    w.put_header(0x30, body)?;
    let [a, b, c, d] = layout.fields();
    put_field(w, a, fields.first)?;
    put_field(w, b, fields.second)?;
    put_field(w, c, fields.third)?;
    put_field(w, d, fields.fourth)
}
