#![tactic(auto)]

ghost use Rattle.std.specs.Prelude.{◌≡◌, ◌<◌, ◌≤◌, length, is_ok, IsOk};
ghost use Rattle.der.specs.Writing.{Adds};
ghost use Rattle.der.specs.Promises.{Exact, Writes};
ghost use Rattle.mech_types.specs.Reading.{next_of, plain_next, oids_of, read_mech_type_list};
ghost use Rattle.mech_types.specs.Lists.{oids as oidsBytes, mech_type_list, GoodList};
ghost use Rattle.mech_types.specs.Views.{plain_oids};
ghost use Rattle.mech_types.specs.Writing.{add_oid, oids_len_from};
ghost use Rattle.std.specs.Result.{result_ok};

use der::{ILLEGAL, INVALID, TOO_SMALL, Writer, element_len, is_oid, only, take};
use sspi::Fault;

// Takes one object identifier off the front: its content, and what follows it.
pub fn next_oid(input: &[u8]) -> Result<(&[u8], &[u8]), Fault>
    ensures { plain_next result ≡ next_of input.now }
{
    let (tag, content, rest) = take(input)?;
    if tag != 0x06 || !is_oid(content) {
        return Err(ILLEGAL);
    }
    Ok((content, rest))
}

// A list of mechanisms: legal object identifiers, one behind the other, as parts of the bytes that were read. It gives them in order.
#[derive(Clone, Copy)]
pub struct MechTypeList<'a> {
    oids: &'a [u8],
    ghost legal: { IsOk (oids_of oids.now) },
}

impl<'a> MechTypeList<'a> {
    ghost use Rattle.mech_types.specs.Listed.{listed, list_read, splits, split};

    // Reads a list that fills the input.
    #[tactic(auto, using(crate::proofs::Listing::exact_at_list), unfolding(crate::specs::Reading::read_mech_type_list))]
    pub fn read(input: &'a [u8]) -> Result<MechTypeList<'a>, Fault>
        ensures answer { list_read result ≡ read_mech_type_list input.now }
        ensures test { is_ok result ≡ is_ok (read_mech_type_list input.now) }
        ensures exact { Exact GoodList mech_type_list input.now (list_read result) }
    {
        let oids = only(input, 0x30)?;
        // A loop over bytes: an iterator would first have to be known to be legal.
        let mut rest = oids;
        while !rest.is_empty() {
            (_, rest) = next_oid(rest)?;
        }
        Ok(MechTypeList { oids })
    }

    // The first object identifier, and the list of the others.
    pub fn split_first(&self) -> Option<(&'a [u8], MechTypeList<'a>)>
        ensures answer { splits result ≡ result_ok (next_of self.now.oids.now) }
        ensures walks { split result ≡ listed self.now }
    {
        let (oid, oids) = next_oid(self.oids).ok()?;
        Some((oid, MechTypeList { oids }))
    }

    // Writes the list of these object identifiers to the front of `out`, and gives its length. The steps are those of a token, whose trait
    // stands in a crate above.
    pub fn write(oids: &[&[u8]], out: &mut [u8]) -> Result<usize, Fault>
        ensures { Writes (GoodList (plain_oids oids.now)) (mech_type_list (plain_oids oids.now)) out.old out.new result }
    {
        let body = oids_len(oids)?;
        if out.len() < element_len(body)? {
            return Err(TOO_SMALL);
        }
        let mut w = Writer::new(out);
        w.put_header(0x30, body)?;
        put_oids(&mut w, oids)?;
        Ok(w.len())
    }
}

impl<'a> Iterator for MechTypeList<'a> {
    ghost use Rattle.std.specs.Iterator.{YieldsFirstRef, item_count};
    ghost use Rattle.mech_types.specs.Listed.{items};

    type Item = &'a [u8];

    ghost next_gives = { YieldsFirstRef items };

    ghost remaining = { item_count items };

    fn next(&mut self) -> Option<&'a [u8]> {
        let (first, others) = self.split_first()?;
        *self = others;
        Some(first)
    }
}

// The length with one object identifier more.
fn add_oid(total: usize, oid: &[u8]) -> Result<usize, Fault>
    requires { total ≤ 65535 }
    ensures { result ≡ add_oid total oid.now }
{
    if !is_oid(oid) {
        return Err(INVALID);
    }
    let n = element_len(oid.len())?;
    if n > 65535 - total {
        return Err(INVALID);
    }
    Ok(total + n)
}

// The length of the object identifiers, one behind the other.
fn oids_len(oids: &[&[u8]]) -> Result<usize, Fault>
    ensures { result ≡ oids_len_from 0 (plain_oids oids.now) }
{
    let mut total = 0;
    for oid in oids {
        total = add_oid(total, oid)?;
    }
    Ok(total)
}

// Writes the object identifiers, one behind the other, whose length was computed before.
fn put_oids(w: &mut Writer<'_>, oids: &[&[u8]]) -> Result<(), Fault>
    requires { length (oidsBytes (plain_oids oids.now)) < 65536 }
    ensures { Adds (oidsBytes (plain_oids oids.now)) w.old w.new result }
{
    for oid in oids {
        w.put_element(0x06, oid)?;
    }
    Ok(())
}
