ghost use Rattle.std.specs.Prelude.{◌≡◌, Some, Ok};
ghost use Rattle.names.specs.Names.{mech_oid, mech_of, mech_number, mech_numbered, mech_word, named};

use crate::named::{Named, Unnamed, with_spelling};
use std::fmt;

const SPNEGO: [u8; 6] = [0x2b, 6, 1, 5, 5, 2];

const MS_KRB5: [u8; 9] = [0x2a, 0x86, 0x48, 0x82, 0xf7, 0x12, 1, 2, 2];

const KRB5: [u8; 9] = [0x2a, 0x86, 0x48, 0x86, 0xf7, 0x12, 1, 2, 2];

const NTLM: [u8; 10] = [0x2b, 6, 1, 4, 1, 0x82, 0x37, 2, 2, 0x0a];

// A mechanism that has a name here; MsKrb5 is Kerberos under the identifier that old Windows gave it.
#[derive(Clone, Copy, PartialEq, Eq, Debug)]
pub enum Mech {
    Spnego,
    MsKrb5,
    Krb5,
    Ntlm,
}

const MECHS: [Mech; 4] = [Mech::Spnego, Mech::MsKrb5, Mech::Krb5, Mech::Ntlm];

impl Named for Mech {
    ghost spelling = { mech_oid };

    fn spelled(self) -> &'static [u8] {
        match self {
            Mech::Spnego => &SPNEGO,
            Mech::MsKrb5 => &MS_KRB5,
            Mech::Krb5 => &KRB5,
            Mech::Ntlm => &NTLM,
        }
    }
}

impl Mech {
    // The content of the mechanism's object identifier, lent without a writer.
    pub fn oid(self) -> &'static [u8]
        ensures { result.now ≡ mech_oid self }
    {
        self.spelled()
    }
}

impl fmt::Display for Mech {
    ghost output = { λ mech. Some (mech_word mech) };

    fn fmt<W: fmt::Write>(&self, f: &mut fmt::Formatter<W>) -> fmt::Result {
        f.write_str(match self {
            Mech::Spnego => "SPNEGO",
            Mech::MsKrb5 => "ms_krb5",
            Mech::Krb5 => "krb5",
            Mech::Ntlm => "NTLM",
        })
    }
}

// The mechanism with this object identifier.
impl TryFrom<&[u8]> for Mech {
    type Error = Unnamed;

    ghost try_from_gives = { λ oid mech. mech ≡ named (mech_of oid.now) };

    #[tactic(auto, unfolding(crate::specs::Names::mech_of))]
    fn try_from(oid: &[u8]) -> Result<Mech, Unnamed>
        ensures answer { result ≡ named (mech_of oid.now) }
        ensures back { (m : Mech) → result ≡ Ok m → oid.now ≡ mech_oid m }
        ensures found { (m : Mech) → oid.now ≡ mech_oid m → result ≡ Ok m }
    {
        with_spelling(&MECHS, oid).ok_or(Unnamed)
    }
}

// The number that names the mechanism in an answer of plain numbers.
impl From<Mech> for u32 {
    ghost from_gives = { λ mech n. n ≡ mech_number mech };

    #[tactic(auto, unfolding(crate::specs::Names::mech_numbered))]
    fn from(mech: Mech) -> u32
        ensures answer { result ≡ mech_number mech }
        ensures back { mech_numbered result ≡ Some mech }
    {
        mech as u32
    }
}

// The mechanism with this number.
impl TryFrom<u32> for Mech {
    type Error = Unnamed;

    ghost try_from_gives = { λ n mech. mech ≡ named (mech_numbered n) };

    #[tactic(auto, unfolding(crate::specs::Names::mech_numbered))]
    fn try_from(n: u32) -> Result<Mech, Unnamed>
        ensures answer { result ≡ named (mech_numbered n) }
        ensures back { (m : Mech) → result ≡ Ok m → mech_number m ≡ n }
    {
        match n {
            0 => Ok(Mech::Spnego),
            1 => Ok(Mech::MsKrb5),
            2 => Ok(Mech::Krb5),
            3 => Ok(Mech::Ntlm),
            _ => Err(Unnamed),
        }
    }
}
