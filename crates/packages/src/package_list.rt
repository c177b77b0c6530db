ghost use Rattle.std.specs.Prelude.{◌≡◌, ℕ, true, false, not, List, [], ◌∷◌, if◌then◌else◌, Some};
ghost use Rattle.packages.specs.Filter.{is_open};
ghost use Rattle.packages.specs.Packages.{all_switch_off, any_open, each, entries, named, name_of, negative, parsed};
ghost use Rattle.packages.specs.Walk.{after};
ghost use Rattle.text.specs.Cases.{same_ignoring_case, small};
ghost use Rattle.text.specs.Pieces.{seen};

use crate::protocol::Protocol;
use text::{eq_ignore_ascii_case, pieces};

// Which packages are open.
#[derive(Clone, Copy, PartialEq, Eq, Debug)]
pub struct PackageListConfig {
    pub ntlm: bool,
    pub kerberos: bool,
    pub pku2u: bool,
}

const ALL: PackageListConfig = PackageListConfig {
    ntlm: true,
    kerberos: true,
    pku2u: true,
};

const NONE: PackageListConfig = PackageListConfig {
    ntlm: false,
    kerberos: false,
    pku2u: false,
};

impl PackageListConfig {
    // The packages that a list leaves open. Entries stand between commas; one that begins with `!` switches its package off.
    // `use_default` says that every entry so far had `!`.
    pub fn parse(package_list: Option<&[u8]>) -> PackageListConfig
        ensures answer { result ≡ parsed (seen package_list.entry) }
        ensures any_case { (a b : List ℕ) → seen package_list.entry ≡ Some a → small a ≡ small b → result ≡ parsed (Some b) }
        ensures closing { (a : List ℕ) → seen package_list.entry ≡ Some a → all_switch_off (entries a) ≡ true → result ≡ each (λ p. not (named p (entries a))) }
        ensures single { (a : List ℕ) → seen package_list.entry ≡ Some a → entries a ≡ a ∷ [] → negative a ≡ false → result ≡ each (λ p. same_ignoring_case a p) }
    {
        let Some(list) = package_list else {
            return ALL;
        };
        let mut config = ALL;
        let mut use_default = true;
        for entry in pieces(list, b',') {
            let (off, name) = split_sign(entry);
            config = config.switched(name, off, use_default);
            use_default &= off;
        }
        config
    }

    // Whether one package is open.
    pub(crate) fn any(self) -> bool
        ensures { result ≡ any_open self }
    {
        self.ntlm || self.kerberos || self.pku2u
    }

    // Whether the package of the protocol is open.
    pub(crate) fn is_open(self, protocol: Protocol) -> bool
        ensures { result ≡ is_open self protocol }
    {
        match protocol {
            Protocol::Kerberos => self.kerberos,
            Protocol::Ntlm => self.ntlm,
            Protocol::Pku2u => self.pku2u,
        }
    }

    // The packages after one more entry; the first without `!` closes all before it opens its own.
    // Each flag is written once, beside the name of its package.
    fn switched(self, name: &[u8], off: bool, use_default: bool) -> PackageListConfig
        ensures { result ≡ after use_default self off name.now }
    {
        let before = if use_default && !off { NONE } else { self };
        PackageListConfig {
            ntlm: flag_after(before.ntlm, name, b"ntlm", off),
            kerberos: flag_after(before.kerberos, name, b"kerberos", off),
            pku2u: flag_after(before.pku2u, name, b"pku2u", off),
        }
    }
}

// A package's flag after an entry with this name.
fn flag_after(flag: bool, name: &[u8], wanted: &[u8], off: bool) -> bool
    ensures { result ≡ (if same_ignoring_case name.now wanted.now then not off else flag) }
{
    if eq_ignore_ascii_case(name, wanted) {
        !off
    } else {
        flag
    }
}

// Whether an entry begins with `!`, and the name in it, which is there in both cases.
fn split_sign(entry: &[u8]) -> (bool, &[u8])
    ensures sign { result.0 ≡ negative entry.now }
    ensures name { result.1.now ≡ name_of entry.now }
{
    match entry {
        [b'!', name @ ..] => (true, name),
        _ => (false, entry),
    }
}
