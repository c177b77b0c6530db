#![tactic(auto)]

ghost use Rattle.std.specs.Prelude.{◌≡◌};
ghost use Rattle.worked_examples.specs.Examples.{Examples, answers};

use packages::PackageListConfig;
use spnego::NegTokenTarg;
use targets::is_target_name_ip_address;

// What the code answers to ten examples: the packages that two lists leave open, whether five targets are addresses, and whether three
// byte strings are tokens.
#[derive(Clone, Copy)]
pub struct Answers {
    pub empty_list: PackageListConfig,
    pub kerberos_alone: PackageListConfig,
    pub behind_slash: bool,
    pub zeros: bool,
    pub seven_groups: bool,
    pub zero_in_front: bool,
    pub brackets: bool,
    pub shortest: bool,
    pub long_length: bool,
    pub byte_behind: bool,
}

// Runs the ten examples. They hold of the definitions, and the code answers so.
pub fn worked_examples() -> Answers
    ensures answer { result ≡ answers }
    ensures examples { Examples }
{
    Answers {
        empty_list: PackageListConfig::parse(Some(b"")),
        kerberos_alone: PackageListConfig::parse(Some(b"!ntlm,kerberos")),
        behind_slash: is_target_name_ip_address(b"HTTP/10.0.0.1"),
        zeros: is_target_name_ip_address(b"::"),
        seven_groups: is_target_name_ip_address(b"1:2:3:4:5:6:7::"),
        zero_in_front: is_target_name_ip_address(b"10.0.0.01"),
        brackets: is_target_name_ip_address(b"[::1]"),
        shortest: NegTokenTarg::read(&[0xa1, 0x02, 0x30, 0x00]).is_ok(),
        long_length: NegTokenTarg::read(&[0xa1, 0x03, 0x30, 0x81, 0x00]).is_ok(),
        byte_behind: NegTokenTarg::read(&[0xa1, 0x02, 0x30, 0x00, 0x00]).is_ok(),
    }
}
