#![tactic(auto)]

ghost use Rattle.std.specs.Prelude.{◌≡◌};
ghost use Rattle.targets.specs.Addresses.{decimal255, ipv4, hex_group, last_group, groups, cut_double, seen_pair, at_most_seven, ipv6, target_is_address};

use text::{after_last, pieces, split_once};

// Whether the text is a number from 0 to 255, with no zero in front.
#[tactic(auto, unfolding(crate::specs::Addresses::decimal255))]
fn is_decimal(text: &[u8]) -> bool
    ensures { result ≡ decimal255 text.now }
{
    matches!(
        text,
        [b'0'..=b'9']
            | [b'1'..=b'9', b'0'..=b'9']
            | [b'1', b'0'..=b'9', b'0'..=b'9']
            | [b'2', b'0'..=b'4', b'0'..=b'9']
            | [b'2', b'5', b'0'..=b'5']
    )
}

// Whether the text is four such numbers, with a dot between each and the next. One walk, which ends at the first piece that is no number.
fn is_ipv4(text: &[u8]) -> bool
    ensures { result ≡ ipv4 text.now }
{
    let mut n: usize = 0;
    for number in pieces(text, b'.') {
        if !is_decimal(number) {
            return false;
        }
        n += 1;
    }
    n == 4
}

// Whether the text is one to four hexadecimal digits.
#[tactic(auto, unfolding(crate::specs::Addresses::hex_group))]
fn is_hex_group(text: &[u8]) -> bool
    ensures { result ≡ hex_group text.now }
{
    matches!(text.len(), 1..=4) && text.iter().all(u8::is_ascii_hexdigit)
}

// How many groups the last piece counts: one, or two for an IPv4 address where that is allowed.
fn last_group(last: &[u8], dotted: bool) -> Option<usize>
    ensures { result ≡ last_group dotted last.now }
{
    if is_hex_group(last) {
        Some(1)
    } else if dotted && is_ipv4(last) {
        Some(2)
    } else {
        None
    }
}

// How many groups the text is, with a colon between each and the next; where `dotted`, the last may be an IPv4 address.
fn count_groups(text: &[u8], dotted: bool) -> Option<usize>
    ensures { result ≡ groups dotted text.now }
{
    if text.is_empty() {
        return Some(0);
    }
    let mut n: usize = 0;
    let (mut group, mut rest) = split_once(text, b':');
    while let Some(tail) = rest {
        // Before the next piece is looked for: the walk ends at the first that is no group.
        if !is_hex_group(group) {
            return None;
        }
        n += 1;
        (group, rest) = split_once(tail, b':');
    }
    Some(n + last_group(group, dotted)?)
}

// The text before the first two colons in a row, and the text behind them.
fn split_double(text: &[u8]) -> Option<(&[u8], &[u8])>
    ensures { seen_pair result ≡ cut_double text.now }
{
    let i = text
        .array_windows::<2>()
        .position(|[a, b]| *a == b':' && *b == b':')?;
    Some((&text[..i], &text[i + 2..]))
}

// Whether there are groups on both sides, at most seven together.
fn is_at_most_seven(m: Option<usize>, n: Option<usize>) -> bool
    ensures { result ≡ at_most_seven m n }
{
    match (m, n) {
        (Some(m), Some(n)) => m <= 7 && n <= 7 - m,
        _ => false,
    }
}

// Whether the text is eight groups, or at most seven around two colons in a row.
#[tactic(auto, unfolding(crate::specs::Addresses::ipv6))]
fn is_ipv6(text: &[u8]) -> bool
    ensures { result ≡ ipv6 text.now }
{
    match split_double(text) {
        None => count_groups(text, true) == Some(8),
        Some((front, back)) => is_at_most_seven(
            count_groups(front, false),
            count_groups(back, true),
        ),
    }
}

// Whether what stands behind the target's last slash is an IPv4 or an IPv6 address.
#[tactic(auto, unfolding(crate::specs::Addresses::target_is_address))]
pub fn is_target_name_ip_address(target: &[u8]) -> bool
    ensures { result ≡ target_is_address target.now }
{
    let name = after_last(target, b'/');
    is_ipv4(name) || is_ipv6(name)
}
