ghost use Rattle.std.specs.Prelude.{◌≡◌, ◌≤◌, ◌<◌, ◌+◌, ◌*◌, ◌-◌, ◌^◌, IfSome, Some};
ghost use Rattle.std.specs.Prelude.{None, [], ◌∷◌, option_map, nat_le, if◌then◌else◌};
ghost use Rattle.std.specs.Char.{is_ascii_hexdigit};
ghost use Rattle.prefix_keys.specs.Text.{hex_digit_value, hex_group, text_groups};
ghost use Rattle.prefix_keys.specs.Text.{around_gap, last_groups, colon_address};
ghost use Rattle.prefix_keys.specs.Inner.{BeginsWith, BeginsWithSide, is_colon_byte, more_groups, piece_groups};

use crate::cutting::cut;
use crate::text::dotted::read_dotted;

// At most eight groups of 16 bits: their count, and the number that they form, the first group highest.
#[derive(Clone, Copy)]
struct Groups {
    count: u32,
    number: u128,
    ghost count_in_range: { count ≤ 8 },
    ghost in_range: { number < 2 ^ (16 * count) },
}

// No groups.
const NONE: Groups = Groups {
    count: 0,
    number: 0,
};

impl Groups {
    // Returns these groups followed by `group`, or `None` if there are eight already.
    fn push(self, group: u32) -> Option<Groups>
        requires { group < 65536 }
        ensures { option_map (λ groups. (groups.count, groups.number)) result
            ≡ more_groups self.count self.number (Some (group ∷ [])) }
    {
        if self.count < 8 {
            Some(Groups {
                count: self.count + 1,
                number: self.number * 65536 + u128::from(group),
            })
        } else {
            None
        }
    }

    // Returns these groups followed by those of the last piece: one group, or two if an IPv4 text is allowed and the
    // piece is one.
    fn push_last(self, piece: &[u8], dotted: bool) -> Option<Groups>
        ensures { option_map (λ groups. (groups.count, groups.number)) result
            ≡ more_groups self.count self.number (last_groups dotted piece.now) }
    {
        if dotted && piece.contains(&b'.') {
            let value = read_dotted(piece)?;
            self.push(value / 65536)?.push(value % 65536)
        } else {
            self.push(read_group(piece)?)
        }
    }
}

// The value of each byte as a hexadecimal digit, or 99.
static DIGITS: [u8; 256] = [
    99, 99, 99, 99, 99, 99, 99, 99, 99, 99, 99, 99, 99, 99, 99, 99, 99, 99, 99, 99, 99, 99, 99, 99,
    99, 99, 99, 99, 99, 99, 99, 99, 99, 99, 99, 99, 99, 99, 99, 99, 99, 99, 99, 99, 99, 99, 99, 99,
    0, 1, 2, 3, 4, 5, 6, 7, 8, 9, 99, 99, 99, 99, 99, 99, 99, 10, 11, 12, 13, 14, 15, 99, 99, 99,
    99, 99, 99, 99, 99, 99, 99, 99, 99, 99, 99, 99, 99, 99, 99, 99, 99, 99, 99, 99, 99, 99, 99, 10,
    11, 12, 13, 14, 15, 99, 99, 99, 99, 99, 99, 99, 99, 99, 99, 99, 99, 99, 99, 99, 99, 99, 99, 99,
    99, 99, 99, 99, 99, 99, 99, 99, 99, 99, 99, 99, 99, 99, 99, 99, 99, 99, 99, 99, 99, 99, 99, 99,
    99, 99, 99, 99, 99, 99, 99, 99, 99, 99, 99, 99, 99, 99, 99, 99, 99, 99, 99, 99, 99, 99, 99, 99,
    99, 99, 99, 99, 99, 99, 99, 99, 99, 99, 99, 99, 99, 99, 99, 99, 99, 99, 99, 99, 99, 99, 99, 99,
    99, 99, 99, 99, 99, 99, 99, 99, 99, 99, 99, 99, 99, 99, 99, 99, 99, 99, 99, 99, 99, 99, 99, 99,
    99, 99, 99, 99, 99, 99, 99, 99, 99, 99, 99, 99, 99, 99, 99, 99, 99, 99, 99, 99, 99, 99, 99, 99,
    99, 99, 99, 99, 99, 99, 99, 99, 99, 99, 99, 99, 99, 99,
];

// Returns the value of a hexadecimal digit.
#[inline(always)]
fn digit_value(byte: u8) -> Option<u32>
    ensures value { result ≡ if is_ascii_hexdigit byte then Some (hex_digit_value byte) else None }
    ensures limited { IfSome result (λ digit. digit < 16) }
{
    let digit = DIGITS[byte as usize];
    if digit < 16 {
        Some(u32::from(digit))
    } else {
        None
    }
}

// Returns the group that one to four hexadecimal digits represent.
fn read_group(text: &[u8]) -> Option<u32>
    ensures value { result ≡ hex_group text.now }
    ensures limited { IfSome result (λ group. group < 65536) }
{
    if text.is_empty() || text.len() > 4 {
        return None;
    }
    let mut group = 0;
    for b in text {
        group = group * 16 + digit_value(*b)?;
    }
    Some(group)
}

// Returns the groups of a text of pieces separated by colons, or `None` if it is malformed or has more than eight.
fn read_groups(text: &[u8], dotted: bool) -> Option<Groups>
    ensures { option_map (λ groups. (groups.count, groups.number)) result
        ≡ more_groups 0 0 (piece_groups dotted text.now) }
{
    let mut groups = NONE;
    let mut rest = text;
    loop {
        let (piece, following) = cut(rest, b':');
        if piece.len() == rest.len() {
            return groups.push_last(piece, dotted);
        }
        groups = groups.push(read_group(piece)?)?;
        rest = following;
    }
}

// Returns the groups on one side of a `::`, or `None` if the side is malformed or has more than eight. A side may be
// empty.
fn read_side(text: &[u8], dotted: bool) -> Option<Groups>
    ensures { option_map (λ groups. (groups.count, groups.number)) result
        ≡ more_groups 0 0 (text_groups dotted text.now) }
{
    if text.is_empty() {
        Some(NONE)
    } else {
        read_groups(text, dotted)
    }
}

// Returns the text before the first `::`, and the text after it.
fn cut_gap(text: &[u8]) -> Option<(&[u8], &[u8])>
    ensures { option_map (λ sides. (sides.0.now, sides.1.now)) result ≡ around_gap text.now }
{
    for at in 1..text.len() {
        if text[at - 1] == b':' && text[at] == b':' {
            return Some((&text[..at - 1], &text[at + 1..]));
        }
    }
    None
}

// Returns the number of eight groups: those of the front, zeros, and those of the back. Returns `None` if there is no
// room for at least one group of zeros.
fn join(front: Groups, back: Groups) -> Option<u128>
    ensures { result ≡ if nat_le (front.count + back.count) 7
        then Some (front.number * 2 ^ (16 * (8 - front.count)) + back.number)
        else None }
{
    if front.count + back.count > 7 {
        return None;
    }
    let high = (front.number << (16 * (7 - front.count))) << 16;
    Some(high + back.number)
}

/// Reads an IPv6 address in one of the forms of RFC 4291, section 2.2, and returns its number.
pub fn read_colon(text: &[u8]) -> Option<u128>
    ensures { result ≡ colon_address text.now }
{
    let Some((front, back)) = cut_gap(text) else {
        let groups = read_side(text, true)?;
        return if groups.count == 8 {
            Some(groups.number)
        } else {
            None
        };
    };
    join(read_side(front, false)?, read_side(back, true)?)
}

// Returns the group of one to four hexadecimal digits at the start of a text, and the rest of the text. Returns `None`
// if there is no such group, or if the text ends after it or goes on with another digit.
#[inline(always)]
fn leading_group(text: &[u8]) -> Option<(u32, &[u8])>
    ensures group { IfSome result (λ r. BeginsWith is_ascii_hexdigit hex_group text.now r.1.now r.0) }
    ensures limited { IfSome result (λ r. r.0 < 65536) }
{
    let mut group = 0;
    for (at, byte) in text.iter().enumerate() {
        let Some(digit) = digit_value(*byte) else {
            return if at > 0 {
                Some((group, &text[at..]))
            } else {
                None
            };
        };
        if at == 4 {
            return None;
        }
        group = group * 16 + digit;
    }
    None
}

// Returns the text after a single colon at the start of a text.
#[inline(always)]
fn after_colon(text: &[u8]) -> Option<&[u8]>
    ensures { IfSome result (λ r. text.now ≡ 58 ∷ r.now) }
{
    match text {
        [b':', b':', ..] => None,
        [b':', rest @ ..] => Some(rest),
        _ => None,
    }
}

// Returns the groups, separated by colons, at the start of a text, and the rest of the text. Returns `None` if there
// are more than eight.
#[inline(always)]
fn leading_groups(text: &[u8]) -> Option<(Groups, &[u8])>
    ensures { IfSome result (λ r. BeginsWithSide text.now r.1.now r.0.count r.0.number) }
{
    let mut groups = NONE;
    let mut rest = text;
    loop {
        let (group, following) = leading_group(rest)?;
        groups = groups.push(group)?;
        match after_colon(following) {
            Some(next) => rest = next,
            None => return Some((groups, following)),
        }
    }
}

// Like [`leading_groups`], but returns no groups if the text does not start with a hexadecimal digit.
#[inline(always)]
fn leading_side(text: &[u8]) -> Option<(Groups, &[u8])>
    ensures { IfSome result (λ r. BeginsWithSide text.now r.1.now r.0.count r.0.number) }
{
    match text.first() {
        Some(byte) if digit_value(*byte).is_some() => leading_groups(text),
        _ => Some((NONE, text)),
    }
}

// Returns the text after the `::` at the start of a text.
#[inline(always)]
fn after_gap(text: &[u8]) -> Option<&[u8]>
    ensures { IfSome result (λ r. text.now ≡ 58 ∷ 58 ∷ r.now) }
{
    match text {
        [b':', b':', rest @ ..] => Some(rest),
        _ => None,
    }
}

/// Reads an IPv6 address without a dotted part at the start of a text, and returns its number and the rest of the text.
/// The text is read in one pass. If this function returns `None`, only `read_addr` can decide whether the text is an
/// address.
#[inline(always)]
pub fn leading_colon(text: &[u8]) -> Option<(u128, &[u8])>
    ensures { IfSome result (λ r. BeginsWith is_colon_byte colon_address text.now r.1.now r.0) }
{
    let (front, rest) = leading_side(text)?;
    match after_gap(rest) {
        Some(following) => {
            let (back, rest) = leading_side(following)?;
            Some((join(front, back)?, rest))
        }
        None if front.count == 8 => Some((front.number, rest)),
        None => None,
    }
}
