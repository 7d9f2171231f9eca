//! Addresses and blocks at the start of a text, read in one pass over its bytes. If a function here returns `None`,
//! only the functions that read whole words can decide what the text is.
ghost use Rattle.std.specs.Prelude.{◌≡◌, ◌≤◌, ◌∷◌, IfSome};
ghost use Rattle.prefix_keys.specs.Inner.{BeginsWith};
ghost use Rattle.prefix_keys.specs.Text.{address_of, decimal_number, dotted_address, is_digit};
ghost use Rattle.pmap_text.specs.Inner.{BeginsWithBlank, IsWord, is_address_byte, is_dotted_byte};
ghost use Rattle.pmap_text.specs.Reading.{after_word, first_word, trim_start};

use crate::reading::lines::without_leading_blanks;
use pmap_model::is_blank;
use prefix_keys::{Addr, Block, Version, block_of, leading_colon};

/// The possible first word of a line.
#[derive(Clone, Copy)]
pub enum Word {
    Address(Addr),
    Block(Block),
}

// Returns the number of one to three digits at the start of a text, at most the limit, and the rest of the text.
// Returns `None` if the text ends after the number or goes on with another digit.
#[inline(always)]
fn leading_number(text: &[u8], limit: u32) -> Option<(u32, &[u8])>
    ensures number { IfSome result (λ r. BeginsWith is_digit (decimal_number 3 limit) text.now r.1.now r.0) }
    ensures limited { IfSome result (λ r. r.0 ≤ limit) }
{
    let mut number = 0;
    for (at, byte) in text.iter().enumerate() {
        if !byte.is_ascii_digit() {
            return if at > 0 && number <= limit {
                Some((number, &text[at..]))
            } else {
                None
            };
        }
        if at == 3 {
            return None;
        }
        number = number * 10 + u32::from(*byte - b'0');
    }
    None
}

// Returns the text after this byte at the start of a text.
#[inline(always)]
fn after_byte(text: &[u8], byte: u8) -> Option<&[u8]>
    ensures { IfSome result (λ r. text.now ≡ byte ∷ r.now) }
{
    match text {
        [first, rest @ ..] if *first == byte => Some(rest),
        _ => None,
    }
}

// Returns the number of the IPv4 address at the start of a text, and the rest of the text.
#[inline(always)]
fn leading_dotted(text: &[u8]) -> Option<(u32, &[u8])>
    ensures { IfSome result (λ r. BeginsWith is_dotted_byte dotted_address text.now r.1.now r.0) }
{
    // Most IPv6 addresses have their first colon here.
    if let [_, _, _, _, b':', ..] = text {
        return None;
    }
    let (a, rest) = leading_number(text, 255)?;
    let (b, rest) = leading_number(after_byte(rest, b'.')?, 255)?;
    let (c, rest) = leading_number(after_byte(rest, b'.')?, 255)?;
    let (d, rest) = leading_number(after_byte(rest, b'.')?, 255)?;
    Some((((a * 256 + b) * 256 + c) * 256 + d, rest))
}

// Returns the address of either version at the start of a text, and the rest of the text.
#[inline(always)]
fn leading_address(text: &[u8]) -> Option<(Addr, &[u8])>
    ensures { IfSome result (λ r. BeginsWith is_address_byte address_of text.now r.1.now (r.0.version, r.0.value)) }
{
    match leading_dotted(text) {
        Some((value, rest)) => {
            let addr = Addr {
                version: Version::V4,
                value: u128::from(value),
            };
            Some((addr, rest))
        }
        None => {
            let (value, rest) = leading_colon(text)?;
            let addr = Addr {
                version: Version::V6,
                value,
            };
            Some((addr, rest))
        }
    }
}

// Returns the text after one or more blanks at the start of a text.
#[inline(always)]
fn after_blanks(text: &[u8]) -> Option<&[u8]>
    ensures { IfSome result (λ r. BeginsWithBlank text.now × (r.now ≡ trim_start text.now)) }
{
    match text {
        [first, rest @ ..] if is_blank(*first) => Some(without_leading_blanks(rest)),
        _ => None,
    }
}

/// Reads an address or a block, followed by blanks, at the start of a text. Returns it as the first word, and the text
/// after the blanks.
#[inline(always)]
pub fn leading_word(text: &[u8]) -> Option<(Word, &[u8])>
    ensures word { IfSome result (λ r. IsWord (first_word text.now) r.0) }
    ensures rest { IfSome result (λ r. r.1.now ≡ after_word text.now) }
{
    let (addr, rest) = leading_address(text)?;
    match after_byte(rest, b'/') {
        Some(length) => {
            let (len, rest) = leading_number(length, addr.version.width())?;
            Some((Word::Block(block_of(addr, len)), after_blanks(rest)?))
        }
        None => Some((Word::Address(addr), after_blanks(rest)?)),
    }
}
