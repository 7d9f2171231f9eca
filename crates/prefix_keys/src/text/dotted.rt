//! IPv4 addresses in dotted decimal form.
ghost use Rattle.std.specs.Prelude.{◌≡◌};
ghost use Rattle.prefix_keys.specs.Text.{dotted_address};

use crate::cutting::cut;
use crate::decimal::read_decimal;

/// Reads an IPv4 address in dotted decimal form, and returns its number.
pub fn read_dotted(text: &[u8]) -> Option<u32>
    ensures { result ≡ dotted_address text.now }
{
    let (first, rest) = cut(text, b'.');
    let (second, rest) = cut(rest, b'.');
    let (third, fourth) = cut(rest, b'.');
    let a = read_decimal(first, 3, 255)?;
    let b = read_decimal(second, 3, 255)?;
    let c = read_decimal(third, 3, 255)?;
    let d = read_decimal(fourth, 3, 255)?;
    Some((((a * 256 + b) * 256 + c) * 256 + d) as u32)
}
