ghost use Rattle.std.specs.Prelude.{◌≡◌, option_map};
ghost use Rattle.std.specs.Result.{result_map_both};
ghost use Rattle.prefix_keys.specs.Text.{address_of, block_of_text};

mod colon;
mod dotted;

use crate::addr::Addr;
use crate::block::{Block, block_of};
use crate::cutting::cut;
use crate::decimal::read_decimal;
pub use crate::text::colon::leading_colon;
use crate::text::colon::read_colon;
use crate::text::dotted::read_dotted;
use crate::version::Version;
use thiserror::Error;

/// The reason why a text is not a block.
#[derive(Clone, Copy, Debug, PartialEq, Eq, Error)]
pub enum BlockFault {
    /// The text before the `/` is not an address.
    #[error("not an address")]
    BadAddress,
    /// There is no `/`, or the text after it is not a valid length for the address.
    #[error("not a block length")]
    BadLength,
}

/// Reads an address. Returns `None` if the text is not a written form of an address.
///
/// A text without a colon is an IPv4 address in dotted decimal form: four numbers from 0 to 255, of one to three digits
/// each, separated by points. Leading zeros are allowed, and the number is still decimal.
///
/// A text with a colon is an IPv6 address (RFC 4291, section 2.2): eight groups of one to four hexadecimal digits in
/// either case, separated by colons. One `::` may replace one or more groups of zero, and an IPv4 text may replace the
/// last two groups.
pub fn read_addr(text: &[u8]) -> Option<Addr>
    ensures { option_map (λ addr. (addr.version, addr.value)) result ≡ address_of text.now }
{
    if text.contains(&b':') {
        Some(Addr {
            version: Version::V6,
            value: read_colon(text)?,
        })
    } else {
        Some(Addr {
            version: Version::V4,
            value: u128::from(read_dotted(text)?),
        })
    }
}

/// Reads a block (RFC 4632, section 3.1): an address, a `/` and a length of one to three digits, at most the width of
/// the address. The host bits are cleared.
///
/// # Errors
///
/// Returns `BadAddress` if the text before the first `/`, or the whole text if there is no `/`, is not an address.
/// Otherwise returns `BadLength` if there is no `/` or the text after it is not a valid length.
pub fn read_block(text: &[u8]) -> Result<Block, BlockFault>
    ensures { result_map_both (λ block. (block.version, block.value, block.len)) (λ fault. fault) result
        ≡ block_of_text text.now }
{
    let (front, back) = cut(text, b'/');
    let Some(addr) = read_addr(front) else {
        return Err(BlockFault::BadAddress);
    };
    let Some(len) = read_decimal(back, 3, u64::from(addr.version.width())) else {
        return Err(BlockFault::BadLength);
    };
    Ok(block_of(addr, len as u32))
}
