//! The texts of addresses and blocks.
ghost use Rattle.std.specs.Prelude.{◌≡◌, ◌+◌, ◌*◌, ◌/◌, ◌%◌, ◌^◌, ◌<◌, ◌≤◌, ◌++◌, OnOk, OnErr, drop, length};
ghost use Rattle.prefix_keys.specs.Block.{V4, V6};
ghost use Rattle.prefix_keys.specs.Print.{address_text, block_text, longest_run, address_groups};

mod digits;

use crate::addr::Addr;
use crate::block::Block;
use crate::version::Version;
use digits::{write_groups, write_octet};
use std::alloc::AllocError;

// The maximum length of a printed block in bytes: eight groups of four digits, each with a separator, and `/128`.
const CAPACITY: usize = 44;

// The minimum number of zero groups that `::` replaces.
const SHORTEST_GAP: usize = 2;

// Returns `bits` bits of `value`, starting at bit `place` from the low end.
fn part(value: u128, bits: u32, place: u32) -> u16
    requires narrow { bits ≤ 16 }
    requires within { bits * place < 128 }
    ensures { result ≡ value / 2 ^ (bits * place) % 2 ^ bits }
{
    ((value >> (bits * place)) % (1 << bits)) as u16
}

// Returns the eight groups of an IPv6 address, the highest first.
fn groups_of(value: u128) -> [u16; 8]
    ensures { result ≡ address_groups value }
{
    [
        part(value, 16, 7),
        part(value, 16, 6),
        part(value, 16, 5),
        part(value, 16, 4),
        part(value, 16, 3),
        part(value, 16, 2),
        part(value, 16, 1),
        part(value, 16, 0),
    ]
}

// Returns the index of the longest run of zero groups, and its length. Of runs of equal length it is the first.
fn longest_zeros(groups: &[u16]) -> (usize, usize)
    ensures run { result ≡ longest_run groups.now }
    ensures within { result.0 + result.1 ≤ length groups.now }
{
    let mut start = groups.len();
    let mut len = 0;
    let mut zeros = 0;
    // Iterating from the last group keeps the first of equal runs.
    for i in (0..groups.len()).rev() {
        zeros = if groups[i] == 0 { zeros + 1 } else { 0 };
        if zeros >= len {
            start = i;
            len = zeros;
        }
    }
    (start, len)
}

// Writes the text of an IPv4 address so that it ends at offset `end`, and returns the offset of its start.
#[inline(always)]
fn write_dotted(value: u128, buf: &mut [u8], end: usize) -> usize
    requires room { 16 ≤ end }
    requires within { end ≤ length buf.old }
    ensures start { result ≤ end }
    ensures room { end ≤ result + 15 }
    ensures written { drop result buf.new ≡ address_text V4 value ++ drop end buf.old }
{
    let at = write_octet(part(value, 8, 0), buf, end) - 1;
    buf[at] = b'.';
    let at = write_octet(part(value, 8, 1), buf, at) - 1;
    buf[at] = b'.';
    let at = write_octet(part(value, 8, 2), buf, at) - 1;
    buf[at] = b'.';
    write_octet(part(value, 8, 3), buf, at)
}

// Writes the text of an IPv6 address so that it ends at offset `end`, and returns the offset of its start.
fn write_colon(value: u128, buf: &mut [u8], end: usize) -> usize
    requires room { 40 ≤ end }
    requires within { end ≤ length buf.old }
    ensures start { result ≤ end }
    ensures room { end ≤ result + 40 }
    ensures written { drop result buf.new ≡ address_text V6 value ++ drop end buf.old }
{
    let groups = groups_of(value);
    let (start, len) = longest_zeros(&groups);
    if len < SHORTEST_GAP {
        return write_groups(&groups, buf, end);
    }
    let at = write_groups(&groups[start + len..], buf, end);
    buf[at - 1] = b':';
    buf[at - 2] = b':';
    write_groups(&groups[..start], buf, at - 2)
}

/// Writes the text of an address so that it ends at offset `end`, and returns the offset of its start: four decimal
/// numbers separated by points, or eight hexadecimal groups in which `::` replaces the longest run of two or more zeros
/// (RFC 5952, section 4). Bytes before the start may be overwritten.
#[inline(always)]
pub fn write_addr(addr: Addr, buf: &mut [u8], end: usize) -> usize
    requires room { 40 ≤ end }
    requires within { end ≤ length buf.old }
    ensures start { result ≤ end }
    ensures room { end ≤ result + 40 }
    ensures written { drop result buf.new ≡ address_text addr.version addr.value ++ drop end buf.old }
{
    match addr.version {
        Version::V4 => write_dotted(addr.value, buf, end),
        Version::V6 => write_colon(addr.value, buf, end),
    }
}

/// Appends the text of an address, as [`write_addr`] writes it.
///
/// # Errors
///
/// If an allocation fails, `out` is unchanged.
pub fn print_addr(out: &mut Vec<u8>, addr: Addr) -> Result<(), AllocError>
    ensures ok { OnOk result (out.new.items ≡ out.old.items ++ address_text addr.version addr.value) }
    ensures err { OnErr result (out.new.items ≡ out.old.items) }
{
    let mut bytes = [0; CAPACITY];
    let start = write_addr(addr, &mut bytes, CAPACITY);
    out.extend_from_slice(&bytes[start..])
}

/// Appends the text of a block: its address, `/`, and its length.
///
/// # Errors
///
/// If an allocation fails, `out` is unchanged.
pub fn print_block(out: &mut Vec<u8>, block: &Block) -> Result<(), AllocError>
    ensures ok { OnOk result (out.new.items
        ≡ out.old.items ++ block_text block.now.version block.now.value block.now.len) }
    ensures err { OnErr result (out.new.items ≡ out.old.items) }
{
    let mut bytes = [0; CAPACITY];
    let at = write_octet(block.len as u16, &mut bytes, CAPACITY) - 1;
    bytes[at] = b'/';
    let at = write_addr(block.low(), &mut bytes, at);
    out.extend_from_slice(&bytes[at..])
}
