//! The numbers at places in the bytes of records.
ghost use Rattle.std.specs.Prelude.{◌≡◌, ◌+◌, ◌≤◌, ◌⊎◌, [], IfSome, length, option_map, unwrap_or};
ghost use Rattle.flow_rows.specs.Inner.{IsWithin, bytes_there, number_there};

use byteorder::{BigEndian, ByteOrder};
use ipfix_read::skip_runs;
use ipfix_templates::Place;

// Returns the bytes at a place in a record, given the number of bytes between each value of variable length and the one
// before it. Returns `None` if the record is too short.
fn find_bytes<'a>(place: &Place, runs: &[u32], bytes: &'a [u8]) -> Option<&'a [u8]>
    ensures there { option_map (λ x. x.now) result ≡ bytes_there place.now runs.now bytes.now }
    ensures size { IfSome result (λ x. length x.now ≡ place.now.length) }
{
    let before = &runs[..usize::from(place.skips).min(runs.len())];
    let from = skip_runs(before, place.offset, bytes)?;
    let (value, _after) = from.split_at_checked(usize::from(place.length))?;
    Some(value)
}

// Returns the bytes at a place after values of variable length, or no bytes if the record is too short. Out of line,
// since most numbers are before all of these values.
#[inline(never)]
fn bytes_after<'a>(place: &Place, runs: &[u32], bytes: &'a [u8]) -> &'a [u8]
    ensures there { result.now ≡ unwrap_or (bytes_there place.now runs.now bytes.now) [] }
    ensures size { (length result.now ≡ place.now.length) ⊎ (result.now ≡ []) }
{
    find_bytes(place, runs, bytes).unwrap_or(&bytes[..0])
}

/// Returns the bytes at a place in a record, or no bytes if the record is too short.
#[inline(always)]
#[tactic(auto, using(crate::proofs::Reading::before_values))]
pub fn bytes_there<'a>(place: &Place, runs: &[u32], bytes: &'a [u8]) -> &'a [u8]
    requires { place.now.skips ≡ 0 → place.now.offset + place.now.length ≤ length bytes.now }
    ensures there { result.now ≡ unwrap_or (bytes_there place.now runs.now bytes.now) [] }
    ensures size { (length result.now ≡ place.now.length) ⊎ (result.now ≡ []) }
{
    if place.skips == 0 {
        let from = &bytes[place.offset as usize..];
        return &from[..usize::from(place.length)];
    }
    bytes_after(place, runs, bytes)
}

/// Returns the number of up to 8 bytes at a place in a record, or 0 if the place is empty or the record is too short.
#[inline(always)]
pub fn u64_there(place: &Place, runs: &[u32], bytes: &[u8]) -> u64
    requires { IsWithin 8 (length bytes.now) place.now }
    ensures { result ≡ number_there place.now runs.now bytes.now }
{
    let value = bytes_there(place, runs, bytes);
    // The usual length is tested first.
    if value.len() == 8 {
        return BigEndian::read_u64(value);
    }
    match value.len() {
        0 => 0,
        1 => u64::from(value[0]),
        2 => u64::from(BigEndian::read_u16(value)),
        4 => u64::from(BigEndian::read_u32(value)),
        length => BigEndian::read_uint(value, length),
    }
}

/// Returns the number of up to 4 bytes at a place in a record, or 0 if the place is empty or the record is too short.
/// Out of line, since few keys and filters have such a number.
#[inline(never)]
pub fn u32_there(place: &Place, runs: &[u32], bytes: &[u8]) -> u32
    requires { IsWithin 4 (length bytes.now) place.now }
    ensures { result ≡ number_there place.now runs.now bytes.now }
{
    let value = bytes_there(place, runs, bytes);
    match value.len() {
        2 => u32::from(BigEndian::read_u16(value)),
        1 => u32::from(value[0]),
        4 => BigEndian::read_u32(value),
        3 => BigEndian::read_u24(value),
        _ => 0,
    }
}

/// Returns the number of up to 2 bytes at a place in a record, or 0 if the place is empty or the record is too short.
#[inline(always)]
pub fn u16_there(place: &Place, runs: &[u32], bytes: &[u8]) -> u16
    requires { IsWithin 2 (length bytes.now) place.now }
    ensures { result ≡ number_there place.now runs.now bytes.now }
{
    let value = bytes_there(place, runs, bytes);
    match value.len() {
        2 => BigEndian::read_u16(value),
        1 => u16::from(value[0]),
        _ => 0,
    }
}
