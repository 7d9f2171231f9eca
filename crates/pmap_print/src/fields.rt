//! Printing fields, and their lengths.
ghost use Rattle.std.specs.Prelude.{◌≡◌, ◌+◌, ◌-◌, ◌^◌, ◌<◌, ◌≤◌, ◌++◌, decimal};
ghost use Rattle.std.specs.Prelude.{drop, length, option_map, replicate, take};
ghost use Rattle.flow_io.specs.Sinks.{Pushes};
ghost use Rattle.prefix_keys.specs.Print.{address_text, block_text};
ghost use Rattle.pmap_print.specs.Table.{ended, marked};
ghost use Rattle.pmap_print.specs.Times.{calendar_text, time_text};

use crate::mark::Mark;
use arrayvec::ArrayString;
use flow_io::Sink;
use flow_uniq::Precision;
use itoa::{Buffer, write_digits};
use prefix_keys::{Addr, Block, write_addr};
use utc_text::{day_text, hour_text, minute_text};

// The number of bytes that are copied at once, if there are as many, which is faster.
const FEW: usize = 24;

/// Spaces, as many as a field may need before it.
pub const SPACES: [u8; 255] = [b' '; 255];

// The maximum length of a number below 2^64 and of an address, each with one byte more, rounded up.
const NUMBER: usize = 24;

const ADDRESS: usize = 48;

// The maximum length of a block, with room for a number below 2^64 and an address, rounded up.
const BLOCK: usize = 64;

/// Writes a mark and a number so that the number ends at `end`, and returns the index of the mark.
#[inline(always)]
pub fn write_number(mark: Mark, number: u64, line: &mut [u8], end: usize) -> usize
    requires room { 21 ≤ end }
    requires within { end ≤ length line.old }
    ensures size { result + length (marked mark (decimal number)) ≡ end }
    ensures room { end ≤ result + 21 }
    ensures small { number < 2 ^ 16 → end ≤ result + 6 }
    ensures written { drop result line.new ≡ marked mark (decimal number) ++ drop end line.old }
{
    let start = write_digits(number, line, end);
    line[start - 1] = mark.of(end - start);
    start - 1
}

/// Writes a mark and an address so that the address ends at `end`, and returns the index of the mark.
#[inline(always)]
pub fn write_address(mark: Mark, addr: Addr, line: &mut [u8], end: usize) -> usize
    requires room { 41 ≤ end }
    requires within { end ≤ length line.old }
    ensures size { result + length (marked mark (address_text addr.version addr.value)) ≡ end }
    ensures room { end ≤ result + 41 }
    ensures written { drop result line.new
        ≡ marked mark (address_text addr.version addr.value) ++ drop end line.old }
{
    let start = write_addr(addr, line, end);
    line[start - 1] = mark.of(end - start);
    start - 1
}

/// Prints the first `count` of some bytes.
#[inline(always)]
pub fn push_few<S: Sink>(out: &mut S, bytes: &[u8], count: usize) -> Result<(), S::Fault>
    requires { count ≤ length bytes.now }
    ensures { Pushes S.sink S.began out.old out.new (take count bytes.now) result }
{
    if count <= FEW && bytes.len() >= FEW {
        return out.push_start(&bytes[..FEW], count);
    }
    out.push(&bytes[..count])
}

/// Prints the spaces before a field of this length that make it as wide as its column.
#[inline(always)]
pub fn push_spaces<S: Sink>(out: &mut S, width: u8, length: usize) -> Result<(), S::Fault>
    ensures { Pushes S.sink S.began out.old out.new (replicate (width - length) 32) result }
{
    let width = usize::from(width);
    if length >= width {
        return Ok(());
    }
    push_few(out, &SPACES, width - length)
}

/// Prints a field in a column of this width, and the byte that ends it.
#[inline(always)]
pub fn push_field<S: Sink>(out: &mut S, width: u8, end: u8, field: &[u8]) -> Result<(), S::Fault>
    ensures { Pushes S.sink S.began out.old out.new (ended width end field.now) result }
{
    push_spaces(out, width, field.len())?;
    out.push(field)?;
    out.push_start(&[end], 1)
}

/// Returns the length of a number in decimal.
pub fn number_length(number: u64) -> u8
    ensures { result ≡ length (decimal number) }
{
    let start = write_digits(number, &mut [0; NUMBER], NUMBER);
    (NUMBER - start) as u8
}

/// Prints a number in decimal in a column of this width, and the byte that ends it.
#[inline(always)]
pub fn push_number<S: Sink>(out: &mut S, width: u8, end: u8, number: u64) -> Result<(), S::Fault>
    ensures { Pushes S.sink S.began out.old out.new (ended width end (decimal number)) result }
{
    let mut field = [end; 2 * NUMBER];
    let start = write_digits(number, &mut field, NUMBER - 1);
    push_spaces(out, width, NUMBER - 1 - start)?;
    out.push_start(&field[start..start + NUMBER], NUMBER - start)?;
    Ok(())
}

/// Returns the length of a number of up to 128 bits in decimal.
pub fn total_length(number: u128) -> u8
    ensures { result ≡ length (decimal number) }
{
    if number < 1 << 64 {
        return number_length(number as u64);
    }
    Buffer::new().format(number).len() as u8
}

/// Prints a number of up to 128 bits as [`push_number`] does.
#[inline(always)]
pub fn push_total<S: Sink>(out: &mut S, width: u8, end: u8, number: u128) -> Result<(), S::Fault>
    ensures { Pushes S.sink S.began out.old out.new (ended width end (decimal number)) result }
{
    if number < 1 << 64 {
        return push_number(out, width, end, number as u64);
    }
    push_field(out, width, end, Buffer::new().format(number).as_bytes())
}

// Returns the text of a day, an hour or a minute, or `None` if it is after the year 9999.
fn calendar_text(precision: Precision, number: u64) -> Option<ArrayString<20>>
    ensures { option_map (λ text. text.bytes) result ≡ calendar_text precision number }
{
    match precision {
        Precision::Day => day_text(number),
        Precision::Hour => hour_text(number),
        Precision::Minute => minute_text(number),
    }
}

/// Returns the length of the text of a time.
#[cold]
#[inline(never)]
pub fn time_length(precision: Precision, number: Option<u64>) -> u8
    ensures { result ≡ length (time_text precision number) }
{
    let Some(number) = number else {
        return 1;
    };
    match calendar_text(precision, number) {
        Some(text) => text.as_str().len() as u8,
        None => number_length(number),
    }
}

/// Prints the text of a time in a column of this width, and the byte that ends it. Of a day, an hour or a minute after
/// the year 9999 it prints the number, and of no time `0`. It isn't inlined, which would make the printing of other
/// parts slower.
#[cold]
#[inline(never)]
pub fn push_time<S: Sink>(
    out: &mut S,
    width: u8,
    end: u8,
    precision: Precision,
    number: Option<u64>,
) -> Result<(), S::Fault>
    ensures { Pushes S.sink S.began out.old out.new (ended width end (time_text precision number)) result }
{
    let Some(number) = number else {
        return push_field(out, width, end, b"0");
    };
    match calendar_text(precision, number) {
        Some(text) => push_field(out, width, end, text.as_str().as_bytes()),
        None => push_number(out, width, end, number),
    }
}

/// Returns the length of the text of an address.
pub fn address_length(addr: Addr) -> u8
    ensures { result ≡ length (address_text addr.version addr.value) }
{
    let start = write_addr(addr, &mut [0; ADDRESS], ADDRESS);
    (ADDRESS - start) as u8
}

/// Prints an address in a column of this width, and the byte that ends it.
#[inline(always)]
pub fn push_address<S: Sink>(out: &mut S, width: u8, end: u8, addr: Addr) -> Result<(), S::Fault>
    ensures { Pushes S.sink S.began out.old out.new (ended width end (address_text addr.version addr.value)) result }
{
    let mut field = [end; 2 * ADDRESS];
    let start = write_addr(addr, &mut field, ADDRESS - 1);
    push_spaces(out, width, ADDRESS - 1 - start)?;
    out.push_start(&field[start..start + ADDRESS], ADDRESS - start)?;
    Ok(())
}

/// Prints a block: its address, `/`, and its length.
pub fn push_block<S: Sink>(out: &mut S, block: &Block) -> Result<(), S::Fault>
    ensures { Pushes S.sink S.began out.old out.new
        (block_text block.now.version block.now.value block.now.len) result }
{
    let mut field = [0; BLOCK];
    let slash = write_number(Mark::End(b'/'), u64::from(block.len), &mut field, BLOCK);
    let start = write_addr(block.low(), &mut field, slash);
    out.push(&field[start..])
}
