//! Reading the items of the text of an option as ranges of numbers. Addresses have IPv6 numbers.
ghost use Rattle.std.specs.Prelude.{◌≡◌, ℕ, IfErr, IfOk, false, ok_or, option_map};
ghost use Rattle.std.specs.Result.{result_map_both};
ghost use Rattle.flow_rows.specs.Elements.{RowView};
ghost use Rattle.flow_filter.specs.Condition.{by_address, in_range, item_test};
ghost use Rattle.flow_filter.specs.Filters.{HasRanges, IsRefused, by_range, mapped_number};
ghost use Rattle.flow_filter.specs.Options.{is_on_labels, kind_of};
ghost use Rattle.flow_filter.specs.Texts.{number_range};

use crate::fault::FilterFaultKind;
use crate::option::FilterOption;
use crate::ranges::{Range, sort_ranges};
use prefix_keys::{
    Addr, MAPPED_PREFIX, Version, block_of, cut, read_addr, read_block, read_decimal,
};
use std::alloc::Global;

// Reads a text `N` or `N-M`, or `N-` if the range may be open: all numbers from N to the limit. The numbers are at most
// the limit, and M isn't less than N.
fn read_numbers(text: &[u8], limit: u64, may_be_open: bool) -> Option<Range>
    ensures { result ≡ number_range may_be_open limit text.now }
{
    let (front, back) = cut(text, b'-');
    let low = read_decimal(front, 20, limit)?;
    let high = if !text.contains(&b'-') {
        low
    } else if may_be_open && back.is_empty() {
        limit
    } else {
        read_decimal(back, 20, limit)?
    };
    let range = Range {
        low: u128::from(low),
        high: u128::from(high),
    };
    (low <= high).then_some(range)
}

/// Returns the number of the address as an IPv6 address (RFC 4291, section 2.5.5.2).
pub fn mapped_number(addr: Addr) -> u128
    ensures { result ≡ mapped_number (addr.version, addr.value) }
{
    match addr.version {
        Version::V4 => addr.value + MAPPED_PREFIX,
        Version::V6 => addr.value,
    }
}

// Reads an item of an address list, and returns the numbers of its addresses. The item is a block if there is a `/`,
// otherwise an address, which is a block of full length.
fn read_addresses(text: &[u8]) -> Option<Range>
    ensures { (address : RowView → ℕ)
        → option_map (λ range label row. in_range (mapped_number (row.version, address row)) range) result
        ≡ by_address address text.now }
{
    let block = if text.contains(&b'/') {
        read_block(text).ok()?
    } else {
        let addr = read_addr(text)?;
        block_of(addr, addr.version.width())
    };
    Some(Range {
        low: mapped_number(block.low()),
        high: mapped_number(block.high()),
    })
}

// Reads an item of an option that isn't on labels.
fn read_item(option: FilterOption, item: &[u8]) -> Result<Range, FilterFaultKind>
    requires { is_on_labels option ≡ false }
    ensures { result_map_both (by_range option) (λ kind. kind) result
        ≡ ok_or (item_test option item.now) (kind_of option) }
{
    match option {
        FilterOption::Number(number) => {
            read_numbers(item, u64::from(number.most()), false).ok_or(
                FilterFaultKind::BadNumberList,
            )
        }
        FilterOption::SourceAddress | FilterOption::DestinationAddress => {
            read_addresses(item).ok_or(FilterFaultKind::BadBlock)
        }
        FilterOption::Packets | FilterOption::Bytes => {
            read_numbers(item, u64::MAX, true).ok_or(FilterFaultKind::BadRange)
        }
        _ => Err(FilterFaultKind::BadNumberList),
    }
}

/// Reads the ranges of the items of a text. A label has none.
pub fn read_ranges(
    alloc: Global,
    option: FilterOption,
    text: &[u8],
) -> Result<Vec<Range>, FilterFaultKind>
    ensures ok { IfOk result (λ ranges. HasRanges (option, text.now) ranges.items) }
    ensures err { IfErr result (IsRefused (option, text.now)) }
{
    let mut ranges = Vec::new(alloc);
    if option.is_on_labels() {
        return Ok(ranges);
    }
    let is_list = option.is_list();
    for item in text.split(|byte| is_list && *byte == b',') {
        let range = read_item(option, item)?;
        ranges.push(range).map_err(|_| FilterFaultKind::NoMemory)?;
    }
    sort_ranges(&mut ranges);
    Ok(ranges)
}
