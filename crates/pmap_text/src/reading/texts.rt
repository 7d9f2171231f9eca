//! Reading map texts and list texts line by line.
ghost use Rattle.std.specs.Prelude.{◌≡◌, ◌≢◌, ◌+◌, ◌^◌, ◌<◌, ◌≤◌, Ok, Err, IfOk, IfErr, length};
ghost use Rattle.pmap_model.specs.MapText.{map_of};
ghost use Rattle.pmap_text.specs.Inner.{AreEnded, HasDistinctKeys, HasRead, map_from, text_in, text_read};
ghost use Rattle.pmap_text.specs.Reading.{ReturnsList, ReturnsMap, NoMemory};
ghost use Rattle.pmap_text.specs.declared.reading.form.Form.TheVariants.{List as list_form, Map as map_form};

use crate::fault::{MapFault, MapFaultKind};
use crate::pieces::Pieces;
use crate::reading::Reading;
use crate::reading::form::Form;
use crate::reading::lines::split_content;
use pmap_model::{KeyHashing, MapText, PrefixList};
use std::alloc::Global;

// Returns the fault of a line. A failed allocation has line 0.
fn fault_at(kind: MapFaultKind, number: u64) -> MapFault
    ensures kind { result.kind ≡ kind }
    ensures line { kind ≢ NoMemory → result.line ≡ number }
    ensures memory { kind ≡ NoMemory → result.line ≡ 0 }
{
    let line = if kind == MapFaultKind::NoMemory {
        0
    } else {
        number
    };
    MapFault { kind, line }
}

// Reads the lines of a text of this form, which follow `before` other lines, up to the first fault, or until there are
// more entries than the limit. Returns the number of all lines. An entry may have the block of an earlier one.
fn read_on(
    reading: &mut Reading,
    form: Form,
    text: &[u8],
    limit: usize,
    before: u64,
) -> Result<u64, MapFault>
    requires few { length reading.old.prefixes ≤ limit }
    requires fits { before + length text.now < 2 ^ 64 }
    ensures { HasRead form reading.old before text.now limit reading.new result }
{
    let mut rest = text;
    let mut number = before;
    while !rest.is_empty() && reading.entry_count() <= limit {
        let (content, after) = split_content(rest);
        number += 1;
        if let Err(kind) = reading.read_content(form, content) {
            return Err(fault_at(kind, number));
        }
        rest = after;
    }
    Ok(number)
}

// Returns the fault of the first entry with the block of an earlier one, given its index. Its line is found by reading
// the text again up to this entry.
fn repeat_at(alloc: Global, text: &[u8], hashing: KeyHashing, index: usize) -> MapFault
    ensures err { result.kind ≢ NoMemory → text_read list_form text.now ≡ Err result }
    ensures memory { result.kind ≡ NoMemory → result.line ≡ 0 }
{
    let mut reading = Reading::new(alloc, hashing);
    let end = read_on(&mut reading, Form::List, text, index, 0);
    match (end, reading.first_repeat()) {
        (Ok(line), Ok(Some(first))) if first == index => MapFault {
            kind: MapFaultKind::DuplicateBlock,
            line,
        },
        _ => fault_at(MapFaultKind::NoMemory, 0),
    }
}

// Reads the lines of a list text, up to its first fault.
fn read_list_lines(alloc: Global, text: &[u8], hashing: KeyHashing) -> Result<Reading, MapFault>
    ensures ok { IfOk result (λ lines. text_read list_form text.now ≡ Ok lines) }
    ensures distinct { IfOk result (λ lines. HasDistinctKeys lines.prefixes) }
    ensures err { IfErr result (λ fault. fault.kind ≢ NoMemory → text_read list_form text.now ≡ Err fault) }
    ensures memory { IfErr result (λ fault. fault.kind ≡ NoMemory → fault.line ≡ 0) }
{
    let mut reading = Reading::new(alloc, hashing);
    let end = read_on(&mut reading, Form::List, text, usize::MAX, 0);
    let fault = match (reading.first_repeat(), end) {
        (Ok(None), Ok(_)) => return Ok(reading),
        (Ok(None), Err(fault)) => fault,
        (Ok(Some(index)), _) => repeat_at(alloc, text, hashing, index),
        (Err(_), _) => fault_at(MapFaultKind::NoMemory, 0),
    };
    Err(fault)
}

// Reads the lines of a map text, up to its first fault. It is in pieces that end with a line feed, each of which is
// freed when its lines are read, and a last one.
fn read_pieces(
    alloc: Global,
    ended: Vec<Vec<u8>>,
    last: &[u8],
    hashing: KeyHashing,
) -> Result<Reading, MapFault>
    requires ended { AreEnded ended.items }
    requires fits { length (text_in ended.items last.now) < 2 ^ 64 }
    ensures ok { IfOk result (λ lines. text_read map_form (text_in ended.items last.now) ≡ Ok lines) }
    ensures err { IfErr result (λ fault. fault.kind ≢ NoMemory
        → text_read map_form (text_in ended.items last.now) ≡ Err fault) }
    ensures memory { IfErr result (λ fault. fault.kind ≡ NoMemory → fault.line ≡ 0) }
{
    let mut reading = Reading::new(alloc, hashing);
    let mut number = 0;
    for piece in ended {
        number = read_on(
            &mut reading,
            Form::Map,
            piece.as_slice(),
            usize::MAX,
            number,
        )?;
    }
    read_on(&mut reading, Form::Map, last, usize::MAX, number)?;
    Ok(reading)
}

// Returns the map of the lines of a text.
fn map_from_lines(reading: Reading) -> Result<MapText, MapFault>
    ensures ok { IfOk result (λ map. map_of map ≡ map_from reading) }
    ensures err { IfErr result (λ fault. (fault.kind ≡ NoMemory) × (fault.line ≡ 0)) }
{
    reading
        .into_map()
        .map_err(|_| fault_at(MapFaultKind::NoMemory, 0))
}

/// Reads a map text.
///
/// The text is split into lines at each line feed. A comment extends from the first `#` of a line to its end. Spaces,
/// tabs and carriage returns are blanks. Lines without a word are ignored, but they count as lines. Each other line is
/// one of these:
///
/// - `map-name NAME`: the name of the map. The last one counts.
/// - `mode VERSION`, with `ipv4`, `ip` (the same) or `ipv6`: at most once, and before the first mapping. Without a mode
///   the first address of the first mapping decides the version, and a text without a mapping is of IPv4.
/// - `label NUMBER TEXT`: on the following lines, a label that is this number, of 1 to 10 digits, represents the text.
///   The number is at most 2147483647. The text doesn't consist of digits alone. No number has two texts, and no text
///   has two numbers.
/// - `default LABEL`: the label of addresses without a mapping, or `UNKNOWN` without such a line. The last one counts.
/// - `BLOCK LABEL`, such as `10.0.0.0/8 A`: a mapping of the block's addresses. Host bits are cleared.
/// - `LOW HIGH LABEL`: a mapping of the addresses from low to high.
/// - `ADDRESS LABEL`: a mapping of one address.
///
/// A label or a name is the rest of the line (`is_label`). Of two mappings that cover an address the later one decides.
/// In an IPv6 text a dotted address represents its IPv4-mapped address in `::ffff:0:0/96` (RFC 4291, section 2.5.5.2),
/// and the length of its block grows by 96. A text has at most 1,000,000 mappings and 65,535 label texts. `UNKNOWN`, if
/// no line has it, may be one more.
///
/// # Errors
///
/// Returns the first faulty line, counted from 1, with the first of its faults in this order, or `NoMemory` with line 0
/// if an allocation fails.
///
/// - `map-name`: `MissingLabel`, `BadLabel`. `default`: these and `TooMany`.
/// - `mode`: `BadMode`, `ModeLate`, `ModeRepeated`.
/// - `label`: `BadStatement` (no such number), `MissingLabel`, `BadLabel`, `LabelConflict`, `TooMany`.
/// - A block: `BadAddress`, `BadLength`, `WrongVersion`, `MissingLabel`, `BadLabel`, `TooMany`.
/// - A range or an address: `WrongVersion` of the first address and then of the second, `LowAboveHigh`, `MissingLabel`,
///   `BadLabel`, `TooMany`.
/// - Any other first word: `BadAddress` if it begins with a digit or has a `:`, otherwise `BadStatement`.
pub fn read_map(alloc: Global, text: &[u8]) -> Result<MapText, MapFault>
    ensures { ReturnsMap text.now result }
{
    let reading = read_pieces(alloc, Vec::new(alloc), text, KeyHashing::known())?;
    map_from_lines(reading)
}

/// Reads a map text like [`read_map`], but hashes labels with these numbers, on which the result does not depend. Each
/// piece of the text is freed when its lines are read, so that the text and its mappings aren't in memory together.
pub fn read_map_with_hashing(
    alloc: Global,
    text: Pieces,
    hashing: KeyHashing,
) -> Result<MapText, MapFault>
    ensures { ReturnsMap text result }
{
    let (ended, last) = text.into_parts();
    let reading = read_pieces(alloc, ended, last.as_slice(), hashing)?;
    map_from_lines(reading)
}

/// Reads a list text. The longest block that covers an address decides, and an address that no block covers has no
/// label.
///
/// The lines are those of a map text (`read_map`) with three differences: there are no ranges and no `default`, no
/// block is repeated, and no `UNKNOWN` is added to the label table. `ADDRESS LABEL` is an entry for the block of full
/// length. A text has at most 1,000,000 entries.
///
/// # Errors
///
/// The faults are those of `read_map`, and two more: `NotAList` is the only fault of a line with `default` or with two
/// addresses, and `DuplicateBlock` comes after `BadLabel` and before `TooMany`.
pub fn read_list(alloc: Global, text: &[u8]) -> Result<PrefixList, MapFault>
    ensures { ReturnsList text.now result }
{
    read_list_with_hashing(alloc, text, KeyHashing::known())
}

/// Reads a list text like [`read_list`], but hashes labels with these numbers. The result does not depend on them.
pub fn read_list_with_hashing(
    alloc: Global,
    text: &[u8],
    hashing: KeyHashing,
) -> Result<PrefixList, MapFault>
    ensures { ReturnsList text.now result }
{
    let reading = read_list_lines(alloc, text, hashing)?;
    Ok(reading.into_list())
}
