//! The printed text of groups.
ghost use Rattle.std.specs.Prelude.{◌≡◌, ◌+◌, ◌∷◌, [], List, IfOk, length, map, option_map, slice_get};
ghost use Rattle.std.specs.List.{flat_map};
ghost use Rattle.std.specs.List.Sorted.{IsPermutation};
ghost use Rattle.flow_io.specs.Sinks.{Pushes};
ghost use Rattle.flow_uniq.specs.Codes.{IsSmall, part_model};
ghost use Rattle.flow_uniq.specs.Inner.{group_model};
ghost use Rattle.flow_uniq.specs.Groups.{shown_groups};
ghost use Rattle.pmap_print.specs.Table.{AreWide, Line, Text, ended, filled, filled_by, line_text, widened};
ghost use Rattle.pmap_print.specs.Reports.{group_fields, group_lines, group_titles, groups_text, ordered, part_text};

use crate::columns::Columns;
use crate::fields::{
    address_length, number_length, push_address, push_field, push_number, push_time, push_total,
    time_length, total_length,
};
use flow_io::{Printable, Sink, text_of};
use flow_uniq::{Group, Groups, KeyField, KeyPart};
use std::alloc::{AllocError, Global};
use std::marker::Model;

// The titles of the columns of a group's totals.
const RECORDS: &[u8] = b"records";

const PACKETS: &[u8] = b"packets";

const BYTES: &[u8] = b"bytes";

// The number of these columns.
const TOTALS: usize = 3;

// Returns the width of the first column, and the widths of the others. Without columns fields aren't padded.
#[inline(always)]
fn first_width(widths: &[u8]) -> (u8, &[u8])
    ensures { (field : Text) → (fields : Line) → filled_by widths.entry.now (field ∷ fields)
        ≡ filled result.0 field ∷ filled_by result.1.now fields }
{
    match widths.split_first() {
        Some((width, others)) => (*width, others),
        None => (0, widths),
    }
}

// Returns the widths of the columns of a group's totals, which are the first three.
#[inline(always)]
fn total_widths(widths: &[u8]) -> (u8, u8, u8)
    ensures { (records packets octets : Text) → filled_by widths.now (records ∷ packets ∷ octets ∷ [])
        ≡ filled result.0 records ∷ filled result.1 packets ∷ filled result.2 octets ∷ [] }
{
    let (records, widths) = first_width(widths);
    let (packets, widths) = first_width(widths);
    let (octets, _) = first_width(widths);
    (records, packets, octets)
}

// Prints the header of groups by these fields, with columns of these widths.
fn print_header<S: Sink>(out: &mut S, fields: &[KeyField], widths: &[u8]) -> Result<(), S::Fault>
    ensures { Pushes S.sink S.began out.old out.new
        (line_text (filled_by widths.now (group_titles fields.now))) result }
{
    let mut rest = widths;
    for field in fields {
        let (width, others) = first_width(rest);
        push_field(out, width, b'|', field.name().as_bytes())?;
        rest = others;
    }
    let (records, packets, octets) = total_widths(rest);
    push_field(out, records, b'|', RECORDS)?;
    push_field(out, packets, b'|', PACKETS)?;
    push_field(out, octets, b'\n', BYTES)?;
    Ok(())
}

// Returns the length of the text of a part of a key.
#[inline(always)]
fn part_length(part: KeyPart<'_>) -> u8
    requires { IsSmall (part_model part) }
    ensures { result ≡ length (part_text (part_model part.entry)) }
{
    match part {
        KeyPart::Address(addr) => address_length(addr),
        KeyPart::Number(number) => number_length(u64::from(number)),
        KeyPart::LargeNumber(number) => number_length(u64::from(number)),
        KeyPart::Label(label) => label.unwrap_or(b"").len() as u8,
        KeyPart::Time(number, precision) => time_length(precision, number),
    }
}

// Prints a part of a key in a column of this width, which isn't the last one. The text of a missing label is empty.
// See `print_lines` for `PADDED`.
fn print_part<S: Sink, const PADDED: bool>(
    out: &mut S,
    width: u8,
    part: KeyPart<'_>,
) -> Result<(), S::Fault>
    requires { IsSmall (part_model part) }
    ensures { Pushes S.sink S.began out.old out.new (ended width 124 (part_text (part_model part.entry))) result }
{
    match part {
        KeyPart::Address(addr) => push_address(out, width, b'|', addr),
        KeyPart::Number(number) => push_number(out, width, b'|', u64::from(number)),
        KeyPart::LargeNumber(number) => push_number(out, width, b'|', u64::from(number)),
        KeyPart::Label(label) => push_field(out, width, b'|', label.unwrap_or(b"")),
        KeyPart::Time(number, precision) => push_time(out, width, b'|', precision, number),
    }
}

// Prints the line of a group, with columns of these widths. See `print_lines` for `PADDED`.
fn print_group<S: Sink, const PADDED: bool>(
    out: &mut S,
    group: &Group<'_>,
    widths: &[u8],
) -> Result<(), S::Fault>
    ensures { Pushes S.sink S.began out.old out.new
        (line_text (filled_by widths.now (group_fields (group_model group.now)))) result }
{
    let mut key = group.key;
    let mut rest = widths;
    while let Some((part, parts)) = key.split_first() {
        let (width, others) = first_width(rest);
        print_part::<S, PADDED>(out, width, part)?;
        key = parts;
        rest = others;
    }
    let (records, packets, octets) = total_widths(rest);
    push_number(out, records, b'|', group.totals.records)?;
    push_total(out, packets, b'|', group.totals.packets)?;
    push_total(out, octets, b'\n', group.totals.octets)?;
    Ok(())
}

// Returns the groups in the order of their keys, if they are to be sorted.
fn in_key_order(groups: &Groups, sorted: bool) -> Result<Option<Vec<Group<'_>>>, AllocError>
    ensures order { IfOk result (λ given. ordered given groups.now ≡ shown_groups sorted groups.now.groups) }
    ensures same { IfOk result (λ given. IsPermutation groups.now.groups (ordered given groups.now)) }
{
    if sorted {
        return Ok(Some(groups.sorted()?));
    }
    Ok(None)
}

// Returns the group at an index: of the sorted groups, if they are given, otherwise in the order of the first rows.
fn group_at<'a>(
    groups: &'a Groups,
    sorted: &Option<Vec<Group<'a>>>,
    index: usize,
) -> Option<Group<'a>>
    ensures { option_map group_model result ≡ slice_get (ordered sorted.now groups.now) index }
{
    match sorted {
        Some(sorted) => sorted.get(index).copied(),
        None => groups.group(index),
    }
}

impl Columns {
    // Widens the columns for the titles of groups by these fields.
    fn add_titles(&mut self, fields: &[KeyField])
        requires { length fields.now + 3 ≡ length self.old.widths.items }
        ensures { self.new.widths.items ≡ widened self.old.widths.items 0 (group_titles fields.now) }
    {
        for (index, field) in fields.iter().enumerate() {
            self.widen(index, field.name().len() as u8);
        }
        let count = fields.len();
        self.widen(count, RECORDS.len() as u8);
        self.widen(count + 1, PACKETS.len() as u8);
        self.widen(count + 2, BYTES.len() as u8);
    }

    // Widens the columns for the line of a group.
    fn add_group(&mut self, group: &Group<'_>)
        requires { length (group_fields (group_model group.now)) ≡ length self.old.widths.items }
        ensures { self.new.widths.items ≡ widened self.old.widths.items 0 (group_fields (group_model group.now)) }
    {
        let mut rest = group.key;
        let mut index = 0;
        while let Some((part, others)) = rest.split_first() {
            self.widen(index, part_length(part));
            index += 1;
            rest = others;
        }
        self.widen(index, number_length(group.totals.records));
        self.widen(index + 1, total_length(group.totals.packets));
        self.widen(index + 2, total_length(group.totals.octets));
    }

    // Returns the columns for the lines of groups.
    fn of_groups<'a>(
        alloc: Global,
        groups: &'a Groups,
        sorted: &Option<Vec<Group<'a>>>,
    ) -> Result<Columns, AllocError>
        requires { IsPermutation groups.now.groups (ordered sorted.now groups.now) }
        ensures { IfOk result (AreWide (length groups.now.fields + 3)
            (group_lines groups.now.fields (ordered sorted.now groups.now))) }
    {
        let fields = groups.fields();
        let mut columns = Columns::new(alloc, fields.len() + TOTALS)?;
        columns.add_titles(fields);
        for index in 0..groups.group_count() {
            if let Some(group) = group_at(groups, sorted, index) {
                columns.add_group(&group);
            }
        }
        Ok(columns)
    }
}

// Prints the header and the lines of groups, with columns of these widths.
//
// `PADDED` is `true` in the call with columns. It changes no text, but gives each of the two calls functions of its
// own, which LLVM inlines because they have one caller. So without columns no width is looked at, which is faster.
// `#[inline(always)]` would have no effect: `print_group` is so large that a proved build drops it.
fn print_lines<'a, S: Sink, const PADDED: bool>(
    out: &mut S,
    groups: &'a Groups,
    sorted: &Option<Vec<Group<'a>>>,
    widths: &[u8],
) -> Result<(), S::Fault>
    requires { IsPermutation groups.now.groups (ordered sorted.now groups.now) }
    ensures { Pushes S.sink S.began out.old out.new (flat_map line_text (map (filled_by widths.now)
        (group_lines groups.now.fields (ordered sorted.now groups.now)))) result }
{
    print_header(out, groups.fields(), widths)?;
    for index in 0..groups.group_count() {
        if let Some(group) = group_at(groups, sorted, index) {
            print_group::<S, PADDED>(out, &group, widths)?;
        }
    }
    Ok(())
}

/// The text of groups, to be printed: a header, and a line for each group with the parts of its key and its totals.
#[derive(Drop)]
pub struct GroupsText<'a> {
    groups: &'a Groups,
    // The groups in the order of their keys, if that is their order.
    sorted: Option<Vec<Group<'a>>>,
    // The columns of the lines, if their fields are padded to columns.
    columns: Option<Columns>,
}

impl<'a> Model for GroupsText<'a> {
    ghost use Rattle.std.specs.Prelude.{List, ℕ, ◌+◌, is_some, length};
    ghost use Rattle.std.specs.List.Sorted.{IsPermutation};
    ghost use Rattle.std.specs.Option.{ForSome};

    ghost Value = { List ℕ };

    ghost use Rattle.pmap_print.specs.Reports.{group_lines, groups_text, ordered};
    ghost use Rattle.pmap_print.specs.Table.{AreWide};

    ghost view = { λ t. groups_text t.groups.now.fields (ordered t.sorted t.groups.now) (is_some t.columns) };

    ghost invariant = { λ t. IsPermutation t.groups.now.groups (ordered t.sorted t.groups.now)
        × ForSome t.columns (AreWide (length t.groups.now.fields + 3)
        (group_lines t.groups.now.fields (ordered t.sorted t.groups.now))) };
}

impl<'a> GroupsText<'a> {
    /// Returns the text of groups. The lines are in the order of the groups' first rows or, if `sorted`, of their keys.
    /// With `columns` each field is padded with spaces on the left to the width of its column.
    ///
    /// # Errors
    /// If an allocation fails.
    pub fn new(
        alloc: Global,
        groups: &'a Groups,
        sorted: bool,
        columns: bool,
    ) -> Result<GroupsText<'a>, AllocError>
        ensures { IfOk result (λ t. t ≡ groups_text groups.now.fields (shown_groups sorted groups.now.groups) columns) }
    {
        let sorted = in_key_order(groups, sorted)?;
        let columns = if columns {
            Some(Columns::of_groups(alloc, groups, &sorted)?)
        } else {
            None
        };
        Ok(GroupsText {
            groups,
            sorted,
            columns,
        })
    }
}

impl Printable for GroupsText<'_> {
    ghost use Rattle.std.specs.Prelude.{◌≡◌, ⊤};

    ghost is_whole = { λ _. ⊤ };

    ghost is_text = { λ t text. text ≡ t };

    fn print<S: Sink>(&self, out: &mut S) -> Result<(), S::Fault> {
        if let Some(columns) = &self.columns {
            print_lines::<S, true>(out, self.groups, &self.sorted, columns.widths())?;
            return Ok(());
        }
        print_lines::<S, false>(out, self.groups, &self.sorted, &[])?;
        Ok(())
    }
}

/// Returns the text of groups, as [`GroupsText`] prints it.
///
/// # Errors
/// If an allocation fails.
pub fn print_groups(
    alloc: Global,
    groups: &Groups,
    sorted: bool,
    columns: bool,
) -> Result<Vec<u8>, AllocError>
    ensures { IfOk result (λ out. out.items
        ≡ groups_text groups.now.fields (shown_groups sorted groups.now.groups) columns) }
{
    let text = GroupsText::new(alloc, groups, sorted, columns)?;
    text_of(alloc, &text)
}
