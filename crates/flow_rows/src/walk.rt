//! The rows of a message, one after the other.
ghost use Rattle.std.specs.Prelude.{◌≡◌, ◌≤◌, [], IfNone, IfSome, None, count_by};
ghost use Rattle.std.specs.Prelude.{false, length, option_map, true, unwrap_or};
ghost use Rattle.std.specs.Iterator.{YieldsFirst, item_count};
ghost use Rattle.std.specs.List.{flat_map};
ghost use Rattle.flow_rows.specs.Counts.{has_no_bytes, records_in, rows_of_sets};
ghost use Rattle.flow_rows.specs.Elements.{rows_of_record};
ghost use Rattle.flow_rows.specs.Inner.{HaveLayout};
ghost use Rattle.flow_rows.specs.Walk.{HaveRows, rows_to_come};
ghost use Rattle.ipfix_templates.specs.Layout.{is_there};

use crate::record::second_row;
use crate::row::Row;
use ipfix_read::{Message, RecordList, Records, Set};
use ipfix_templates::RowLayout;
use std::marker::Model;
use std::slice::Iter;

// The flow records of a set, all with the same layout.
#[derive(Drop)]
struct SetRows<'m> {
    layout: &'m RowLayout,
    runs: &'m [u32],
    records: Records<'m, 'm>,
}

impl<'m> SetRows<'m> {
    // Returns the flow records of a set, or `None` if its template shows that there are no rows.
    #[inline(always)]
    fn of_set(set: &'m Set<'m>) -> Option<SetRows<'m>>
        ensures have { IfSome result (λ set. HaveRows set None) }
        ensures rows { unwrap_or (option_map (λ set. rows_to_come set None) result) []
            ≡ flat_map rows_of_record (records_in set.now) }
    {
        let Set::Values(_, list) = set else {
            return None;
        };
        let fields = list.fields();
        Some(SetRows {
            layout: fields.row_layout(list.kind())?,
            runs: fields.runs(),
            records: list.iter(),
        })
    }

    // Returns the next row. `last` has the bytes of the last record if it may have a second row.
    #[inline(always)]
    fn next_row(&mut self, last: &mut Option<&'m [u8]>) -> Option<Row<'m>>
        requires { HaveRows self.old last.old }
        ensures have { HaveRows self.new last.new }
        ensures last { IfNone result (last.new ≡ None) }
        ensures rows { YieldsFirst (λ rows. rows)
            (rows_to_come self.old last.old) result (rows_to_come self.new last.new) }
    {
        if let Some(row) = second_row(self.layout, self.runs, last.take()) {
            return Some(row);
        }
        let bytes = self.records.next()?.fields.bytes();
        if self.layout.second.packets.is_there() {
            *last = Some(bytes);
        }
        Some(Row::new(&self.layout.first, self.runs, bytes))
    }

    // Returns the number of rows without bytes.
    #[inline(always)]
    fn count_without_bytes(mut self) -> u32
        requires have { HaveRows self None }
        requires few { length (rows_to_come self None) ≤ 131070 }
        ensures { result ≡ count_by has_no_bytes (rows_to_come self.entry None) }
    {
        let mut last = None;
        let mut count = 0;
        while let Some(row) = self.next_row(&mut last) {
            if row.octets() == 0 {
                count += 1;
            }
        }
        count
    }
}

// Whether all records have one length, and one row each, whose number of bytes is a number of 64 bits.
#[inline(always)]
fn is_usual(layout: &RowLayout, runs: &[u32]) -> bool
    ensures runs { result ≡ true → runs.now ≡ [] }
    ensures second { result ≡ true → is_there layout.now.second.packets ≡ false }
{
    let octets = &layout.first.octets;
    runs.is_empty() && octets.skips == 0 && octets.length == 8 && !layout.second.packets.is_there()
}

// Returns the number of rows without bytes of records of one length, which have one row each.
#[inline(always)]
fn count_in_equal(layout: &RowLayout, records: &RecordList<'_>) -> u32
    requires layout { HaveLayout layout.now [] records.now }
    requires second { is_there layout.now.second.packets ≡ false }
    requires few { length (flat_map rows_of_record records.now) ≤ 131070 }
    ensures { result ≡ count_by has_no_bytes (flat_map rows_of_record records.now) }
{
    let length = records.fields().last_run() as usize;
    let mut rest = records.bytes();
    let mut count = 0;
    for _index in 0..records.len() {
        if Row::new(&layout.first, &[], rest).octets() == 0 {
            count += 1;
        }
        let (_record, others) = rest.split_at(length);
        rest = others;
    }
    count
}

// Returns the number of rows without bytes of a set.
fn count_in_set(set: &Set<'_>) -> u32
    requires { length (flat_map rows_of_record (records_in set.now)) ≤ 131070 }
    ensures { result ≡ count_by has_no_bytes (flat_map rows_of_record (records_in set.now)) }
{
    let Set::Values(_, list) = set else {
        return 0;
    };
    let fields = list.fields();
    let Some(layout) = fields.row_layout(list.kind()) else {
        return 0;
    };
    let runs = fields.runs();
    if is_usual(layout, runs) {
        return count_in_equal(layout, list);
    }
    let rows = SetRows {
        layout,
        runs,
        records: list.iter(),
    };
    rows.count_without_bytes()
}

/// Returns the number of rows of a message without bytes: their number of bytes is 0 or missing.
pub fn count_without_bytes(message: &Message<'_>) -> u32
    ensures count { result ≡ count_by has_no_bytes (rows_of_sets message.now.sets) }
{
    let mut count = 0;
    for set in message.sets().as_slice() {
        count += count_in_set(set);
    }
    count
}

/// An iterator over the rows of a message, in order. The second row of a record, if there is one, comes right after the
/// first.
#[derive(Drop)]
pub struct Rows<'m> {
    sets: Iter<'m, Set<'m>>,
    set: Option<SetRows<'m>>,
    // The bytes of the last record of `set`, if it may have a second row.
    last: Option<&'m [u8]>,
}

impl<'m> Model for Rows<'m> {
    ghost use Rattle.std.specs.Prelude.{◌≡◌, ◌++◌, [], List, MatchOption, None, option_map, unwrap_or};
    ghost use Rattle.std.specs.Slice.Iter.{iter_rest};
    ghost use Rattle.flow_rows.specs.Counts.{rows_of_sets};
    ghost use Rattle.flow_rows.specs.Elements.{RowView};
    ghost use Rattle.flow_rows.specs.Walk.{HaveRows, rows_to_come};

    ghost Value = { List RowView };

    ghost view = { λ a. unwrap_or (option_map (λ set. rows_to_come set a.last) a.set) []
        ++ rows_of_sets (iter_rest a.sets) };

    ghost invariant = { λ a. MatchOption a.set (a.last ≡ None) (λ set. HaveRows set a.last) };
}

/// Returns the rows of a message, at most 131,070.
pub fn rows_of<'m>(message: &'m Message<'m>) -> Rows<'m>
    ensures rows { result ≡ rows_of_sets message.now.sets }
    ensures few { length result ≤ 131070 }
{
    Rows {
        sets: message.sets().as_slice().iter(),
        set: None,
        last: None,
    }
}

impl<'m> Iterator for Rows<'m> {
    type Item = Row<'m>;

    ghost next_gives = { YieldsFirst (λ rows. rows) };

    ghost remaining = { item_count (λ rows. rows) };

    #[inline(always)]
    fn next(&mut self) -> Option<Row<'m>> {
        loop {
            if let Some(set) = &mut self.set {
                if let Some(row) = set.next_row(&mut self.last) {
                    return Some(row);
                }
            }
            self.set = SetRows::of_set(self.sets.next()?);
        }
    }
}
