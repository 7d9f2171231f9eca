//! The printed text of flow rows.
ghost use Rattle.std.specs.Prelude.{◌≡◌, ◌<◌, ◌≤◌, ◌++◌, IfOk, OnErr, OnOk, is_some, length, option_map};
ghost use Rattle.std.specs.List.{flat_map};
ghost use Rattle.std.specs.Option.{ForSome};
ghost use Rattle.pmap_print.specs.Table.{IsFrontOf, header_text, marked, marked_line};
ghost use Rattle.pmap_print.specs.Reports.{labels_of_row, given_labels, label_fields, label_texts};
ghost use Rattle.pmap_print.specs.Reports.{row_fields, row_line, rows_text, title_line};

use crate::fields::{write_address, write_number};
use crate::mark::Mark;
use crate::row_labels::RowLabels;
use crate::table::Table;
use flow_io::text_of;
use flow_rows::Row;
use std::alloc::{AllocError, Global};

// The fields of a row without labels, each after its mark, take at most this many bytes.
const LINE: usize = 192;

// Appends the fields of a row without labels, the first after the mark `first` and each other one after `mark`.
#[inline(always)]
fn print_fields(out: &mut Vec<u8>, row: &Row<'_>, first: Mark, mark: Mark) -> Result<(), AllocError>
    ensures ok { OnOk result (out.new.items ≡ out.old.items ++ marked_line first mark (row_fields row.now)) }
    ensures err { OnErr result (out.new.items ≡ out.old.items) }
{
    let mut line = [0; LINE];
    let end = write_number(mark, row.end_ms(), &mut line, LINE);
    let start = write_number(mark, row.start_ms(), &mut line, end);
    let octets = write_number(mark, row.octets(), &mut line, start);
    let packets = write_number(mark, row.packets(), &mut line, octets);
    let flags = write_number(mark, u64::from(row.flags()), &mut line, packets);
    let protocol = write_number(mark, u64::from(row.protocol()), &mut line, flags);
    let dport = write_number(mark, u64::from(row.dport()), &mut line, protocol);
    let sport = write_number(mark, u64::from(row.sport()), &mut line, dport);
    let dst = write_address(mark, row.dst(), &mut line, sport);
    let src = write_address(first, row.src(), &mut line, dst);
    out.extend_from_slice(&line[src..])
}

// Appends a mark and a field. If an allocation fails, the mark may have been appended.
#[inline(always)]
fn append_field(out: &mut Vec<u8>, mark: Mark, field: &[u8]) -> Result<(), AllocError>
    requires { length field.now ≤ 255 }
    ensures ok { OnOk result (out.new.items ≡ out.old.items ++ marked mark field.now) }
    ensures err { OnErr result (IsFrontOf out.old.items out.new.items) }
{
    out.push(mark.of(field.len()))?;
    out.extend_from_slice(field)
}

// Appends the fields of the labels of a row, each after a mark. The field of a missing label is empty. If an allocation
// fails, some of it may have been appended.
#[inline(always)]
fn print_labels(out: &mut Vec<u8>, labels: RowLabels<'_>, mark: Mark) -> Result<(), AllocError>
    ensures ok { OnOk result (out.new.items
        ≡ out.old.items ++ flat_map (marked mark) (label_fields (label_texts labels.entry))) }
    ensures err { OnErr result (IsFrontOf out.old.items out.new.items) }
{
    append_field(out, mark, labels.src.unwrap_or(b""))?;
    append_field(out, mark, labels.dst.unwrap_or(b""))
}

// Appends the line of a row, with its labels if they are given: the first field after the mark `first`, and each other
// one after `mark`.
#[inline(always)]
pub(crate) fn print_row(
    out: &mut Vec<u8>,
    row: &Row<'_>,
    labels: Option<RowLabels<'_>>,
    first: Mark,
    mark: Mark,
) -> Result<(), AllocError>
    ensures ok { OnOk result (out.new.items
        ≡ out.old.items ++ marked_line first mark (row_line row.now (option_map label_texts labels.entry))) }
    ensures err { OnErr result (out.new.items ≡ out.old.items) }
{
    let Some(labels) = labels else {
        return print_fields(out, row, first, mark);
    };
    let begin = out.len();
    print_fields(out, row, first, mark)?;
    let printed = print_labels(out, labels, mark);
    if printed.is_err() {
        out.truncate(begin);
    }
    printed
}

// Appends the header of rows. In a table with columns, the names of the columns each follow the byte of their length.
pub(crate) fn print_header(
    out: &mut Vec<u8>,
    labelled: bool,
    columns: bool,
) -> Result<(), AllocError>
    ensures { OnOk result (out.new.items ≡ out.old.items ++ header_text columns (title_line labelled)) }
{
    let names: &[u8] = if columns {
        b"\x03sip\x03dip\x05sport\x05dport\x05proto\x05flags\x07packets\x05bytes\x05stime\x05etime"
    } else {
        b"sip|dip|sport|dport|proto|flags|packets|bytes|stime|etime"
    };
    out.extend_from_slice(names)?;
    let names: &[u8] = match (labelled, columns) {
        (true, true) => b"\x09src-label\x09dst-label",
        (true, false) => b"|src-label|dst-label",
        (false, _) => b"",
    };
    out.extend_from_slice(names)?;
    Ok(())
}

// The labels of the row at an index, if labels are given.
fn labels_at<'a>(labels: Option<&[RowLabels<'a>]>, index: usize) -> Option<RowLabels<'a>>
    requires { ForSome labels (λ given. index < length given.now) }
    ensures given { is_some result ≡ is_some labels.entry }
    ensures texts { option_map label_texts result ≡ labels_of_row (given_labels labels.entry) index }
{
    Some(labels?[index])
}

/// Returns the text of rows: a header, and a line for each row.
///
/// If labels are given, there are as many as rows, and each line ends with the labels of its row. With `columns` each
/// field is padded with spaces on the left to the width of its column.
///
/// # Errors
/// If an allocation fails.
pub fn print_rows(
    alloc: Global,
    rows: &[Row<'_>],
    labels: Option<&[RowLabels<'_>]>,
    columns: bool,
) -> Result<Vec<u8>, AllocError>
    requires { ForSome labels (λ given. length given.now ≡ length rows.now) }
    ensures { IfOk result (λ out. out.items
        ≡ rows_text rows.now (given_labels labels.entry) columns) }
{
    let mut table = Table::of_rows(alloc, labels.is_some(), columns)?;
    for (i, row) in rows.iter().enumerate() {
        table.add_row(row, labels_at(labels, i))?;
    }
    let text = text_of(alloc, &table)?;
    Ok(text)
}
