//! The rows of data records.
ghost use Rattle.std.specs.Prelude.{◌≡◌, IfSome, length, option_and_then};
ghost use Rattle.flow_rows.specs.Elements.{first_row, second_row};
ghost use Rattle.flow_rows.specs.Inner.{AreUsable, second_at};

use crate::row::Row;
use ipfix_read::Record;
use ipfix_templates::RowLayout;

/// Returns the first row of a data record. Each number is that of the first usable field of its element (RFC 7012). A
/// field is usable if it has no enterprise number and the template's length fits its element. An options record has no
/// row, nor has a record with neither both IPv4 addresses nor both IPv6 addresses.
#[inline(always)]
pub fn row_of<'r>(source: &Record<'r, 'r>) -> Option<Row<'r>>
    ensures { result ≡ first_row source.now }
{
    let fields = source.fields.specifiers();
    let bytes = source.fields.bytes();
    let layout = fields.row_layout(source.kind)?;
    Some(Row::new(&layout.first, fields.runs(), bytes))
}

/// Returns the second row at the places of a layout in the bytes of a record, if there are bytes and the packets of the
/// reverse direction are counted and not 0.
#[inline(always)]
pub fn second_row<'r>(
    layout: &'r RowLayout,
    runs: &'r [u32],
    bytes: Option<&'r [u8]>,
) -> Option<Row<'r>>
    requires { IfSome bytes (λ bytes. AreUsable (length bytes.now) layout.now.second) }
    ensures { result ≡ option_and_then (λ bytes. second_at layout.now runs.now bytes.now) bytes.entry }
{
    let row = Row::new(&layout.second, runs, bytes?);
    if row.packets() == 0 {
        return None;
    }
    Some(row)
}

/// Returns the second row of a data record: the row of the reverse direction (RFC 5103 section 4), if there is a first
/// row and the packets in that direction are counted and not 0. Addresses and ports are those of the first row,
/// exchanged. A field of the reverse direction is usable if its enterprise number is 29305 and the template's length
/// fits its element. A time without a field is that of the first row.
#[inline(always)]
pub fn reverse_row_of<'r>(source: &Record<'r, 'r>) -> Option<Row<'r>>
    ensures { result ≡ second_row source.now }
{
    let fields = source.fields.specifiers();
    let bytes = source.fields.bytes();
    let layout = fields.row_layout(source.kind)?;
    second_row(layout, fields.runs(), Some(bytes))
}
