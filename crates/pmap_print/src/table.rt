//! A table of flow rows, line by line.
ghost use Rattle.std.specs.Prelude.{◌≡◌, ℕ, ◌<◌, ◌≤◌, List, [], ◌∷◌, ◌++◌, IfOk};
ghost use Rattle.std.specs.Prelude.{OnErr, OnOk, drop, is_some, length, option_map};
ghost use Rattle.std.specs.Option.{ForSome};
ghost use Rattle.pmap_print.specs.Reports.{column_count, label_texts, row_line, title_line};
ghost use Rattle.pmap_print.specs.Table.{has_columns, AreWide, IsTable, Line, sized, table_text};

use crate::columns::Columns;
use crate::mark::Mark;
use crate::row_labels::RowLabels;
use crate::rows::{print_header, print_row};
use flow_io::{Printable, Sink};
use flow_rows::Row;
use std::alloc::{AllocError, Global};

// The number of columns of rows, without labels and with them.
const COLUMNS: usize = 10;

const WITH_LABELS: usize = 12;

/// A table of flow rows that is built line by line. Its fields are padded to columns, or are not.
#[derive(Drop)]
pub struct Table {
    // The fields of the lines. If they are to be padded, each field follows the byte of its length. Otherwise each
    // field but the first of the table follows the byte that ends the field before.
    text: Vec<u8>,
    // The widths of the columns, if the fields are to be padded.
    columns: Option<Columns>,
}

// Returns the text from an offset on.
#[inline(always)]
fn since(text: &[u8], begin: usize) -> &[u8]
    requires { begin ≤ length text.now }
    ensures { result.now ≡ drop begin text.entry.now }
{
    &text[begin..]
}

impl Table {
    // Returns a table of no lines, with `count` columns.
    fn new(alloc: Global, count: usize, columns: bool) -> Result<Table, AllocError>
        requires { 0 < count }
        ensures text { IfOk result (λ t. t.text.items ≡ []) }
        ensures wide { IfOk result (λ t. ForSome t.columns (AreWide count [])) }
        ensures columns { IfOk result (λ t. has_columns t ≡ columns) }
    {
        let widths = if columns {
            Some(Columns::new(alloc, count)?)
        } else {
            None
        };
        Ok(Table {
            text: Vec::new(alloc),
            columns: widths,
        })
    }

    // Widens the columns for the line that begins at `begin`.
    #[inline(always)]
    fn end_line(&mut self, begin: usize)
        requires begin { begin ≤ length self.old.text.items }
        requires line { ForSome self.old.columns (λ c. (fields : Line)
            × (drop begin self.old.text.items ≡ sized fields) × (length fields ≡ length c.widths.items)) }
        ensures text { self.new.text.items ≡ self.old.text.items }
        ensures columns { has_columns self.new ≡ has_columns self.old }
        ensures wide { (count : ℕ) → (lines : List Line) → (fields : Line)
            → ForSome self.old.columns (AreWide count lines) → drop begin self.old.text.items ≡ sized fields
            → length fields ≡ count → ForSome self.new.columns (AreWide count (lines ++ fields ∷ [])) }
    {
        if let Some(columns) = &mut self.columns {
            columns.add_line(since(self.text.as_slice(), begin));
        }
    }

    /// Returns a table of rows that has only its header, with the names of the label columns if `labelled`.
    ///
    /// With `columns` each field is padded with spaces on the left to the width of its column.
    ///
    /// # Errors
    /// If an allocation fails.
    pub fn of_rows(alloc: Global, labelled: bool, columns: bool) -> Result<Table, AllocError>
        ensures header { IfOk result (IsTable (column_count labelled) (title_line labelled ∷ [])) }
        ensures columns { IfOk result (λ t. has_columns t ≡ columns) }
    {
        let count = if labelled { WITH_LABELS } else { COLUMNS };
        let mut table = Table::new(alloc, count, columns)?;
        print_header(&mut table.text, labelled, columns)?;
        table.end_line(0);
        Ok(table)
    }

    /// Adds the line of a row, with its labels if the table has columns for them. The field of a missing label is
    /// empty.
    ///
    /// # Errors
    /// If an allocation fails. The table is then unchanged.
    #[inline(always)]
    pub fn add_row(
        &mut self,
        row: &Row<'_>,
        labels: Option<RowLabels<'_>>,
    ) -> Result<(), AllocError>
        requires { (lines : List Line) × IsTable (column_count (is_some labels)) lines self.old }
        ensures columns { has_columns self.new ≡ has_columns self.old }
        ensures line { OnOk result ((lines : List Line) → IsTable (column_count (is_some labels.entry)) lines self.old
            → IsTable (column_count (is_some labels.entry))
            (lines ++ row_line row.now (option_map label_texts labels.entry) ∷ []) self.new) }
        ensures err { OnErr result
            ((self.new.text.items ≡ self.old.text.items) × (self.new.columns ≡ self.old.columns)) }
    {
        if self.columns.is_none() {
            // Constant marks are faster.
            return print_row(
                &mut self.text,
                row,
                labels,
                Mark::End(b'\n'),
                Mark::End(b'|'),
            );
        }
        let begin = self.text.len();
        print_row(&mut self.text, row, labels, Mark::Length, Mark::Length)?;
        self.end_line(begin);
        Ok(())
    }
}

impl Printable for Table {
    ghost use Rattle.std.specs.Prelude.{◌≡◌, ℕ, List};
    ghost use Rattle.pmap_print.specs.Table.{has_columns, IsTable, Line, table_text};

    ghost is_whole = { λ t. (count : ℕ) × (lines : List Line) × IsTable count lines t };

    ghost is_text = { λ t text. (count : ℕ) → (lines : List Line) → IsTable count lines t
        → text ≡ table_text (has_columns t) lines };

    // Prints the lines, padded if the table has columns.
    fn print<S: Sink>(&self, out: &mut S) -> Result<(), S::Fault> {
        let text = self.text.as_slice();
        if let Some(columns) = &self.columns {
            columns.print_lines(out, text)?;
            return Ok(());
        }
        out.push(text)?;
        out.push(b"\n")
    }
}
