//! The output of `rows`.
ghost use Rattle.std.specs.Prelude.{◌≡◌, option_map};
ghost use Rattle.std.specs.Borrow.{Bor};
ghost use Rattle.pmap_print.specs.Reports.{label_texts};
ghost use Rattle.flowlabel.specs.Output.{IsOutput};
ghost use Rattle.flow_files.specs.Reports.{AreFresh, labelling_found};
ghost use Rattle.flowlabel.specs.Printouts.{IsPrintout, row_labels};
ghost use Rattle.flowlabel.specs.Request.{Rows};
ghost use Rattle.flow_files.specs.Sources.{Text};

use crate::commands::printout::Printout;
use flow_files::{Files, LabelFile, RunFault, TakesRows, read_rows};
use flow_filter::Filter;
use flow_io::Input;
use flow_rows::Row;
use label_lookup::{StretchIndex, label_row};
use pmap_model::KeyHashing;
use pmap_print::{RowLabels, Table};
use std::alloc::{AllocError, Global};

fn labels_under<'l>(labels: Option<&'l StretchIndex<'_>>, row: &Row<'_>) -> Option<RowLabels<'l>>
    ensures { option_map label_texts result
        ≡ option_map (λ l. row_labels l row.now) (labelling_found labels.entry) }
{
    let labels = labels?;
    Some(RowLabels {
        src: label_row(labels, row.src()),
        dst: label_row(labels, row.dst()),
    })
}

/// The lines of the rows that were added.
#[derive(Drop)]
struct Lines {
    table: Table,
}

impl TakesRows for Lines {
    ghost use Rattle.flowlabel.specs.Printouts.{HasRows};

    ghost has_rows = { HasRows };

    #[inline(always)]
    fn take_row(
        &mut self,
        row: &Row<'_>,
        labels: Option<&StretchIndex<'_>>,
    ) -> Result<(), AllocError> {
        self.table.add_row(row, labels_under(labels, row))
    }
}

/// Returns the rows of a File that pass a filter, with labels if there is a map or a list, and padded to columns if
/// `columns`.
pub fn output<'a, R: Input>(
    alloc: Global,
    labels: Option<LabelFile<'_>>,
    files: &mut Files<'a, R>,
    filter: &Filter<'_>,
    columns: bool,
    hashing: KeyHashing,
) -> Result<Printout, RunFault<'a>>
    requires { AreFresh R.input files.old }
    ensures { (flows : Bor Text) →
        IsPrintout R.input (IsOutput (Rows labels.entry filter.now columns flows)) files.old files.new result }
{
    let lines = Lines {
        table: Table::of_rows(alloc, labels.is_some(), columns)?,
    };
    let lines = read_rows(alloc, labels, files, filter, hashing, lines)?;
    Ok(Printout::Table(lines.table))
}
