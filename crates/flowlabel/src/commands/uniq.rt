//! The output of `uniq`.
ghost use Rattle.std.specs.Borrow.{Bor};
ghost use Rattle.flowlabel.specs.Output.{IsOutput};
ghost use Rattle.flow_files.specs.Reports.{AreFresh};
ghost use Rattle.flowlabel.specs.Printouts.{IsPrintout};
ghost use Rattle.flow_files.specs.Sources.{Text};
ghost use Rattle.flowlabel.specs.Request.{Uniq};

use crate::commands::printout::Printout;
use flow_files::{Files, LabelFile, RunFault, read_rows};
use flow_filter::Filter;
use flow_io::Input;
use flow_uniq::{Groups, Keys};
use pmap_model::KeyHashing;
use std::alloc::Global;

/// How rows are chosen, grouped and printed.
#[derive(Clone, Copy)]
pub struct Grouping<'a> {
    /// The fields of the groups' keys.
    pub keys: &'a Keys,
    /// The condition that rows must meet.
    pub filter: &'a Filter<'a>,
    /// Whether the groups are sorted, or in the order of their first rows.
    pub sorted: bool,
    /// Whether the fields are padded to columns.
    pub columns: bool,
}

/// Returns the groups of the rows of a File that pass a filter.
pub fn output<'a, R: Input>(
    alloc: Global,
    labels: Option<LabelFile<'_>>,
    files: &mut Files<'a, R>,
    grouping: Grouping<'_>,
    hashing: KeyHashing,
) -> Result<Printout, RunFault<'a>>
    requires { AreFresh R.input files.old }
    ensures { (flows : Bor Text) →
        IsPrintout R.input
        (IsOutput (Uniq grouping.entry.keys.now labels.entry grouping.entry.filter.now grouping.entry.sorted
        grouping.entry.columns flows))
        files.old files.new result }
{
    let groups = Groups::with_hashing(alloc, grouping.keys, hashing)?;
    let groups = read_rows(alloc, labels, files, grouping.filter, hashing, groups)?;
    Ok(Printout::Groups {
        groups,
        sorted: grouping.sorted,
        columns: grouping.columns,
    })
}
