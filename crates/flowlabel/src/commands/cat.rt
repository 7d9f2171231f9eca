//! The output of `cat`.
ghost use Rattle.std.specs.Prelude.{IfOk};
ghost use Rattle.flowlabel.specs.Output.{IsOutput};
ghost use Rattle.flow_files.specs.Reports.{AreFresh};
ghost use Rattle.flowlabel.specs.Printouts.{AreRunsFor, IsPrintout};
ghost use Rattle.flowlabel.specs.Request.{Cat};

use crate::commands::printout::Printout;
use flow_files::{Files, LabelFile, LabelsRead, RunFault};
use flow_io::Input;
use pmap_model::KeyHashing;
use pmap_stretches::{Runs, labelling_has_one_runs_text};
use std::alloc::{AllocError, Global};

fn runs_of(alloc: Global, labels: &LabelsRead) -> Result<Runs, AllocError>
    ensures { IfOk result (AreRunsFor labels.now) }
{
    // Provides the law that labellings that agree on each address have one text of their runs.
    labelling_has_one_runs_text();
    match labels {
        LabelsRead::Map(map) => Ok(Runs::of_map(alloc, map)?),
        LabelsRead::List(list) => Ok(Runs::of_list(alloc, list)?),
    }
}

/// Returns the ranges of addresses with the same label under a map or a list.
pub fn output<'a, R: Input>(
    alloc: Global,
    source: LabelFile<'_>,
    files: &mut Files<'a, R>,
    hashing: KeyHashing,
) -> Result<Printout, RunFault<'a>>
    requires { AreFresh R.input files.old }
    ensures { IsPrintout R.input (IsOutput (Cat source.entry)) files.old files.new result }
{
    let labels = LabelsRead::of_file(alloc, source, files, hashing)?;
    let runs = runs_of(alloc, &labels)?;
    Ok(Printout::Runs { runs, labels })
}
