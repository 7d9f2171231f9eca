//! The output of `shrink`.
ghost use Rattle.std.specs.Prelude.{IfOk};
ghost use Rattle.std.specs.Borrow.{Bor};
ghost use Rattle.pmap_model.specs.MapText.{map_of};
ghost use Rattle.flowlabel.specs.Output.{IsOutput};
ghost use Rattle.flow_files.specs.Reports.{AreFresh};
ghost use Rattle.flowlabel.specs.Printouts.{IsPrintout, IsShrunk};
ghost use Rattle.flowlabel.specs.Request.{Shrink};
ghost use Rattle.flow_files.specs.Sources.{Text};

use crate::command::Shrunk;
use crate::commands::printout::Printout;
use flow_files::{Files, RunFault, read_map};
use flow_io::Input;
use pmap_minimise::{compact_certificate, shortest};
use pmap_model::{KeyHashing, MapText};
use std::alloc::{AllocError, Global};

fn printout_of(alloc: Global, map: MapText, printed: Shrunk) -> Result<Printout, AllocError>
    ensures { IfOk result (IsShrunk printed (map_of map)) }
{
    match printed {
        Shrunk::List => Ok(Printout::List(shortest(alloc, map)?)),
        Shrunk::Certificate => Ok(Printout::Opened(compact_certificate(alloc, map)?)),
        Shrunk::Compact => Ok(Printout::Certificate(compact_certificate(alloc, map)?)),
    }
}

/// Returns what prints a shortest list of a map, or its certificate, compacted or not.
pub fn output<'a, R: Input>(
    alloc: Global,
    files: &mut Files<'a, R>,
    printed: Shrunk,
    hashing: KeyHashing,
) -> Result<Printout, RunFault<'a>>
    requires { AreFresh R.input files.old }
    ensures { (map : Bor Text) → IsPrintout R.input (IsOutput (Shrink map printed)) files.old files.new result }
{
    let map = read_map(alloc, &mut files.map, hashing)?;
    Ok(printout_of(alloc, map, printed)?)
}
