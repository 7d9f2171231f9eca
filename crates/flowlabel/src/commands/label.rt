//! The output of `label`.
ghost use Rattle.std.specs.Prelude.{◌≡◌, ◌++◌, ◌∷◌, [], IfOk, option_map, unwrap_or};
ghost use Rattle.label_lookup.specs.Labelling.{labelling};
ghost use Rattle.flowlabel.specs.Output.{IsOutput, label_text};
ghost use Rattle.flow_files.specs.Reports.{AreFresh, labelling_read};
ghost use Rattle.flowlabel.specs.Printouts.{IsPrintout};
ghost use Rattle.flowlabel.specs.Request.{Label};

use crate::commands::printout::Printout;
use flow_files::{Files, LabelFile, LabelsRead, RunFault};
use flow_io::Input;
use label_lookup::{Labeller, Scan};
use pmap_model::KeyHashing;
use prefix_keys::{Addr, convert};
use std::alloc::{AllocError, Global};

fn line(alloc: Global, label: Option<&[u8]>) -> Result<Vec<u8>, AllocError>
    ensures { IfOk result (λ out. out.items ≡ unwrap_or (option_map (λ t. t.now) label.entry) [] ++ 10 ∷ []) }
{
    let mut out = Vec::new(alloc);
    if let Some(label) = label {
        out.extend_from_slice(label)?;
    }
    out.push(b'\n')?;
    Ok(out)
}

fn line_by<L: Labeller>(alloc: Global, labels: &L, addr: Addr) -> Result<Vec<u8>, AllocError>
    ensures { IfOk result (λ out. out.items
        ≡ label_text (addr.version, addr.value) (labelling (L.version_of labels.now) (L.label labels.now))) }
{
    match convert(addr, labels.version()) {
        Some(value) => line(alloc, labels.label_of(value)),
        None => line(alloc, None),
    }
}

// Returns the line of an address's label. All statements of a map, or all entries of a list, are
// searched once.
fn line_of(alloc: Global, read: &LabelsRead, addr: Addr) -> Result<Vec<u8>, AllocError>
    ensures { IfOk result (λ out. out.items ≡ label_text (addr.version, addr.value) (labelling_read read.now)) }
{
    match read {
        LabelsRead::Map(map) => line_by(alloc, &Scan::new(map), addr),
        LabelsRead::List(list) => line_by(alloc, list, addr),
    }
}

/// Returns the line of the label that a map or a list gives an address.
pub fn output<'a, R: Input>(
    alloc: Global,
    labels: LabelFile<'_>,
    files: &mut Files<'a, R>,
    addr: Addr,
    hashing: KeyHashing,
) -> Result<Printout, RunFault<'a>>
    requires { AreFresh R.input files.old }
    ensures { IsPrintout R.input (IsOutput (Label labels.entry addr)) files.old files.new result }
{
    let read = LabelsRead::of_file(alloc, labels, files, hashing)?;
    Ok(Printout::Text(line_of(alloc, &read, addr)?))
}
