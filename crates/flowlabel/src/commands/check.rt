//! The output of `check`.
ghost use Rattle.std.specs.Prelude.{◌≡◌, ⊤, length};
ghost use Rattle.std.specs.Borrow.{Bor};
ghost use Rattle.cert_check.specs.Inner.{ForInputs, HasKnownLabels};
ghost use Rattle.flowlabel.specs.Output.{IsOutput, check_reading, minimal_text};
ghost use Rattle.flow_files.specs.Reports.{AreFresh, IsFresh, IsRead};
ghost use Rattle.flowlabel.specs.Printouts.{IsPrintout};
ghost use Rattle.flowlabel.specs.Request.{Check};
ghost use Rattle.flow_files.specs.Sources.{Text};

use crate::commands::printout::Printout;
use cert_check::{Swept, TextFault, check_text};
use flow_files::{BytesFault, Files, RunFault, Source, read, read_list, read_map};
use flow_io::Input;
use pmap_model::KeyHashing;
use std::alloc::Global;

// Checks a certificate, whose file is read.
fn checked<'a, R: Input>(
    alloc: Global,
    map: &Swept,
    list: &Swept,
    file: &mut Option<Source<'a, R>>,
    hashing: KeyHashing,
) -> Result<Vec<u8>, RunFault<'a>>
    requires fresh { IsFresh R.input file.old }
    requires map { HasKnownLabels map.now }
    requires list { HasKnownLabels list.now }
    ensures { ForInputs map.now list.now (λ m l. IsRead R.input (check_reading m l)
        (λ read out. out.items ≡ minimal_text (length read.prefixes)) (λ _. ⊤) file.old file.new result) }
{
    let (name, text) = read(alloc, file)?;
    match check_text(alloc, map, list, text.as_slice(), hashing) {
        Ok(count) => Ok(format!(in alloc; "minimal {count}\n")?.into_bytes()),
        Err(TextFault::Check(fault)) => Err(RunFault::of(name, BytesFault::Check(fault))),
        Err(TextFault::Certificate(fault)) => Err(RunFault::of(
            name,
            BytesFault::Certificate(fault),
        )),
    }
}

/// Returns the number of entries of a list, if the certificate shows that the list is a shortest one for the map. A
/// file is read only after the one before it is decoded and its statements or entries are freed.
pub fn output<'a, R: Input>(
    alloc: Global,
    files: &mut Files<'a, R>,
    hashing: KeyHashing,
) -> Result<Printout, RunFault<'a>>
    requires { AreFresh R.input files.old }
    ensures { (map list certificate : Bor Text) →
        IsPrintout R.input (IsOutput (Check map list certificate)) files.old files.new result }
{
    let map = read_map(alloc, &mut files.map, hashing)?;
    let swept_map = Swept::of_map(alloc, map)?;
    let list = read_list(alloc, &mut files.list, hashing)?;
    let swept_list = Swept::of_list(alloc, list)?;
    let certificate = &mut files.certificate;
    Ok(Printout::Text(checked(alloc, &swept_map, &swept_list, certificate, hashing)?))
}
