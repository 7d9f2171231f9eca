//! Opens the files that a command line names.
ghost use Rattle.std.specs.Prelude.{◌≡◌, [], false, IfErr, IfOk, IfSome, List, Option, ℕ, option_map};
ghost use Rattle.flow_files.specs.Opening.{AreOpened, CannotOpenFirst, CannotOpenNamed, IsOpened};
ghost use Rattle.flow_files.specs.Sources.{names_of};
ghost use Rattle.flow_files.specs.Readers.{AreUnread, any_failed, view_of};

use crate::by_file::ByFile;
use crate::fault::RunFault;
use crate::inputs::{Files, Source};
use flow_io::{Input, ReadAhead, Watched};
use std::alloc::{AllocError, Global};
use std::fs::File;

/// Opens files by their names.
pub trait Opener {
    type Reader: Input + Drop;

    // The possible results for a name: a reader, or none.
    ghost answers: { Self → List ℕ → Option Self.Reader → Type 0 };

    /// Opens the file with this name, and reads nothing of it. Returns `None` if the file can't be opened.
    fn open(&self, alloc: Global, name: &str) -> Result<Option<Self::Reader>, AllocError>
        ensures answer { IfOk result (answers self.now name.now) }
        ensures fresh { IfOk result (λ opened. IfSome opened (λ reader. (Self.Reader.input reader).failed ≡ false)) }
        ensures unread { IfOk result (λ opened. IfSome opened (λ reader. (Self.Reader.input reader).returned ≡ [])) };
}

// Opens the files of the system. No contract says which files these are.
impl Opener for HostRuntime {
    type Reader = ReadAhead<Watched<File>>;

    ghost answers = { λ _ _ _. Unit {0} };

    fn open(
        &self,
        alloc: Global,
        name: &str,
    ) -> Result<Option<ReadAhead<Watched<File>>>, AllocError> {
        let Ok(file) = File::open(self, name) else {
            return Ok(None);
        };
        Ok(Some(ReadAhead::new(alloc, Watched::new(file))?))
    }
}

/// Opens the file with this name, if there is one, and reads nothing of it.
pub fn open_source<'a, O: Opener>(
    alloc: Global,
    opener: &O,
    name: Option<&'a str>,
) -> Result<Option<Source<'a, O::Reader>>, RunFault<'a>>
    ensures opened { IfOk result (IsOpened (O.answers opener.now) (option_map (λ s. s.now) name.entry)) }
    ensures fresh { IfOk result (λ source. (view_of O.Reader.input source).failed ≡ false) }
    ensures unread { IfOk result (λ source. (view_of O.Reader.input source).returned ≡ []) }
    ensures err { IfErr result (CannotOpenNamed (O.answers opener.now) (option_map (λ s. s.now) name.entry)) }
{
    let Some(name) = name else {
        return Ok(None);
    };
    match opener.open(alloc, name) {
        Ok(Some(reader)) => Ok(Some(Source { name, reader })),
        Ok(None) => Err(RunFault::CannotOpen(name)),
        Err(_) => Err(RunFault::NoMemory),
    }
}

/// Opens the files that a command reads, in the order map, list, certificate, flows. Reads nothing of them.
///
/// # Errors
///
/// `CannotOpen` with the name of the first file that can't be opened, or `NoMemory` if an allocation fails.
pub fn open_all<'a, O: Opener>(
    alloc: Global,
    opener: &O,
    names: ByFile<Option<&'a str>>,
) -> Result<Files<'a, O::Reader>, RunFault<'a>>
    ensures opened { IfOk result (AreOpened (O.answers opener.now) (names_of names.entry)) }
    ensures fresh { IfOk result (λ files. any_failed O.Reader.input files ≡ false) }
    ensures unread { IfOk result (AreUnread O.Reader.input) }
    ensures err { IfErr result (CannotOpenFirst (O.answers opener.now) (names_of names.entry)) }
{
    Ok(ByFile {
        map: open_source(alloc, opener, names.map)?,
        list: open_source(alloc, opener, names.list)?,
        certificate: open_source(alloc, opener, names.certificate)?,
        flows: open_source(alloc, opener, names.flows)?,
    })
}
