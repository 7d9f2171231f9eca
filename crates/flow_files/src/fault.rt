ghost use Rattle.std.specs.Prelude.{◌≡◌, IfOk};
ghost use Rattle.std.specs.String.{string_bytes};
ghost use Rattle.flow_files.specs.Faults.{fault_text, file_text, filter_fault_text, key_fault_text, named_text};
ghost use Rattle.flow_files.specs.Faults.{option_text, out_of_memory_text, position_text, status_of, usage_fault_text};
ghost use Rattle.flow_files.specs.Readers.{IsFaultFor};

use crate::bytes_fault::BytesFault;
use crate::usage::UsageFault;
use flow_filter::FilterFaultKind;
use flow_uniq::KeyFault;
use std::alloc::{AllocError, Global};

/// The reason why a run of a program ended without its whole output. File names are those of the command line.
#[derive(Drop)]
pub enum RunFault<'a> {
    /// The command line is faulty, or asks for help.
    Usage(UsageFault),
    /// A file can't be opened.
    CannotOpen(&'a str),
    /// A file can't be read.
    CannotRead(&'a str),
    /// The output can't be written.
    CannotWrite,
    /// An allocation failed.
    NoMemory,
    /// The bytes of a file have a fault.
    File { file: &'a str, fault: BytesFault },
}

impl<'a> RunFault<'a> {
    /// Returns the fault for one of the bytes of the file with this name. Out of memory becomes `NoMemory`.
    pub fn of(file: &'a str, fault: BytesFault) -> RunFault<'a>
        ensures { IsFaultFor file.entry.now fault result }
    {
        if fault.is_out_of_memory() {
            RunFault::NoMemory
        } else {
            RunFault::File { file, fault }
        }
    }
}

impl<'a> From<AllocError> for RunFault<'a> {
    ghost use Rattle.flow_files.specs.declared.fault.RunFault.TheVariants.{NoMemory};

    ghost from_gives = { λ _ fault. fault ≡ NoMemory };

    fn from(_error: AllocError) -> RunFault<'a> {
        RunFault::NoMemory
    }
}

fn filter_fault_name(kind: FilterFaultKind) -> &'static str
    ensures { result.now ≡ filter_fault_text kind }
{
    match kind {
        FilterFaultKind::BadNumberList => "L1 BadNumberList",
        FilterFaultKind::BadRange => "L2 BadRange",
        FilterFaultKind::BadBlock => "L3 BadBlock",
        FilterFaultKind::NoMemory => "L4 NoMemory",
    }
}

fn key_fault_name(fault: KeyFault) -> &'static str
    ensures { result.now ≡ key_fault_text fault }
{
    match fault {
        KeyFault::BadField => "U1 BadField",
        KeyFault::FieldRepeated => "U2 FieldRepeated",
        KeyFault::NoMemory => "U3 NoMemory",
    }
}

// The line of a program that has no memory.
fn memory_line(alloc: Global, program: &str) -> Result<String, AllocError>
    ensures { IfOk result (λ line. string_bytes line ≡ out_of_memory_text program.now) }
{
    format!(in alloc; "{program}: out of memory\n")
}

// The line of a usage fault with this code and name.
fn named_line(alloc: Global, program: &str, name: &str) -> Result<String, AllocError>
    ensures { IfOk result (λ line. string_bytes line ≡ named_text program.now name.now) }
{
    format!(in alloc; "{program}: usage: {name}\n")
}

// The line of a usage fault of an option.
fn option_line(alloc: Global, program: &str, option: &str, name: &str) -> Result<String, AllocError>
    ensures { IfOk result (λ line. string_bytes line ≡ option_text program.now option.now name.now) }
{
    format!(in alloc; "{program}: usage: --{option} {name}\n")
}

// The line of a usage fault.
fn usage_line(alloc: Global, program: &str, fault: &UsageFault) -> Result<String, AllocError>
    ensures { IfOk result (λ line. string_bytes line ≡ usage_fault_text program.now fault.now) }
{
    match fault {
        UsageFault::Refused(text) => String::from_str(alloc, text.as_str()),
        UsageFault::NotUtf8 => named_line(alloc, program, "P1 NotUtf8"),
        UsageFault::Help(_) => String::from_str(alloc, ""),
        UsageFault::MapTwice => named_line(alloc, program, "P3 MapTwice"),
        UsageFault::MapMissing => named_line(alloc, program, "P2 MapMissing"),
        UsageFault::BadAddress => named_line(alloc, program, "P4 BadAddress"),
        UsageFault::Filter(fault) => option_line(
            alloc,
            program,
            fault.option.name(),
            filter_fault_name(fault.kind),
        ),
        UsageFault::Key(fault) => option_line(alloc, program, "fields", key_fault_name(*fault)),
        UsageFault::LabelNeedsMap => named_line(alloc, program, "P5 LabelNeedsMap"),
        UsageFault::CompactAlone => named_line(alloc, program, "P6 CompactAlone"),
        UsageFault::Unit => option_line(alloc, program, "by", "U4 BadUnit"),
        UsageFault::KeysMissing => named_line(alloc, program, "P7 KeysMissing"),
        UsageFault::NoMemory => memory_line(alloc, program),
    }
}

// The line of a fault of a file or of the output.
fn file_line(alloc: Global, program: &str, file: &str, name: &str) -> Result<String, AllocError>
    ensures { IfOk result (λ line. string_bytes line ≡ file_text program.now file.now name.now) }
{
    format!(in alloc; "{program}: {file}: {name}\n")
}

// The line of a fault of a file's bytes.
fn position_line(
    alloc: Global,
    program: &str,
    file: &str,
    name: &str,
    position: u64,
) -> Result<String, AllocError>
    ensures { IfOk result (λ line. string_bytes line ≡ position_text program.now file.now name.now position) }
{
    format!(in alloc; "{program}: {file}: {name} at {position}\n")
}

fn line_of(alloc: Global, program: &str, fault: &RunFault<'_>) -> Result<String, AllocError>
    ensures { IfOk result (λ line. string_bytes line ≡ fault_text program.now fault.now) }
{
    match fault {
        RunFault::Usage(fault) => usage_line(alloc, program, fault),
        RunFault::CannotOpen(file) => file_line(alloc, program, file, "cannot open"),
        RunFault::CannotRead(file) => file_line(alloc, program, file, "cannot read"),
        RunFault::CannotWrite => file_line(alloc, program, "output", "cannot write"),
        RunFault::NoMemory => memory_line(alloc, program),
        RunFault::File { file, fault } => {
            let (name, position) = fault.name_and_position();
            position_line(alloc, program, file, name, position)
        }
    }
}

/// Returns the line of a fault of the program with this name for standard error, with its line feed: clap's text if
/// clap refuses, nothing for help.
pub fn fault_line(alloc: Global, program: &str, fault: &RunFault<'_>) -> Result<Vec<u8>, AllocError>
    ensures { IfOk result (λ line. line.items ≡ fault_text program.now fault.now) }
{
    Ok(line_of(alloc, program, fault)?.into_bytes())
}

/// Returns the exit status of a fault: 1 for a fault of a file's bytes or of a certificate, 2 for a usage fault, 3 for
/// out of memory, 4 for a file or an output that fails, and 0 for help.
pub fn status(fault: &RunFault<'_>) -> u8
    ensures { result ≡ status_of fault.now }
{
    match fault {
        RunFault::Usage(UsageFault::Help(_)) => 0,
        RunFault::Usage(UsageFault::NoMemory) | RunFault::NoMemory => 3,
        RunFault::Usage(_) => 2,
        RunFault::CannotOpen(_) | RunFault::CannotRead(_) | RunFault::CannotWrite => 4,
        RunFault::File { .. } => 1,
    }
}
