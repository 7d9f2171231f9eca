//! The commands of the program `flowlabel` as calls. They label addresses by a prefix map or a prefix list, print,
//! filter and sum the flows of IPFIX Files, and make and check shortest lists.
//!
//! ```rust
//! use flow_io::{MemoryInput, MemoryOutput};
//! use flowlabel::{ByFile, Inputs, Source, parse, run};
//! use pmap_model::KeyHashing;
//!
//! // Prints the label of an address under a map in memory.
//! let words = ["flowlabel", "label", "--pmap", "map.txt", "10.1.1.1"];
//! let mut output = MemoryOutput::<64>::new(64, None, false);
//! if let Ok(command) = parse(alloc, &words) {
//!     let reader = MemoryInput::new(b"10.0.0.0/8 A\n", 64, None);
//!     let map = Some(Source { name: "map.txt", reader });
//!     let files = ByFile { map, list: None, certificate: None, flows: None };
//!     let mut inputs = Inputs { files, hashing: KeyHashing::known() };
//!     assert!(rt; run(alloc, &command, &mut inputs, &mut output).is_ok());
//! }
//! assert!(rt; output.taken() == b"A\n".as_slice());
//! ```
//!
//! It depends on all the other libraries. `parse` reads the words of a command line, which clap splits, and `needs` of
//! `Command` returns which files the command reads. `run` reads these, and writes the output while it is printed, once
//! nothing but the writer can fail. `fault_line` returns the line of a fault for standard error, and `status` its exit
//! status. Rely on the contract of `run`: the bytes written are a stated function of the bytes read, a fault is the
//! first one of those bytes, only a write fault leaves anything written, and device faults come exactly from failed
//! devices.
//!
//! `program` is the whole program. `open_all` opens the files that a command names. `execute` joins `parse`, `open_all`
//! and `run`: by its contract it runs the request of the words over the files that they name. `end` writes help or the
//! line of a fault, and returns the status. Tests of the program show that the two streams and the status are the
//! system's.
#![tactic(auto)]

ghost use Rattle.std.specs.Prelude.{◌≡◌, false, map};
ghost use Rattle.std.specs.Result.{result_map_both};
ghost use Rattle.std.specs.String.{string_bytes};
ghost use Rattle.std.specs.Vec.Iter.{into_iter_items};
ghost use Rattle.flowlabel.specs.Ending.{IsEndOf, IsProgram};

use flow_files::{listed, words_fault};
use flow_io::Output;
use pmap_model::KeyHashing;
use std::alloc::Global;
use std::convert::AsStr;
use std::env;
use std::io::ErrorKind;

mod command;
mod commands;
mod definition;
mod ending;
mod fault;
mod inputs;
mod words;

pub use command::{Command, Shrunk};
pub use commands::{
    one_output, output_is_same_under_equivalent_labels, output_keeps_headline,
    output_of_joined_file, run, shrunk_list_is_least, shrunk_list_keeps_reports,
};
pub use ending::end;
pub use fault::fault_line;
pub use flow_files::{
    ByFile, BytesFault, Files, LabelFile, Opener, RunFault, Source, UsageFault, open_all, status,
};
pub use inputs::Inputs;
pub use words::{lines_have_one_answer, parse};

/// Runs the command that the words ask for over the files that they name.
pub fn execute<'a, S: AsStr, O: Opener, W: Output>(
    alloc: Global,
    words: &'a [S],
    opener: &O,
    output: &mut W,
    hashing: KeyHashing,
) -> Result<(), RunFault<'a>>
    requires { (W.output output.old).failed ≡ false }
    ensures { IsEndOf (O.answers opener.now) O.Reader.input W.output
        (map S.text words.entry.now) output.old output.new result }
{
    let command = match parse(alloc, words) {
        Ok(command) => command,
        Err(fault) => return Err(RunFault::Usage(fault)),
    };
    let files = open_all(alloc, opener, command.files())?;
    let mut inputs = Inputs { files, hashing };
    run(alloc, &command, &mut inputs, output)
}

/// The program: executes the words, or reports the error of getting them, and returns the exit status. Labels and
/// groups are hashed by `hashing`.
pub fn program<O: Opener, W: Output, E: Output>(
    alloc: Global,
    words: Result<env::Args, ErrorKind>,
    opener: &O,
    output: &mut W,
    error: &mut E,
    hashing: KeyHashing,
) -> u8
    requires output { (W.output output.old).failed ≡ false }
    requires error { (E.output error.old).failed ≡ false }
    ensures { IsProgram (O.answers opener.now) O.Reader.input W.output E.output
        (result_map_both (λ args. map string_bytes (into_iter_items args))
        (λ kind. kind) words) output.old output.new error.old error.new result }
{
    let list;
    let outcome = match words {
        Ok(words) => match listed(alloc, words) {
            Ok(words) => {
                list = words;
                execute(alloc, list.as_slice(), opener, output, hashing)
            }
            Err(_) => Err(RunFault::Usage(UsageFault::NoMemory)),
        },
        Err(kind) => Err(RunFault::Usage(words_fault(kind))),
    };
    end(alloc, &outcome, output, error)
}
