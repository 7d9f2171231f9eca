//! The commands of the program `flowlabel-many` as calls: the sums of the flows of many IPFIX Files, by units of time
//! and by fields, and what each of their messages has.
//!
//! Files are opened and read one after the other, each by itself: no template of one is used in another. `parse` reads
//! the words of a command line. `run` reads the map or the list and the Files, and writes the output once nothing but
//! the writer can fail. Rely on its contract: the bytes written are a stated function of the bytes that the reads of
//! each File returned, and a fault is the first one. `program` is the whole program: it also opens the map or the list,
//! writes help or the line of a fault, and returns the exit status.
#![tactic(auto)]

ghost use Rattle.std.specs.Prelude.{◌≡◌, false, map};
ghost use Rattle.std.specs.Result.{result_map_both};
ghost use Rattle.std.specs.String.{string_bytes};
ghost use Rattle.std.specs.Vec.Iter.{into_iter_items};
ghost use Rattle.flow_many.specs.Ending.{IsEndOf, IsProgram};

use flow_files::{Opener, RunFault, UsageFault, end, listed, open_all, words_fault};
use flow_io::Output;
use pmap_model::KeyHashing;
use std::alloc::Global;
use std::convert::AsStr;
use std::env;
use std::io::ErrorKind;

mod command;
mod commands;
mod definition;
mod laws;
mod listing;
mod names;
mod reading;
mod summing;
mod words;

pub use command::Command;
pub use commands::run;
pub use laws::{output_keeps_headline, sum_of_joined_file};
pub use names::Names;
pub use words::parse;

/// Runs the command that the words ask for over the files that they name.
pub fn execute<'a, S: AsStr, O: Opener, W: Output>(
    alloc: Global,
    words: &'a [S],
    opener: &O,
    output: &mut W,
    hashing: KeyHashing,
) -> Result<(), RunFault<'a>>
    requires { (W.output output.old).failed ≡ false }
    ensures { IsEndOf (O.answers opener.now) O.Reader.input W.output
        (map S.text words.entry.now) output.old output.new result }
{
    let command = match parse(alloc, words) {
        Ok(command) => command,
        Err(fault) => return Err(RunFault::Usage(fault)),
    };
    let mut labels = open_all(alloc, opener, command.label_files())?;
    run(alloc, &command, opener, &mut labels, output, hashing)
}

/// The program: executes the words, or reports the error of getting them, and returns the exit status. Labels and
/// groups are hashed by `hashing`.
pub fn program<O: Opener, W: Output, E: Output>(
    alloc: Global,
    words: Result<env::Args, ErrorKind>,
    opener: &O,
    output: &mut W,
    error: &mut E,
    hashing: KeyHashing,
) -> u8
    requires output { (W.output output.old).failed ≡ false }
    requires error { (E.output error.old).failed ≡ false }
    ensures { IsProgram (O.answers opener.now) O.Reader.input W.output E.output
        (result_map_both (λ args. map string_bytes (into_iter_items args))
        (λ kind. kind) words) output.old output.new error.old error.new result }
{
    let list;
    let outcome = match words {
        Ok(words) => match listed(alloc, words) {
            Ok(words) => {
                list = words;
                execute(alloc, list.as_slice(), opener, output, hashing)
            }
            Err(_) => Err(RunFault::Usage(UsageFault::NoMemory)),
        },
        Err(kind) => Err(RunFault::Usage(words_fault(kind))),
    };
    end(alloc, "flowlabel-many", &outcome, output, error)
}
