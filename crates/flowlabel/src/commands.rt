ghost use Rattle.std.specs.Prelude.{◌≡◌, false};
ghost use Rattle.flowlabel.specs.Output.{IsOutput};
ghost use Rattle.flow_files.specs.Reports.{AreFresh, IsTextWritten};
ghost use Rattle.flowlabel.specs.Printouts.{IsPrintout, IsTextOf, IsWhole};
ghost use Rattle.flow_files.specs.Readers.{AreUnread, any_failed};
ghost use Rattle.flowlabel.specs.Run.{IsRunOf};

use crate::command::Command;
use crate::inputs::Inputs;
use flow_files::{Files, RunFault, print_to, read_certificate};
use flow_io::{Input, Output};
use pmap_cert::{CompactText, OpenedText};
use pmap_model::KeyHashing;
use pmap_print::{GroupsText, ListText, RunsText};
use std::alloc::Global;

mod cat;
mod check;
mod info;
mod joined;
mod label;
mod laws;
mod printout;
mod rows;
mod shrink;
mod uniq;

pub use joined::output_of_joined_file;
pub use laws::{
    one_output, output_is_same_under_equivalent_labels, output_keeps_headline,
    shrunk_list_is_least, shrunk_list_keeps_reports,
};
use printout::Printout;
use uniq::Grouping;

// Returns what a command prints. Its files are read here: the map, the list, the certificate, the flows.
fn output<'a, R: Input>(
    alloc: Global,
    command: &Command<'_>,
    files: &mut Files<'a, R>,
    hashing: KeyHashing,
) -> Result<Printout, RunFault<'a>>
    requires { AreFresh R.input files.old }
    ensures { IsPrintout R.input (IsOutput command.now) files.old files.new result }
{
    match command {
        Command::Label { labels, addr } => label::output(alloc, *labels, files, *addr, hashing),
        Command::Info { .. } => info::output(alloc, files),
        Command::Rows {
            labels,
            filter,
            columns,
            ..
        } => rows::output(alloc, *labels, files, filter, *columns, hashing),
        Command::Uniq {
            keys,
            labels,
            filter,
            sorted,
            columns,
            ..
        } => {
            let grouping = Grouping {
                keys,
                filter,
                sorted: *sorted,
                columns: *columns,
            };
            uniq::output(alloc, *labels, files, grouping, hashing)
        }
        Command::Cat { labels } => cat::output(alloc, *labels, files, hashing),
        Command::Shrink { printed, .. } => shrink::output(alloc, files, *printed, hashing),
        Command::Check { .. } => check::output(alloc, files, hashing),
        Command::Recert { .. } => {
            let certificate = read_certificate(alloc, &mut files.certificate, hashing)?;
            Ok(Printout::Compact(certificate))
        }
    }
}

// Writes a printout. What its printing needs is allocated before the writer is called.
fn write_printout<'a, W: Output>(
    alloc: Global,
    printout: Printout,
    writer: &mut W,
) -> Result<(), RunFault<'a>>
    requires writer { (W.output writer.old).failed ≡ false }
    requires whole { IsWhole printout }
    ensures { IsTextWritten W.output (IsTextOf printout) writer.old writer.new result }
{
    match printout {
        Printout::Text(text) => print_to(writer, &text.as_slice()),
        Printout::Table(table) => print_to(writer, &table),
        Printout::Groups {
            groups,
            sorted,
            columns,
        } => print_to(writer, &GroupsText::new(alloc, &groups, sorted, columns)?),
        Printout::Runs { runs, labels } => {
            let labels = labels.table();
            print_to(
                writer,
                &RunsText {
                    runs: &runs,
                    labels,
                },
            )
        }
        Printout::List(list) => print_to(writer, &ListText::new(alloc, &list)?),
        Printout::Certificate(certificate) => print_to(writer, &certificate),
        Printout::Compact(certificate) => print_to(writer, &CompactText::new(alloc, &certificate)?),
        Printout::Opened(compact) => print_to(writer, &OpenedText { compact }),
    }
}

/// Runs a command: reads its inputs, makes what it prints, takes all memory, and then writes the text while it is
/// printed, and flushes once. The map, the list and the certificate are each read whole and decoded, in this order. The
/// flows are last, and are read message by message.
///
/// # Errors
///
/// The first fault of the inputs' bytes, a reader that fails after files without a fault, or out of memory: the writer
/// isn't called, and no file after the faulty one is read. Or a writer that fails: it has taken a prefix of the output,
/// or all of it if the flush failed. Names are those that the inputs had before the call.
pub fn run<'a, R: Input, W: Output>(
    alloc: Global,
    command: &Command<'_>,
    inputs: &mut Inputs<'a, R>,
    writer: &mut W,
) -> Result<(), RunFault<'a>>
    requires unread { AreUnread R.input inputs.old.files }
    requires readers { any_failed R.input inputs.old.files ≡ false }
    requires writer { (W.output writer.old).failed ≡ false }
    ensures { IsRunOf R.input W.output command.now inputs.old.files inputs.new.files writer.old
        writer.new result }
{
    // Provides the law that each output keeps the headline.
    output_keeps_headline();
    let printout = output(alloc, command, &mut inputs.files, inputs.hashing)?;
    write_printout(alloc, printout, writer)
}
