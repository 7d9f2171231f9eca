ghost use Rattle.std.specs.Prelude.{◌≡◌, false, map};
ghost use Rattle.flow_files.specs.Readers.{AreUnread, Readers, any_failed};
ghost use Rattle.flow_files.specs.Reports.{AreFresh};
ghost use Rattle.flow_many.specs.Request.{Messages, Sum};
ghost use Rattle.flow_many.specs.Run.{EndsAs};

use crate::command::Command;
use crate::laws::output_keeps_headline;
use crate::listing::Listing;
use crate::reading::read_files;
use crate::summing::Sums;
use flow_files::{Files, LabelFile, Opener, RunFault, index_of, print_to, read_labels};
use flow_filter::Filter;
use flow_io::Output;
use flow_uniq::Keys;
use pmap_model::KeyHashing;
use pmap_print::GroupsText;
use std::alloc::Global;

/// What the rows of Files are summed by, and which of them.
#[derive(Clone, Copy)]
pub struct Asked<'a> {
    keys: &'a Keys,
    labels: Option<LabelFile<'a>>,
    filter: &'a Filter<'a>,
    allow_skipped: bool,
    columns: bool,
}

// Writes the sums of the rows of Files.
fn sum<'a, O: Opener, W: Output>(
    alloc: Global,
    asked: Asked<'_>,
    names: &[&'a str],
    opener: &O,
    labels: &mut Files<'a, O::Reader>,
    writer: &mut W,
    hashing: KeyHashing,
) -> Result<(), RunFault<'a>>
    requires fresh { AreFresh O.Reader.input labels.old }
    requires writer { (W.output writer.old).failed ≡ false }
    ensures { EndsAs (O.answers opener.now) O.Reader.input W.output
        (Sum asked.entry.keys.now asked.entry.labels asked.entry.filter.now asked.entry.allow_skipped
        asked.entry.columns (map (λ name. name.now) names.entry.now))
        labels.old labels.new writer.old writer.new result }
{
    // Provides the law that each output keeps the headline.
    output_keeps_headline();
    let read = read_labels(alloc, asked.labels, labels, hashing)?;
    let index = index_of(alloc, &read)?;
    let mut sums = Sums::new(
        alloc,
        asked.keys,
        asked.filter,
        index.as_ref(),
        asked.allow_skipped,
        hashing,
    )?;
    read_files(alloc, opener, names, &mut sums)?;
    let text = GroupsText::new(alloc, sums.groups(), true, asked.columns)?;
    print_to(writer, &text)
}

// Writes the lines of the messages of Files.
fn messages<'a, O: Opener, W: Output>(
    alloc: Global,
    names: &[&'a str],
    opener: &O,
    writer: &mut W,
) -> Result<(), RunFault<'a>>
    requires { (W.output writer.old).failed ≡ false }
    ensures { (labels : Readers O.Reader) → any_failed O.Reader.input labels ≡ false
        → EndsAs (O.answers opener.now) O.Reader.input W.output (Messages (map (λ name. name.now) names.entry.now))
        labels labels writer.old writer.new result }
{
    // Provides the law that each output keeps the headline.
    output_keeps_headline();
    let mut listing = Listing::new(alloc);
    read_files(alloc, opener, names, &mut listing)?;
    print_to(writer, &listing.text())
}

/// Runs a command: reads the map or the list whole, and then opens and reads the Files, one after the other. Nothing is
/// written before all Files are read. The output is written while it is printed, and flushed once.
///
/// # Errors
///
/// The first fault of the map, the list or the Files, or out of memory: the writer isn't called, and no later File is
/// opened. Or a writer that fails: it has taken a prefix of the output, or all of it if the flush failed.
pub fn run<'a, O: Opener, W: Output>(
    alloc: Global,
    command: &Command<'a>,
    opener: &O,
    labels: &mut Files<'a, O::Reader>,
    writer: &mut W,
    hashing: KeyHashing,
) -> Result<(), RunFault<'a>>
    requires unread { AreUnread O.Reader.input labels.old }
    requires readers { any_failed O.Reader.input labels.old ≡ false }
    requires writer { (W.output writer.old).failed ≡ false }
    ensures { EndsAs (O.answers opener.now) O.Reader.input W.output command.now labels.old labels.new writer.old
        writer.new result }
{
    match command {
        Command::Sum {
            keys,
            labels: source,
            filter,
            allow_skipped,
            columns,
            files,
        } => {
            let asked = Asked {
                keys,
                labels: *source,
                filter,
                allow_skipped: *allow_skipped,
                columns: *columns,
            };
            sum(
                alloc,
                asked,
                files.as_slice(),
                opener,
                labels,
                writer,
                hashing,
            )
        }
        Command::Messages { files } => messages(alloc, files.as_slice(), opener, writer),
    }
}
