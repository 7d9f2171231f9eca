ghost use Rattle.std.specs.Prelude.{◌≡◌, IfErr, IfOk, map, true};
ghost use Rattle.clap.specs.Words.{found_of, rows_of, takes};
ghost use Rattle.flow_files.specs.Sources.{Text};
ghost use Rattle.flow_files.specs.Answer.{IsOwnFault, IsUnlessMemory};
ghost use Rattle.flowlabel.specs.Definition.{flowlabel_app};
ghost use Rattle.flowlabel.specs.Request.{IsProper, request_of};
ghost use Rattle.flowlabel.specs.Answer.{HaveOneAnswer, IsAnswer, LinesHaveAnswers, answer_of, answer_of_cat};
ghost use Rattle.flowlabel.specs.Answer.{answer_of_label, answer_of_rows, answer_of_shrink, answer_of_uniq};

use crate::command::{Command, Shrunk};
use crate::definition::definition;
use clap::ArgMatches;
use flow_files::{
    UsageFault, fault_of_error, filter_in, is_given, keys_in, labels_in, needed_text,
};
use prefix_keys::read_addr;
use std::alloc::Global;
use std::convert::AsStr;

fn label_command<'a>(entries: &ArgMatches<'a>) -> Result<Command<'a>, UsageFault>
    ensures { IsUnlessMemory request_of (answer_of_label (rows_of (found_of entries.now))) result }
{
    let labels = labels_in(entries)?.ok_or(UsageFault::MapMissing)?;
    let text = needed_text(entries, "address");
    let addr = read_addr(text.as_bytes()).ok_or(UsageFault::BadAddress)?;
    Ok(Command::Label { labels, addr })
}

fn rows_command<'a>(alloc: Global, entries: &ArgMatches<'a>) -> Result<Command<'a>, UsageFault>
    ensures { IsUnlessMemory request_of (answer_of_rows (rows_of (found_of entries.now))) result }
{
    let labels = labels_in(entries)?;
    let filter = filter_in(alloc, entries)?;
    if filter.needs_map() && labels.is_none() {
        return Err(UsageFault::LabelNeedsMap);
    }
    Ok(Command::Rows {
        labels,
        filter,
        columns: is_given(entries, "columns"),
        flows: needed_text(entries, "flows"),
    })
}

fn uniq_command<'a>(alloc: Global, entries: &ArgMatches<'a>) -> Result<Command<'a>, UsageFault>
    ensures { IsUnlessMemory request_of (answer_of_uniq (rows_of (found_of entries.now))) result }
{
    let labels = labels_in(entries)?;
    let filter = filter_in(alloc, entries)?;
    let keys = keys_in(entries)?;
    if (filter.needs_map() || keys.needs_map()) && labels.is_none() {
        return Err(UsageFault::LabelNeedsMap);
    }
    Ok(Command::Uniq {
        keys,
        labels,
        filter,
        sorted: is_given(entries, "sort-output"),
        columns: is_given(entries, "columns"),
        flows: needed_text(entries, "flows"),
    })
}

fn cat_command<'a>(entries: &ArgMatches<'a>) -> Result<Command<'a>, UsageFault>
    ensures { IsUnlessMemory request_of (answer_of_cat (rows_of (found_of entries.now))) result }
{
    let labels = labels_in(entries)?.ok_or(UsageFault::MapMissing)?;
    Ok(Command::Cat { labels })
}

fn shrink_command<'a>(entries: &ArgMatches<'a>) -> Result<Command<'a>, UsageFault>
    ensures { IsUnlessMemory request_of (answer_of_shrink (rows_of (found_of entries.now))) result }
{
    let map = needed_text(entries, "pmap");
    let certificate = is_given(entries, "certificate");
    let printed = match (certificate, is_given(entries, "compact")) {
        (false, false) => Shrunk::List,
        (true, false) => Shrunk::Certificate,
        (true, true) => Shrunk::Compact,
        // A list has no compact form.
        (false, true) => return Err(UsageFault::CompactAlone),
    };
    Ok(Command::Shrink { map, printed })
}

fn command_of<'a>(
    alloc: Global,
    name: &str,
    entries: &ArgMatches<'a>,
) -> Result<Command<'a>, UsageFault>
    ensures { IsUnlessMemory request_of (answer_of (name.now, rows_of (found_of entries.now))) result }
{
    if name == "info" {
        let flows = needed_text(entries, "flows");
        Ok(Command::Info { flows })
    } else if name == "rows" {
        rows_command(alloc, entries)
    } else if name == "uniq" {
        uniq_command(alloc, entries)
    } else if name == "cat" {
        cat_command(entries)
    } else if name == "shrink" {
        shrink_command(entries)
    } else if name == "check" {
        Ok(Command::Check {
            map: needed_text(entries, "pmap"),
            list: needed_text(entries, "list"),
            certificate: needed_text(entries, "cert"),
        })
    } else if name == "recert" {
        let certificate = needed_text(entries, "cert");
        Ok(Command::Recert { certificate })
    } else {
        label_command(entries)
    }
}

/// Words that clap takes have at most one answer, which `parse` returns unless an allocation fails. Three example lines
/// of `label`, `rows` and `shrink` have theirs.
pub fn lines_have_one_answer()
    ensures one { HaveOneAnswer }
    ensures lines { (program : Text) → LinesHaveAnswers program }
{}

/// Reads a command line, whose first word is the program's name.
///
/// # Errors
///
/// `Refused` if clap refuses the line, `Help` if the line asks for help or the version. If clap takes the line, the
/// first of these that applies to the command: `MapTwice`, `MapMissing`, `BadAddress`, `Filter` for the first malformed
/// filter, `Key`, `LabelNeedsMap`, `CompactAlone`. `NoMemory` instead of any other result if an allocation fails.
pub fn parse<'a, S: AsStr>(alloc: Global, words: &'a [S]) -> Result<Command<'a>, UsageFault>
    ensures answer { IsAnswer (map S.text words.entry.now) result }
    ensures proper { IfOk result (λ command. IsProper (request_of command)) }
    ensures taken { takes flowlabel_app (map S.text words.entry.now) ≡ true → IfErr result IsOwnFault }
{
    let command = definition(alloc)?;
    match command.try_get_matches_from(words) {
        Ok(matches) => {
            let (name, entries) = matches.subcommand().unwrap();
            command_of(alloc, name, entries)
        }
        Err(error) => Err(fault_of_error(alloc, &error)),
    }
}
