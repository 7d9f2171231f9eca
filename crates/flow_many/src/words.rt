//! Reading the words of a command line.
ghost use Rattle.std.specs.Prelude.{◌≡◌, IfErr, IfOk, map, ok_or, option_map, true};
ghost use Rattle.clap.specs.Words.{found_of, rows_of, takes};
ghost use Rattle.flow_uniq.specs.Key.{with_unit};
ghost use Rattle.flow_uniq.specs.declared.fault.KeyFault.TheVariants.{FieldRepeated};
ghost use Rattle.flow_files.specs.Answer.{IsOwnFault, IsUnlessMemory};
ghost use Rattle.flow_files.specs.declared.usage.UsageFault.TheVariants.{Key};
ghost use Rattle.flow_many.specs.Answer.{IsAnswer, answer_of, answer_of_sum, files_in_rows};
ghost use Rattle.flow_many.specs.Answer.{keys_in_rows, minutes_named, unit_named};
ghost use Rattle.flow_many.specs.Definition.{many_app};
ghost use Rattle.flow_many.specs.Request.{fields_in, request_of, unit_in};

use crate::command::Command;
use crate::definition::definition;
use crate::names::Names;
use clap::ArgMatches;
use flow_files::{
    UsageFault, fault_of_error, first_text, is_given, labels_in, read_keys, whole_filter_in,
};
use flow_uniq::{KeyFault, KeyField, Keys, MANY_FIELDS, TimeUnit};
use prefix_keys::{cut, read_decimal};
use std::alloc::{AllocError, Global};
use std::convert::AsStr;

// Reads a text `Nm` as a unit of N minutes.
fn minutes_named(text: &[u8]) -> Option<TimeUnit>
    ensures { option_map (λ unit. (unit.precision, unit.count)) result ≡ minutes_named text.now }
{
    let (count, rest) = cut(text, b'm');
    if !text.contains(&b'm') || !rest.is_empty() {
        return None;
    }
    let count = read_decimal(count, 4, 1440)?;
    TimeUnit::minutes(count as u16)
}

// Reads the name of a unit of time.
fn unit_named(text: &str) -> Option<TimeUnit>
    ensures { option_map (λ unit. (unit.precision, unit.count)) result ≡ unit_named text.now }
{
    if text == "day" {
        Some(TimeUnit::day())
    } else if text == "hour" {
        Some(TimeUnit::hour())
    } else if text == "minute" {
        TimeUnit::minutes(1)
    } else {
        minutes_named(text.as_bytes())
    }
}

// Returns the keys that begin with the start of a unit of time. No name of a field is that of a unit.
fn with_time(unit: TimeUnit, fields: &[KeyField]) -> Result<Keys, UsageFault>
    ensures { result ≡ ok_or (with_unit unit fields.now) (Key FieldRepeated) }
{
    Keys::by_time(unit, fields).ok_or(UsageFault::Key(KeyFault::FieldRepeated))
}

// Reads the keys of a sum: the unit of time and the fields.
fn keys_in(entries: &ArgMatches<'_>) -> Result<Keys, UsageFault>
    ensures { IsUnlessMemory (λ keys. (unit_in keys, fields_in keys))
        (keys_in_rows (rows_of (found_of entries.now))) result }
{
    let names = first_text(entries, "fields");
    let Some(by) = first_text(entries, "by") else {
        return read_keys(&MANY_FIELDS, names.ok_or(UsageFault::KeysMissing)?);
    };
    let unit = unit_named(by).ok_or(UsageFault::Unit)?;
    match names {
        Some(names) => with_time(unit, read_keys(&MANY_FIELDS, names)?.fields()),
        None => with_time(unit, &[]),
    }
}

// Copies the names of the Files. Clap refuses a line without any.
fn files_in<'a>(alloc: Global, entries: &ArgMatches<'a>) -> Result<Names<'a>, AllocError>
    ensures { IfOk result (λ names. names ≡ files_in_rows (rows_of (found_of entries.now))) }
{
    Names::copied(alloc, entries.get_strs("files").unwrap_or(&[]))
}

fn sum_command<'a>(alloc: Global, entries: &ArgMatches<'a>) -> Result<Command<'a>, UsageFault>
    ensures { IsUnlessMemory request_of (answer_of_sum (rows_of (found_of entries.now))) result }
{
    let labels = labels_in(entries)?;
    let filter = whole_filter_in(alloc, entries)?;
    let keys = keys_in(entries)?;
    if (filter.needs_map() || keys.needs_map()) && labels.is_none() {
        return Err(UsageFault::LabelNeedsMap);
    }
    Ok(Command::Sum {
        keys,
        labels,
        filter,
        allow_skipped: is_given(entries, "allow-skipped"),
        columns: is_given(entries, "columns"),
        files: files_in(alloc, entries)?,
    })
}

fn command_of<'a>(
    alloc: Global,
    name: &str,
    entries: &ArgMatches<'a>,
) -> Result<Command<'a>, UsageFault>
    ensures { IsUnlessMemory request_of (answer_of (name.now, rows_of (found_of entries.now))) result }
{
    if name == "messages" {
        let files = files_in(alloc, entries)?;
        Ok(Command::Messages { files })
    } else {
        sum_command(alloc, entries)
    }
}

/// Reads a command line, whose first word is the program's name.
///
/// # Errors
///
/// `Refused` if clap refuses the line, `Help` if the line asks for help or the version. If clap takes the line, the
/// first of these that applies: `MapTwice`, `Filter` for the first malformed filter, `KeysMissing`, `Unit`, `Key`,
/// `LabelNeedsMap`. `NoMemory` instead of any other result if an allocation fails.
pub fn parse<'a, S: AsStr>(alloc: Global, words: &'a [S]) -> Result<Command<'a>, UsageFault>
    ensures answer { IsAnswer (map S.text words.entry.now) result }
    ensures taken { takes many_app (map S.text words.entry.now) ≡ true → IfErr result IsOwnFault }
{
    let command = definition(alloc)?;
    match command.try_get_matches_from(words) {
        Ok(matches) => {
            let (name, entries) = matches.subcommand().unwrap();
            command_of(alloc, name, entries)
        }
        Err(error) => Err(fault_of_error(alloc, &error)),
    }
}
