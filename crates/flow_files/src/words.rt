//! Reads the options that programs over Files have.
ghost use Rattle.std.specs.Prelude.{◌≡◌, IfOk, map, option_map};
ghost use Rattle.std.specs.Vec.Iter.{into_iter_items};
ghost use Rattle.flow_filter.specs.Filters.{option_texts, texts_given};
ghost use Rattle.flow_filter.specs.Options.{name_of};
ghost use Rattle.flow_filter.specs.declared.option.TheConstants.{ALL_OPTIONS, MANY_OPTIONS};
ghost use Rattle.clap.specs.Words.{first_of, found_of, kind_of, rows_of};
ghost use Rattle.flow_files.specs.Sources.{source_of};
ghost use Rattle.flow_files.specs.Answer.{IsFaultOfKind, IsUnlessMemory, condition_among, condition_in_rows};
ghost use Rattle.flow_files.specs.Answer.{fields_in_rows, fields_reading, is_given, sources_in_rows};
ghost use Rattle.flow_files.specs.Answer.{text_in_rows, words_fault_of};

use crate::label_file::LabelFile;
use crate::usage::UsageFault;
use clap::ArgMatches;
use clap::error::ErrorKind;
use flow_filter::{ALL_OPTIONS, Filter, FilterFaultKind, FilterWords, MANY_OPTIONS};
use flow_uniq::{KeyField, Keys};
use std::alloc::{AllocError, Global};
use std::{env, io};

/// Returns the fault of a command line for an error of clap's.
pub fn fault_of_error(alloc: Global, error: &clap::Error) -> UsageFault
    ensures { IsFaultOfKind (kind_of error.now) result }
{
    let kind = error.kind();
    if let ErrorKind::OutOfMemory = kind {
        return UsageFault::NoMemory;
    }
    match format!(in alloc; "{error}") {
        Err(_) => UsageFault::NoMemory,
        Ok(text) => match kind {
            ErrorKind::DisplayHelp | ErrorKind::DisplayVersion => UsageFault::Help(text),
            _ => UsageFault::Refused(text),
        },
    }
}

/// Returns the text of an option or a word, if it is given.
pub fn first_text<'a>(entries: &ArgMatches<'a>, id: &str) -> Option<&'a str>
    ensures { option_map (λ s. s.now) result ≡ first_of id.now (rows_of (found_of entries.now)) }
{
    entries.get_str(id)
}

/// Returns the text of a required option or word. Clap refuses a line without it.
pub fn needed_text<'a>(entries: &ArgMatches<'a>, id: &str) -> &'a str
    ensures { result.now ≡ text_in_rows id.now (rows_of (found_of entries.now)) }
{
    first_text(entries, id).unwrap_or("")
}

/// Returns the file that labels come from, if one is named by `--pmap` or `--list`.
pub fn labels_in<'a>(entries: &ArgMatches<'a>) -> Result<Option<LabelFile<'a>>, UsageFault>
    ensures { IsUnlessMemory (option_map source_of) (sources_in_rows (rows_of (found_of entries.now))) result }
{
    match (first_text(entries, "pmap"), first_text(entries, "list")) {
        (Some(_), Some(_)) => Err(UsageFault::MapTwice),
        (Some(map), None) => Ok(Some(LabelFile::Map(map))),
        (None, Some(list)) => Ok(Some(LabelFile::List(list))),
        (None, None) => Ok(None),
    }
}

/// Returns whether a flag is given. Clap gives the text `true` to a flag that is.
pub fn is_given(entries: &ArgMatches<'_>, flag: &str) -> bool
    ensures { result ≡ is_given flag.now (rows_of (found_of entries.now)) }
{
    needed_text(entries, flag) == "true"
}

fn filter_words_in<'a>(entries: &ArgMatches<'a>) -> FilterWords<'a>
    ensures { option_texts result ≡ map (λ o. first_of (name_of o) (rows_of (found_of entries.now))) ALL_OPTIONS }
{
    FilterWords {
        texts: ALL_OPTIONS.map(|option| first_text(entries, option.name())),
    }
}

// Returns the texts of `MANY_OPTIONS`.
fn texts_in<'a>(entries: &ArgMatches<'a>) -> [Option<&'a str>; 15]
    ensures { texts_given result ≡ map (λ o. first_of (name_of o) (rows_of (found_of entries.now))) MANY_OPTIONS }
{
    MANY_OPTIONS.map(|option| first_text(entries, option.name()))
}

/// Returns the filter of the options for filters that both programs have.
pub fn filter_in<'a>(alloc: Global, entries: &ArgMatches<'a>) -> Result<Filter<'a>, UsageFault>
    ensures { IsUnlessMemory (λ filter. filter) (condition_in_rows (rows_of (found_of entries.now))) result }
{
    match Filter::read(alloc, &filter_words_in(entries)) {
        Ok(filter) => Ok(filter),
        Err(fault) if fault.kind == FilterFaultKind::NoMemory => Err(UsageFault::NoMemory),
        Err(fault) => Err(UsageFault::Filter(fault)),
    }
}

/// Returns the filter of all options for filters.
pub fn whole_filter_in<'a>(
    alloc: Global,
    entries: &ArgMatches<'a>,
) -> Result<Filter<'a>, UsageFault>
    ensures { IsUnlessMemory (λ filter. filter)
        (condition_among MANY_OPTIONS (rows_of (found_of entries.now))) result }
{
    match Filter::read_among(alloc, &MANY_OPTIONS, &texts_in(entries)) {
        Ok(filter) => Ok(filter),
        Err(fault) if fault.kind == FilterFaultKind::NoMemory => Err(UsageFault::NoMemory),
        Err(fault) => Err(UsageFault::Filter(fault)),
    }
}

/// Returns the keys by the known fields that the text of `--fields` names.
pub fn read_keys(known: &[KeyField], names: &str) -> Result<Keys, UsageFault>
    ensures { IsUnlessMemory (λ keys. keys) (fields_reading known.now names.now) result }
{
    Keys::read_among(known, names).map_err(UsageFault::Key)
}

/// Returns the keys that `--fields` of `flowlabel` asks for.
pub fn keys_in(entries: &ArgMatches<'_>) -> Result<Keys, UsageFault>
    ensures { IsUnlessMemory (λ keys. keys) (fields_in_rows (rows_of (found_of entries.now))) result }
{
    Keys::read(needed_text(entries, "fields")).map_err(UsageFault::Key)
}

/// Returns the fault of a command line whose words can't be obtained, by the kind of the error: a word isn't UTF-8, or
/// an allocation failed.
pub fn words_fault(kind: io::ErrorKind) -> UsageFault
    ensures { result ≡ words_fault_of kind }
{
    match kind {
        io::ErrorKind::InvalidData => UsageFault::NotUtf8,
        _ => UsageFault::NoMemory,
    }
}

/// Lists the words in one allocation. `collect` would try a smaller one after a failure.
pub fn listed(alloc: Global, words: env::Args) -> Result<Vec<String>, AllocError>
    ensures { IfOk result (λ list. list.items ≡ into_iter_items words) }
{
    let mut list = Vec::with_capacity(alloc, words.len())?;
    for word in words {
        list.push(word)?;
    }
    Ok(list)
}
