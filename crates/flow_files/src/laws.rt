//! Laws about the definitions.
ghost use Rattle.std.specs.Prelude.{Bool, List, Ok, Option};
ghost use Rattle.label_lookup.specs.Labelling.{Labelling};
ghost use Rattle.flow_rows.specs.Elements.{RowView};
ghost use Rattle.flow_uniq.specs.declared.field.KeyField.{KeyField};
ghost use Rattle.flow_files.specs.Groups.{PrintsGroups, uniq_text};
ghost use Rattle.flow_files.specs.Laws.{AnsweredWordsAreTaken, AreShared, SubcommandsAreAdded};

use crate::definition::{Argument, FILTERS, SOURCES};
use flow_uniq::rows_are_grouped_by_fields;

/// A program has its subcommands one by one.
pub fn subcommands_are_added()
    ensures { SubcommandsAreAdded }
{}

/// Clap finds no fault in words that have an answer.
pub fn answered_words_are_taken()
    ensures { AnsweredWordsAreTaken }
{}

/// Returns the arguments for the source of labels and those for filters, which programs share.
pub fn shared_arguments() -> ([Argument<'static>; 2], [Argument<'static>; 10])
    ensures { AreShared result.0 result.1 }
{
    (SOURCES, FILTERS)
}

/// The text that `uniq` prints for rows is a table of their groups.
pub fn uniq_prints_groups()
    ensures { (fields : List KeyField) (sorted columns : Bool) (labels : Option Labelling) (rows : List RowView)
        → PrintsGroups fields sorted columns labels rows (Ok (uniq_text fields sorted columns labels rows)) }
{
    rows_are_grouped_by_fields();
}
