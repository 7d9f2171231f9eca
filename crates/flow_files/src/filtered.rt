//! The rows of a File that pass a filter.
ghost use Rattle.std.specs.Prelude.{◌++◌, ◌∷◌, ◌+◌, ◌<◌, ◌≤◌, ◌^◌, ◌-◌, [], List, OnOk, Option, length};
ghost use Rattle.flow_filter.specs.Condition.{passing};
ghost use Rattle.flow_rows.specs.Counts.{rows_of_sets};
ghost use Rattle.flow_rows.specs.Elements.{RowView};
ghost use Rattle.label_lookup.specs.Labelling.{Labelling};
ghost use Rattle.flow_files.specs.Reports.{AreFresh, ReadsReport, StartsReport, labelling_found, passing_rows};

use crate::fault::RunFault;
use crate::inputs::Files;
use crate::label_file::LabelFile;
use crate::labels::{index_of, read_labels};
use crate::messages::{TakesMessages, add_messages};
use flow_filter::Filter;
use flow_io::Input;
use flow_rows::{Row, rows_of};
use ipfix_read::{Buffer, Message};
use label_lookup::StretchIndex;
use pmap_model::KeyHashing;
use std::alloc::{AllocError, Global};

/// What rows are added to, with the labels of their addresses.
pub trait TakesRows {
    // The first value, the labels, these rows added to it, and the value with them.
    ghost has_rows: { Self → Option Labelling → List RowView → Self → Type 0 };

    /// Adds a row.
    fn take_row(
        &mut self,
        row: &Row<'_>,
        labels: Option<&StretchIndex<'_>>,
    ) -> Result<(), AllocError>
        requires { (first : Self) × (rows : List RowView) × has_rows first (labelling_found labels) rows self.old
            × (length rows < 2 ^ 64 - 1) }
        ensures { OnOk result ((first : Self) (rows : List RowView)
            → has_rows first (labelling_found labels.entry) rows self.old
            → has_rows first (labelling_found labels.entry) (rows ++ row.now ∷ []) self.new) };
}

/// Adds the rows of a message that pass a filter.
#[inline(always)]
pub fn add_rows<T: TakesRows>(
    message: &Message<'_>,
    filter: &Filter<'_>,
    labels: Option<&StretchIndex<'_>>,
    taker: &mut T,
) -> Result<(), AllocError>
    requires { (first : T) × (rows : List RowView)
        × T.has_rows first (labelling_found labels) (passing filter.now (labelling_found labels) rows) taker.old
        × (length rows + 131070 < 2 ^ 64) }
    ensures few { length (rows_of_sets message.now.sets) ≤ 131070 }
    ensures rows { OnOk result ((first : T) (rows : List RowView)
        → T.has_rows first (labelling_found labels.entry)
        (passing filter.now (labelling_found labels.entry) rows) taker.old
        → T.has_rows first (labelling_found labels.entry)
        (passing filter.now (labelling_found labels.entry) (rows ++ rows_of_sets message.now.sets)) taker.new) }
{
    for row in rows_of(message) {
        if filter.passes(&row, labels) {
            taker.take_row(&row, labels)?;
        }
    }
    Ok(())
}

/// Adds the rows of messages that pass a filter.
#[derive(Drop)]
pub struct Filtered<'a, T> {
    filter: &'a Filter<'a>,
    labels: Option<&'a StretchIndex<'a>>,
    taker: T,
}

impl<T: TakesRows> TakesMessages for Filtered<'_, T> {
    ghost use Rattle.ipfix_read.specs.Messages.{messages_in};
    ghost use Rattle.flow_files.specs.Reports.{HasPassing};

    ghost has_messages = { λ first placed now. HasPassing T.has_rows first (messages_in placed) now };

    #[inline(always)]
    fn take_message(&mut self, message: &Message<'_>, _offset: u64) -> Result<(), AllocError> {
        add_rows(message, self.filter, self.labels, &mut self.taker)
    }
}

/// Reads the labels of a report, if it has labels, and adds the rows of a File that pass a filter.
pub fn read_rows<'a, R: Input, T: TakesRows + Drop>(
    alloc: Global,
    source: Option<LabelFile<'_>>,
    files: &mut Files<'a, R>,
    filter: &Filter<'_>,
    hashing: KeyHashing,
    taker: T,
) -> Result<T, RunFault<'a>>
    requires fresh { AreFresh R.input files.old }
    requires none { StartsReport T.has_rows source taker }
    ensures { ReadsReport R.input (λ labels messages. T.has_rows taker labels (passing_rows filter.now labels messages))
        source.entry files.old files.new result }
{
    let read = read_labels(alloc, source, files, hashing)?;
    let index = index_of(alloc, &read)?;
    let mut filtered = Filtered {
        filter,
        labels: index.as_ref(),
        taker,
    };
    let mut buffer = Buffer::new(alloc)?;
    add_messages(alloc, &mut files.flows, &mut buffer, &mut filtered)?;
    Ok(filtered.taker)
}
