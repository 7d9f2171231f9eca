//! The sums of the rows of Files.
ghost use Rattle.std.specs.Prelude.{◌≡◌, [], IfOk, false};
ghost use Rattle.flow_files.specs.Reports.{labelling_found};
ghost use Rattle.flow_many.specs.Output.{has_skipped, has_time, refusal_by, refused};
ghost use Rattle.flow_many.specs.Reading.{HasSummedFiles, refusal_of_sums};

use crate::reading::TakesFiles;
use flow_files::{BytesFault, SumFault, SumFaultKind, TakesMessages, TakesRows, add_rows};
use flow_filter::Filter;
use flow_rows::Row;
use flow_uniq::{Groups, KeyField, Keys};
use ipfix_read::{Message, Set};
use label_lookup::StretchIndex;
use pmap_model::KeyHashing;
use std::alloc::{AllocError, Global};

// The most messages of all Files together. A message has at most 131,070 rows, so the number of rows fits 64 bits.
const MESSAGE_LIMIT: u64 = 1 << 47;

// The last millisecond of the year 9999.
const LAST_START: u64 = 253_402_300_799_999;

/// The groups of rows. In a sum by time no row is added after one that starts too late.
#[derive(Drop)]
pub struct TimedGroups {
    groups: Groups,
    timed: bool,
    late: bool,
}

impl TakesRows for TimedGroups {
    ghost use Rattle.flow_many.specs.Reading.{HasTimed};

    ghost has_rows = { HasTimed };

    #[inline(always)]
    fn take_row(
        &mut self,
        row: &Row<'_>,
        labels: Option<&StretchIndex<'_>>,
    ) -> Result<(), AllocError> {
        if self.timed && row.start_ms() > LAST_START {
            self.late = true;
        }
        if self.late {
            return Ok(());
        }
        self.groups.add(row, labels)
    }
}

/// The sums of the rows of Files that pass a filter.
#[derive(Drop)]
pub struct Sums<'a> {
    filter: &'a Filter<'a>,
    labels: Option<&'a StretchIndex<'a>>,
    allow_skipped: bool,
    rows: TimedGroups,
    // The number of messages of all Files.
    messages: u64,
    // The first fault of the messages of the File.
    fault: Option<SumFault>,
}

// Returns whether a set of a message was skipped.
fn has_skipped(message: &Message<'_>) -> bool
    ensures { result ≡ has_skipped message.now }
{
    message
        .sets()
        .as_slice()
        .iter()
        .any(|set| matches!(set, Set::Skipped(_)))
}

// Returns whether keys begin with the start of a unit of time.
fn has_time(keys: &Keys) -> bool
    ensures { result ≡ has_time keys.now }
{
    matches!(keys.fields().first(), Some(KeyField::Start(_)))
}

impl<'a> Sums<'a> {
    /// Returns the sums of no rows, by these keys.
    pub fn new(
        alloc: Global,
        keys: &Keys,
        filter: &'a Filter<'a>,
        labels: Option<&'a StretchIndex<'a>>,
        allow_skipped: bool,
        hashing: KeyHashing,
    ) -> Result<Sums<'a>, AllocError>
        ensures none { IfOk result (λ sums. HasSummedFiles sums [] sums) }
        ensures refusal { IfOk result (λ sums. refusal_of_sums sums
            ≡ refusal_by (has_time keys.now) filter.entry.now allow_skipped (labelling_found labels.entry)) }
        ensures filter { IfOk result (λ sums. sums.filter.now ≡ filter.entry.now) }
        ensures labels { IfOk result (λ sums. labelling_found sums.labels ≡ labelling_found labels.entry) }
        ensures fields { IfOk result (λ sums. sums.rows.groups.fields ≡ keys.now) }
    {
        let groups = Groups::with_hashing(alloc, keys, hashing)?;
        let rows = TimedGroups {
            groups,
            timed: has_time(keys),
            late: false,
        };
        Ok(Sums {
            filter,
            labels,
            allow_skipped,
            rows,
            messages: 0,
            fault: None,
        })
    }

    /// Returns the groups.
    pub fn groups(&self) -> &Groups
        ensures { result.now ≡ self.now.rows.groups }
    {
        &self.rows.groups
    }

    // Returns why the rows of a message can't be added, whatever they are.
    #[inline(always)]
    fn refusal(&self, message: &Message<'_>) -> Option<SumFaultKind>
        ensures { result ≡ refused self.now.allow_skipped self.now.messages message.now false }
    {
        if !self.allow_skipped && has_skipped(message) {
            Some(SumFaultKind::SkippedSet)
        } else if self.messages >= MESSAGE_LIMIT {
            Some(SumFaultKind::TooManyRows)
        } else {
            None
        }
    }
}

impl TakesMessages for Sums<'_> {
    ghost use Rattle.flow_many.specs.Reading.{HasSummed};

    ghost has_messages = { HasSummed };

    fn take_message(&mut self, message: &Message<'_>, offset: u64) -> Result<(), AllocError> {
        if self.fault.is_some() {
            return Ok(());
        }
        if let Some(kind) = self.refusal(message) {
            self.fault = Some(SumFault { kind, offset });
            return Ok(());
        }
        add_rows(message, self.filter, self.labels, &mut self.rows)?;
        self.messages += 1;
        if self.rows.late {
            let kind = SumFaultKind::StartTooLate;
            self.fault = Some(SumFault { kind, offset });
        }
        Ok(())
    }
}

impl TakesFiles for Sums<'_> {
    ghost use Rattle.flow_many.specs.Reading.{HasSummedFiles, refusal_of_sums};

    ghost refusal = { refusal_of_sums };

    ghost has_files = { HasSummedFiles };

    fn end_file(&mut self) -> Option<BytesFault> {
        match self.fault {
            Some(fault) => Some(BytesFault::Sum(fault)),
            None => None,
        }
    }
}
