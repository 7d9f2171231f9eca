ghost use Rattle.std.specs.Prelude.{◌+◌, ◌*◌, ◌≤◌};

use crate::record::reverse_row_of;
use ipfix_read::{Message, RecordList, Set};
use ipfix_templates::{Kind, TemplateEvent};

/// The counts of messages, which `info` prints for a File. Each is at most 65,535 for each message, and the rows are at
/// most twice as many.
#[derive(Clone, Copy)]
pub struct Counts {
    /// Messages (RFC 7011 section 3.1).
    pub messages: u64,
    /// Definitions of templates of flow records (RFC 7011 section 3.4.1).
    pub templates: u64,
    /// Definitions of templates of options records (RFC 7011 section 3.4.2).
    pub options_templates: u64,
    /// Withdrawals, of one template or of all of a kind (RFC 7011 section 8.1).
    pub withdrawals: u64,
    /// Data sets under a template in force, of either kind (RFC 7011 section 3.4.3).
    pub data_sets: u64,
    /// Data sets without a template in force, and sets whose IDs have no meaning.
    pub skipped_sets: u64,
    /// Flow records.
    pub records: u64,
    /// Options records.
    pub options_records: u64,
    /// Rows of the records. Each record has none, one or two.
    pub rows: u64,
    ghost bounded: { templates + options_templates + withdrawals + data_sets + skipped_sets + records + options_records
        + rows ≤ 589815 * messages },
}

impl Counts {
    ghost use Rattle.std.specs.Prelude.{◌≡◌, ◌++◌, ◌∷◌, [], ◌<◌, ◌^◌, ℕ, List, count_by, length};
    ghost use Rattle.std.specs.List.{flat_map};
    ghost use Rattle.ipfix_read.specs.Message.{MessageView, set_size};
    ghost use Rattle.ipfix_read.specs.declared.set.Set.{Set as SetView};
    ghost use Rattle.flow_rows.specs.Counts.{counts_in, counts_of, defines, is_withdrawal, count_list, total};
    ghost use Rattle.flow_rows.specs.Elements.{rows_of_record};

    /// Returns the counts of no messages.
    pub fn new() -> Counts
        ensures { count_list result ≡ counts_of [] }
    {
        Counts {
            messages: 0,
            templates: 0,
            options_templates: 0,
            withdrawals: 0,
            data_sets: 0,
            skipped_sets: 0,
            records: 0,
            options_records: 0,
            rows: 0,
        }
    }

    /// Adds the counts of one message.
    pub fn add(&mut self, message: &Message<'_>)
        requires { self.old.messages < 4294967295 }
        ensures { (messages : List MessageView) → count_list self.old ≡ counts_of messages
            → count_list self.new ≡ counts_of (messages ++ message.now ∷ []) }
    {
        self.messages += 1;
        for set in message.sets().as_slice() {
            self.add_set(set);
        }
    }

    // Returns the number of events that define a template of the kind.
    fn definitions(events: &[TemplateEvent], kind: Kind) -> u64
        ensures { result ≡ count_by (defines kind) events.now }
    {
        events
            .iter()
            .filter(
                |event| matches!(event, TemplateEvent::Define(template) if template.kind == kind),
            )
            .count() as u64
    }

    // Returns the number of events that withdraw one or more templates.
    fn withdrawals(events: &[TemplateEvent]) -> u64
        ensures { result ≡ count_by is_withdrawal events.now }
    {
        events
            .iter()
            .filter(|event| matches!(
                event,
                TemplateEvent::Withdraw(_) | TemplateEvent::WithdrawAll(_)
            ))
            .count() as u64
    }

    // Returns the number of rows of the records. Whether they have first rows follows from the kind and the fields. If
    // a field counts packets in the reverse direction, each record is examined for a second row.
    fn row_count(records: &RecordList<'_>) -> u64
        requires { length records.now < 2 ^ 63 }
        ensures value { result ≡ length (flat_map rows_of_record records.now) }
        ensures bound { result ≤ length records.now + length records.now }
    {
        let Some(layout) = records.fields().row_layout(records.kind()) else {
            return 0;
        };
        let mut count = records.len() as u64;
        if layout.second.packets.is_there() {
            for source in records.iter() {
                if reverse_row_of(&source).is_some() {
                    count += 1;
                }
            }
        }
        count
    }

    // Adds the counts of one set.
    fn add_set(&mut self, set: &Set<'_>)
        requires few { self.old.messages ≤ 4294967295 }
        requires room { total self.old + 9 * set_size set.now ≤ 589815 * self.old.messages }
        ensures counts { (messages : ℕ) (sets : List SetView) → count_list self.old ≡ counts_in messages sets
            → count_list self.new ≡ counts_in messages (sets ++ set.now ∷ []) }
        ensures room { total self.new ≤ total self.old + 9 * set_size set.now }
        ensures messages { self.new.messages ≡ self.old.messages }
    {
        match set {
            Set::Templates(_, events) => {
                self.templates += Counts::definitions(events.as_slice(), Kind::Flow);
                self.options_templates += Counts::definitions(events.as_slice(), Kind::Options);
                self.withdrawals += Counts::withdrawals(events.as_slice());
            }
            Set::Values(_, records) => {
                self.data_sets += 1;
                self.rows += Counts::row_count(records);
                match records.kind() {
                    Kind::Flow => self.records += records.len() as u64,
                    Kind::Options => self.options_records += records.len() as u64,
                }
            }
            Set::Skipped(_) => self.skipped_sets += 1,
        }
    }
}
