ghost use Rattle.std.specs.Prelude.{◌≡◌};
ghost use Rattle.flow_rows.specs.Counts.{message_counts, message_count_list};

use crate::counts::Counts;
use crate::walk::count_without_bytes;
use ipfix_read::Message;

/// The counts of one message. They show which messages have data that no row has, or rows without bytes.
#[derive(Clone, Copy)]
pub struct MessageCounts {
    /// Definitions of templates, of flow records or of options records (RFC 7011 section 3.4).
    pub definitions: u32,
    /// Data sets without a template in force, and sets whose IDs have no meaning.
    pub skipped_sets: u32,
    /// Flow records.
    pub records: u32,
    /// Options records.
    pub options_records: u32,
    /// Rows of the records.
    pub rows: u32,
    /// Rows whose number of bytes is 0 or missing.
    pub zero_bytes: u32,
}

impl MessageCounts {
    /// Returns the counts of a message.
    pub fn of(message: &Message<'_>) -> MessageCounts
        ensures { message_count_list result ≡ message_counts message.now.sets }
    {
        let mut counts = Counts::new();
        counts.add(message);
        MessageCounts {
            definitions: (counts.templates + counts.options_templates) as u32,
            skipped_sets: counts.skipped_sets as u32,
            records: counts.records as u32,
            options_records: counts.options_records as u32,
            rows: counts.rows as u32,
            zero_bytes: count_without_bytes(message),
        }
    }
}
