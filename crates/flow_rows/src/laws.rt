//! Laws about counts and rows.
ghost use Rattle.std.specs.Prelude.{◌≡◌, ◌++◌, List, count_by};
ghost use Rattle.ipfix_read.specs.Message.{MessageView};
ghost use Rattle.flow_rows.specs.Counts.{counts_of, has_no_bytes, rows_of_messages};
ghost use Rattle.flow_rows.specs.Laws.{JoinedFileAddsUp, NoneSkipped, summed_counts};
ghost use Rattle.flow_rows.specs.Laws.{summed_message_counts, sums, sums_of_lines};

/// The counts of messages are the sums of those of the first messages and of the others, and so of those of each
/// message. The rows of messages are those of the first messages followed by those of the others.
pub fn counts_add_up()
    ensures counts { (front back : List MessageView)
        → counts_of (front ++ back) ≡ sums (counts_of front) (counts_of back) }
    ensures each { (messages : List MessageView) → counts_of messages ≡ summed_counts messages }
    ensures rows { (front back : List MessageView) →
        rows_of_messages (front ++ back) ≡ rows_of_messages front ++ rows_of_messages back }
{}

/// The counts of each message, as [`MessageCounts`](crate::MessageCounts) has them, add up to the counts of all
/// messages: the definitions to those of both kinds of templates, and the rows without bytes to those among all rows.
pub fn message_counts_add_up()
    ensures { (messages : List MessageView) → summed_message_counts messages
        ≡ sums_of_lines (counts_of messages) (count_by has_no_bytes (rows_of_messages messages)) }
{}

/// If Files are joined, and no data set of the later ones lacks a template when they are read alone, then the rows are
/// those of each File, in order, and the counts are the sums of those of each File. A File without skipped sets may be
/// a later one.
pub fn joined_file_adds_up()
    ensures joined { JoinedFileAddsUp }
    ensures alone { NoneSkipped }
{}
