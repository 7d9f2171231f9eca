//! The printed text of messages.
ghost use Rattle.std.specs.Prelude.{◌≡◌};
ghost use Rattle.flow_io.specs.Sinks.{Pushes};
ghost use Rattle.pmap_print.specs.Messages.{fields_of, message_numbers, numbers_of};
ghost use Rattle.pmap_print.specs.Table.{End, marked_line};

use crate::fields::write_number;
use crate::mark::Mark;
use flow_io::{Printable, Sink};
use flow_rows::MessageCounts;
use ipfix_read::Message;

// The numbers of a line, each after its mark, take at most this many bytes.
const LINE: usize = 256;

/// The line of a message of a File: its number, its offset, its header and its counts.
#[derive(Clone, Copy)]
pub struct MessageLine {
    /// The number of the File, from 1.
    pub file: u64,
    /// The offset of the message in its File.
    pub offset: u64,
    /// The number of the message in its File, from 1.
    pub number: u32,
    /// The observation domain ID.
    pub domain: u32,
    /// The sequence number.
    pub sequence: u32,
    /// The time at which the message left the exporter, in seconds since 1970.
    pub time: u32,
    /// The counts of the message.
    pub counts: MessageCounts,
}

impl MessageLine {
    /// Returns the line of a message, given the number of its File, and its number and its offset in the File.
    pub fn of(file: u64, number: u32, offset: u64, message: &Message<'_>) -> MessageLine
        ensures { numbers_of result ≡ message_numbers file number (offset, message.now) }
    {
        MessageLine {
            file,
            offset,
            number,
            domain: message.domain,
            sequence: message.sequence,
            time: message.export_time,
            counts: MessageCounts::of(message),
        }
    }
}

// Prints the line of a message. It begins with the line feed of the line before.
fn print_line<S: Sink>(out: &mut S, line: &MessageLine) -> Result<(), S::Fault>
    ensures { Pushes S.sink S.began out.old out.new
        (marked_line (End 10) (End 124) (fields_of line.now)) result }
{
    let mark = Mark::End(b'|');
    let counts = line.counts;
    let mut text = [0; LINE];
    let zero = write_number(mark, u64::from(counts.zero_bytes), &mut text, LINE);
    let rows = write_number(mark, u64::from(counts.rows), &mut text, zero);
    let options = write_number(mark, u64::from(counts.options_records), &mut text, rows);
    let records = write_number(mark, u64::from(counts.records), &mut text, options);
    let skipped = write_number(mark, u64::from(counts.skipped_sets), &mut text, records);
    let definitions = write_number(mark, u64::from(counts.definitions), &mut text, skipped);
    let time = write_number(mark, u64::from(line.time), &mut text, definitions);
    let sequence = write_number(mark, u64::from(line.sequence), &mut text, time);
    let domain = write_number(mark, u64::from(line.domain), &mut text, sequence);
    let offset = write_number(mark, line.offset, &mut text, domain);
    let number = write_number(mark, u64::from(line.number), &mut text, offset);
    let file = write_number(Mark::End(b'\n'), line.file, &mut text, number);
    out.push(&text[file..])
}

/// The text of messages, to be printed: a header, and the line of each message.
#[derive(Drop)]
pub struct MessagesText<'a> {
    /// The lines in order.
    pub lines: &'a [MessageLine],
}

impl Printable for MessagesText<'_> {
    ghost use Rattle.std.specs.Prelude.{◌≡◌, ⊤};
    ghost use Rattle.pmap_print.specs.Messages.{lines_text};

    ghost is_whole = { λ _. ⊤ };

    ghost is_text = { λ t text. text ≡ lines_text t.lines.now };

    fn print<S: Sink>(&self, out: &mut S) -> Result<(), S::Fault> {
        out.push(
            b"file|message|offset|domain|sequence|time|definitions|skipped-sets|records|options-records|rows|\
              zero-bytes",
        )?;
        for line in self.lines {
            print_line(out, line)?;
        }
        out.push(b"\n")
    }
}
