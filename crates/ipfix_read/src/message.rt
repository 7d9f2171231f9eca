//! Messages and Files.
ghost use Rattle.std.specs.Prelude.{◌≡◌, ◌^◌, ◌+◌, ◌<◌, ◌≤◌, length, false, IfOk, IfErr, OnOk, None, Some};
ghost use Rattle.std.specs.Result.{result_map_both};
ghost use Rattle.ipfix_templates.specs.InForce.{template_at};
ghost use Rattle.ipfix_read.specs.Fault.{Reads, is_of_calls};
ghost use Rattle.ipfix_read.specs.Messages.{file_reading};
ghost use Rattle.ipfix_read.specs.Message.{own_fault, after_message, message_next};
ghost use Rattle.ipfix_read.specs.Message.{message_size, whole_reading, HasHeader};
ghost use Rattle.ipfix_read.specs.Set.{written_length, ReadsUnder};

use crate::fault::{ReadFault, ReadFaultKind};
use crate::set::{Set, read_sets};
use byteorder::{BigEndian, ByteOrder};
use ipfix_templates::{Items, TemplateTable};
use std::alloc::Global;
use std::marker::Model;

/// A message (RFC 7011 section 3.1). It has at most 65,535 sets, template events and data records together.
#[derive(Drop)]
pub struct Message<'a> {
    /// The time at which the message left the exporter, in seconds since 1970.
    pub export_time: u32,
    /// The sequence number.
    pub sequence: u32,
    /// The observation domain ID.
    pub domain: u32,
    /// The sets in order.
    pub sets: Items<Set<'a>>,
}

impl<'a> Model for Message<'a> {
    ghost use Rattle.std.specs.Prelude.{◌≤◌};
    ghost use Rattle.ipfix_read.specs.Message.{MessageView, message_size};

    ghost Value = { MessageView };

    ghost view = { λ m. record {
      export_time = m.export_time;
      sequence = m.sequence;
      domain = m.domain;
      sets = m.sets;
    } };

    ghost invariant = { λ m. message_size m.sets ≤ 65535 };
}

impl<'a> Message<'a> {
    /// Returns the sets in order. The sets with their template events and data records are at most 65,535.
    pub fn sets(&self) -> &Items<Set<'a>>
        ensures value { result.now ≡ self.now.sets }
        ensures size { message_size self.now.sets ≤ 65535 }
    {
        &self.sets
    }
}

/// The length of a message header in bytes.
pub const MESSAGE_HEADER: usize = 16;

// The version number of IPFIX.
const VERSION: u16 = 10;

/// Returns the length that a header gives for its message, which follows `count` messages, or the fault of the header
/// itself.
pub fn header_length(count: u32, header: &[u8]) -> Result<usize, ReadFaultKind>
    requires { 16 ≤ length header.now }
    ensures ok { OnOk result (own_fault count header.now ≡ None) }
    ensures whole { IfOk result (λ size. size ≡ written_length header.now) }
    ensures least { IfOk result (λ size. 16 ≤ size) }
    ensures most { IfOk result (λ size. size ≤ 65535) }
    ensures fault { IfErr result (λ kind. (own_fault count header.now ≡ Some kind) × (is_of_calls kind ≡ false)) }
{
    let size = usize::from(BigEndian::read_u16(&header[2..]));
    match (count, BigEndian::read_u16(header)) {
        (u32::MAX, _) => Err(ReadFaultKind::TooManyMessages),
        (_, VERSION) if size < MESSAGE_HEADER => Err(ReadFaultKind::BadMessageLength),
        (_, VERSION) => Ok(size),
        _ => Err(ReadFaultKind::BadVersion),
    }
}

/// Reads a message from exactly its bytes, whose header gives their length. `base` is the offset of the message in the
/// File. The events of its template sets change the table. After a fault the table may have changed by some of them.
pub fn whole_message<'a>(
    alloc: Global,
    table: &mut TemplateTable,
    bytes: &'a [u8],
    base: u64,
) -> Result<Message<'a>, ReadFault>
    requires header { HasHeader bytes.now }
    requires room { base + length bytes.now < 2 ^ 64 }
    ensures { ReadsUnder table.old table.new after_message
        (whole_reading (template_at table.old) base bytes.now) result }
{
    let domain = BigEndian::read_u32(&bytes[12..]);
    let mut sets = Items::with_room(alloc)?;
    read_sets(
        alloc,
        &mut sets,
        table,
        domain,
        &bytes[MESSAGE_HEADER..],
        base + 16,
    )?;
    Ok(Message {
        export_time: BigEndian::read_u32(&bytes[4..]),
        sequence: BigEndian::read_u32(&bytes[8..]),
        domain,
        sets,
    })
}

// Reads the message at the start of the bytes, which follows `count` messages, and returns it with the bytes after it.
// `base` is the offset of the message in the File. The events of its template sets change the table. After a fault the
// table may have changed by some of them.
fn read_message<'a>(
    alloc: Global,
    table: &mut TemplateTable,
    count: u32,
    bytes: &'a [u8],
    base: u64,
) -> Result<(Message<'a>, &'a [u8]), ReadFault>
    requires { base + length bytes.now < 2 ^ 64 }
    ensures read { ReadsUnder table.old table.new (λ before read. after_message before read.0)
        (message_next (template_at table.old) count base bytes.now)
        (result_map_both (λ read. (read.0, read.1.now)) (λ fault. fault) result) }
    ensures counted { OnOk result (count < 4294967295) }
    ensures shorter { IfOk result (λ read. length read.1.now < length bytes.now) }
{
    if bytes.len() < MESSAGE_HEADER {
        return Err(ReadFaultKind::TruncatedHeader.at(base));
    }
    let size = match header_length(count, bytes) {
        Ok(size) => size,
        Err(kind) => return Err(kind.at(base)),
    };
    if bytes.len() < size {
        return Err(ReadFaultKind::TruncatedMessage.at(base));
    }
    let (front, after) = bytes.split_at(size);
    let message = whole_message(alloc, table, front, base)?;
    Ok((message, after))
}

/// The content of a File: its messages in order, at most 4,294,967,295. The values of records are slices of the File.
#[derive(Drop)]
pub struct FileEvents<'a> {
    /// The messages in order.
    pub messages: Items<Message<'a>>,
    ghost counted: { length messages ≤ 4294967295 },
}

/// Reads an IPFIX File (RFC 5655): consecutive messages of RFC 7011, which share one set of templates in force. The
/// memory used is linear in the length of the bytes.
///
/// # Errors
///
/// Returns the first fault, in byte order, or `NoMemory` if an allocation fails.
pub fn read_file(alloc: Global, bytes: &[u8]) -> Result<FileEvents<'_>, ReadFault>
    ensures { Reads (file_reading bytes.now) (result_map_both (λ file. file.messages) (λ fault. fault) result) }
{
    let mut table = TemplateTable::new(alloc);
    let mut messages = Items::new(alloc);
    let mut rest = bytes;
    let mut count = 0u32;
    while !rest.is_empty() {
        let base = (bytes.len() - rest.len()) as u64;
        let (message, after) = read_message(alloc, &mut table, count, rest, base)?;
        messages.push(message)?;
        count += 1;
        rest = after;
    }
    Ok(FileEvents { messages })
}
