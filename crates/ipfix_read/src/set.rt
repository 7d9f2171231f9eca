ghost use Rattle.std.specs.Prelude.{◌≡◌, ◌^◌, ◌+◌, ◌<◌, ◌≤◌, [], fold, length, IfOk, OnOk};
ghost use Rattle.std.specs.Result.{result_map_both};
ghost use Rattle.ipfix_templates.specs.InForce.{after_event, template_at};
ghost use Rattle.ipfix_read.specs.Set.{after_set, content_reading, set_next, sets_reading, template_kind, ReadsUnder};
ghost use Rattle.ipfix_read.specs.Message.{set_size, message_size};

use crate::fault::{ReadFault, ReadFaultKind};
use crate::record::{RecordList, read_data_set};
use byteorder::{BigEndian, ByteOrder};
use ipfix_templates::{
    Items, Kind, TemplateEvent, TemplateEvents, TemplateFault, TemplateTable, read_template_set,
};
use std::alloc::{AllocError, Global};

/// A set of a message (RFC 7011 section 3.3).
#[derive(Drop)]
pub enum Set<'a> {
    /// A template set, or an options template set, with the events of its records.
    Templates(Kind, TemplateEvents),
    /// A data set under a template in force, with its records.
    Values(Kind, RecordList<'a>),
    /// A set whose ID has no meaning, or a data set without a template in force. The value is the set ID.
    Skipped(u16),
}

// The length of a set header in bytes.
const SET_HEADER: usize = 4;

// The first of the set IDs that data sets have (RFC 7011 section 3.3.2).
const FIRST_DATA_SET_ID: u16 = 256;

// Changes the table by these template events in turn. If an allocation fails, the table may have changed by some of
// them.
fn apply_events(
    table: &mut TemplateTable,
    domain: u32,
    events: &TemplateEvents,
) -> Result<(), AllocError>
    ensures { OnOk result (template_at table.new
        ≡ fold (after_event domain) (template_at table.old) events.now) }
{
    for event in events.as_slice() {
        match event {
            TemplateEvent::Define(template) => table.set(domain, template.clone()?)?,
            TemplateEvent::Withdraw(id) => table.withdraw(domain, *id),
            TemplateEvent::WithdrawAll(kind) => table.withdraw_all(domain, *kind),
        }
    }
    Ok(())
}

// Returns the kind of the templates that a set with this ID holds, if it holds templates (RFC 7011 section 3.3.2).
fn template_kind(id: u16) -> Option<Kind>
    ensures { result ≡ template_kind id }
{
    match id {
        2 => Some(Kind::Flow),
        3 => Some(Kind::Options),
        _ => None,
    }
}

// Reads the content of a set with this ID. The events of a template set change the table, even if an allocation fails
// after some of them.
fn read_content<'a>(
    alloc: Global,
    table: &mut TemplateTable,
    domain: u32,
    id: u16,
    bytes: &'a [u8],
    base: u64,
) -> Result<Set<'a>, ReadFault>
    requires { base + length bytes.now < 2 ^ 64 }
    ensures read { ReadsUnder table.old table.new (after_set domain)
        (content_reading (template_at table.old) domain id base bytes.now) result }
    ensures size { IfOk result (λ set. set_size set ≤ 1 + length bytes.now) }
{
    let Some(kind) = template_kind(id) else {
        if id < FIRST_DATA_SET_ID {
            return Ok(Set::Skipped(id));
        }
        let Some(template) = table.get(domain, id) else {
            return Ok(Set::Skipped(id));
        };
        let records = read_data_set(template, bytes, base)?;
        return Ok(Set::Values(template.kind, records));
    };
    let events = match read_template_set(alloc, bytes, kind) {
        Ok(events) => events,
        Err(TemplateFault::NoMemory) => return Err(AllocError.into()),
        Err(TemplateFault::Malformed(kind, offset)) => {
            return Err(ReadFaultKind::BadTemplate(kind).at(base + offset));
        }
    };
    apply_events(table, domain, &events)?;
    Ok(Set::Templates(kind, events))
}

// Reads the set at the start of the bytes, and returns it with the bytes after it. The events of a template set change
// the table, even if an allocation fails after some of them.
fn read_set<'a>(
    alloc: Global,
    table: &mut TemplateTable,
    domain: u32,
    bytes: &'a [u8],
    base: u64,
) -> Result<(Set<'a>, &'a [u8]), ReadFault>
    requires { base + length bytes.now < 2 ^ 64 }
    ensures read { ReadsUnder table.old table.new (λ before read. after_set domain before read.0)
        (set_next (template_at table.old) domain base bytes.now)
        (result_map_both (λ read. (read.0, read.1.now)) (λ fault. fault) result) }
    ensures size { IfOk result (λ read. set_size read.0 + length read.1.now < length bytes.now) }
{
    let bad_length = ReadFaultKind::BadSetLength.at(base);
    if bytes.len() < SET_HEADER {
        return Err(bad_length);
    }
    let length = usize::from(BigEndian::read_u16(&bytes[2..]));
    if length < SET_HEADER || bytes.len() < length {
        return Err(bad_length);
    }
    let (front, after) = bytes.split_at(length);
    let id = BigEndian::read_u16(bytes);
    let set = read_content(alloc, table, domain, id, &front[SET_HEADER..], base + 4)?;
    Ok((set, after))
}

/// Reads the sets of a message from the bytes after its header into a list, which is empty at first. `base` is the
/// offset of these bytes in the File. The events of template sets change the table. After a fault the list may have the
/// sets before it, and the table may have changed by some events. The list isn't the result, since a result that
/// holds a list or a fault is moved in small parts, which is slow.
pub fn read_sets<'a>(
    alloc: Global,
    sets: &mut Items<Set<'a>>,
    table: &mut TemplateTable,
    domain: u32,
    bytes: &'a [u8],
    base: u64,
) -> Result<(), ReadFault>
    requires none { sets.old ≡ [] }
    requires fits { base + length bytes.now < 2 ^ 64 }
    ensures read { ReadsUnder table.old table.new (λ before sets. fold (after_set domain) before sets)
        (sets_reading (template_at table.old) domain base bytes.now)
        (result_map_both (λ _. sets.new) (λ fault. fault) result) }
    ensures size { OnOk result (message_size sets.new ≤ length bytes.now) }
{
    let mut rest = bytes;
    while !rest.is_empty() {
        let offset = base + (bytes.len() - rest.len()) as u64;
        let (set, after) = read_set(alloc, table, domain, rest, offset)?;
        sets.push(set)?;
        rest = after;
    }
    Ok(())
}
