ghost use Rattle.std.specs.Prelude.{◌≡◌, ◌<◌, ◌≤◌, length, IfErr, IfOk, IfSome, Ok, option_map};
ghost use Rattle.ipfix_templates.specs.Reading.{IsFaultWithin, with_offset, definition_at};
ghost use Rattle.ipfix_templates.specs.Reading.{field_at, fields_at, template_record_at};

use crate::event::TemplateEvent;
use crate::fault::{TemplateFault, TemplateFaultKind};
use crate::field::Field;
use crate::fields::Fields;
use crate::kind::Kind;
use crate::template::Template;
use byteorder::{BigEndian, ByteOrder};
use std::alloc::{AllocError, Global};

// The bit of a field specifier's first two bytes that is set if an enterprise number follows.
const ENTERPRISE_BIT: u16 = 0x8000;

// Template IDs below this one are reserved (RFC 7011 section 3.4.1).
const FIRST_TEMPLATE_ID: u16 = 256;

// Reads the field specifier at the start of the bytes, and returns it with the bytes after it. Returns `None` if the
// input is too short.
#[tactic(auto, unfolding(crate::specs::Reading::field_at))]
fn read_field(bytes: &[u8]) -> Option<(Field, &[u8])>
    ensures { option_map (λ x. (x.0, x.1.now)) result ≡ field_at bytes.now }
{
    if bytes.len() < 4 {
        return None;
    }
    let number = BigEndian::read_u16(bytes);
    let length = BigEndian::read_u16(&bytes[2..]);
    let (enterprise, rest) = if number < ENTERPRISE_BIT {
        (None, &bytes[4..])
    } else if bytes.len() < 8 {
        return None;
    } else {
        (Some(BigEndian::read_u32(&bytes[4..])), &bytes[8..])
    };
    let number = number % ENTERPRISE_BIT;
    let field = Field {
        enterprise,
        number,
        length,
    };
    Some((field, rest))
}

// Reads `count` field specifiers from the start of the bytes, and returns them with the bytes after them. Returns
// `None` if the input is too short.
fn read_fields(
    alloc: Global,
    count: u16,
    bytes: &[u8],
) -> Result<Option<(Fields, &[u8])>, AllocError>
    ensures read { IfOk result (λ read. option_map (λ x. (x.0, x.1.now)) read ≡ fields_at count bytes.now) }
    ensures counted { IfOk result (λ read. IfSome read (λ x. length x.0 ≡ count)) }
{
    let mut fields = Vec::new(alloc);
    let mut rest = bytes;
    for _ in 0..count {
        let Some((field, after)) = read_field(rest) else {
            return Ok(None);
        };
        fields.push(field)?;
        rest = after;
    }
    let fields = Fields::from_vec(fields)?;
    Ok(Some((fields, rest)))
}

// Reads the definition that follows an ID and a field count, in the template record at this offset.
#[tactic(auto, unfolding(crate::specs::Reading::definition_at))]
fn read_definition(
    alloc: Global,
    kind: Kind,
    id: u16,
    count: u16,
    bytes: &[u8],
    offset: u64,
) -> Result<(TemplateEvent, &[u8]), TemplateFault>
    requires id { 256 ≤ id }
    requires some { 0 < count }
    ensures ok { IfOk result (λ x. definition_at kind id count bytes.now ≡ Ok (x.0, x.1.now)) }
    ensures fault { IfErr result (IsFaultWithin offset (with_offset offset (definition_at kind id count bytes.now))) }
{
    let mut rest = bytes;
    let mut scope_count = 0;
    if let Kind::Options = kind {
        if bytes.len() < 2 {
            return Err(TemplateFaultKind::Truncated.at(offset));
        }
        scope_count = BigEndian::read_u16(bytes);
        if scope_count == 0 || scope_count > count {
            return Err(TemplateFaultKind::BadScope.at(offset));
        }
        rest = &bytes[2..];
    }
    let Some((fields, rest)) = read_fields(alloc, count, rest)? else {
        return Err(TemplateFaultKind::Truncated.at(offset));
    };
    let template = Template {
        id,
        kind,
        scope_count,
        fields,
    };
    Ok((TemplateEvent::Define(template), rest))
}

/// Reads the template record at the start of the bytes (RFC 7011 sections 3.4.1 and 3.4.2), and returns it with the
/// bytes after it. Its fault has this offset.
#[tactic(auto, unfolding(crate::specs::Reading::template_record_at))]
pub fn read_record(
    alloc: Global,
    kind: Kind,
    bytes: &[u8],
    offset: u64,
) -> Result<(TemplateEvent, &[u8]), TemplateFault>
    requires { 4 ≤ length bytes.now }
    ensures ok { IfOk result (λ x. template_record_at kind bytes.now ≡ Ok (x.0, x.1.now)) }
    ensures fault { IfErr result (IsFaultWithin offset (with_offset offset (template_record_at kind bytes.now))) }
{
    let id = BigEndian::read_u16(bytes);
    let count = BigEndian::read_u16(&bytes[2..]);
    let rest = &bytes[4..];
    if count == 0 && id == kind.set_id() {
        return Ok((TemplateEvent::WithdrawAll(kind), rest));
    }
    if id < FIRST_TEMPLATE_ID {
        return Err(TemplateFaultKind::BadTemplateId.at(offset));
    }
    if count == 0 {
        return Ok((TemplateEvent::Withdraw(id), rest));
    }
    read_definition(alloc, kind, id, count, rest, offset)
}
