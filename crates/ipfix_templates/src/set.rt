//! Template sets.
ghost use Rattle.std.specs.Prelude.{◌≡◌, ◌≤◌, length, IfErr, IfOk, Ok};
ghost use Rattle.ipfix_templates.specs.Reading.{IsFaultWithin, template_set_reading};

use crate::event::TemplateEvents;
use crate::fault::TemplateFault;
use crate::kind::Kind;
use crate::record::read_record;
use std::alloc::Global;

/// Reads the bytes after the header of a template set, or of an options template set if the kind is `Options` (RFC 7011
/// section 3.3). Records are read while at least 4 bytes remain. Fewer bytes are padding.
///
/// # Errors
///
/// Returns the fault of the first malformed record and the offset at which the record begins, or `NoMemory` if an
/// allocation fails.
pub fn read_template_set(
    alloc: Global,
    bytes: &[u8],
    kind: Kind,
) -> Result<TemplateEvents, TemplateFault>
    ensures ok { IfOk result (λ events. template_set_reading kind bytes.now ≡ Ok events) }
    ensures few { IfOk result (λ events. length events ≤ length bytes.now) }
    ensures fault { IfErr result (IsFaultWithin (length bytes.now) (template_set_reading kind bytes.now)) }
{
    let mut events = TemplateEvents::new(alloc);
    let mut rest = bytes;
    while rest.len() >= 4 {
        let offset = (bytes.len() - rest.len()) as u64;
        let (event, after) = read_record(alloc, kind, rest, offset)?;
        events.push(event)?;
        rest = after;
    }
    Ok(events)
}
