ghost use Rattle.std.specs.Prelude.{◌≡◌};
ghost use Rattle.ipfix_templates.specs.Field.{least_length};

use crate::fields::Fields;
use crate::kind::Kind;
use std::marker::Model;

/// A template (RFC 7011 section 3.4). Its ID is at least 256, and it has at least one field. A flow template has no
/// scope fields. An options template has at least one.
#[derive(Clone, Drop)]
pub struct Template {
    /// The template ID.
    pub id: u16,
    /// The kind of records that the template describes.
    pub kind: Kind,
    /// The number of scope fields, which are the first fields.
    pub scope_count: u16,
    /// The fields, in the order of the values in a record.
    pub fields: Fields,
}

impl Model for Template {
    ghost use Rattle.std.specs.Prelude.{length};
    ghost use Rattle.ipfix_templates.specs.Template.{TemplateView, IsTemplate};

    ghost Value = { TemplateView };

    ghost view = { λ t. record { id = t.id; kind = t.kind; scope_count = t.scope_count; fields = t.fields } };

    ghost invariant = { λ t. IsTemplate t.id t.kind t.scope_count (length t.fields) };
}

impl Template {
    /// Returns the minimum number of bytes of a record: the sum of the fixed lengths, and 1 for each variable length. A
    /// data set has records while this many bytes remain. Fewer bytes are padding (RFC 7011 section 3.3.1).
    pub fn least_length(&self) -> u32
        ensures { result ≡ least_length self.now.fields }
    {
        self.fields.least_length()
    }
}
