ghost use Rattle.std.specs.Prelude.{◌≡◌};
ghost use Rattle.ipfix_templates.specs.Template.{set_id};

/// The kind of records that a template describes.
#[derive(Clone, Copy, PartialEq, Eq)]
pub enum Kind {
    /// Flow records: a template of a template set (RFC 7011 section 3.4.1).
    Flow,
    /// Options records: a template of an options template set (RFC 7011 section 3.4.2).
    Options,
}

impl Kind {
    /// Returns the set ID of the sets that hold templates of this kind (RFC 7011 section 3.3.2).
    pub fn set_id(self) -> u16
        ensures { result ≡ set_id self }
    {
        match self {
            Kind::Flow => 2,
            Kind::Options => 3,
        }
    }
}
