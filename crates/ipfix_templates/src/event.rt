use crate::items::Items;
use crate::kind::Kind;
use crate::template::Template;

/// The event that a record of a template set reports.
#[derive(Drop)]
pub enum TemplateEvent {
    /// The template is defined (RFC 7011 section 3.4).
    Define(Template),
    /// The template with this ID is withdrawn (RFC 7011 section 8.1).
    Withdraw(u16),
    /// All templates of the kind are withdrawn (RFC 7011 section 8.1).
    WithdrawAll(Kind),
}

/// A list of template events.
pub type TemplateEvents = Items<TemplateEvent>;
