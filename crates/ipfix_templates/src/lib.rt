//! IPFIX template sets, and the templates in force (RFC 7011 sections 3.2, 3.4 and 8).
//!
//! ```rust
//! use ipfix_templates::{Kind, TemplateEvent, read_template_set};
//!
//! // The ID 256 and two fields of 4 bytes: sourceIPv4Address and destinationIPv4Address.
//! let bytes = [1u8, 0, 0, 2, 0, 8, 0, 4, 0, 12, 0, 4];
//! let events = read_template_set(alloc, &bytes, Kind::Flow)?;
//! if let [TemplateEvent::Define(template)] = events.as_slice() {
//!     assert!(rt; template.id == 256 && template.least_length() == 8);
//! }
//! ```
//!
//! This crate uses no other crate of the project. `read_template_set` reads the bytes after the header of a template
//! set or an options template set. It returns template events: definitions, withdrawals of one template, and
//! withdrawals of all templates of a kind. `TemplateTable` holds the templates of each observation domain. Callers may
//! rely on this: the events are those of the bytes, record by record, or the fault is that of the first malformed
//! record. A table that was changed by each event of a history in turn has at each domain and ID the template in force
//! (`in_force`).
//!
//! The fields of a template also have a layout (`RowLayout`): the places of a flow row's numbers in its records,
//! determined once. Options templates have none.
#![tactic(auto)]

mod event;
mod fault;
mod field;
mod fields;
mod items;
mod kind;
mod laws;
mod layout;
mod record;
mod set;
mod table;
mod template;

pub use event::{TemplateEvent, TemplateEvents};
pub use fault::{TemplateFault, TemplateFaultKind};
pub use field::Field;
pub use fields::Fields;
pub use items::Items;
pub use kind::Kind;
pub use laws::last_definition_is_in_force;
pub use layout::{Place, Places, RowLayout};
pub use set::read_template_set;
pub use table::TemplateTable;
pub use template::Template;
