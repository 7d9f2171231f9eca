//! The printed texts of values.
//!
//! ```rust
//! use pmap_print::print_list;
//! use pmap_text::read_list;
//!
//! // Of two entries with the same first address, the one with the shorter prefix is printed first.
//! let list = read_list(alloc, b"10.0.0.0/16 B\n10.0.0.0/8 A\n")?;
//! let text = print_list(alloc, &list)?;
//! assert!(rt; text.as_slice() == b"mode ipv4\n10.0.0.0/8 A\n10.0.0.0/16 B\n".as_slice());
//! ```
//!
//! It depends on the crates of what it prints. A `Table` of flow rows, with or without labels and columns, is built row
//! by row. A `Table`, a `GroupsText`, a `ListText`, a `MessagesText` or a `RunsText` prints its text into a sink of
//! flow_io, such as the buffer before a writer. Only building them allocates. `print_rows`, `print_groups`,
//! `print_list` and `print_runs` return these texts, and `print_info` returns the text of counts. The layer above may
//! rely on this: the text is, byte for byte, what the definitions state for the printed value, and the only error is
//! out of memory.
#![tactic(auto)]

mod columns;
mod fields;
mod groups;
mod info;
mod list;
mod mark;
mod messages;
mod row_labels;
mod rows;
mod runs;
mod table;

pub use groups::{GroupsText, print_groups};
pub use info::print_info;
pub use list::{ListText, print_list};
pub use messages::{MessageLine, MessagesText};
pub use row_labels::RowLabels;
pub use rows::print_rows;
pub use runs::{RunsText, print_runs};
pub use table::Table;
