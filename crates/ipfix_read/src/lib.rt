//! IPFIX Files (RFC 5655), read whole or message by message, as values: consecutive messages of RFC 7011.
//!
//! ```rust
//! use ipfix_read::read_file;
//!
//! // A message without sets: version 10, length 16, export time, sequence number and observation domain.
//! let bytes = [0u8, 10, 0, 16, 0x60, 0, 0, 0, 0, 0, 0, 0, 0, 0, 0, 1];
//! let file = read_file(alloc, &bytes)?;
//! assert!(rt; file.messages.len() == 1);
//! ```
//!
//! This crate uses ipfix_templates (template sets and the templates in force). `read_file` returns the messages of a
//! File, each with its sets: template events, data records whose values are slices of the File, and skipped sets.
//! Callers may rely on this: the File is the concatenation of the messages' bytes. A message is its header and the
//! concatenation of its sets. A data set is its records and padding, under the template that the events before it put
//! in force. For any other bytes, the fault is the first one in byte order. The messages or the fault are a function of
//! the bytes (`file_reading`), which can be computed. The rest of a File may be read after any of its messages.
//!
//! `Messages` reads the same messages from a reader, one at a time, into one buffer from which the message borrows. By
//! a law the bytes of all calls are the whole File, whether or not the reader reports its bytes.
#![tactic(auto)]

mod fault;
mod laws;
mod message;
mod progress;
mod record;
mod set;
mod value;

pub use fault::{ReadFault, ReadFaultKind};
pub use laws::{calls_join_file, file_after_file, first_message_and_rest, placed_are_messages};
pub use message::{FileEvents, Message, read_file};
pub use progress::{Buffer, Kept, Messages, Progress, State};
pub use record::{Record, RecordList, Records};
pub use set::Set;
pub use value::{FieldValue, FieldValues, Values, skip_runs};
