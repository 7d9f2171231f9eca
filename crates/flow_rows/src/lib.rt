//! Flow rows of IPFIX data records, and the counts of messages.
//!
//! ```rust
//! use flow_rows::row_of;
//! use ipfix_read::Record;
//!
//! // The octets of the flow that a data record describes, if the record has both addresses of a version.
//! fn octets_of(record: &Record<'_, '_>) -> u64 {
//!     match row_of(record) {
//!         Some(row) => row.octets(),
//!         None => 0,
//!     }
//! }
//! ```
//!
//! This crate uses ipfix_read (records and messages) and prefix_keys (addresses). `row_of` returns the flow row of a
//! data record, and `reverse_row_of` the second row of a record with both directions of a flow (RFC 5103). A row
//! borrows its record. Each number is read when it is requested: the first usable field of its information element, in
//! network byte order. `rows_of` returns an iterator over the rows of a message. `Counts` counts the contents of
//! messages, and `MessageCounts` those of one message. Callers may rely on this: the rows are a function of the list of
//! the record's fields with their values. A record without both addresses of a version, and an options record, have
//! none. Counts of a list of messages are, after one more message, those of the list with that message. Nothing here
//! allocates.
#![tactic(auto)]

mod counts;
mod laws;
mod message_counts;
mod number;
mod place;
mod record;
mod row;
mod walk;

pub use counts::Counts;
pub use laws::{counts_add_up, joined_file_adds_up, message_counts_add_up};
pub use message_counts::MessageCounts;
pub use number::{MORE_NUMBERS, NUMBERS, Number};
pub use record::{reverse_row_of, row_of};
pub use row::Row;
pub use walk::{Rows, rows_of};
