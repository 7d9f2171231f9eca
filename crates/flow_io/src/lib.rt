//! Readers and writers that remember whether they failed.
//!
//! ```rust
//! use flow_io::{MemoryInput, read_whole};
//!
//! // A reader that returns four bytes a call, and never fails.
//! let mut reader = MemoryInput::new(b"10.0.0.0/8 A\n", 4, None);
//! let text = read_whole(alloc, &mut reader)?;
//! assert!(rt; text.as_slice() == b"10.0.0.0/8 A\n".as_slice());
//! ```
//!
//! The program reads its files and writes its output through the traits `Input` and `Output`. A reader has failed from
//! its first call on that returned `Err`. A writer has also failed from its first call on that took nothing of a
//! nonempty slice. `failed` reports this, so a caller can prove that it returns a read fault or a write fault only if a
//! device failed. A writer also reports its last call and the number of its flushes, so a caller can prove that the
//! output was flushed once, after its last byte.
//!
//! Contracts see which bytes the reads of a reader have returned, and which bytes the writes of a writer have taken. A
//! type may also report its bytes: those that a reader will still return, or those that a writer holds. Then they are
//! the same bytes. A slice or a `Vec` reports its bytes. A file does not, as no contract says what the system reads or
//! writes.
//!
//! `Watched` wraps any reader or writer of std, and notes the bytes in a `Record`, which takes no memory. `ReadAhead`
//! wraps an `Input`, and asks it for 64 KB at a time. `MemoryInput` and `MemoryOutput` are for tests. `read_whole` and
//! `write_whole` move all bytes, `fill` fills a slice, and they return a fault if and only if their reader or writer
//! failed.
//!
//! A `Printable` value prints its text into any `Sink`: into a `Vec` by `text_of`, or by `write_printed` into a buffer
//! of 32 KB before a writer, so that the text is never in memory as a whole. Only `read_whole`, `text_of` and
//! `ReadAhead::new` allocate.
#![tactic(auto)]

mod buffered;
mod devices;
mod given;
mod laws;
mod memory;
mod read_ahead;
mod record;
mod sink;
mod watch;
mod whole;

pub use buffered::write_printed;
pub use devices::{DeviceFault, Input, LastCall, Output};
pub use laws::{readers_show_what_they_note, writers_show_what_they_note};
pub use memory::{MemoryInput, MemoryOutput};
pub use read_ahead::ReadAhead;
pub use record::Record;
pub use sink::{Printable, Sink, text_of};
pub use watch::Watched;
pub use whole::{ReadStop, fill, read_whole, write_whole};
