//! Prefix maps and prefix lists: their labels, statements and entries, and the label that each gives an address.
//!
//! ```rust
//! use pmap_model::Labels;
//!
//! let mut labels = Labels::new(alloc);
//! let guests = labels.add(b"Guest network")?;
//! assert!(rt; labels.text(guests) == Some(b"Guest network".as_slice()));
//! assert!(rt; labels.id_of(b"Printers").is_none());
//! ```
//!
//! This crate uses `prefix_keys` (addresses and blocks), `indexmap` for the table of labels, and `smallvec` for their
//! texts. It never reads a text: pmap_text does, and pmap_stretches finds the stretches and runs of a map or a list.
//! Callers may rely on this: the number of a label is its index in the order in which its table got the texts, so the
//! number and the text determine each other. The type of a `MapText` guarantees that its statements are of its version
//! and at most 1,000,000, and that their labels are in its table. The type of a `PrefixList` guarantees that its
//! entries are of its version, that no two have the same block, and that their labels are in its table. The definitions
//! that contracts cite, including the label that a map gives an address and settled blocks, are in `specs`.
#![tactic(auto)]

mod entries;
mod entry;
mod hashing;
mod label;
mod labels;
mod laws;
mod map_text;
mod name;
mod order;
mod packed;
mod packed_list;
mod prefix_list;
mod statement;
mod statements;

pub use entries::Entries;
pub use entry::Entry;
pub use hashing::KeyHashing;
pub use label::{LabelId, is_blank, is_label};
pub use labels::Labels;
pub use laws::{longest_match_counts, order_of_entries_is_free, settled_block_has_its_label};
pub use map_text::MapText;
pub use name::Name;
pub use order::{in_order, sorted_or};
pub use prefix_list::PrefixList;
pub use statement::Statement;
pub use statements::Statements;
