//! The labels of addresses from a trie with its label table, a prefix list, or a prefix map.
//!
//! ```rust
//! use label_lookup::{Scan, label_row};
//! use pmap_text::read_map;
//! use prefix_keys::read_addr;
//!
//! let map = read_map(alloc, b"10.0.0.0/8 Inside\n")?;
//! let addr = read_addr(b"::ffff:10.1.2.3").expect(&rt, "an address");
//! assert!(rt; label_row(&Scan::new(&map), addr) == Some(b"Inside".as_slice()));
//! ```
//!
//! This crate uses prefix_keys (addresses and their versions), pmap_model (prefix maps, prefix lists and label tables),
//! pmap_stretches (their stretches) and label_trie. Callers may rely on the contract of `Labeller`: `label_of` returns
//! the label that the labeller's `label` has at the address, and each returned label is well formed. For a `Scan` that
//! is the map's label, and for a `ListIndex`, or the `PrefixList` itself, the prefix list's. For a `TrieLabeller` it is
//! the text of the trie's label, which is the map's or the prefix list's if the trie was built from one. A
//! `StretchIndex` has the labelling of the map or the prefix list from which it was built. `label_row` returns the
//! label of a row's address, converted to the labeller's version, with one definition for all labellers.
#![tactic(auto)]

mod labeller;
mod list_index;
mod list_scan;
mod row;
mod scan;
mod stretch_index;
mod texts;
mod trie_labeller;

pub use labeller::Labeller;
pub use list_index::ListIndex;
pub use row::{label_row, label_row_under};
pub use scan::Scan;
pub use stretch_index::StretchIndex;
pub use trie_labeller::TrieLabeller;
