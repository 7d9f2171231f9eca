//! Texts of prefix maps and prefix lists: the reading of a text as a map or as a list.
//!
//! ```rust
//! use pmap_text::read_map;
//!
//! let map = read_map(alloc, b"10.0.0.0/8 Inside\n10.1.0.0/16 Guest network\n")?;
//! assert!(rt; map.statements.len() == 2);
//! assert!(rt; map.labels.text(map.default) == Some(b"UNKNOWN".as_slice()));
//! ```
//!
//! This crate uses `prefix_keys` (addresses and blocks), `pmap_model` (maps, lists and their labels, which it also
//! exports), `indexmap` for the table of declared numbers, and `memchr` to find the end of a line. It never reads a
//! file, and looks up no address. Callers may rely on this: `read_map` and `read_list` return exactly the map or the
//! list of the text, or the text's first fault with its line, counted from 1. A failed allocation has line 0. The
//! number of a label is its index in the order in which label texts first occur. The definitions that contracts cite
//! are in `specs`.
#![tactic(auto)]

mod fault;
mod pieces;
mod reading;

pub use fault::{MapFault, MapFaultKind};
pub use pieces::Pieces;
pub use pmap_model::{
    Entries, Entry, KeyHashing, LabelId, Labels, MapText, Name, PrefixList, Statement, Statements,
    is_label,
};
pub use reading::form::Form;
pub use reading::texts::{read_list, read_list_with_hashing, read_map, read_map_with_hashing};
