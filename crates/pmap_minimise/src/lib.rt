//! The shortest prefix list that labels every address as a prefix map does, with the certificate that shows it.
//!
//! ```rust
//! use label_trie::Trie;
//! use pmap_minimise::minimise;
//! use pmap_text::read_map;
//!
//! // A for all addresses, and B and C for a quarter each.
//! let map = read_map(alloc, b"0.0.0.0/2 A\n64.0.0.0/2 B\n128.0.0.0/2 A\n192.0.0.0/2 C\n")?;
//! let trie = Trie::build(alloc, &map)?;
//! let minimal = minimise(alloc, &map, &trie)?;
//! assert!(rt; minimal.list.entries.len() == 3);
//! ```
//!
//! It depends on label_trie (the map's trie), pmap_cert (certificates, and the laws on minimal pairs), pmap_model (maps
//! and lists), pmap_stretches (a map's stretches and runs) and `smallvec` for small sets of labels. The layer above may
//! rely on `minimise`: the list and the certificate are the map's minimal pair. So the list is equivalent to the map,
//! it has one entry more than the root's cost, no equivalent list has fewer, and the certificate is accepted for both.
//! `shortest` returns the list alone, and `compact_certificate` the compacted certificate, of which the other one can
//! be printed.
#![tactic(auto)]

mod building;
mod claiming;
mod entering;
mod entries;
mod minimal;
mod sets;
mod spines;

pub use minimal::{Minimal, compact_certificate, minimise, shortest};
