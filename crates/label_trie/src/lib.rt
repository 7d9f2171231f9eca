//! A labelled binary trie over the addresses of one version.
//!
//! ```rust
//! use label_trie::Trie;
//! use pmap_text::read_map;
//!
//! // Two halves of the address space, and the node above them.
//! let map = read_map(alloc, b"0.0.0.0/1 A\n128.0.0.0/1 B\n")?;
//! let trie = Trie::build(alloc, &map)?;
//! assert!(rt; trie.node_count() == 3);
//! ```
//!
//! This crate uses prefix_keys (blocks), pmap_model (maps, prefix lists and label tables) and pmap_stretches (their
//! stretches). A trie halves the address space until each piece, a leaf, has one label or none. Callers may rely on
//! this: the leaves are blocks in ascending order that cover every address once. In the trie of a map, each leaf is
//! settled by the map and has the label that settles it, and no block that strictly contains a leaf is settled. So the
//! label that the trie gives an address is the map's. In the trie of a prefix list, no entry lies strictly inside a
//! leaf. Each leaf, and so each address, has the label of the longest entry that covers it, or none. A walk by cursors
//! from the root reaches these leaves, and in the trie of a map no block on the path is settled. The number of nodes is
//! at most one, plus four times the width for each statement of a map, or twice the width for each entry of a list.
//! Contracts see a trie as the list of its leaves and the list of its nodes. The numbers of nodes begin with 0 at the
//! root, and the halves of a block have greater numbers than the block. A trie stores its nodes in one vector.
#![tactic(auto)]

mod cursor;
mod leaf;
mod node;
mod trie;

pub use cursor::{Cursor, Parts};
pub use leaf::Leaf;
pub use node::TrieNode;
pub use trie::Trie;
