//! Certificates that show that a prefix list is a shortest one for its map, and laws about them.
//!
//! ```rust
//! use pmap_cert::{read_cert, write_cert};
//!
//! // The certificate of the map without a mapping: one leaf, whose label is UNKNOWN.
//! let text = b"flowlabel-cert 1 ipv4 1\nUNKNOWN\nl 0\n".as_slice();
//! let certificate = read_cert(alloc, text)?;
//! let written = write_cert(alloc, &certificate)?;
//! assert!(rt; written.as_slice() == text);
//! ```
//!
//! A certificate is a binary tree over the address space. Each inner node claims a cost and a set of labels, from which
//! a checker sees that no list that labels every address as the map does is shorter than the given one. The crate
//! depends on prefix_keys (blocks), pmap_model (maps, prefix lists and their labels), pmap_text (its
//! definitions of how texts are read, which laws cite) and flow_io (what texts are printed into). A `Certificate`, a
//! `CompactText` and an `OpenedText` can be printed while they are written.
//!
//! The minimiser and the checker may rely on these laws: an accepted certificate shows that its list is equivalent and
//! that no equivalent list is shorter; each map has a minimal pair of a list and a certificate that is accepted; a
//! map has at most one minimal pair; a map read from a text has one whose certificate has a text; and the printed text
//! of a list is read back, so that the certificate of a minimal pair is accepted for the list that is read. The type
//! `Certificate` ensures that labels are in the table, that the numbers of each set ascend, that no node is deeper than
//! an address has bits, and that format 1 has no chain. `write_cert` writes the one text of a certificate of either
//! format. `read_cert` reads exactly these texts, and reports the first fault of any other. `compact` replaces spines,
//! paths of inner nodes beside leaves of one label, by chains; if the certificate is accepted, so is the result.
#![tactic(auto)]

mod certificate;
mod certificate_reading;
mod chain_laws;
mod compacting;
mod cursor;
mod fault;
mod format;
mod header;
mod laws;
mod lines;
mod list_laws;
mod node;
mod node_line;
mod nodes;
mod opened;
mod packed;
mod path;
mod root;
mod writing;

pub use certificate::Certificate;
pub use certificate_reading::{Head, read_cert, read_cert_with_hashing, read_head};
pub use chain_laws::{
    chain_claim_is_bit_by_bit, compact_gives_back_equal, compact_has_a_text,
    compact_has_no_more_lines, compact_keeps_acceptance, compact_opens_to_the_same,
    compacting_is_by_longest_spines, opened_is_accepted, text_of_format_is_read_or_has_a_fault,
};
pub use compacting::{CompactText, compact};
pub use cursor::Cursor;
pub use fault::{CertFault, CertFaultKind};
pub use format::Format;
pub use laws::{
    acceptance_is_enough, exact_claim_is_of_sets, map_text_has_a_minimal_pair,
    map_text_has_its_labels, minimal_list_is_in_order, minimal_pair_exists,
    minimal_pair_is_accepted, minimal_pair_is_unique,
};
pub use lines::Lines;
pub use list_laws::{
    minimal_list_can_be_read_again, printed_list_is_read_back, printed_order_is_one,
};
pub use node::{Claim, Node, has_label};
pub use node_line::{LineLimits, NodeBuffer};
pub use nodes::Nodes;
pub use opened::OpenedText;
pub use path::Path;
pub use root::Root;
pub use writing::write_cert;
