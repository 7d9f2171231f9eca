//! The independent checker: whether a certificate shows that a prefix list is equivalent to a map and a shortest one.
//!
//! ```rust
//! use cert_check::check;
//! use pmap_cert::read_cert;
//! use pmap_text::{read_list, read_map};
//!
//! let map = read_map(alloc, b"0.0.0.0/1 A\n128.0.0.0/1 B\n")?;
//! let list = read_list(alloc, b"0.0.0.0/0 A\n128.0.0.0/1 B\n")?;
//! let certificate = read_cert(alloc, b"flowlabel-cert 1 ipv4 3\nA\nB\nUNKNOWN\nn 1 0 1\nl 0\nl 1\n")?;
//! assert!(rt; check(alloc, &map, &list, &certificate)? == 2);
//! ```
//!
//! It depends on prefix_keys (blocks), pmap_model (maps and prefix lists), pmap_stretches (their stretches) and
//! pmap_cert (certificates and the law that an accepted one is enough), and knows neither the trie nor the minimiser.
//! The layer above may rely on this: `check` returns the number of entries exactly if the certificate is accepted for
//! the map and the list, and then the list labels every address as the map does and no list that does so has fewer
//! entries. Otherwise it returns the first fault with the number of its node. `check_text` does the same for a
//! certificate's text while it reads the text, and stores no node: a fault of the text comes first. It needs no
//! statement and no entry, only what `Swept` has of a map and of a list. `carried` and `carried_entries` return the
//! statements and entries that affect a block.
#![tactic(auto)]

mod carrying;
mod checking;
mod claims;
mod fault;
mod labels;
mod laws;
mod source;
mod sources;
mod swept;
mod walk;

pub use carrying::{carried, carried_entries};
pub use checking::{check, check_text};
pub use fault::{CheckFault, CheckFaultKind, TextFault};
pub use laws::no_fault_is_acceptance;
pub use swept::Swept;
