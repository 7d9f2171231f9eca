//! Files of nfcapd (nfdump 1.7, file layout 2, not compressed), as the IPFIX Files that they represent.
//!
//! `open_text` reads a file whole, checks it against its totals, and returns the IPFIX File of its flows in memory, or
//! the first fault with its offset. If the text is no file of nfcapd, two bytes were read, and `Rejoined` returns them
//! again before those that follow.
#![tactic(auto)]

mod encode;
mod fault;
mod file;
mod flow;
mod pending;
mod reading;
mod rejoined;

pub use fault::{FlowFileFault, FlowFileFaultKind};
pub use file::{Found, Stop, open_text};
pub use rejoined::Rejoined;
