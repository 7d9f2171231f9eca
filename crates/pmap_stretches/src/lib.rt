//! The stretches and runs of a prefix map or a prefix list: its addresses from the first to the last, in ranges with
//! one label or none.
//!
//! ```rust
//! use pmap_stretches::Runs;
//! use pmap_text::read_map;
//!
//! let map = read_map(alloc, b"0.0.0.0/1 A\n10.0.0.0/8 A\n11.0.0.0/8 B\n")?;
//! let runs = Runs::of_map(alloc, &map)?;
//! assert!(rt; runs.stretches.len() == 4);
//! ```
//!
//! A stretch is as long as possible with one statement or entry that gives its label, or none, and a run as long as
//! possible with one label or none. This crate uses `prefix_keys` (addresses and blocks) and `pmap_model` (maps and
//! lists). It reads no text, and prints none. Callers may rely on this: `Stretches::of_map` and `of_list` return all
//! stretches, in ascending order and without gaps, each with its label, and `Runs` the runs. A search returns the
//! stretch that has an address. The halves of a `Window`, which is a block with its stretches, are windows too.
//!
//! No contract says how many stretches there are, or how long it takes to find them. The code sorts the `m` statements
//! of a map by their first addresses, unless they are in this order, and sweeps over them once with a heap of those
//! that may go on. That is O(m log m) steps. A stretch begins at address 0, where a statement begins, or after one
//! ends, so there are at most `2 * m + 1`.
#![tactic(auto)]

mod laws;
mod runs;
mod stretches;

pub use laws::{
    block_is_settled_in_one_stretch, labelling_has_its_runs, labelling_has_one_runs_text,
    runs_cover_each_address_once,
};
pub use runs::Runs;
pub use stretches::Stretches;
pub use stretches::window::Window;
