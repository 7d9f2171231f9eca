//! The conditions that filters state on flow rows.
//!
//! ```rust
//! use flow_filter::{ALL_OPTIONS, Filter, FilterOption, FilterWords};
//! use flow_rows::Number;
//! use label_lookup::Scan;
//!
//! // `row` is a row of flow_rows.
//! let protocols = |option| if option == FilterOption::Number(Number::Protocol) { Some("6,17") } else { None };
//! let words = FilterWords { texts: ALL_OPTIONS.map(protocols) };
//! let filter = Filter::read(alloc, &words).expect(&rt, "a filter");
//! let passes = filter.passes(&row, None::<&Scan<'_>>);
//! assert!(rt; passes == (row.protocol() == 6 || row.protocol() == 17));
//! ```
//!
//! This crate uses flow_rows (rows), label_lookup (the labels of their addresses) and prefix_keys (addresses and
//! blocks). `Filter::read` reads the texts of the options once. Callers may rely on this: a filter is read if and only
//! if each text given is well formed, and otherwise the fault is that of the first malformed text, in the order of the
//! options. `passes` returns whether the row meets each condition given. `needs_map` returns whether a condition is on
//! a label. Contracts see a filter as its condition: the options given, each with its text. How the numbers that a text
//! allows are stored is private. `passes` allocates nothing.
#![tactic(auto)]

mod fault;
mod filter;
mod items;
mod laws;
mod option;
mod ranges;

pub use fault::{FilterFault, FilterFaultKind};
pub use filter::{Filter, FilterWords};
pub use laws::options_hold_together;
pub use option::{ALL_OPTIONS, FilterOption, MANY_OPTIONS};
