//! Groups of flow rows by their fields, with totals.
//!
//! ```rust
//! use flow_uniq::{Groups, Keys};
//! use label_lookup::Scan;
//!
//! // `row` is a row of flow_rows, and no label is needed.
//! let keys = Keys::read("sip,proto")?;
//! let mut groups = Groups::new(alloc, &keys)?;
//! groups.add(&row, None::<&Scan<'_>>)?;
//! assert!(rt; groups.group_count() == 1);
//! ```
//!
//! This crate uses flow_rows (rows) and label_lookup (the labels of their addresses). `Keys` are the fields by which
//! rows are grouped. `Groups` has a group for each key, with its totals. A `Key` is stored as bytes, and borrowed as
//! the list of its parts. Callers may rely on this: a text is read if and only if its items name distinct fields. After
//! one more row the groups are those of all rows so far. If an allocation fails, the groups are unchanged. Sorted
//! groups are in the order of their keys.
#![tactic(auto)]

mod codec;
mod fault;
mod field;
mod groups;
mod keys;
mod laws;
mod recent;

pub use codec::{Key, KeyPart};
pub use fault::KeyFault;
pub use field::{ALL_FIELDS, KeyField, MANY_FIELDS, Precision, TimeUnit};
pub use groups::{Group, Groups, Totals};
pub use keys::Keys;
pub use laws::{
    groups_divide_the_rows, merged_groups_divide_the_rows, rows_are_grouped_by_fields,
    sorted_groups_are_in_order,
};
