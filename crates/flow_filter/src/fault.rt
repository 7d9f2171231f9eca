use crate::option::FilterOption;
use thiserror::Error;

/// The reason why the text of an option can't be read.
#[derive(Clone, Copy, Debug, PartialEq, Eq)]
pub enum FilterFaultKind {
    /// The text is not a list of numbers and ranges.
    BadNumberList,
    /// The text is not a number or a range.
    BadRange,
    /// The text is not a list of addresses and blocks.
    BadBlock,
    /// An allocation failed.
    NoMemory,
}

/// The option whose text can't be read, and the reason.
#[derive(Clone, Copy, Debug, PartialEq, Eq, Error)]
#[error("{option:?}: {kind:?}")]
pub struct FilterFault {
    pub option: FilterOption,
    pub kind: FilterFaultKind,
}
