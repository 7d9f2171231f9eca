use thiserror::Error;

/// The kind of a fault in a line of a map text or a list text.
#[derive(Clone, Copy, Debug, PartialEq, Eq, Error)]
pub enum MapFaultKind {
    /// No statement begins with this word.
    #[error("no statement begins with this word")]
    BadStatement,
    /// Not an address.
    #[error("bad address")]
    BadAddress,
    /// Not the length of a block.
    #[error("bad block length")]
    BadLength,
    /// The low address is above the high one.
    #[error("the low address is above the high one")]
    LowAboveHigh,
    /// An address of the other version.
    #[error("an address of the other version")]
    WrongVersion,
    /// No label.
    #[error("missing label")]
    MissingLabel,
    /// Not a label.
    #[error("bad label")]
    BadLabel,
    /// A label number with two texts, or a text with two numbers.
    #[error("a label number with two texts, or a text with two numbers")]
    LabelConflict,
    /// Not a mode.
    #[error("bad mode")]
    BadMode,
    /// A mode after a mapping.
    #[error("a mode after a mapping")]
    ModeLate,
    /// A second mode.
    #[error("a second mode")]
    ModeRepeated,
    /// Too many mappings or labels.
    #[error("too many mappings or labels")]
    TooMany,
    /// Not a statement of a list.
    #[error("not a statement of a list")]
    NotAList,
    /// A block that has a label already.
    #[error("a block that has a label already")]
    DuplicateBlock,
    /// An allocation failed.
    #[error("out of memory")]
    NoMemory,
}

/// The first fault of a text: its kind, and its line, counted from 1. The line is 0 if an allocation failed.
#[derive(Clone, Copy, Debug, PartialEq, Eq, Error)]
#[error("line {line}: {kind}")]
pub struct MapFault {
    pub kind: MapFaultKind,
    pub line: u64,
}
