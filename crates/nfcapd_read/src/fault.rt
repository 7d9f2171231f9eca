use thiserror::Error;

/// What is wrong with a file of nfcapd.
#[derive(Clone, Copy, Debug, PartialEq, Eq)]
pub enum FlowFileFaultKind {
    /// N1: The layout isn't version 2.
    OtherLayout,
    /// N2: The blocks are compressed.
    Compressed,
    /// N3: The blocks are encrypted.
    Encrypted,
    /// N4: The file has no appendix: nfcapd is still writing it, or was killed.
    Unfinished,
    /// N5: The type of a block isn't 3, or its records don't fill it.
    BadBlock,
    /// N6: The appendix isn't at the offset that the header has.
    BadAppendix,
    /// N7: A record is too short, or extends beyond its block, or its elements don't fill it or have another length.
    BadRecord,
    /// N8: A record of nfdump 1.6.
    OldRecord,
    /// N9: A record has an element twice.
    RepeatedElement,
    /// N10: A flow has no addresses or no counts.
    BadFlow,
    /// N11: A flow was sampled: nfcapd has multiplied its counts.
    Sampled,
    /// N12: The appendix has no totals, or others than those of the flows.
    TotalsDiffer,
    /// N13: Bytes follow the appendix.
    BytesLeft,
    /// N14: The file ends too early.
    Truncated,
}

/// The first fault of a file of nfcapd, with the offset in bytes of the header, block or record that has it.
#[derive(Clone, Copy, Debug, PartialEq, Eq, Error)]
#[error("a fault in a file of nfcapd")]
pub struct FlowFileFault {
    pub kind: FlowFileFaultKind,
    pub offset: u64,
}
