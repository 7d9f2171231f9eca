ghost use Rattle.std.specs.Prelude.{◌≡◌};
ghost use Rattle.pmap_cert.specs.declared.fault.CertFaultKind.TheVariants.{NoMemory};

use std::alloc::AllocError;
use thiserror::Error;

/// The kind of a fault of a certificate's text.
#[derive(Clone, Copy, Debug, PartialEq, Eq, Error)]
pub enum CertFaultKind {
    /// Not a header of a certificate.
    #[error("bad header")]
    BadHeader,
    /// Not a label, or a label that the table has already.
    #[error("bad, repeated or missing label")]
    BadLabelTable,
    /// Not a line of a node.
    #[error("bad node")]
    BadNode,
    /// An inner node or a chain halves a block of one address.
    #[error("a node halves a block of one address")]
    TooDeep,
    /// A node is missing.
    #[error("missing node")]
    NodesMissing,
    /// More than the last node.
    #[error("text after the last node")]
    NodesLeft,
    /// An allocation failed.
    #[error("out of memory")]
    NoMemory,
}

/// The first fault of a text: its kind and its line, counted from 1. `NoMemory` has line 0.
#[derive(Clone, Copy, Debug, PartialEq, Eq, Error)]
#[error("line {line}: {kind}")]
pub struct CertFault {
    pub kind: CertFaultKind,
    pub line: u64,
}

impl From<AllocError> for CertFault {
    ghost from_gives = { λ _ fault. fault ≡ record { kind = NoMemory; line = 0 } };

    fn from(_error: AllocError) -> CertFault {
        CertFault {
            kind: CertFaultKind::NoMemory,
            line: 0,
        }
    }
}
