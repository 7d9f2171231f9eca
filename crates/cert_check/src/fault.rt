ghost use Rattle.std.specs.Prelude.{◌≡◌};
ghost use Rattle.cert_check.specs.declared.fault.CheckFaultKind.TheVariants.{NoMemory};
ghost use Rattle.pmap_cert.specs.declared.fault.CertFaultKind.TheVariants.{NoMemory as NoMemoryForText};
ghost use Rattle.cert_check.specs.declared.fault.TextFault.TheVariants.{Certificate};

use pmap_cert::CertFault;
use std::alloc::AllocError;
use thiserror::Error;

/// Why a certificate is not accepted for a map and a prefix list.
#[derive(Clone, Copy, Debug, PartialEq, Eq, Error)]
pub enum CheckFaultKind {
    /// The map, the list and the certificate aren't of one version.
    #[error("the map, the list and the certificate aren't of one version")]
    VersionDiffers,
    /// The map doesn't settle the block of a leaf with its label.
    #[error("the map doesn't settle the block with the leaf's label")]
    LeafNotUniform,
    /// The list doesn't settle the block of a leaf with its label.
    #[error("the list doesn't settle the block with the leaf's label")]
    ListDiffers,
    /// A set lacks a label of the sets below.
    #[error("the set lacks a label of the exact set")]
    SetTooSmall,
    /// A cost is above those below.
    #[error("the cost is above the exact cost")]
    CostTooHigh,
    /// The list has more entries than the certificate's cost and one.
    #[error("the list has more entries than the root's cost plus one")]
    BoundNotMet,
    /// An allocation failed.
    #[error("out of memory")]
    NoMemory,
}

/// The first fault of a certificate: its kind, and the number of the node, from 1 in the order of the certificate's
/// node lines. A fault of no single node, such as `NoMemory`, has the number 0.
#[derive(Clone, Copy, Debug, PartialEq, Eq, Error)]
#[error("node {node}: {kind}")]
pub struct CheckFault {
    pub kind: CheckFaultKind,
    pub node: u64,
}

impl From<AllocError> for CheckFault {
    ghost from_gives = { λ _ fault. fault ≡ record { kind = NoMemory; node = 0 } };

    fn from(_error: AllocError) -> CheckFault {
        CheckFault {
            kind: CheckFaultKind::NoMemory,
            node: 0,
        }
    }
}

/// The first fault of the text of a certificate, or of the certificate. Out of memory is a fault of the text.
#[derive(Clone, Copy, Debug, PartialEq, Eq, Error)]
pub enum TextFault {
    #[error(transparent)]
    Certificate(CertFault),
    #[error(transparent)]
    Check(CheckFault),
}

impl From<CertFault> for TextFault {
    ghost from_gives = { λ fault text. text ≡ Certificate fault };

    fn from(fault: CertFault) -> TextFault {
        TextFault::Certificate(fault)
    }
}

impl From<AllocError> for TextFault {
    ghost from_gives = { λ _ text. text ≡ Certificate (record { kind = NoMemoryForText; line = 0 }) };

    fn from(error: AllocError) -> TextFault {
        TextFault::Certificate(CertFault::from(error))
    }
}
