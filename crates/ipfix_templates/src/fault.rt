ghost use Rattle.std.specs.Prelude.{◌≡◌};
ghost use Rattle.ipfix_templates.specs.Reading.{Malformed, NoMemory};

use std::alloc::AllocError;
use thiserror::Error;

/// The kind of a fault in a template record.
#[derive(Clone, Copy, Debug, PartialEq, Eq)]
pub enum TemplateFaultKind {
    /// A part of the record is missing.
    Truncated,
    /// The template ID is below 256, and the record does not withdraw all templates of the set's kind.
    BadTemplateId,
    /// An options template has no scope field, or more scope fields than fields (RFC 7011 section 3.4.2.2).
    BadScope,
}

impl TemplateFaultKind {
    /// Returns the fault of this kind of the template record at an offset.
    pub(crate) fn at(self, offset: u64) -> TemplateFault
        ensures { result ≡ Malformed self offset }
    {
        TemplateFault::Malformed(self, offset)
    }
}

/// The reason why a template set could not be read.
#[derive(Clone, Copy, Debug, PartialEq, Eq, Error)]
pub enum TemplateFault {
    /// The first malformed template record: its fault, and its offset in bytes from the end of the set's header.
    #[error("{0:?} at {1}")]
    Malformed(TemplateFaultKind, u64),
    /// An allocation failed.
    #[error("out of memory")]
    NoMemory,
}

impl From<AllocError> for TemplateFault {
    ghost from_gives = { λ _ fault. fault ≡ NoMemory };

    fn from(_error: AllocError) -> TemplateFault {
        TemplateFault::NoMemory
    }
}
