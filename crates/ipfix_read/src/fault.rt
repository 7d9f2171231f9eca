ghost use Rattle.std.specs.Prelude.{◌≡◌};
ghost use Rattle.ipfix_read.specs.Fault.{out_of_memory};
ghost use Rattle.ipfix_read.specs.declared.fault.ReadFaultKind.TheVariants.{ReadFault as Unread};

use flow_io::DeviceFault;
use ipfix_templates::TemplateFaultKind;
use std::alloc::AllocError;
use thiserror::Error;

/// The kind of a fault in a File, or the reason why a message could not be read.
#[derive(Clone, Copy, Debug, PartialEq, Eq)]
pub enum ReadFaultKind {
    /// Fewer bytes are left than a message header has (RFC 7011 section 3.1).
    TruncatedHeader,
    /// The version is not 10.
    BadVersion,
    /// The message's length is less than that of its header.
    BadMessageLength,
    /// The message extends beyond the end of the File.
    TruncatedMessage,
    /// A set's header or length extends beyond the end of its message, or the length is less than that of the header
    /// (RFC 7011 section 3.3.2).
    BadSetLength,
    /// A template record is malformed.
    BadTemplate(TemplateFaultKind),
    /// A data record extends beyond the end of its set.
    BadRecord,
    /// The reader failed. `read_file` never returns this.
    ReadFault,
    /// The File has more than 4,294,967,295 messages.
    TooManyMessages,
    /// An allocation failed.
    NoMemory,
    /// An earlier call for a message failed. `read_file` never returns this.
    Failed,
}

impl ReadFaultKind {
    /// Returns the fault of this kind at an offset in the File.
    pub(crate) fn at(self, offset: u64) -> ReadFault
        ensures { result ≡ record { kind = self; offset = offset } }
    {
        ReadFault { kind: self, offset }
    }
}

impl From<DeviceFault> for ReadFaultKind {
    ghost from_gives = { λ _ kind. kind ≡ Unread };

    fn from(_fault: DeviceFault) -> ReadFaultKind {
        ReadFaultKind::ReadFault
    }
}

/// The first fault of a File.
#[derive(Clone, Copy, Debug, PartialEq, Eq, Error)]
#[error("{kind:?} at {offset}")]
pub struct ReadFault {
    /// The kind of the fault.
    pub kind: ReadFaultKind,
    /// The offset in bytes of the invalid part from the beginning of the File: of the message, the set, the template
    /// record or the data record. If the reader failed, it is the offset of the message that was being read. It is 0 if
    /// an allocation failed or an earlier call failed.
    pub offset: u64,
}

impl From<AllocError> for ReadFault {
    ghost from_gives = { λ _ fault. fault ≡ out_of_memory };

    fn from(_error: AllocError) -> ReadFault {
        ReadFaultKind::NoMemory.at(0)
    }
}
