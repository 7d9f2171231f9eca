ghost use Rattle.std.specs.Prelude.{◌≡◌};
ghost use Rattle.flow_files.specs.BytesFault.{certificate_fault_name, check_fault_name};
ghost use Rattle.flow_files.specs.BytesFault.{flows_fault_name, is_out_of_memory, map_fault_name};
ghost use Rattle.flow_files.specs.BytesFault.{name_and_position, sum_fault_name, template_fault_name};

use cert_check::{CheckFault, CheckFaultKind};
use ipfix_read::{ReadFault, ReadFaultKind};
use ipfix_templates::TemplateFaultKind;
use pmap_cert::{CertFault, CertFaultKind};
use pmap_text::{MapFault, MapFaultKind};

/// Why the rows of a File can't be summed.
#[derive(Clone, Copy)]
pub enum SumFaultKind {
    /// S1: a data set was skipped, since no template was in force for it. Its records would be missing in the sums.
    SkippedSet,
    /// S2: the rows of all Files are too many to be counted.
    TooManyRows,
    /// S3: a row starts in a year after 9999.
    StartTooLate,
}

/// A fault of summing the rows of a File, with the offset in bytes of the message that has it.
#[derive(Clone, Copy)]
pub struct SumFault {
    pub kind: SumFaultKind,
    pub offset: u64,
}

/// A fault of the bytes of a file, or of a certificate for a map and a list.
#[derive(Clone, Copy)]
pub enum BytesFault {
    /// A fault of the text of a map.
    Map(MapFault),
    /// A fault of the text of a list.
    List(MapFault),
    /// A fault of the bytes of an IPFIX File.
    Flows(ReadFault),
    /// A fault of the text of a certificate.
    Certificate(CertFault),
    /// A fault of a certificate for the map and the list.
    Check(CheckFault),
    /// A fault of summing the rows of an IPFIX File.
    Sum(SumFault),
}

impl BytesFault {
    /// Returns whether the fault is out of memory, which says nothing about the bytes.
    pub fn is_out_of_memory(&self) -> bool
        ensures { result ≡ is_out_of_memory self.now }
    {
        match self {
            BytesFault::Map(fault) => fault.kind == MapFaultKind::NoMemory,
            BytesFault::List(fault) => fault.kind == MapFaultKind::NoMemory,
            BytesFault::Flows(fault) => fault.kind == ReadFaultKind::NoMemory,
            BytesFault::Certificate(fault) => fault.kind == CertFaultKind::NoMemory,
            BytesFault::Check(fault) => fault.kind == CheckFaultKind::NoMemory,
            BytesFault::Sum(_) => false,
        }
    }

    /// Returns the code and the name of the fault, as its line shows them, and its position: a line of a text, an
    /// offset in bytes into a File, or a node of a certificate.
    pub fn name_and_position(&self) -> (&'static str, u64)
        ensures name { result.0.now ≡ (name_and_position self.now).0 }
        ensures position { result.1 ≡ (name_and_position self.now).1 }
    {
        match self {
            BytesFault::Map(fault) | BytesFault::List(fault) => {
                (map_fault_name(fault.kind), fault.line)
            }
            BytesFault::Flows(fault) => (flows_fault_name(fault.kind), fault.offset),
            BytesFault::Certificate(fault) => (certificate_fault_name(fault.kind), fault.line),
            BytesFault::Check(fault) => (check_fault_name(fault.kind), fault.node),
            BytesFault::Sum(fault) => (sum_fault_name(fault.kind), fault.offset),
        }
    }
}

fn map_fault_name(kind: MapFaultKind) -> &'static str
    ensures { result.now ≡ map_fault_name kind }
{
    match kind {
        MapFaultKind::BadStatement => "M1 BadStatement",
        MapFaultKind::BadAddress => "M2 BadAddress",
        MapFaultKind::BadLength => "M3 BadLength",
        MapFaultKind::LowAboveHigh => "M4 LowAboveHigh",
        MapFaultKind::WrongVersion => "M5 WrongVersion",
        MapFaultKind::MissingLabel => "M6 MissingLabel",
        MapFaultKind::BadLabel => "M7 BadLabel",
        MapFaultKind::LabelConflict => "M8 LabelConflict",
        MapFaultKind::BadMode => "M9 BadMode",
        MapFaultKind::ModeLate => "M10 ModeLate",
        MapFaultKind::ModeRepeated => "M11 ModeRepeated",
        MapFaultKind::TooMany => "M12 TooMany",
        MapFaultKind::NotAList => "M13 NotAList",
        MapFaultKind::DuplicateBlock => "M14 DuplicateBlock",
        MapFaultKind::NoMemory => "M15 NoMemory",
    }
}

fn template_fault_name(kind: TemplateFaultKind) -> &'static str
    ensures { result.now ≡ template_fault_name kind }
{
    match kind {
        TemplateFaultKind::Truncated => "F6 BadTemplate X1",
        TemplateFaultKind::BadTemplateId => "F6 BadTemplate X2",
        TemplateFaultKind::BadScope => "F6 BadTemplate X3",
    }
}

fn flows_fault_name(kind: ReadFaultKind) -> &'static str
    ensures { result.now ≡ flows_fault_name kind }
{
    match kind {
        ReadFaultKind::TruncatedHeader => "F1 TruncatedHeader",
        ReadFaultKind::BadVersion => "F2 BadVersion",
        ReadFaultKind::BadMessageLength => "F3 BadMessageLength",
        ReadFaultKind::TruncatedMessage => "F4 TruncatedMessage",
        ReadFaultKind::BadSetLength => "F5 BadSetLength",
        ReadFaultKind::BadTemplate(kind) => template_fault_name(kind),
        ReadFaultKind::BadRecord => "F7 BadRecord",
        ReadFaultKind::ReadFault => "F8 ReadFault",
        ReadFaultKind::TooManyMessages => "F9 TooManyMessages",
        ReadFaultKind::NoMemory => "F10 NoMemory",
        ReadFaultKind::Failed => "F11 Failed",
    }
}

fn certificate_fault_name(kind: CertFaultKind) -> &'static str
    ensures { result.now ≡ certificate_fault_name kind }
{
    match kind {
        CertFaultKind::BadHeader => "C1 BadHeader",
        CertFaultKind::BadLabelTable => "C2 BadLabelTable",
        CertFaultKind::BadNode => "C3 BadNode",
        CertFaultKind::TooDeep => "C4 TooDeep",
        CertFaultKind::NodesMissing => "C5 NodesMissing",
        CertFaultKind::NodesLeft => "C6 NodesLeft",
        CertFaultKind::NoMemory => "C7 NoMemory",
    }
}

fn check_fault_name(kind: CheckFaultKind) -> &'static str
    ensures { result.now ≡ check_fault_name kind }
{
    match kind {
        CheckFaultKind::VersionDiffers => "K1 VersionDiffers",
        CheckFaultKind::LeafNotUniform => "K2 LeafNotUniform",
        CheckFaultKind::ListDiffers => "K3 ListDiffers",
        CheckFaultKind::SetTooSmall => "K4 SetTooSmall",
        CheckFaultKind::CostTooHigh => "K5 CostTooHigh",
        CheckFaultKind::BoundNotMet => "K6 BoundNotMet",
        CheckFaultKind::NoMemory => "K7 NoMemory",
    }
}

fn sum_fault_name(kind: SumFaultKind) -> &'static str
    ensures { result.now ≡ sum_fault_name kind }
{
    match kind {
        SumFaultKind::SkippedSet => "S1 SkippedSet",
        SumFaultKind::TooManyRows => "S2 TooManyRows",
        SumFaultKind::StartTooLate => "S3 StartTooLate",
    }
}
