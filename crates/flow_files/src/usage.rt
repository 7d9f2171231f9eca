ghost use Rattle.std.specs.Prelude.{◌≡◌};

use flow_filter::FilterFault;
use flow_uniq::KeyFault;
use std::alloc::AllocError;

/// A usage fault, or a request for help: the line has no command to run. Each program has some of these faults.
#[derive(Drop)]
pub enum UsageFault {
    /// P1: clap refuses the line, and this text says why.
    Refused(String),
    /// P1: a word of the line isn't UTF-8.
    NotUtf8,
    /// The line asks for help or for the version, which is this text.
    Help(String),
    /// P3: the line names both a map and a list.
    MapTwice,
    /// P2: the command needs a map or a list, and the line names neither.
    MapMissing,
    /// P4: the word ADDR is no address.
    BadAddress,
    /// L1 to L3: the text of a filter is malformed. L4, out of memory, is `NoMemory`.
    Filter(FilterFault),
    /// U1 and U2: the text of `--fields` has an unknown name, or a name twice. U3, out of memory, is `NoMemory`.
    Key(KeyFault),
    /// P5: a filter or a key needs labels, and the line names neither a map nor a list.
    LabelNeedsMap,
    /// P6: `--compact` is given without `--certificate`.
    CompactAlone,
    /// U4: the text of `--by` is no unit of time.
    Unit,
    /// P7: neither `--by` nor `--fields` is given.
    KeysMissing,
    /// An allocation failed.
    NoMemory,
}

impl From<AllocError> for UsageFault {
    ghost use Rattle.flow_files.specs.declared.usage.UsageFault.TheVariants.{NoMemory};

    ghost from_gives = { λ _ f. f ≡ NoMemory };

    fn from(_error: AllocError) -> UsageFault {
        UsageFault::NoMemory
    }
}
