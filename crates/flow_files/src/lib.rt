//! The files that programs over IPFIX Files read: opening them, reading the labels of a map or a list, the messages of
//! a File one by one and its rows that pass a filter, the faults of all these, and the options that name them.
//!
//! A program gives `add_messages` what takes each message with its offset (`TakesMessages`), or `read_rows` what takes
//! each row (`TakesRows`). Rely on their contracts: what was taken are exactly the messages of the File whose bytes the
//! reads returned, or the first fault of those bytes is returned. A device fault comes exactly from a failed device.
//! `fault_line` and `end` get the name of the program.
#![tactic(auto)]

mod by_file;
mod bytes_fault;
mod definition;
mod ending;
mod fault;
mod filtered;
mod groups;
mod inputs;
mod label_file;
mod labels;
mod laws;
mod messages;
mod opening;
mod printing;
mod reading;
mod usage;
mod words;

pub use by_file::ByFile;
pub use bytes_fault::{BytesFault, SumFault, SumFaultKind};
pub use definition::{Argument, FILTERS, SOURCES, Subcommand, program_of, with_subcommands};
pub use ending::end;
pub use fault::{RunFault, fault_line, status};
pub use filtered::{Filtered, TakesRows, add_rows, read_rows};
pub use inputs::{Files, Source};
pub use label_file::{LabelFile, files_named};
pub use labels::{LabelsRead, index_of, read_labels};
pub use laws::{
    answered_words_are_taken, shared_arguments, subcommands_are_added, uniq_prints_groups,
};
pub use messages::{TakesMessages, add_messages};
pub use opening::{Opener, open_all, open_source};
pub use printing::print_to;
pub use reading::{read, read_certificate, read_list, read_map};
pub use usage::UsageFault;
pub use words::{
    fault_of_error, filter_in, first_text, is_given, keys_in, labels_in, listed, needed_text,
    read_keys, whole_filter_in, words_fault,
};
