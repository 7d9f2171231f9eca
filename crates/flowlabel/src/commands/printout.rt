//! What a command prints.
use flow_files::LabelsRead;
use flow_uniq::Groups;
use pmap_cert::Certificate;
use pmap_model::PrefixList;
use pmap_print::Table;
use pmap_stretches::Runs;

/// The output of a command, before it is printed.
#[derive(Drop)]
pub enum Printout {
    /// A text.
    Text(Vec<u8>),
    /// A table of rows.
    Table(Table),
    /// Groups, which are sorted or in the order of their first rows, and padded to columns if `columns`.
    Groups {
        groups: Groups,
        sorted: bool,
        columns: bool,
    },
    /// The runs of a map or a list.
    Runs {
        runs: Runs,
        labels: LabelsRead,
    },
    /// A prefix list.
    List(PrefixList),
    /// A certificate.
    Certificate(Certificate),
    /// A certificate, to be printed compacted.
    Compact(Certificate),
    /// A compact certificate, to be printed with its chains opened.
    Opened(Certificate),
}
