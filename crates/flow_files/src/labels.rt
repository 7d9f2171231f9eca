//! The labels of a map or a list.
ghost use Rattle.std.specs.Prelude.{◌≡◌, IfOk, Some, option_map};
ghost use Rattle.label_lookup.specs.Labelling.{labelling_of_stretches};
ghost use Rattle.flow_files.specs.Reports.{AreFresh, AreLabels, AreLabelsOf, AreOthersKept, labelling_read, table_read};

use crate::fault::RunFault;
use crate::inputs::Files;
use crate::label_file::LabelFile;
use crate::reading::{read_list, read_map};
use flow_io::Input;
use label_lookup::StretchIndex;
use pmap_model::{KeyHashing, Labels, MapText, PrefixList};
use std::alloc::{AllocError, Global};

/// A prefix map or a prefix list.
pub enum LabelsRead {
    Map(MapText),
    List(PrefixList),
}

// A drop is one call, so the proofs of functions that drop this type have one step instead of one for each part.
impl Drop for LabelsRead {
    fn drop(self) {
        match self {
            LabelsRead::Map(_) | LabelsRead::List(_) => {}
        }
    }
}

impl LabelsRead {
    /// Reads the map or the list that labels come from.
    pub fn of_file<'a, R: Input>(
        alloc: Global,
        labels: LabelFile<'_>,
        files: &mut Files<'a, R>,
        hashing: KeyHashing,
    ) -> Result<LabelsRead, RunFault<'a>>
        requires { AreFresh R.input files.old }
        ensures read { AreLabels R.input labels.entry files.old files.new result }
        ensures kept { AreOthersKept (Some labels.entry) files.old files.new }
    {
        match labels {
            LabelFile::Map(_) => Ok(LabelsRead::Map(read_map(alloc, &mut files.map, hashing)?)),
            LabelFile::List(_) => Ok(LabelsRead::List(read_list(alloc, &mut files.list, hashing)?)),
        }
    }

    /// Returns the table of the labels.
    pub fn table(&self) -> &Labels
        ensures { result.now ≡ table_read self.now }
    {
        match self {
            LabelsRead::Map(map) => &map.labels,
            LabelsRead::List(list) => &list.labels,
        }
    }

    // Returns the index of the labels.
    fn index(&self, alloc: Global) -> Result<StretchIndex<'_>, AllocError>
        ensures { IfOk result (λ index. labelling_of_stretches index ≡ labelling_read self.entry.now) }
    {
        match self {
            LabelsRead::Map(map) => StretchIndex::of_map(alloc, map),
            LabelsRead::List(list) => StretchIndex::of_list(alloc, list),
        }
    }
}

/// Reads the map or the list that labels come from, if there is one.
pub fn read_labels<'a, R: Input>(
    alloc: Global,
    source: Option<LabelFile<'_>>,
    files: &mut Files<'a, R>,
    hashing: KeyHashing,
) -> Result<Option<LabelsRead>, RunFault<'a>>
    requires { AreFresh R.input files.old }
    ensures read { AreLabelsOf R.input source.entry files.old files.new result }
    ensures kept { AreOthersKept source.entry files.old files.new }
{
    match source {
        Some(file) => Ok(Some(LabelsRead::of_file(alloc, file, files, hashing)?)),
        None => Ok(None),
    }
}

/// Returns the index of labels, if there are any.
pub fn index_of(
    alloc: Global,
    labels: &Option<LabelsRead>,
) -> Result<Option<StretchIndex<'_>>, AllocError>
    ensures { IfOk result (λ index.
        option_map labelling_of_stretches index ≡ option_map labelling_read labels.entry.now) }
{
    match labels {
        Some(labels) => Ok(Some(labels.index(alloc)?)),
        None => Ok(None),
    }
}
