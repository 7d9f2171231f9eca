ghost use Rattle.std.specs.Prelude.{IfOk};
ghost use Rattle.cert_check.specs.Inner.{HasKnownLabels, IsOfList, IsOfMap};

use pmap_model::{Labels, MapText, PrefixList};
use pmap_stretches::Stretches;
use std::alloc::{AllocError, Global};

/// What a check needs of a map or of a list: the stretches, the table of their labels, and the number of statements or
/// entries, which aren't stored.
pub struct Swept {
    pub stretches: Stretches,
    pub labels: Labels,
    pub count: usize,
}

// A drop is one call, so the proofs of functions that drop this type have one step instead of one for each part.
impl Drop for Swept {
    fn drop(self) {
        let Swept {
            stretches: _,
            labels: _,
            count: _,
        } = self;
    }
}

impl Swept {
    /// Returns what a check needs of a map, and frees the map's statements.
    pub fn of_map(alloc: Global, map: MapText) -> Result<Swept, AllocError>
        ensures map { IfOk result (IsOfMap map) }
        ensures known { IfOk result HasKnownLabels }
    {
        let stretches = Stretches::of_map(alloc, &map)?;
        Ok(Swept {
            stretches,
            count: map.statements.len(),
            labels: map.labels,
        })
    }

    /// Returns what a check needs of a list, and frees the list's entries.
    pub fn of_list(alloc: Global, list: PrefixList) -> Result<Swept, AllocError>
        ensures list { IfOk result (IsOfList list) }
        ensures known { IfOk result HasKnownLabels }
    {
        let stretches = Stretches::of_list(alloc, &list)?;
        Ok(Swept {
            stretches,
            count: list.entries.len(),
            labels: list.labels,
        })
    }

    /// Like [`Swept::of_map`], but copies the labels of a map that is kept.
    pub(crate) fn copied_from_map(alloc: Global, map: &MapText) -> Result<Swept, AllocError>
        ensures map { IfOk result (IsOfMap map.now) }
        ensures known { IfOk result HasKnownLabels }
    {
        let stretches = Stretches::of_map(alloc, map)?;
        let labels = map.labels.copy()?;
        Ok(Swept {
            stretches,
            labels,
            count: map.statements.len(),
        })
    }

    /// Like [`Swept::of_list`], but copies the labels of a list that is kept.
    pub(crate) fn copied_from_list(alloc: Global, list: &PrefixList) -> Result<Swept, AllocError>
        ensures list { IfOk result (IsOfList list.now) }
        ensures known { IfOk result HasKnownLabels }
    {
        let stretches = Stretches::of_list(alloc, list)?;
        let labels = list.labels.copy()?;
        Ok(Swept {
            stretches,
            labels,
            count: list.entries.len(),
        })
    }
}
