ghost use Rattle.std.specs.Prelude.{◌≡◌, ℕ, ◌^◌, ◌<◌, Some, IfOk, length};
ghost use Rattle.prefix_keys.specs.Block.{width_of};
ghost use Rattle.pmap_model.specs.ListModel.{list_label};
ghost use Rattle.pmap_model.specs.MapModel.{map_label};
ghost use Rattle.pmap_model.specs.MapText.{map_of};
ghost use Rattle.pmap_model.specs.PrefixList.{list_of};
ghost use Rattle.pmap_stretches.specs.Stretches.{AreJoined, AreLabelsBelow, AreRunsOf, text_held};

use crate::stretches::Stretches;
use pmap_model::{MapText, PrefixList};
use std::alloc::{AllocError, Global};

/// The runs of a map or a list: its stretches, with neighbours with the same label or none joined.
#[derive(Drop)]
pub struct Runs {
    pub stretches: Stretches,
    ghost joined: { AreJoined stretches },
}

impl Runs {
    /// Returns the runs of a map.
    pub fn of_map(alloc: Global, map: &MapText) -> Result<Runs, AllocError>
        ensures version { IfOk result (λ r. r.stretches.version ≡ map.now.version) }
        ensures runs { IfOk result (λ r. AreRunsOf map.now.statements r.stretches) }
        ensures known { IfOk result (λ r. AreLabelsBelow (length map.now.labels) r.stretches) }
        ensures labels { IfOk result (λ r. (a : ℕ) → a < 2 ^ width_of map.now.version →
            text_held map.now.labels r.stretches a ≡ Some (map_label (map_of map.now) a)) }
    {
        let stretches = Stretches::swept_of_map(alloc, map, true)?;
        Ok(Runs { stretches })
    }

    /// Returns the runs of a prefix list.
    pub fn of_list(alloc: Global, list: &PrefixList) -> Result<Runs, AllocError>
        ensures version { IfOk result (λ r. r.stretches.version ≡ list.now.version) }
        ensures known { IfOk result (λ r. AreLabelsBelow (length list.now.labels) r.stretches) }
        ensures labels { IfOk result (λ r. (a : ℕ) → a < 2 ^ width_of list.now.version →
            text_held list.now.labels r.stretches a ≡ list_label (list_of list.now) a) }
    {
        let stretches = Stretches::swept_of_list(alloc, list, true)?;
        Ok(Runs { stretches })
    }
}
