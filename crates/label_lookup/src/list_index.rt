ghost use Rattle.std.specs.Prelude.{◌≡◌, IfOk};
ghost use Rattle.pmap_model.specs.PrefixList.{list_of};

use crate::labeller::Labeller;
use crate::texts::text_at;
use pmap_model::PrefixList;
use pmap_stretches::{Runs, Stretches};
use prefix_keys::{Addr, Version};
use std::alloc::{AllocError, Global};
use std::marker::Model;

/// The labels of a prefix list under longest match, found by a search in its runs, the stretches of addresses that have
/// one label each. For many look-ups a [`StretchIndex`](crate::StretchIndex) is faster, but it takes longer to build.
#[derive(Drop)]
pub struct ListIndex<'a> {
    list: &'a PrefixList,
    stretches: Stretches,
}

impl<'a> Model for ListIndex<'a> {
    ghost use Rattle.std.specs.Prelude.{◌≡◌};
    ghost use Rattle.pmap_model.specs.ListModel.{ListModel};

    ghost Value = { ListModel };

    ghost use Rattle.pmap_model.specs.PrefixList.{list_of};
    ghost use Rattle.label_lookup.specs.Labelling.{labelling_of_list, labelling_of_stretches};

    ghost view = { λ i. list_of i.list.now };

    ghost invariant = { λ i. labelling_of_stretches (record { table = i.list.now.labels; stretches = i.stretches })
        ≡ labelling_of_list (list_of i.list.now) };
}

impl<'a> ListIndex<'a> {
    /// Builds the index of this list.
    pub fn build(alloc: Global, list: &'a PrefixList) -> Result<ListIndex<'a>, AllocError>
        ensures { IfOk result (λ index. index ≡ list_of list.now) }
    {
        let runs = Runs::of_list(alloc, list)?;
        Ok(ListIndex {
            list,
            stretches: runs.stretches,
        })
    }
}

impl<'a> Labeller for ListIndex<'a> {
    ghost use Rattle.pmap_model.specs.ListModel.{list_label};

    ghost version_of = { λ l. l.version };

    ghost label = { list_label };

    fn version(&self) -> Version {
        self.list.version
    }

    fn label_of(&self, addr: Addr) -> Option<&[u8]> {
        self.stretches.laws();
        let index = self.stretches.find_near(0, addr.value);
        text_at(&self.list.labels, &self.stretches, index)
    }
}
