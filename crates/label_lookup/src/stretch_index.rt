ghost use Rattle.std.specs.Prelude.{◌≡◌, ◌+◌, ◌^◌, ◌<◌, ◌≤◌, IfOk, length};
ghost use Rattle.prefix_keys.specs.Block.{width_of};
ghost use Rattle.pmap_model.specs.MapText.{map_of};
ghost use Rattle.pmap_model.specs.PrefixList.{list_of};
ghost use Rattle.pmap_stretches.specs.Stretches.{HoldsAddress, first_at};
ghost use Rattle.label_lookup.specs.Labelling.{labelling_of_list, labelling_of_map, AreTops, labelling_of_stretches};

use crate::labeller::Labeller;
use crate::texts::text_at;
use pmap_model::{Labels, MapText, PrefixList};
use pmap_stretches::{Runs, Stretches};
use prefix_keys::{Addr, Version};
use std::alloc::{AllocError, Global};
use std::marker::Model;

// Addresses that share their first 16 bits form a block. There are 65536 blocks.
const BLOCK_BITS: u32 = 16;

const BLOCKS: usize = 65536;

/// The labels of a prefix map or a prefix list, found by a search in the stretches of addresses that have one label
/// each. A table gives for the first 16 bits of an address the stretches to search in, which are few for most
/// addresses.
#[derive(Drop)]
pub struct StretchIndex<'a> {
    labels: &'a Labels,
    stretches: Stretches,
    // For each block, the index of the stretch that has its first address, followed by the index of the last stretch.
    tops: Vec<usize>,
}

impl<'a> Model for StretchIndex<'a> {
    ghost use Rattle.label_lookup.specs.Labelling.{StretchModel, AreTops};

    ghost Value = { StretchModel };

    ghost view = { λ i. record { table = i.labels.now; stretches = i.stretches } };

    ghost invariant = { λ i. AreTops i.stretches i.tops.items };
}

impl<'a> StretchIndex<'a> {
    /// Builds the index of this map.
    pub fn of_map(alloc: Global, map: &'a MapText) -> Result<StretchIndex<'a>, AllocError>
        ensures { IfOk result (λ index. labelling_of_stretches index ≡ labelling_of_map (map_of map.now)) }
    {
        let runs = Runs::of_map(alloc, map)?;
        Ok(StretchIndex {
            labels: &map.labels,
            tops: tops_of(alloc, &runs.stretches)?,
            stretches: runs.stretches,
        })
    }

    /// Builds the index of this list.
    pub fn of_list(alloc: Global, list: &'a PrefixList) -> Result<StretchIndex<'a>, AllocError>
        ensures { IfOk result (λ index. labelling_of_stretches index ≡ labelling_of_list (list_of list.now)) }
    {
        let runs = Runs::of_list(alloc, list)?;
        Ok(StretchIndex {
            labels: &list.labels,
            tops: tops_of(alloc, &runs.stretches)?,
            stretches: runs.stretches,
        })
    }
}

impl<'a> Labeller for StretchIndex<'a> {
    ghost use Rattle.label_lookup.specs.Labelling.{labelling_of_stretches};

    ghost version_of = { λ m. m.stretches.version };

    ghost label = { λ m. (labelling_of_stretches m).label };

    fn version(&self) -> Version {
        self.stretches.version()
    }

    fn label_of(&self, addr: Addr) -> Option<&[u8]> {
        self.stretches.laws();
        let block = (addr.value >> (addr.version.width() - BLOCK_BITS)) as usize;
        let from = self.tops[block];
        let to = self.tops[block + 1];
        let index = self.stretches.find(from, to, addr.value);
        text_at(self.labels, &self.stretches, index)
    }
}

// Returns for each block the index of the stretch that has its first address, followed by the index of the last
// stretch.
fn tops_of(alloc: Global, stretches: &Stretches) -> Result<Vec<usize>, AllocError>
    ensures { IfOk result (λ tops. AreTops stretches.now tops.items) }
{
    stretches.laws();
    let last = stretches.len() - 1;
    let host_bits = stretches.version().width() - BLOCK_BITS;
    let mut tops = Vec::with_capacity(alloc, BLOCKS + 1)?;
    let mut index = 0;
    for block in 0..BLOCKS {
        index = holder_from(stretches, index, (block as u128) << host_bits);
        tops.push(index)?;
    }
    tops.push(last)?;
    Ok(tops)
}

// Returns the index of the stretch that has the address. The stretch must not be before the one with index `from`.
fn holder_from(stretches: &Stretches, from: usize, address: u128) -> usize
    requires from { from < length stretches.now.firsts }
    requires above { first_at stretches.now from ≤ address }
    requires within { address < 2 ^ width_of stretches.now.version }
    ensures { HoldsAddress stretches.now address result }
{
    stretches.laws();
    let mut index = from;
    while stretches.last(index) < address {
        index += 1;
    }
    index
}
