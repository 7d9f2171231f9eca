//! What a certificate is checked against.
ghost use Rattle.std.specs.Prelude.{◌≡◌, ℕ, ◌^◌, ◌+◌, ◌<◌, ◌≤◌, IfOk, IfSome, IsNone, IsTrue, length};
ghost use Rattle.prefix_keys.specs.Block.{last_of, width_of};
ghost use Rattle.prefix_keys.specs.declared.block.Block.{Block};
ghost use Rattle.pmap_model.specs.MapText.{map_of, text_at};
ghost use Rattle.pmap_model.specs.PrefixList.{list_of, number_of_block as number_of};
ghost use Rattle.pmap_cert.specs.CertificateModel.{chosen_half, side_half};
ghost use Rattle.pmap_cert.specs.Packed.{bits_in};
ghost use Rattle.pmap_cert.specs.Paths.{LeadsTo};
ghost use Rattle.cert_check.specs.Checking.{leaf_fault as leaf_fault_of};
ghost use Rattle.cert_check.specs.Inner.{AreOf, AreSources, HasKnownLabels, IsClear, IsHalfNumbered};
ghost use Rattle.cert_check.specs.Inner.{IsOfList, IsOfMap, IsRangeOf, Origin, sides_fault as sides_fault_of};

use crate::fault::CheckFaultKind;
use crate::source::Source;
use crate::swept::Swept;
use pmap_cert::{LineLimits, Path};
use pmap_model::LabelId;
use prefix_keys::{Block, Version};
use std::alloc::{AllocError, Global};

/// The input of a check: the stretches of a map and of a list of one version, the number of the list's entries, and the
/// limits of the certificate's node lines.
#[derive(Drop)]
pub struct Sources<'a> {
    pub version: Version,
    pub count: usize,
    pub limits: LineLimits<'a>,
    pub of_map: Source<'a>,
    pub of_list: Source<'a>,
}

/// The stretches of the map and of the list that were found last. The next ones are most often these or the ones after
/// them. They don't affect any result.
#[derive(Clone, Copy)]
pub struct LastFound {
    pub map: usize,
    pub list: usize,
}

// Returns the half of the block that the bit chooses, and the other half. Returns `None` if the block is one address.
fn halves_by(block: &Block, bit: bool) -> Option<(Block, Block)>
    ensures some { IsNone result → block.now.len ≡ width_of block.now.version }
    ensures chosen { IfSome result (λ x. IsHalfNumbered block.now x.0 (chosen_half bit (number_of block.now))) }
    ensures beside { IfSome result (λ x. IsHalfNumbered block.now x.1 (side_half bit (number_of block.now))) }
{
    let (low, high) = block.halves()?;
    if bit {
        Some((high, low))
    } else {
        Some((low, high))
    }
}

impl<'a> Sources<'a> {
    /// Returns the sources for a certificate of the version of the map and the list.
    pub fn new(
        alloc: Global,
        map: &'a Swept,
        list: &'a Swept,
        limits: LineLimits<'a>,
    ) -> Result<Sources<'a>, AllocError>
        requires map { HasKnownLabels map.now }
        requires list { HasKnownLabels list.now }
        requires version { list.now.stretches.version ≡ map.now.stretches.version }
        requires width { limits.width ≡ width_of map.now.stretches.version }
        ensures sources { IfOk result AreSources }
        ensures origin { IfOk result (λ s. (o : Origin) → IsOfMap o.map map.now → IsOfList o.list list.now
            → AreOf o s) }
        ensures version { IfOk result (λ s. s.version ≡ map.now.stretches.version) }
        ensures limits { IfOk result (λ s. s.limits ≡ limits.entry) }
    {
        let of_map = Source::new(alloc, &map.stretches, &map.labels, limits.labels)?;
        let of_list = Source::new(alloc, &list.stretches, &list.labels, limits.labels)?;
        Ok(Sources {
            version: map.stretches.version(),
            count: list.count,
            limits,
            of_map,
            of_list,
        })
    }

    /// Returns the fault of a leaf with these addresses and the certificate's label `id`, if any.
    #[inline(always)]
    pub fn leaf_fault(
        &self,
        near: &mut LastFound,
        first: u128,
        last: u128,
        id: LabelId,
    ) -> Option<CheckFaultKind>
        requires sources { AreSources self.now }
        requires within { first < 2 ^ width_of self.now.version }
        requires order { first ≤ last }
        requires known { id.0 < length self.now.limits.labels.now }
        ensures { (o : Origin) → AreOf o self.now → (n q : ℕ) → IsRangeOf self.now first last n q →
            result ≡ leaf_fault_of (map_of o.map) (list_of o.list).prefixes n q
            (text_at self.now.limits.labels.now id.0) }
    {
        if !self.of_map.has_label(&mut near.map, first, last, id) {
            return Some(CheckFaultKind::LeafNotUniform);
        }
        if !self.of_list.has_label(&mut near.list, first, last, id) {
            return Some(CheckFaultKind::ListDiffers);
        }
        None
    }

    // Returns `true` only if no block between the addresses has a fault as a leaf with the certificate's label `id`.
    fn is_clear(&self, near: &mut LastFound, first: u128, last: u128, id: LabelId) -> bool
        requires sources { AreSources self.now }
        requires within { first < 2 ^ width_of self.now.version }
        requires order { first ≤ last }
        requires known { id.0 < length self.now.limits.labels.now }
        ensures { IsTrue result → IsClear self.now first (last + 1) (text_at self.now.limits.labels.now id.0) }
    {
        self.of_map.has_label(&mut near.map, first, last, id)
            && self.of_list.has_label(&mut near.list, first, last, id)
    }

    /// Returns `true` only if no block inside `block` and before `end` has a fault as a leaf with the label `side`.
    pub fn is_clear_before(
        &self,
        near: &mut LastFound,
        block: &Block,
        end: &Block,
        side: LabelId,
    ) -> bool
        requires sources { AreSources self.now }
        requires version { block.now.version ≡ self.now.version }
        requires known { side.0 < length self.now.limits.labels.now }
        ensures { IsTrue result → IsClear self.now block.now.value end.now.value
            (text_at self.now.limits.labels.now side.0) }
    {
        end.value <= block.value || self.is_clear(near, block.value, end.value - 1, side)
    }

    // Returns `true` only if no block inside `block` and after `end` has a fault as a leaf with the label `side`.
    fn is_clear_after(
        &self,
        near: &mut LastFound,
        block: &Block,
        end: &Block,
        side: LabelId,
    ) -> bool
        requires sources { AreSources self.now }
        requires version { block.now.version ≡ self.now.version }
        requires known { side.0 < length self.now.limits.labels.now }
        ensures { let W = width_of block.now.version in IsTrue result →
            IsClear self.now (last_of (width_of end.now.version) end.now.len (number_of end.now) + 1)
            (last_of W block.now.len (number_of block.now) + 1) (text_at self.now.limits.labels.now side.0) }
    {
        let (last, whole) = (end.high().value, block.high().value);
        whole <= last || self.is_clear(near, last + 1, whole, side)
    }

    /// Returns the fault of the blocks beside the path from the block to its end, from the deepest up, as leaves with
    /// the label `side`. One look at the addresses after the end is enough if those before it are clear.
    pub fn path_fault(
        &self,
        near: &mut LastFound,
        block: &Block,
        path: &Path,
        side: LabelId,
        is_clear_before: bool,
    ) -> Option<CheckFaultKind>
        requires sources { AreSources self.now }
        requires version { block.now.version ≡ self.now.version }
        requires known { side.0 < length self.now.limits.labels.now }
        requires room { block.now.len + path.now.count ≤ width_of block.now.version }
        requires before { (end : Block) → LeadsTo block.now end (bits_in path.now) → IsTrue is_clear_before →
            IsClear self.now block.now.value end.value (text_at self.now.limits.labels.now side.0) }
        ensures { (o : Origin) → AreOf o self.now → result ≡ sides_fault_of (map_of o.map) (list_of o.list).prefixes
            (text_at self.now.limits.labels.now side.0) (bits_in path.now) block.now.len (number_of block.now) }
    {
        if is_clear_before && self.is_clear_after(near, block, &path.end(block), side) {
            return None;
        }
        let (bit, rest) = path.split_first()?;
        let (chosen, beside) = halves_by(block, bit)?;
        match self.path_fault(near, &chosen, &rest, side, false) {
            None => self.leaf_fault(near, beside.value, beside.high().value, side),
            fault => fault,
        }
    }
}
