//! A map or a list that a certificate is checked against.
ghost use Rattle.std.specs.Prelude.{◌≡◌, ◌^◌, ◌<◌, ◌≤◌, List, IfOk, IfSome, IsTrue, length};
ghost use Rattle.prefix_keys.specs.Block.{width_of};
ghost use Rattle.pmap_model.specs.MapModel.{Label};
ghost use Rattle.pmap_model.specs.MapText.{text_at};
ghost use Rattle.pmap_stretches.specs.Stretches.{AreLabelsBelow, HoldsAddress, last_at};
ghost use Rattle.cert_check.specs.Inner.{AreNumbers, has_one_label};

use crate::labels::{is_label, numbers_in};
use pmap_model::{LabelId, Labels};
use pmap_stretches::Stretches;
use std::alloc::{AllocError, Global};

/// The stretches of a map or a list, and the number of each of its labels in the certificate's table, so that texts are
/// compared only once.
#[derive(Drop)]
pub struct Source<'a> {
    pub stretches: &'a Stretches,
    pub numbers: Vec<Option<LabelId>>,
}

impl<'a> Source<'a> {
    /// Returns the source with these stretches, whose labels are in the table `labels`.
    pub fn new(
        alloc: Global,
        stretches: &'a Stretches,
        labels: &Labels,
        table: &Labels,
    ) -> Result<Source<'a>, AllocError>
        requires { AreLabelsBelow (length labels.now) stretches.now }
        ensures numbers { IfOk result (λ s. AreNumbers s.numbers.items labels.now table.now) }
        ensures known { IfOk result (λ s. AreLabelsBelow (length s.numbers.items) s.stretches.now) }
        ensures stretches { IfOk result (λ s. s.stretches ≡ stretches.entry) }
    {
        Ok(Source {
            stretches,
            numbers: numbers_in(alloc, labels, table)?,
        })
    }

    // Returns `true` only if there is a stretch with this index that has all addresses from `first` to `last`.
    #[inline(always)]
    fn has_range(&self, index: usize, first: u128, last: u128) -> bool
        requires order { first ≤ last }
        ensures first { IsTrue result → HoldsAddress self.now.stretches.now first index }
        ensures last { IsTrue result → last ≤ last_at self.now.stretches.now index }
    {
        index < self.stretches.len()
            && last <= self.stretches.last(index)
            && self.stretches.first(index) <= first
    }

    // Returns whether the stretch with this index has the certificate's label `id`. Returns `None` unless the stretch
    // exists and has all addresses from `first` to `last`.
    #[inline(always)]
    fn has_label_at(&self, index: usize, first: u128, last: u128, id: LabelId) -> Option<bool>
        requires known { AreLabelsBelow (length self.now.numbers.items) self.now.stretches.now }
        requires order { first ≤ last }
        ensures { IfSome result (λ holds. (from to : List Label) → AreNumbers self.now.numbers.items from to →
            id.0 < length to → holds ≡ has_one_label from self.now.stretches.now first last (text_at to id.0)) }
    {
        self.stretches.laws();
        if self.has_range(index, first, last) {
            Some(is_label(self.numbers.as_slice(), self.stretches.label(index), id))
        } else {
            None
        }
    }

    // Returns whether one stretch has all addresses from `first` to `last`, and has the certificate's label `id`. The
    // search for it begins at `near`, which is then the stretch with the first address.
    #[cold]
    #[inline(never)]
    fn has_label_beyond(&self, near: &mut usize, first: u128, last: u128, id: LabelId) -> bool
        requires known { AreLabelsBelow (length self.now.numbers.items) self.now.stretches.now }
        requires within { first < 2 ^ width_of self.now.stretches.now.version }
        ensures { (from to : List Label) → AreNumbers self.now.numbers.items from to → id.0 < length to →
            result ≡ has_one_label from self.now.stretches.now first last (text_at to id.0) }
    {
        let index = self.stretches.find_near(*near, first);
        let holds = last <= self.stretches.last(index)
            && is_label(self.numbers.as_slice(), self.stretches.label(index), id);
        *near = index;
        holds
    }

    /// Returns whether one stretch has all addresses from `first` to `last`, and has the certificate's label `id`. Most
    /// often this is the stretch with the index `near` or the next one. `near` is then the stretch with the first
    /// address.
    #[inline(always)]
    pub fn has_label(&self, near: &mut usize, first: u128, last: u128, id: LabelId) -> bool
        requires known { AreLabelsBelow (length self.now.numbers.items) self.now.stretches.now }
        requires within { first < 2 ^ width_of self.now.stretches.now.version }
        requires order { first ≤ last }
        ensures { (from to : List Label) → AreNumbers self.now.numbers.items from to → id.0 < length to →
            result ≡ has_one_label from self.now.stretches.now first last (text_at to id.0) }
    {
        if let Some(holds) = self.has_label_at(*near, first, last, id) {
            return holds;
        }
        let next = near.saturating_add(1);
        if let Some(holds) = self.has_label_at(next, first, last, id) {
            *near = next;
            return holds;
        }
        self.has_label_beyond(near, first, last, id)
    }
}
