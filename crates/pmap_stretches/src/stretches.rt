ghost use Rattle.std.specs.Prelude.{◌≡◌, ◌↔◌, ℕ, IsTrue, ◌+◌, ◌-◌, ◌^◌, ◌<◌, ◌≤◌, ◌++◌};
ghost use Rattle.std.specs.Prelude.{◌∷◌, [], List, None, Some, IfOk, OnOk, length};
ghost use Rattle.std.specs.Option.{ForSome};
ghost use Rattle.prefix_keys.specs.Block.{width_of};
ghost use Rattle.pmap_stretches.specs.Sweep.{AreSwept};
ghost use Rattle.pmap_stretches.specs.Stretches.{label_kept, AreLabelsBelow, AreStretches, HasEveryAddress};
ghost use Rattle.pmap_stretches.specs.Stretches.{HoldsAddress, count_begun, first_at, label_at, last_at, text_held};
ghost use Rattle.pmap_model.specs.ListModel.{list_label};
ghost use Rattle.pmap_model.specs.MapModel.{map_label};
ghost use Rattle.pmap_model.specs.MapText.{map_of};
ghost use Rattle.pmap_model.specs.PrefixList.{AreShortestFirst, list_of};
ghost use Rattle.pmap_model.specs.declared.statement.Statement.{Statement};

pub mod ascent;
pub mod growing;
pub mod mappings;
pub mod opened;
pub mod start;
pub mod starts;
pub mod window;

use crate::stretches::ascent::of_mappings;
use crate::stretches::starts::Starts;
use pmap_model::{LabelId, MapText, PrefixList, in_order, sorted_or};
use prefix_keys::Version;
use std::alloc::{AllocError, Global};
use std::marker::Model;

// The number that is stored for a missing label.
const NO_LABEL: LabelId = LabelId(u32::MAX);

// The first IPv4 address of a stretch, and the number of its label.
#[derive(Clone, Copy)]
struct Begin {
    first: u32,
    label: LabelId,
}

// The first addresses of stretches, in ascending order, and the numbers of their labels. A stretch takes 8 bytes for
// IPv4 and 20 for IPv6.
#[derive(Drop)]
enum Begins {
    Narrow(Vec<Begin>),
    Wide(Vec<u128>, Vec<LabelId>),
}

/// The stretches of statements over the addresses of a version, in ascending order. A stretch is a maximal range of
/// addresses at which one statement wins (the last that covers them), or none does. It has the label of that statement,
/// or the default. If neighbours with the same label are joined, the stretches are the runs.
pub struct Stretches {
    begins: Begins,
}

// A drop is one call, so the proofs of functions that drop this type have one step instead of one for each part.
impl Drop for Stretches {
    fn drop(self) {
        let Stretches { begins: _ } = self;
    }
}

impl Model for Stretches {
    ghost use Rattle.pmap_stretches.specs.Stretches.{StretchesModel, stretches_of, HasEveryAddress};

    ghost Value = { StretchesModel };

    ghost view = { λ s. stretches_of s.begins };

    ghost invariant = { λ s. HasEveryAddress (stretches_of s.begins) };
}

// Returns the number that is stored for a label.
fn kept(label: Option<LabelId>) -> LabelId
    requires { ForSome label (λ id. id.0 < 2 ^ 32 - 1) }
    ensures { label_kept result ≡ label }
{
    label.unwrap_or(NO_LABEL)
}

// Returns the label for which a number is stored.
#[inline(always)]
fn given(id: LabelId) -> Option<LabelId>
    ensures { result ≡ label_kept id }
{
    if id.0 == NO_LABEL.0 { None } else { Some(id) }
}

// Returns a vector with one value, and with memory for `most` of them.
fn vec_with<T: Drop>(alloc: Global, value: T, most: usize) -> Result<Vec<T>, AllocError>
    ensures { IfOk result (λ values. values.items ≡ value ∷ []) }
{
    let mut values = Vec::with_capacity(alloc, most)?;
    values.push(value)?;
    Ok(values)
}

impl Stretches {
    /// Returns the stretches of a map, with neighbours with the same label joined if `joined` says so.
    pub(crate) fn swept_of_map(
        alloc: Global,
        map: &MapText,
        joined: bool,
    ) -> Result<Stretches, AllocError>
        ensures version { IfOk result (λ s. s.version ≡ map.now.version) }
        ensures stretches { IfOk result (AreSwept joined map.now.statements (Some map.now.default)) }
        ensures known { IfOk result (AreLabelsBelow (length map.now.labels)) }
        ensures labels { IfOk result (λ s. (a : ℕ) → a < 2 ^ width_of map.now.version →
            text_held map.now.labels s a ≡ Some (map_label (map_of map.now) a)) }
    {
        map.labels.laws();
        let starts = Starts::new(alloc, &map.statements)?;
        let default = Some(map.default);
        let stretches = of_mappings(alloc, map.version, default, &map.statements, starts, joined)?;
        Ok(stretches)
    }

    /// Returns the stretches of a map.
    pub fn of_map(alloc: Global, map: &MapText) -> Result<Stretches, AllocError>
        ensures version { IfOk result (λ s. s.version ≡ map.now.version) }
        ensures stretches { IfOk result (AreStretches map.now.statements (Some map.now.default)) }
        ensures known { IfOk result (AreLabelsBelow (length map.now.labels)) }
        ensures labels { IfOk result (λ s. (a : ℕ) → a < 2 ^ width_of map.now.version →
            text_held map.now.labels s a ≡ Some (map_label (map_of map.now) a)) }
    {
        Stretches::swept_of_map(alloc, map, false)
    }

    /// Returns the stretches of a prefix list, with neighbours with the same label joined if `joined` says so.
    pub(crate) fn swept_of_list(
        alloc: Global,
        list: &PrefixList,
        joined: bool,
    ) -> Result<Stretches, AllocError>
        ensures version { IfOk result (λ s. s.version ≡ list.now.version) }
        ensures stretches { IfOk result (λ s. (ss : List Statement) ×
            AreShortestFirst list.now.entries ss × AreSwept joined ss None s) }
        ensures known { IfOk result (AreLabelsBelow (length list.now.labels)) }
        ensures labels { IfOk result (λ s. (a : ℕ) → a < 2 ^ width_of list.now.version →
            text_held list.now.labels s a ≡ list_label (list_of list.now) a) }
    {
        list.labels.laws();
        let sorted = in_order(alloc, &list.entries)?;
        let entries = sorted_or(&sorted, &list.entries);
        let starts = Starts::none(alloc);
        let stretches = of_mappings(alloc, list.version, None, entries, starts, joined)?;
        Ok(stretches)
    }

    /// Returns the stretches of a prefix list.
    pub fn of_list(alloc: Global, list: &PrefixList) -> Result<Stretches, AllocError>
        ensures version { IfOk result (λ s. s.version ≡ list.now.version) }
        ensures stretches { IfOk result (λ s. (ss : List Statement) ×
            AreShortestFirst list.now.entries ss × AreStretches ss None s) }
        ensures known { IfOk result (AreLabelsBelow (length list.now.labels)) }
        ensures labels { IfOk result (λ s. (a : ℕ) → a < 2 ^ width_of list.now.version →
            text_held list.now.labels s a ≡ list_label (list_of list.now) a) }
    {
        Stretches::swept_of_list(alloc, list, false)
    }

    /// Returns one stretch that has all addresses of the version, with memory for `most` stretches.
    pub(crate) fn whole(
        alloc: Global,
        version: Version,
        label: Option<LabelId>,
        most: usize,
    ) -> Result<Stretches, AllocError>
        requires { ForSome label (λ id. id.0 < 2 ^ 32 - 1) }
        ensures version { IfOk result (λ s. s.version ≡ version) }
        ensures firsts { IfOk result (λ s. s.firsts ≡ 0 ∷ []) }
        ensures labels { IfOk result (λ s. s.labels ≡ label ∷ []) }
        ensures every { IfOk result HasEveryAddress }
    {
        let label = kept(label);
        let begins = match version {
            Version::V4 => Begins::Narrow(vec_with(alloc, Begin { first: 0, label }, most)?),
            Version::V6 => Begins::Wide(vec_with(alloc, 0, most)?, vec_with(alloc, label, most)?),
        };
        Ok(Stretches { begins })
    }

    /// Appends a stretch that begins at the address, where the last stretch ends. If an allocation fails, the stretches
    /// are unchanged.
    #[inline(always)]
    pub(crate) fn push(&mut self, first: u128, label: Option<LabelId>) -> Result<(), AllocError>
        requires above { first_at self.old (length self.old.firsts - 1) < first }
        requires within { first < 2 ^ width_of self.old.version }
        requires known { ForSome label (λ id. id.0 < 2 ^ 32 - 1) }
        ensures version { OnOk result (self.new.version ≡ self.old.version) }
        ensures firsts { OnOk result (self.new.firsts ≡ self.old.firsts ++ first ∷ []) }
        ensures labels { OnOk result (self.new.labels ≡ self.old.labels ++ label ∷ []) }
        ensures every { OnOk result (HasEveryAddress self.new) }
    {
        let label = kept(label);
        match &mut self.begins {
            Begins::Narrow(begins) => {
                let first = first as u32;
                begins.push(Begin { first, label })?;
            }
            Begins::Wide(firsts, labels) => {
                labels.reserve(1)?;
                firsts.push(first)?;
                labels.push(label)?;
            }
        }
        Ok(())
    }

    /// Returns the version of the addresses.
    pub fn version(&self) -> Version
        ensures { result ≡ self.now.version }
    {
        match self.begins {
            Begins::Narrow(_) => Version::V4,
            Begins::Wide(_, _) => Version::V6,
        }
    }

    /// A law: each address of the version is in one stretch, and the stretches are in ascending order.
    #[inline(always)]
    pub fn laws(&self)
        ensures every { HasEveryAddress self.now }
        ensures countable { length self.now.firsts < 2 ^ 64 }
    {
        let _count = self.len();
        let _begins = &self.begins;
    }

    /// Returns the number of stretches, which is at least 1.
    pub fn len(&self) -> usize
        ensures { result ≡ length self.now.firsts }
    {
        match &self.begins {
            Begins::Narrow(begins) => begins.len(),
            Begins::Wide(firsts, _) => firsts.len(),
        }
    }

    /// Returns the first address of the stretch with this index, which must be below `len`.
    #[inline(always)]
    pub fn first(&self, index: usize) -> u128
        requires { index < length self.now.firsts }
        ensures { result ≡ first_at self.now index }
    {
        match &self.begins {
            Begins::Narrow(begins) => u128::from(begins[index].first),
            Begins::Wide(firsts, _) => firsts[index],
        }
    }

    /// Returns the last address of the stretch with this index.
    #[inline(always)]
    pub fn last(&self, index: usize) -> u128
        requires { index < length self.now.firsts }
        ensures { result ≡ last_at self.now index }
    {
        self.laws();
        if index < self.len() - 1 {
            self.first(index + 1) - 1
        } else {
            self.version().last_address()
        }
    }

    // Returns `true` if the stretch with this index ends before the address.
    #[inline(always)]
    fn ends_before(&self, index: usize, address: u128) -> bool
        requires index { index < length self.now.firsts }
        requires address { address < 2 ^ width_of self.now.version }
        ensures { IsTrue result ↔ (last_at self.now index < address) }
    {
        self.laws();
        index < self.len() - 1 && self.first(index + 1) <= address
    }

    /// Returns the label of the stretch with this index.
    #[inline(always)]
    pub fn label(&self, index: usize) -> Option<LabelId>
        requires { index < length self.now.firsts }
        ensures { result ≡ label_at self.now index }
    {
        match &self.begins {
            Begins::Narrow(begins) => given(begins[index].label),
            Begins::Wide(_, labels) => given(labels[index]),
        }
    }

    /// Returns the index of the stretch that has the address. The stretch must be one of those from the index `from` to
    /// the index `to`.
    pub fn find(&self, from: usize, to: usize, address: u128) -> usize
        requires order { from ≤ to }
        requires index { to < length self.now.firsts }
        requires above { first_at self.now from ≤ address }
        requires below { address ≤ last_at self.now to }
        ensures holds { HoldsAddress self.now address result }
        ensures from { from ≤ result }
        ensures to { result ≤ to }
    {
        let mut low = from;
        let mut high = to;
        while low < high {
            let middle = high - (high - low) / 2;
            if self.first(middle) <= address {
                low = middle;
            } else {
                high = middle - 1;
            }
        }
        low
    }

    /// Returns the index of the stretch that has the address. The search begins at the index `near` and takes few steps
    /// if the stretch is there or soon after; without `near` the result is the same.
    #[inline(always)]
    pub fn find_near(&self, near: usize, address: u128) -> usize
        requires { address < 2 ^ width_of self.now.version }
        ensures holds { HoldsAddress self.now address result }
        ensures index { result ≡ count_begun self.now.firsts address - 1 }
    {
        self.laws();
        let end = self.len() - 1;
        let start = near.min(end);
        if address < self.first(start) {
            return self.find(0, start, address);
        }
        let mut low = start;
        let mut high = start;
        // Each step looks at twice as many stretches as the one before.
        while self.ends_before(high, address) {
            low = high + 1;
            high = end.min(high.saturating_add(low - start));
        }
        self.find(low, high, address)
    }
}
