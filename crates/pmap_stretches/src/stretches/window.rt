//! Blocks with the stretches at their ends.
ghost use Rattle.std.specs.Prelude.{◌≡◌, ◌+◌, ◌^◌, ◌<◌, ◌≤◌};
ghost use Rattle.prefix_keys.specs.Block.{width_of};
ghost use Rattle.pmap_stretches.specs.Stretches.{HoldsAddress};
ghost use Rattle.pmap_stretches.specs.Windows.{AreHalvesOf, IsWindow};

use crate::stretches::Stretches;

/// A block with a prefix of `len` bits. The stretches `from` and `to` have its addresses `first` and `last`.
#[derive(Clone, Copy)]
pub struct Window {
    pub first: u128,
    pub last: u128,
    pub len: u32,
    pub from: usize,
    pub to: usize,
}

// Returns the index of the stretch with the address after `address`, which the stretch `at` has.
#[inline(always)]
fn next_index(stretches: &Stretches, at: usize, address: u128) -> usize
    requires holds { HoldsAddress stretches.now address at }
    requires below { address + 1 < 2 ^ width_of stretches.now.version }
    ensures { HoldsAddress stretches.now (address + 1) result }
{
    stretches.laws();
    if stretches.last(at) == address {
        at + 1
    } else {
        at
    }
}

impl Window {
    /// Returns the window of all addresses of the stretches.
    pub fn whole(stretches: &Stretches) -> Window
        ensures window { IsWindow stretches.now result }
        ensures first { result.first ≡ 0 }
        ensures len { result.len ≡ 0 }
    {
        stretches.laws();
        let to = stretches.len() - 1;
        Window {
            first: 0,
            last: stretches.last(to),
            len: 0,
            from: 0,
            to,
        }
    }

    /// Returns the index of the stretch with this address of the block. It is most often the first or the last one.
    #[inline(always)]
    pub fn index_of(&self, stretches: &Stretches, address: u128) -> usize
        requires window { IsWindow stretches.now self.now }
        requires from { self.now.first ≤ address }
        requires to { address ≤ self.now.last }
        ensures holds { HoldsAddress stretches.now address result }
        ensures from { self.now.from ≤ result }
    {
        if address <= stretches.last(self.from) {
            return self.from;
        }
        if stretches.first(self.to) <= address {
            return self.to;
        }
        stretches.find(self.from, self.to, address)
    }

    /// Returns the halves, the lower first, of a block of two addresses or more.
    #[inline(always)]
    pub fn halves(&self, stretches: &Stretches) -> (Window, Window)
        requires window { IsWindow stretches.now self.now }
        requires some { self.now.first < self.now.last }
        ensures { AreHalvesOf stretches.now self.now result.0 result.1 }
    {
        stretches.laws();
        let middle = self.first + (self.last - self.first) / 2;
        let at = self.index_of(stretches, middle);
        let next = next_index(stretches, at, middle);
        let len = self.len + 1;
        let low = Window {
            last: middle,
            len,
            to: at,
            ..*self
        };
        let high = Window {
            first: middle + 1,
            len,
            from: next,
            ..*self
        };
        (low, high)
    }
}
