ghost use Rattle.std.specs.Prelude.{◌≡◌, IsTrue};
ghost use Rattle.prefix_keys.specs.declared.version.Version.TheVariants.{V4};
ghost use Rattle.std.specs.List.Sorted.{IsNonDecreasingBy};
ghost use Rattle.pmap_model.specs.ListEntries.{HasDistinctBlocks, rank_of};
ghost use Rattle.pmap_model.specs.Packed.{narrow_entry};

use crate::entry::Entry;
use crate::order::by_rank;
use crate::packed::NarrowEntry;
use crate::packed_list::{Packable, PackedList};
use prefix_keys::{Block, Version};

/// The entries of a prefix list, in order. An entry takes 12 bytes for IPv4, and 48 for IPv6.
pub type Entries = PackedList<Entry>;

impl Packable for Entry {
    type Narrow = NarrowEntry;

    type Wide = Entry;

    ghost fits_narrow = { λ entry. entry.block.version ≡ V4 };

    ghost of_narrow = { narrow_entry };

    ghost of_wide = { λ entry. entry };

    #[inline(always)]
    fn is_narrow(&self) -> bool {
        self.block.version == Version::V4
    }

    #[inline(always)]
    fn narrow(self) -> NarrowEntry {
        NarrowEntry {
            value: self.block.value as u32,
            len: self.block.len,
            label: self.label,
        }
    }

    #[inline(always)]
    fn wide(self) -> Entry {
        self
    }

    #[inline(always)]
    fn from_narrow(packed: NarrowEntry) -> Entry {
        Entry {
            block: Block {
                version: Version::V4,
                value: u128::from(packed.value),
                len: packed.len,
            },
            label: packed.label,
        }
    }

    #[inline(always)]
    fn from_wide(packed: Entry) -> Entry {
        packed
    }
}

impl PackedList<Entry> {
    /// Returns `true` only if each entry comes after the one before it. Entries of two versions count as out of order.
    pub fn are_in_order(&self) -> bool
        ensures ascending { IsTrue result → IsNonDecreasingBy (λ e. rank_of e.block) self.now }
        ensures distinct { IsTrue result → HasDistinctBlocks self.now }
    {
        if self.wide.is_empty() {
            self.narrow.is_sorted_by(|entry, next| by_rank(
                &Entry::from_narrow(*entry).block,
                &Entry::from_narrow(*next).block,
            )
            .is_lt())
        } else {
            self.narrow.is_empty()
                && self
                    .wide
                    .is_sorted_by(|entry, next| by_rank(&entry.block, &next.block).is_lt())
        }
    }
}
