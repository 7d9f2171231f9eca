//! Repeated blocks of entries.
ghost use Rattle.std.specs.Prelude.{◌≡◌, ◌==◌, ◌&&◌, ℕ, IfOk, IsTrue, List, map, not, true, if◌then◌else◌};
ghost use Rattle.std.specs.List.{list_any};
ghost use Rattle.std.specs.Ordering.{is_eq};
ghost use Rattle.pmap_text.specs.Inner.{IsFirstRepeat, has_key, key_cmp};
ghost use Rattle.pmap_model.specs.MapModel.{Label};
ghost use Rattle.pmap_model.specs.PrefixList.{prefix_of};

use pmap_model::{Entries, Entry, in_order, sorted_or};
use prefix_keys::Block;
use std::alloc::{AllocError, Global};
use std::collections::BTreeSet;

// Whether the entry has the start and the length of this block.
fn is_for(entry: &Entry, block: &Block) -> bool
    ensures { result ≡ (entry.now.block.value == block.now.value && entry.now.block.len == block.now.len) }
{
    entry.block.value == block.value && entry.block.len == block.len
}

/// Returns `true` if an entry has the start and the length of this block.
pub fn has_block(entries: &Entries, block: &Block) -> bool
    ensures { result ≡ list_any (λ e. e.block.value == block.now.value && e.block.len == block.now.len) entries.now }
{
    for place in 0..entries.len() {
        if is_for(&entries.at(place), block) {
            return true;
        }
    }
    false
}

// Adds a start and a length. Returns `true` if they are new.
fn add_key(keys: &mut BTreeSet<(u128, u32)>, key: (u128, u32)) -> Result<bool, AllocError>
    ensures new { IfOk result (λ new. has_key keys.old.keys key ≡ not new) }
    ensures ok { IfOk result (λ new. IsTrue new → (q : ℕ × ℕ) →
        has_key keys.new.keys q ≡ (if is_eq (key_cmp key q) then true else has_key keys.old.keys q)) }
{
    keys.insert(key).map_err(|_| AllocError)
}

// Returns the index of the first entry with the block of an earlier one, by a look-up of each block.
fn find_repeat(alloc: Global, entries: &Entries) -> Result<Option<usize>, AllocError>
    ensures { IfOk result (λ first. (table : List Label) → IsFirstRepeat (map (prefix_of table) entries.now) first) }
{
    let mut keys = BTreeSet::new(alloc);
    for place in 0..entries.len() {
        let block = entries.at(place).block;
        let new = add_key(&mut keys, (block.value, block.len))?;
        if !new {
            return Ok(Some(place));
        }
    }
    Ok(None)
}

/// Returns the index of the first entry with the block of an earlier one. Unlike with a hash table, no choice of blocks
/// makes this slow.
pub fn first_repeat(alloc: Global, entries: &Entries) -> Result<Option<usize>, AllocError>
    ensures { IfOk result (λ first. (table : List Label) → IsFirstRepeat (map (prefix_of table) entries.now) first) }
{
    if entries.are_in_order() {
        return Ok(None);
    }
    // Sorting is faster than looking up each block, and few lists have a repeated block.
    let sorted = in_order(alloc, entries)?;
    if sorted_or(&sorted, entries).are_in_order() {
        return Ok(None);
    }
    find_repeat(alloc, entries)
}
