//! The order of entries by their blocks: by first address, and of equal first addresses the shorter block first.
ghost use Rattle.std.specs.Prelude.{◌≡◌, IfOk, unwrap_or};
ghost use Rattle.std.specs.List.Sorted.{IsNonDecreasingBy, IsPermutation};
ghost use Rattle.std.specs.Ordering.{nat_cmp};
ghost use Rattle.pmap_model.specs.ListEntries.{rank_of};

use crate::entries::Entries;
use crate::entry::Entry;
use prefix_keys::Block;
use std::alloc::{AllocError, Global};
use std::cmp::Ordering;

/// Compares two blocks by first address, and by length if these are equal.
#[inline(always)]
pub fn by_rank(block: &Block, other: &Block) -> Ordering
    ensures { result ≡ nat_cmp (rank_of block.now) (rank_of other.now) }
{
    if block.value == other.value {
        block.len.cmp(&other.len)
    } else {
        block.value.cmp(&other.value)
    }
}

// Returns the list of these entries.
fn packed(alloc: Global, entries: &[Entry]) -> Result<Entries, AllocError>
    ensures { IfOk result (λ packed. packed ≡ entries.now) }
{
    let mut packed = Entries::new(alloc);
    for entry in entries {
        packed.push(*entry)?;
    }
    Ok(packed)
}

/// Returns the entries in order, or `None` if they are in order as they are.
pub fn in_order(alloc: Global, entries: &Entries) -> Result<Option<Entries>, AllocError>
    ensures same { IfOk result (λ sorted. IsPermutation entries.now (unwrap_or sorted entries.now)) }
    ensures ascending { IfOk result (λ sorted.
        IsNonDecreasingBy (λ e. rank_of e.block) (unwrap_or sorted entries.now)) }
{
    if entries.are_in_order() {
        return Ok(None);
    }
    let mut sorted = entries.to_vec(alloc)?;
    sorted.sort_unstable_by(|entry, other| by_rank(&entry.block, &other.block));
    Ok(Some(packed(alloc, sorted.as_slice())?))
}

/// Returns the entries that [`in_order`] has sorted, or the given ones if they were in order.
pub fn sorted_or<'a>(sorted: &'a Option<Entries>, given: &'a Entries) -> &'a Entries
    ensures { result.now ≡ unwrap_or sorted.now given.now }
{
    match sorted {
        Some(sorted) => sorted,
        None => given,
    }
}
