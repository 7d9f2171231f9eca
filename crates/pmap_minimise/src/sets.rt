//! Sets of labels, as slices with their numbers in ascending order.
ghost use Rattle.std.specs.Prelude.{◌≡◌, ◌+◌, ◌^◌, ◌<◌, IfOk, IsTrue};
ghost use Rattle.pmap_cert.specs.CertificateText.{IsAscending};
ghost use Rattle.pmap_cert.specs.Node.{claiming};
ghost use Rattle.pmap_minimise.specs.Numbers.{AreApart, IsExact, IsUnion, common_numbers, numbers_of};

use pmap_cert::Claim;
use pmap_model::LabelId;
use smallvec::SmallVec;
use std::alloc::{AllocError, Global};

// A set of labels. Most sets have at most 8 labels, and need no allocation.
type SmallSet = SmallVec<LabelId, 8>;

fn common(alloc: Global, low: &[LabelId], high: &[LabelId]) -> Result<SmallSet, AllocError>
    requires low { IsAscending (2 ^ 32) 0 (numbers_of low.now) }
    requires high { IsAscending (2 ^ 32) 0 (numbers_of high.now) }
    ensures { IfOk result (λ set. numbers_of set.items ≡ common_numbers (numbers_of low.now) (numbers_of high.now)) }
{
    let mut set = SmallVec::new(alloc);
    let mut lower = low;
    let mut higher = high;
    while let Some((x, lower_rest)) = lower.split_first() {
        let Some((y, higher_rest)) = higher.split_first() else {
            return Ok(set);
        };
        if x.0 < y.0 {
            lower = lower_rest;
        } else if y.0 < x.0 {
            higher = higher_rest;
        } else {
            set.push(*x)?;
            lower = lower_rest;
            higher = higher_rest;
        }
    }
    Ok(set)
}

fn either(alloc: Global, low: &[LabelId], high: &[LabelId]) -> Result<SmallSet, AllocError>
    requires low { IsAscending (2 ^ 32) 0 (numbers_of low.now) }
    requires high { IsAscending (2 ^ 32) 0 (numbers_of high.now) }
    ensures union { IfOk result (λ set. IsUnion (numbers_of low.now) (numbers_of high.now) (numbers_of set.items)) }
    ensures ascending { IfOk result (λ set. IsAscending (2 ^ 32) 0 (numbers_of set.items)) }
{
    let mut set = SmallVec::new(alloc);
    let mut lower = low;
    let mut higher = high;
    while let Some((x, lower_rest)) = lower.split_first() {
        let Some((y, higher_rest)) = higher.split_first() else {
            set.extend_from_slice(lower)?;
            return Ok(set);
        };
        if x.0 < y.0 {
            set.push(*x)?;
            lower = lower_rest;
        } else if y.0 < x.0 {
            set.push(*y)?;
            higher = higher_rest;
        } else {
            set.push(*x)?;
            lower = lower_rest;
            higher = higher_rest;
        }
    }
    set.extend_from_slice(higher)?;
    Ok(set)
}

// Returns whether it is seen at once that the sets have no common label: the first set ends before the second begins.
fn are_apart(low: &[LabelId], high: &[LabelId]) -> bool
    requires low { IsAscending (2 ^ 32) 0 (numbers_of low.now) }
    requires high { IsAscending (2 ^ 32) 0 (numbers_of high.now) }
    ensures { IsTrue result → AreApart (numbers_of low.now) (numbers_of high.now) }
{
    match (low.split_last(), high.split_first()) {
        (Some((last, _)), Some((first, _))) => last.0 < first.0,
        _ => false,
    }
}

/// Returns the exact claim of two halves with these claims, its cost and its set: the labels that both have or, if
/// there are none, those that either has, for one more than the sum of the costs.
pub fn exact_claim(alloc: Global, low: Claim, high: Claim) -> Result<(u32, SmallSet), AllocError>
    requires low { IsAscending (2 ^ 32) 0 (numbers_of low.set.now) }
    requires high { IsAscending (2 ^ 32) 0 (numbers_of high.set.now) }
    requires few { low.cost + high.cost + 1 < 2 ^ 32 }
    ensures { IfOk result (λ claim. IsExact (claiming low.entry.cost (numbers_of low.entry.set.now))
        (claiming high.entry.cost (numbers_of high.entry.set.now)) (claiming claim.0 (numbers_of claim.1.items))) }
{
    let sum = low.cost + high.cost;
    // An optimisation: neighbouring blocks often have neighbouring labels.
    if are_apart(low.set, high.set) {
        let mut all = SmallVec::new(alloc);
        all.extend_from_slice(low.set)?;
        all.extend_from_slice(high.set)?;
        return Ok((sum + 1, all));
    }
    let shared = common(alloc, low.set, high.set)?;
    if shared.is_empty() {
        let all = either(alloc, low.set, high.set)?;
        return Ok((sum + 1, all));
    }
    Ok((sum, shared))
}
