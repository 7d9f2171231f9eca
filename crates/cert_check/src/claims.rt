//! The check of the claims of inner nodes and chains. Sets are listed by ascending numbers, so one walk compares two
//! sets.
ghost use Rattle.std.specs.Prelude.{◌≡◌, ℕ, ◌+◌, ◌^◌, ◌<◌, ◌≤◌, ◌&&◌, ◌||◌, ◌==◌, ◌∷◌, []};
ghost use Rattle.std.specs.Prelude.{IfSome, Some, None, length, map, nat_lt, not, if◌then◌else◌};
ghost use Rattle.std.specs.List.{list_all};
ghost use Rattle.pmap_model.specs.MapText.{text_at};
ghost use Rattle.pmap_cert.specs.CertificateText.{IsAscending};
ghost use Rattle.pmap_cert.specs.CertificateModel.{chain_claim, exact_claim};
ghost use Rattle.pmap_cert.specs.Packed.{bits_in};
ghost use Rattle.cert_check.specs.Checking.{claim_fault as claim_fault_of, CostTooHigh, SetTooSmall};
ghost use Rattle.cert_check.specs.Inner.{claim_in, has_number};

use crate::fault::CheckFaultKind;
use pmap_cert::{Claim, Path};
use pmap_model::{LabelId, Labels};

// Returns the rest of the set from the first number that is at least `id`.
fn rest_from<'a>(set: &'a [LabelId], id: LabelId) -> &'a [LabelId]
    requires { IsAscending (2 ^ 32) 0 (map (λ i. i.0) set.now) }
    ensures ascending { IsAscending (2 ^ 32) id.0 (map (λ i. i.0) result.now) }
    ensures kept { (n : ℕ) → id.0 ≤ n → has_number (map (λ i. i.0) result.now) n
        ≡ has_number (map (λ i. i.0) set.now) n }
{
    let mut rest = set;
    while let Some(first) = rest.first() {
        if id.0 <= first.0 {
            return rest;
        }
        rest = &rest[1..];
    }
    rest
}

fn begins_with(rest: &[LabelId], id: LabelId) -> bool
    requires { IsAscending (2 ^ 32) id.0 (map (λ i. i.0) rest.now) }
    ensures { result ≡ has_number (map (λ i. i.0) rest.now) id.0 }
{
    match rest.first() {
        Some(first) => first.0 == id.0,
        None => false,
    }
}

fn has_one(set: &[LabelId], id: LabelId) -> bool
    requires { IsAscending (2 ^ 32) 0 (map (λ i. i.0) set.now) }
    ensures { result ≡ has_number (map (λ i. i.0) set.now) id.0 }
{
    begins_with(rest_from(set, id), id)
}

// Whether the set has each label that two others have in common.
fn has_common(set: &[LabelId], lower: &[LabelId], upper: &[LabelId]) -> bool
    requires set { IsAscending (2 ^ 32) 0 (map (λ i. i.0) set.now) }
    requires lower { IsAscending (2 ^ 32) 0 (map (λ i. i.0) lower.now) }
    requires upper { IsAscending (2 ^ 32) 0 (map (λ i. i.0) upper.now) }
    ensures { result ≡ list_all (λ i. not (has_number (map (λ j. j.0) upper.now) i.0)
        || has_number (map (λ j. j.0) set.now) i.0) lower.now }
{
    let mut rest = set;
    let mut above = upper;
    for id in lower {
        rest = rest_from(rest, *id);
        above = rest_from(above, *id);
        if begins_with(above, *id) && !begins_with(rest, *id) {
            return false;
        }
    }
    true
}

fn has_all(set: &[LabelId], labels: &[LabelId]) -> bool
    requires set { IsAscending (2 ^ 32) 0 (map (λ i. i.0) set.now) }
    requires labels { IsAscending (2 ^ 32) 0 (map (λ i. i.0) labels.now) }
    ensures { result ≡ list_all (has_number (map (λ i. i.0) set.now)) (map (λ i. i.0) labels.now) }
{
    has_common(set, labels, labels)
}

// Returns the fault of a claim by its cost, the exact cost, and whether its set has all labels of the exact set.
fn fault_by(cost: u64, exact_cost: u64, has_exact_set: bool) -> Option<CheckFaultKind>
    ensures { result ≡ (if nat_lt exact_cost cost then Some CostTooHigh
        else (if cost == exact_cost && not has_exact_set then Some SetTooSmall else None)) }
{
    if exact_cost < cost {
        Some(CheckFaultKind::CostTooHigh)
    } else if cost == exact_cost && !has_exact_set {
        Some(CheckFaultKind::SetTooSmall)
    } else {
        None
    }
}

// Returns the fault of an inner node's claim, if any, whatever the sizes of the sets.
#[tactic(auto, using(crate::proofs::Sets::set_ascending))]
fn sets_fault(labels: &Labels, claim: Claim, left: Claim, right: Claim) -> Option<CheckFaultKind>
    requires claim { IsAscending (length labels.now) 0 (map (λ i. i.0) claim.set.now) }
    requires left { IsAscending (length labels.now) 0 (map (λ i. i.0) left.set.now) }
    requires right { IsAscending (length labels.now) 0 (map (λ i. i.0) right.set.now) }
    ensures { result ≡ claim_fault_of (claim_in labels.now claim.entry)
        (exact_claim (claim_in labels.now left.entry) (claim_in labels.now right.entry)) }
{
    labels.laws();
    let cost = u64::from(claim.cost);
    let below = u64::from(left.cost) + u64::from(right.cost);
    // The empty set has all common labels only if there are none.
    if has_common(&[], left.set, right.set) {
        let is_full = has_all(claim.set, left.set) & has_all(claim.set, right.set);
        fault_by(cost, below + 1, is_full)
    } else {
        fault_by(cost, below, has_common(claim.set, left.set, right.set))
    }
}

// Returns the label of a set that has only one.
#[inline(always)]
fn single(set: &[LabelId]) -> Option<LabelId>
    ensures { IfSome result (λ id. set.now ≡ id ∷ []) }
{
    match set {
        [id] => Some(*id),
        _ => None,
    }
}

/// Returns the fault of an inner node's claim, if any, by the claims of the nodes of its halves. Most often each half
/// claims one label, so there is a short cut for that case.
#[tactic(auto, using(crate::proofs::Sets::set_ascending))]
pub fn claim_fault(
    labels: &Labels,
    claim: Claim,
    left: Claim,
    right: Claim,
) -> Option<CheckFaultKind>
    requires claim { IsAscending (length labels.now) 0 (map (λ i. i.0) claim.set.now) }
    requires left { IsAscending (length labels.now) 0 (map (λ i. i.0) left.set.now) }
    requires right { IsAscending (length labels.now) 0 (map (λ i. i.0) right.set.now) }
    ensures { result ≡ claim_fault_of (claim_in labels.now claim.entry)
        (exact_claim (claim_in labels.now left.entry) (claim_in labels.now right.entry)) }
{
    let Some(low) = single(left.set) else {
        return sets_fault(labels, claim, left, right);
    };
    let Some(high) = single(right.set) else {
        return sets_fault(labels, claim, left, right);
    };
    labels.laws();
    let cost = u64::from(claim.cost);
    let below = u64::from(left.cost) + u64::from(right.cost);
    let has_low = has_one(claim.set, low);
    if low.0 == high.0 {
        fault_by(cost, below, has_low)
    } else {
        let has_high = has_one(claim.set, high);
        fault_by(cost, below + 1, has_low & has_high)
    }
}

/// Returns the fault of the claim of a chain with this path and side label, if any, by the claim of the node at its
/// end.
#[tactic(auto, using(crate::proofs::Sets::set_ascending))]
pub fn chain_fault(
    labels: &Labels,
    claim: Claim,
    end: Claim,
    path: &Path,
    side: LabelId,
) -> Option<CheckFaultKind>
    requires claim { IsAscending (length labels.now) 0 (map (λ i. i.0) claim.set.now) }
    requires end { IsAscending (length labels.now) 0 (map (λ i. i.0) end.set.now) }
    requires side { side.0 < length labels.now }
    ensures { result ≡ claim_fault_of (claim_in labels.now claim.entry)
        (chain_claim (length (bits_in path.now)) (text_at labels.now side.0) (claim_in labels.now end.entry)) }
{
    labels.laws();
    let cost = u64::from(claim.cost);
    let below = u64::from(end.cost);
    let has_side = has_one(claim.set, side);
    if has_one(end.set, side) {
        return fault_by(cost, below, has_side);
    }
    if path.len() == 1 {
        fault_by(cost, below + 1, has_side & has_all(claim.set, end.set))
    } else {
        fault_by(cost, below + 1, has_side)
    }
}
