//! The walk over the nodes of a certificate or of its text, which reads and checks each of them.
ghost use Rattle.std.specs.Prelude.{◌≡◌, ◌+◌, ◌++◌, ◌∷◌, [], ◌<◌, Err, None, IfOk, OnOk, length, take};
ghost use Rattle.std.specs.Option.{option_or};
ghost use Rattle.pmap_model.specs.PrefixList.{number_of_block as number_of};
ghost use Rattle.pmap_cert.specs.Packed.{bits_in};
ghost use Rattle.cert_check.specs.Inner.{AreSources, FitsPath, IsAfter, IsWalkResult, IsHeld, IsRangeOf, chain_reading};
ghost use Rattle.cert_check.specs.Inner.{fault_of_node, fault_with, halves_reading, held_claim, number_at, reading_at};

use crate::claims::{chain_fault, claim_fault};
use crate::fault::{CheckFault, CheckFaultKind};
use crate::sources::{LastFound, Sources};
use pmap_cert::{CertFault, CertFaultKind, Claim, Lines, Node, NodeBuffer, Path};
use pmap_model::LabelId;
use prefix_keys::Block;
use std::alloc::{AllocError, Global};

/// The rest of a certificate's text, with the last node that was read, the number of the next node, from 1,
/// the sets of the nodes whose claims are still to be compared, in the order of their lines, the stretches that were
/// found last, the first fault of the nodes so far, and the fault that has ended the walk, if any.
#[derive(Drop)]
pub struct Walk<'a> {
    pub nodes: Lines<'a>,
    pub buffer: NodeBuffer,
    number: u64,
    sets: Vec<LabelId>,
    near: LastFound,
    pub fault: Option<CheckFault>,
    pub outcome: Result<(), CertFault>,
}

impl<'a> Walk<'a> {
    /// Constructs a walk at the first line of a node.
    pub fn new(alloc: Global, nodes: Lines<'a>) -> Walk<'a>
        ensures nodes { result.nodes ≡ nodes.entry }
        ensures number { result.number ≡ 1 }
        ensures fault { result.fault ≡ None }
    {
        Walk {
            nodes,
            buffer: NodeBuffer::new(alloc),
            number: 1,
            sets: Vec::new(alloc),
            near: LastFound { map: 0, list: 0 },
            fault: None,
            outcome: Ok(()),
        }
    }

    /// Keeps the fault of the node with this number, if there is one and none came before.
    pub fn note(&mut self, kind: Option<CheckFaultKind>, node: u64)
        ensures { self.new ≡ record self.old { fault = option_or self.old.fault (fault_with node kind) } }
    {
        if let (None, Some(kind)) = (self.fault, kind) {
            self.fault = Some(CheckFault { kind, node });
        }
    }

    // Keeps the fault that ends the walk, and returns `None`. A result that has the fault wouldn't fit into registers.
    #[cold]
    fn stop(&mut self, fault: CertFault) -> Option<u32>
        ensures stop { self.new ≡ record self.old { outcome = Err fault } }
        ensures none { result ≡ None }
    {
        self.outcome = Err(fault);
        None
    }
}

// What a node claims: a cost, and the walk's sets from an index on.
#[derive(Clone, Copy)]
struct StoredClaim {
    cost: u32,
    from: usize,
}

// Adds the set of a claim to others, quickly if it has one label.
#[inline(always)]
fn hold(sets: &mut Vec<LabelId>, claim: Claim) -> Result<StoredClaim, AllocError>
    ensures cost { IfOk result (λ held. held.cost ≡ claim.entry.cost) }
    ensures from { IfOk result (λ held. held.from ≡ length sets.old.items) }
    ensures sets { OnOk result (sets.new.items ≡ sets.old.items ++ claim.entry.set.now) }
{
    let from = sets.len();
    match claim.set {
        [id] => sets.push(*id)?,
        _ => sets.extend_from_slice(claim.set)?,
    }
    Ok(StoredClaim {
        cost: claim.cost,
        from,
    })
}

// Adds the label that a leaf claims to others.
#[inline(always)]
fn hold_leaf(sets: &mut Vec<LabelId>, id: LabelId) -> Result<(), AllocError>
    ensures { OnOk result (sets.new.items ≡ sets.old.items ++ id ∷ []) }
{
    sets.push(id)?;
    Ok(())
}

// Returns the number of the node after one.
fn next_number(number: u64) -> u64
    ensures { IsAfter number result }
{
    number.saturating_add(1)
}

/// Reads the next node and those below it, and checks them for the block of length `len` with these addresses. Adds the
/// set that the node claims to the walk's, and returns the cost. Returns `None` if a fault has ended the walk.
#[cycle(nodes)]
#[inline(always)]
pub fn check_node(
    sources: &Sources,
    walk: &mut Walk,
    first: u128,
    last: u128,
    len: u32,
) -> Option<u32>
    requires sources { AreSources sources.now }
    requires range { IsRangeOf sources.now first last len (number_at sources.now len first) }
    ensures { let q = number_at sources.now len first in
        IsWalkResult sources.now (reading_at sources.now len walk.old.nodes) (fault_of_node len q)
        walk.old.number walk.old.sets.items walk.old.fault walk.new result }
{
    let deepest = walk.nodes.fault(CertFaultKind::TooDeep);
    let number = walk.number;
    walk.number = next_number(number);
    match walk.nodes.next_node(&mut walk.buffer, &sources.limits) {
        Err(fault) => walk.stop(fault),
        Ok(Node::Leaf(id)) => {
            let Ok(()) = hold_leaf(&mut walk.sets, id) else {
                return walk.stop(CertFault::from(AllocError));
            };
            let fault = sources.leaf_fault(&mut walk.near, first, last, id);
            walk.note(fault, number);
            Some(0)
        }
        Ok(Node::Inner(claim)) => {
            if len == sources.limits.width {
                return walk.stop(deepest);
            }
            let Ok(held) = hold(&mut walk.sets, claim) else {
                return walk.stop(CertFault::from(AllocError));
            };
            check_inner(sources, walk, first, last, len, number, held)
        }
        Ok(Node::Chain { claim, path, side }) => {
            if path.len() > sources.limits.width - len {
                return walk.stop(deepest);
            }
            let path = *path;
            let Ok(held) = hold(&mut walk.sets, claim) else {
                return walk.stop(CertFault::from(AllocError));
            };
            let block = Block {
                version: sources.version,
                value: first,
                len,
            };
            check_chain(sources, walk, &block, number, held, &path, side)
        }
    }
}

// Checks the nodes of an inner node's halves, and then its claim.
#[cycle(nodes)]
fn check_inner(
    sources: &Sources,
    walk: &mut Walk,
    first: u128,
    last: u128,
    len: u32,
    number: u64,
    held: StoredClaim,
) -> Option<u32>
    requires sources { AreSources sources.now }
    requires range { IsRangeOf sources.now first last len (number_at sources.now len first) }
    requires room { len < sources.now.limits.width }
    requires number { IsAfter number walk.old.number }
    requires held { IsHeld sources.now held walk.old.sets.items }
    ensures { let q = number_at sources.now len first in IsWalkResult sources.now
        (halves_reading sources.now len (held_claim sources.now held walk.old.sets.items) walk.old.nodes)
        (fault_of_node len q) number (take held.from walk.old.sets.items) walk.old.fault walk.new result }
{
    let middle = first + (last - first) / 2;
    let lower = walk.sets.len();
    let lower_cost = check_node(sources, walk, first, middle, len + 1)?;
    let upper = walk.sets.len();
    let upper_cost = check_node(sources, walk, middle + 1, last, len + 1)?;
    let sets = walk.sets.as_slice();
    let fault = claim_fault(
        sources.limits.labels,
        Claim {
            cost: held.cost,
            set: &sets[held.from..lower],
        },
        Claim {
            cost: lower_cost,
            set: &sets[lower..upper],
        },
        Claim {
            cost: upper_cost,
            set: &sets[upper..],
        },
    );
    walk.sets.truncate(lower);
    walk.note(fault, number);
    Some(held.cost)
}

// Checks the node at the end of a chain with these bits and this side label, then the blocks beside its path, and then
// its claim.
#[cycle(nodes)]
fn check_chain(
    sources: &Sources,
    walk: &mut Walk,
    block: &Block,
    number: u64,
    held: StoredClaim,
    path: &Path,
    side: LabelId,
) -> Option<u32>
    requires sources { AreSources sources.now }
    requires version { block.now.version ≡ sources.now.version }
    requires fits { FitsPath sources.now block.now side.0 (bits_in path.now) }
    requires some { 0 < length (bits_in path.now) }
    requires number { IsAfter number walk.old.number }
    requires held { IsHeld sources.now held walk.old.sets.items }
    ensures { IsWalkResult sources.now
        (chain_reading sources.now block.now.len (held_claim sources.now held walk.old.sets.items)
        (bits_in path.now) side.0 walk.old.nodes)
        (fault_of_node block.now.len (number_of block.now)) number
        (take held.from walk.old.sets.items) walk.old.fault walk.new result }
{
    let end = path.end(block);
    let is_clear_before = sources.is_clear_before(&mut walk.near, block, &end, side);
    let start = walk.sets.len();
    let end_cost = check_node(sources, walk, end.value, end.high().value, end.len)?;
    let beside = sources.path_fault(&mut walk.near, block, path, side, is_clear_before);
    walk.note(beside, number);
    let sets = walk.sets.as_slice();
    let fault = chain_fault(
        sources.limits.labels,
        Claim {
            cost: held.cost,
            set: &sets[held.from..start],
        },
        Claim {
            cost: end_cost,
            set: &sets[start..],
        },
        path,
        side,
    );
    walk.sets.truncate(start);
    walk.note(fault, number);
    Some(held.cost)
}
