ghost use Rattle.std.specs.Prelude.{◌≡◌, ◌+◌, ◌^◌, ◌<◌, ◌++◌, ◌∷◌, [], IfOk, OnErr};
ghost use Rattle.std.specs.Prelude.{OnOk, length, map, reverse, slice_index_or};
ghost use Rattle.pmap_cert.specs.CertificateText.{ChainLine, LeafLine};
ghost use Rattle.pmap_cert.specs.CertificateModel.{claim_of};
ghost use Rattle.pmap_cert.specs.Node.{node_of};
ghost use Rattle.pmap_cert.specs.Packed.{HasSetAt, IsGrown, IsLine, IsMore, bits_in};
ghost use Rattle.pmap_cert.specs.Packed.{cost_at, line_of, set_at, store_of};

use crate::node::{Claim, Node};
use crate::packed::{HALF, Packed, SHORT_COSTS, Unpacked};
use crate::path::Path;
use pmap_model::LabelId;
use std::alloc::{AllocError, Global};
use std::marker::Model;
use std::slice;

// A chain. The set of a `SideChain` is its side label alone, any other is in `sets`, from the index `set` on.
#[derive(Clone, Copy)]
struct PackedChain {
    cost: u32,
    side: LabelId,
    set: usize,
    path: Path,
}

/// The nodes of a certificate in the order of their lines. Each takes 8 bytes, a chain 48 more.
pub struct Nodes {
    lines: Vec<Packed>,
    chains: Vec<PackedChain>,
    // For each set: the lower and the upper 32 bits of the number of its labels, and then the labels. The cost of an
    // inner node is before its set.
    sets: Vec<LabelId>,
}

// A drop is one call, so the proofs of functions that drop this type have one step instead of one for each part.
impl Drop for Nodes {
    fn drop(self) {
        let Nodes {
            lines: _,
            chains: _,
            sets: _,
        } = self;
    }
}

impl Model for Nodes {
    ghost use Rattle.std.specs.Prelude.{List, map};
    ghost use Rattle.std.specs.List.{All};
    ghost use Rattle.pmap_cert.specs.CertificateText.{DueLine};
    ghost use Rattle.pmap_cert.specs.Packed.{IsPacked, line_in, store_of};

    ghost Value = { List DueLine };

    ghost view = { λ n. map (line_in (store_of n.sets.items n.chains.items)) n.lines.items };

    ghost invariant = { λ n. All (IsPacked (store_of n.sets.items n.chains.items)) n.lines.items };
}

// Appends a set to the sets, and returns its index.
fn hold(sets: &mut Vec<LabelId>, set: &[LabelId]) -> Result<usize, AllocError>
    ensures grown { IsGrown sets.old.items sets.new.items }
    ensures place { IfOk result (λ place. place ≡ length sets.old.items) }
    ensures whole { IfOk result (HasSetAt sets.new.items) }
    ensures set { IfOk result (λ place. set_at sets.new.items place ≡ map (λ id. id.0) set.now) }
{
    let place = sets.len();
    let (low, high) = (set.len() % HALF, set.len() / HALF);
    sets.extend_from_slice(&[LabelId(low as u32), LabelId(high as u32)])?;
    sets.extend_from_slice(set)?;
    Ok(place)
}

// Appends a cost and a set, and returns the index of the cost.
#[inline(always)]
fn hold_claim(sets: &mut Vec<LabelId>, claim: Claim) -> Result<usize, AllocError>
    ensures grown { IsGrown sets.old.items sets.new.items }
    ensures below { IfOk result (λ place. place < 2 ^ 61) }
    ensures cost { IfOk result (λ place. cost_at sets.new.items place ≡ claim.entry.cost) }
    ensures whole { IfOk result (λ place. HasSetAt sets.new.items (place + 1)) }
    ensures set { IfOk result (λ place. set_at sets.new.items (place + 1) ≡ map (λ id. id.0) claim.entry.set.now) }
{
    // Provides the bound on the number of labels.
    let place = sets.as_slice().len();
    sets.push(LabelId(claim.cost))?;
    hold(sets, claim.set)?;
    Ok(place)
}

// Returns the set with this index.
#[inline(always)]
fn held(sets: &[LabelId], place: usize) -> &[LabelId]
    requires { HasSetAt sets.now place }
    ensures { map (λ id. id.0) result.now ≡ set_at sets.now place }
{
    let start = place + 2;
    let count = sets[place + 1].0 as usize * HALF + sets[place].0 as usize;
    &sets[start..start + count]
}

// Stores a chain with its set, and returns its line.
fn pack_chain(
    sets: &mut Vec<LabelId>,
    chains: &mut Vec<PackedChain>,
    claim: Claim,
    path: &Path,
    side: LabelId,
) -> Result<Packed, AllocError>
    ensures more { IsMore (store_of sets.old.items chains.old.items) (store_of sets.new.items chains.new.items) }
    ensures ok { IfOk result (λ line. IsLine (store_of sets.new.items chains.new.items) line
        (ChainLine claim.entry.cost (bits_in path.now) side.0 (map (λ id. id.0) claim.entry.set.now))) }
{
    // Provides the bound on the number of chains.
    let index = chains.as_slice().len();
    let cost = claim.cost;
    if let [id] = claim.set
        && id.0 == side.0
    {
        chains.push(PackedChain {
            cost,
            side,
            set: 0,
            path: *path,
        })?;
        return Ok(Packed::pack(Unpacked::SideChain(index)));
    }
    let set = hold(sets, claim.set)?;
    chains.push(PackedChain {
        cost,
        side,
        set,
        path: *path,
    })?;
    Ok(Packed::pack(Unpacked::Chain(index)))
}

// Stores what the line of a node doesn't have itself, and returns the line.
#[inline(always)]
fn pack(
    sets: &mut Vec<LabelId>,
    chains: &mut Vec<PackedChain>,
    node: Node,
) -> Result<Packed, AllocError>
    ensures more { IsMore (store_of sets.old.items chains.old.items) (store_of sets.new.items chains.new.items) }
    ensures ok { IfOk result (λ line. IsLine (store_of sets.new.items chains.new.items) line (line_of node.entry)) }
{
    match node {
        Node::Leaf(id) => Ok(Packed::pack(Unpacked::Leaf(id))),
        Node::Inner(claim) => {
            if let [id] = claim.set
                && claim.cost < SHORT_COSTS
            {
                return Ok(Packed::pack(Unpacked::Single(claim.cost, *id)));
            }
            let place = hold_claim(sets, claim)?;
            Ok(Packed::pack(Unpacked::Inner(place)))
        }
        Node::Chain { claim, path, side } => pack_chain(sets, chains, claim, path, side),
    }
}

impl Nodes {
    /// Constructs an empty list of nodes.
    pub fn new(alloc: Global) -> Nodes
        ensures { result ≡ [] }
    {
        Nodes {
            lines: Vec::new(alloc),
            chains: Vec::new(alloc),
            sets: Vec::new(alloc),
        }
    }

    /// Constructs an empty list with room for this many lines and chains.
    pub fn with_capacity(alloc: Global, lines: usize, chains: usize) -> Result<Nodes, AllocError>
        ensures { IfOk result (λ nodes. nodes ≡ []) }
    {
        Ok(Nodes {
            lines: Vec::with_capacity(alloc, lines)?,
            chains: Vec::with_capacity(alloc, chains)?,
            sets: Vec::new(alloc),
        })
    }

    /// Returns the number of nodes.
    pub fn len(&self) -> usize
        ensures { result ≡ length self.now }
    {
        self.lines.len()
    }

    /// Adds the line of a node. The lines of an inner node's lower half must follow, then those of its upper half, and
    /// those of a chain's end. If an allocation fails, the lines are unchanged.
    #[inline(always)]
    pub fn push(&mut self, node: Node) -> Result<(), AllocError>
        ensures ok { OnOk result (self.new ≡ self.old ++ line_of node.entry ∷ []) }
        ensures err { OnErr result (self.new ≡ self.old) }
    {
        let line = pack(&mut self.sets, &mut self.chains, node)?;
        self.lines.push(line)?;
        Ok(())
    }

    /// Returns the node at line `number`.
    #[inline(always)]
    pub fn node(&self, number: usize) -> Node<'_>
        requires { number < length self.now }
        ensures { line_of result ≡ slice_index_or self.now number (LeafLine 0) }
    {
        match self.lines[number].unpack() {
            Unpacked::Leaf(id) => Node::Leaf(id),
            Unpacked::Single(_, _) | Unpacked::Inner(_) => Node::Inner(self.claim(number)),
            Unpacked::SideChain(index) | Unpacked::Chain(index) => {
                let chain = &self.chains[index];
                Node::Chain {
                    claim: self.claim(number),
                    path: &chain.path,
                    side: chain.side,
                }
            }
        }
    }

    /// Returns what the node at line `number` claims.
    #[inline(always)]
    pub fn claim(&self, number: usize) -> Claim<'_>
        requires { number < length self.now }
        ensures cost { result.cost ≡ (claim_of (node_of (slice_index_or self.now number (LeafLine 0)))).cost }
        ensures set { map (λ id. id.0) result.set.now
            ≡ (claim_of (node_of (slice_index_or self.now number (LeafLine 0)))).labels }
    {
        let packed = &self.lines[number];
        let (cost, set) = match packed.unpack() {
            Unpacked::Leaf(_) => (0, slice::from_ref(&packed.label)),
            Unpacked::Single(cost, _) => (cost, slice::from_ref(&packed.label)),
            Unpacked::Inner(place) => (self.sets[place].0, held(self.sets.as_slice(), place + 1)),
            Unpacked::SideChain(index) => {
                let chain = &self.chains[index];
                (chain.cost, slice::from_ref(&chain.side))
            }
            Unpacked::Chain(index) => {
                let chain = &self.chains[index];
                (chain.cost, held(self.sets.as_slice(), chain.set))
            }
        };
        Claim { cost, set }
    }

    /// Reverses the order of the lines.
    pub fn reverse(&mut self)
        ensures { self.new ≡ reverse self.old }
    {
        self.lines.reverse();
    }
}
