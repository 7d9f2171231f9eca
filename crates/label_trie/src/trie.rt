ghost use Rattle.std.specs.Prelude.{◌≡◌, ℕ, ◌+◌, ◌*◌, ◌^◌, ◌<◌, ◌≤◌, ◌++◌, Some, All, IfOk};
ghost use Rattle.std.specs.Prelude.{OnOk, length, map, option_map, option_and_then, slice_get};
ghost use Rattle.prefix_keys.specs.Block.{width_of};
ghost use Rattle.pmap_model.specs.ListModel.{list_label};
ghost use Rattle.pmap_model.specs.PrefixList.{list_of};
ghost use Rattle.pmap_model.specs.MapModel.{map_label};
ghost use Rattle.pmap_model.specs.MapText.{map_of};
ghost use Rattle.pmap_stretches.specs.Windows.{IsWindow};
ghost use Rattle.label_trie.specs.Leaves.{leaves_in, leaves_of};
ghost use Rattle.label_trie.specs.Nodes.{stored_of};
ghost use Rattle.label_trie.specs.Parts.{IsMet, IsRoot};
ghost use Rattle.label_trie.specs.Stored.{IsNodeAt, IsStoredAs};
ghost use Rattle.label_trie.specs.TrieModel.{model_of, IsCut, IsLeafSettledByList, IsNode};
ghost use Rattle.label_trie.specs.TrieModel.{IsSettledLeaf, IsUndivided, label_in};

use crate::cursor::{Cursor, Parts, cursor_at};
use crate::leaf::Leaf;
use crate::node::TrieNode;
use pmap_model::{LabelId, MapText, PrefixList};
use pmap_stretches::{Stretches, Window};
use prefix_keys::{Addr, Block, Version};
use std::alloc::{AllocError, Global};
use std::marker::Model;

/// A binary trie over the addresses of one version. Its leaves are disjoint blocks that cover every address, and each
/// leaf has the number of a label or none.
#[derive(Drop)]
pub struct Trie {
    version: Version,
    // A node comes before those of its lower half, and these come before those of its upper half.
    nodes: Vec<TrieNode>,
}

impl Model for Trie {
    ghost use Rattle.label_trie.specs.TrieModel.{TrieModel};

    ghost Value = { TrieModel };

    ghost use Rattle.label_trie.specs.Nodes.{AreStored, trie_in};

    ghost view = { λ t. trie_in t.version t.nodes.items };

    ghost invariant = { λ t. AreStored (trie_in t.version t.nodes.items) t.nodes.items };
}

impl Trie {
    /// Builds the trie of a map. A block is divided if and only if the map does not settle it.
    pub fn build(alloc: Global, map: &MapText) -> Result<Trie, AllocError>
        ensures version { IfOk result (λ t. t.version ≡ map.now.version) }
        ensures cut { IfOk result (λ t. let W = width_of map.now.version in IsCut W 0 (2 ^ W) t.leaves) }
        ensures settled { IfOk result (λ t. All (IsSettledLeaf (map_of map.now)) t.leaves) }
        ensures undivided { IfOk result (λ t. All (IsUndivided (map_of map.now)) t.leaves) }
        ensures labels { IfOk result (λ t. (a : ℕ) → a < 2 ^ width_of map.now.version
            → option_and_then (slice_get map.now.labels) (label_in t a) ≡ Some (map_label (map_of map.now) a)) }
        ensures bounded { IfOk result (λ t. 2 * length t.leaves
            ≤ 2 + 4 * width_of map.now.version * length map.now.statements) }
    {
        let stretches = Stretches::of_map(alloc, map)?;
        let trie = trie_of(alloc, &stretches)?;
        Ok(trie)
    }

    /// Builds the trie of a prefix list under longest match. No entry lies strictly inside a leaf, and a leaf that no
    /// entry covers has no label.
    pub fn build_list(alloc: Global, list: &PrefixList) -> Result<Trie, AllocError>
        requires { length list.now.entries ≤ 1000000 }
        ensures version { IfOk result (λ t. t.version ≡ list.now.version) }
        ensures cut { IfOk result (λ t. let W = width_of list.now.version in IsCut W 0 (2 ^ W) t.leaves) }
        ensures decided { IfOk result (λ t. All (IsLeafSettledByList (list_of list.now)) t.leaves) }
        ensures labels { IfOk result (λ t. (a : ℕ) → a < 2 ^ width_of list.now.version
            → option_and_then (slice_get list.now.labels) (label_in t a) ≡ list_label (list_of list.now) a) }
        ensures bounded { IfOk result (λ t. 2 * length t.leaves
            ≤ 2 + 2 * width_of list.now.version * length list.now.entries) }
    {
        let stretches = Stretches::of_list(alloc, list)?;
        let trie = trie_of(alloc, &stretches)?;
        Ok(trie)
    }

    /// Returns the number of the label at `addr`, which must be of the trie's version. Takes at most one step for each
    /// bit of the address.
    pub fn label_at(&self, addr: Addr) -> Option<LabelId>
        requires { addr.version ≡ self.now.version }
        ensures { option_map (λ id. id.0) result ≡ label_in self.now addr.value }
    {
        let mut number = 0;
        let mut bits = self.version.width();
        loop {
            match self.stored(number) {
                TrieNode::Labelled(id) => return Some(id),
                TrieNode::Unlabelled => return None,
                TrieNode::Inner(upper) => {
                    bits -= 1;
                    number = if (addr.value >> bits) % 2 == 0 {
                        number + 1
                    } else {
                        upper
                    };
                }
            }
        }
    }

    /// Returns the node with this number, which must be below `node_count`, as it is stored. In contrast to
    /// [`node`](Trie::node), it takes one step.
    pub fn stored(&self, number: u32) -> TrieNode
        requires { number < length self.now.nodes }
        ensures { IsStoredAs self.now number result }
    {
        self.nodes[number as usize]
    }

    /// Returns the number of nodes: the leaves, and the divided blocks, one fewer than the leaves. The node with the
    /// number 0 is the root.
    pub fn node_count(&self) -> u32
        ensures leaves { result + 1 ≡ 2 * length self.now.leaves }
        ensures nodes { result ≡ length self.now.nodes }
        ensures root { IsNodeAt self.now 0 (record { bits = 0; number = 0; leaves = self.now.leaves }) }
    {
        self.nodes.len() as u32
    }

    /// Returns the leaves in ascending order of their blocks.
    pub fn leaves(&self, alloc: Global) -> Result<Vec<Leaf>, AllocError>
        ensures version { IfOk result (λ leaves. All (λ leaf. leaf.block.version ≡ self.now.version) leaves.items) }
        ensures leaves { IfOk result (λ leaves. map model_of leaves.items ≡ self.now.leaves) }
    {
        let mut leaves = Vec::new(alloc);
        push_leaves(&mut leaves, &self.root())?;
        Ok(leaves)
    }

    /// Returns a cursor at the node of the whole address space.
    pub fn root(&self) -> Cursor
        ensures { IsRoot self.now result }
    {
        cursor_at(self, 0, Block::whole(self.version))
    }

    /// Returns a cursor at the node with this number, which must be below `node_count`. So a walk from the root meets
    /// the nodes with the numbers from 0 below `node_count`, each once. The call descends from the root, one step for
    /// each bit of the block's length.
    pub fn node(&self, number: u32) -> Cursor
        requires { number < length self.now.nodes }
        ensures version { result.block.version ≡ self.now.version }
        ensures number { result.number ≡ number }
        ensures nodes { result.nodes ≡ self.now.nodes }
        ensures node { IsNode result }
        ensures met { IsMet self.now result }
    {
        // Provides the law that the nodes are twice the leaves, less one.
        let _count = self.node_count();
        let mut place = self.root();
        while place.number() < number {
            let Parts::Inner(low, high) = place.parts() else {
                unreachable!()
            };
            place = if number < high.number() { low } else { high };
        }
        place
    }
}

// Returns the trie with these stretches.
fn trie_of(alloc: Global, stretches: &Stretches) -> Result<Trie, AllocError>
    requires { 2 * length (leaves_in stretches.now (width_of stretches.now.version) 0 0) < 2 ^ 32 }
    ensures version { IfOk result (λ t. t.version ≡ stretches.now.version) }
    ensures leaves { IfOk result (λ t. t.leaves ≡ leaves_in stretches.now (width_of stretches.now.version) 0 0) }
{
    stretches.laws();
    let mut nodes = Vec::new(alloc);
    push_nodes(&mut nodes, stretches, Window::whole(stretches))?;
    Ok(Trie {
        version: stretches.version(),
        nodes,
    })
}

// Appends the node for a block and those below it. If an allocation fails, some of them may have been appended.
fn push_nodes(
    nodes: &mut Vec<TrieNode>,
    stretches: &Stretches,
    window: Window,
) -> Result<(), AllocError>
    requires window { IsWindow stretches.now window }
    requires few { length nodes.old.items + 2 * length (leaves_of stretches.now window) < 2 ^ 32 }
    ensures { OnOk result (nodes.new.items ≡ nodes.old.items
        ++ stored_of stretches.now window (length nodes.old.items)) }
{
    stretches.laws();
    if window.from == window.to {
        let leaf = match stretches.label(window.from) {
            Some(id) => TrieNode::Labelled(id),
            None => TrieNode::Unlabelled,
        };
        nodes.push(leaf)?;
        return Ok(());
    }
    let (low, high) = window.halves(stretches);
    let number = nodes.len();
    // The number of the upper half is known after the nodes of the lower half.
    nodes.push(TrieNode::Inner(0))?;
    push_nodes(nodes, stretches, low)?;
    nodes[number] = TrieNode::Inner(nodes.len() as u32);
    push_nodes(nodes, stretches, high)
}

// Appends the leaves at and below the node. If an allocation fails, some of them may have been appended.
fn push_leaves(leaves: &mut Vec<Leaf>, place: &Cursor) -> Result<(), AllocError>
    ensures version { OnOk result (All (λ leaf. leaf.block.version ≡ place.now.block.version) leaves.old.items
        → All (λ leaf. leaf.block.version ≡ place.now.block.version) leaves.new.items) }
    ensures leaves { OnOk result (map model_of leaves.new.items ≡ map model_of leaves.old.items ++ place.now.leaves) }
{
    match place.parts() {
        Parts::Leaf(label) => leaves.push(Leaf {
            block: place.block(),
            label,
        })?,
        Parts::Inner(low, high) => {
            push_leaves(leaves, &low)?;
            push_leaves(leaves, &high)?;
        }
    }
    Ok(())
}
