ghost use Rattle.std.specs.Prelude.{◌≡◌, ◌+◌};
ghost use Rattle.prefix_keys.specs.Block.{first_of, last_of, width_of};
ghost use Rattle.label_trie.specs.TrieModel.{IsCut, IsNode, number_of};
ghost use Rattle.label_trie.specs.Nodes.{IsPlace, leaves_at};

use crate::node::TrieNode;
use crate::trie::Trie;
use pmap_model::LabelId;
use prefix_keys::Block;
use std::marker::Model;

/// A cursor at a node of a trie: a divided block or a leaf. A walk starts at `Trie::root`, or at any node with
/// `Trie::node`.
#[derive(Drop)]
pub struct Cursor<'a> {
    trie: &'a Trie,
    number: u32,
    block: Block,
}

impl<'a> Model for Cursor<'a> {
    ghost use Rattle.label_trie.specs.TrieModel.{CursorModel};

    ghost Value = { CursorModel };

    ghost use Rattle.label_trie.specs.Nodes.{IsPlace, leaves_at};

    ghost view = { λ c. record {
      block = c.block;
      leaves = leaves_at c.trie.now.nodes c.number;
      number = c.number;
      nodes = c.trie.now.nodes;
    } };

    ghost invariant = { λ c. IsPlace c.trie.now c.number c.block };
}

/// The parts of a node: a leaf's label, or cursors at the lower and the higher half of the block.
#[derive(Drop)]
pub enum Parts<'a> {
    Leaf(Option<LabelId>),
    Inner(Cursor<'a>, Cursor<'a>),
}

/// Returns a cursor at the node with this number, which is for this block.
pub fn cursor_at<'a>(trie: &'a Trie, number: u32, block: Block) -> Cursor<'a>
    requires { IsPlace trie.now number block }
    ensures block { result.block ≡ block }
    ensures leaves { result.leaves ≡ leaves_at trie.now.nodes number }
    ensures number { result.number ≡ number }
    ensures nodes { result.nodes ≡ trie.now.nodes }
{
    Cursor {
        trie,
        number,
        block,
    }
}

impl Cursor<'_> {
    /// Returns the block of the node.
    pub fn block(&self) -> Block
        ensures block { result ≡ self.now.block }
        ensures cut { let W = width_of result.version in
            let number = number_of result in
            IsCut W (first_of W result.len number) (last_of W result.len number + 1) self.now.leaves }
    {
        self.block
    }

    /// Returns the number of the node, which is below `Trie::node_count`. No two nodes of a trie share a number. The
    /// root has number 0, and the halves of a block have greater numbers than the block.
    pub fn number(&self) -> u32
        ensures value { result ≡ self.now.number }
        ensures node { IsNode self.now }
    {
        self.number
    }
}

impl<'a> Cursor<'a> {
    ghost use Rattle.label_trie.specs.Parts.{ArePartsOf};

    /// Returns the node's label if it is a leaf, otherwise cursors at its two halves.
    pub fn parts(&self) -> Parts<'a>
        ensures { ArePartsOf self.now result }
    {
        match self.trie.stored(self.number) {
            TrieNode::Labelled(id) => Parts::Leaf(Some(id)),
            TrieNode::Unlabelled => Parts::Leaf(None),
            TrieNode::Inner(upper) => {
                let Some((low, high)) = self.block.halves() else {
                    unreachable!()
                };
                Parts::Inner(
                    cursor_at(self.trie, self.number + 1, low),
                    cursor_at(self.trie, upper, high),
                )
            }
        }
    }
}
