//! Builds the certificate of a map's minimal pair from the map's trie, from the leaves up.
ghost use Rattle.std.specs.Prelude.{All, IfOk, IsSome};
ghost use Rattle.prefix_keys.specs.Block.{width_of};
ghost use Rattle.pmap_minimise.specs.Numbers.{IsCertified};

use crate::building::push_inner;
use label_trie::{Trie, TrieNode};
use pmap_cert::{Node, Nodes, Root};
use std::alloc::{AllocError, Global};

/// Returns the root of the certificate of the map with this trie. A leaf claims the cost 0 and its label, an inner node
/// the exact claim of its halves.
pub fn claimed(alloc: Global, trie: &Trie) -> Result<Root, AllocError>
    requires { All (λ leaf. IsSome leaf.label) trie.now.leaves }
    ensures { IfOk result (IsCertified 0 0 (width_of trie.now.version) trie.now.leaves) }
{
    let count = trie.node_count();
    let mut nodes = Nodes::with_capacity(alloc, count as usize, 0)?;
    // The lines are in reverse order: that of a node follows those of all nodes with greater numbers.
    for number in (0..count).rev() {
        match trie.stored(number) {
            TrieNode::Labelled(id) => nodes.push(Node::Leaf(id))?,
            TrieNode::Unlabelled => unreachable!(),
            TrieNode::Inner(upper) => {
                let line = (count - 1 - upper) as usize;
                push_inner(alloc, &mut nodes, line)?;
            }
        }
    }
    Ok(Root::of_reversed(nodes))
}
