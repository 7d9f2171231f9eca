//! Reads the entries of a map's shortest list off its certificate, compact or not, from the root down.
ghost use Rattle.std.specs.Prelude.{IfOk};
ghost use Rattle.prefix_keys.specs.Block.{width_of};
ghost use Rattle.pmap_cert.specs.Node.{Node as AnyNode};
ghost use Rattle.pmap_minimise.specs.Listing.{IsListedBy};
ghost use Rattle.pmap_minimise.specs.Numbers.{IsSound};
ghost use Rattle.pmap_cert.specs.Opened.{Opens};

use crate::entering::push_own;
use pmap_cert::{Cursor, Node, Root};
use pmap_model::{Entries, LabelId};
use prefix_keys::{Block, Version};
use std::alloc::{AllocError, Global};

/// Returns the entries of the shortest list by ascending first address, by the root of a map's certificate.
pub fn entries_of(alloc: Global, root: &Root, version: Version) -> Result<Entries, AllocError>
    requires { (node : AnyNode) × IsSound node (width_of version) × Opens root.now node }
    ensures { IfOk result (λ entries. (node : AnyNode) → Opens root.now node
        → IsListedBy version node entries) }
{
    // Reads the nodes from the first line to the last.
    let mut at = Cursor::at_root(root);
    let mut entries = Entries::new(alloc);
    // The blocks whose nodes are still to be read, without the blocks inside them, and the label that each inherits.
    // The block of the next node is the last.
    let mut due: Vec<(Block, Option<LabelId>)> = Vec::new(alloc);
    due.push((Block::whole(version), None))?;
    while let Some((block, inherited)) = due.pop() {
        let label = push_own(&mut entries, at.claim().set, block, inherited)?;
        let node = at.node();
        at = at.next();
        match node {
            Node::Leaf(_) => {}
            Node::Inner(_) => {
                let Some((low, high)) = block.halves() else {
                    unreachable!()
                };
                due.push((high, Some(label)))?;
                due.push((low, Some(label)))?;
            }
            Node::Chain { path, .. } => due.push((path.end(&block), Some(label)))?,
        }
    }
    Ok(entries)
}
