use pmap_model::LabelId;
use prefix_keys::Block;

/// A block that a trie does not divide, with the number of its label, if it has one.
#[derive(Clone, Copy, PartialEq, Eq)]
pub struct Leaf {
    pub block: Block,
    pub label: Option<LabelId>,
}
