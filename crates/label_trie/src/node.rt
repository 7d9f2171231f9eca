use pmap_model::LabelId;

/// A node of a trie as the trie stores it, without its block: a leaf with a label, a leaf without one, or a divided
/// block with the number of its upper half. The number of the lower half is one more than the node's own.
#[derive(Clone, Copy)]
pub enum TrieNode {
    Labelled(LabelId),
    Unlabelled,
    Inner(u32),
}
