use crate::label::LabelId;
use prefix_keys::Block;

/// An entry of a prefix list: the addresses of a block have a label, unless an entry with a longer block covers them.
#[derive(Clone, Copy)]
pub struct Entry {
    pub block: Block,
    pub label: LabelId,
}
