ghost use Rattle.std.specs.Prelude.{◌≡◌};
ghost use Rattle.pmap_cert.specs.Opened.{has_number, numbers_of};

use crate::path::Path;
use pmap_model::LabelId;

/// What a node claims: a cost, and a set of labels by ascending numbers. A leaf claims the cost 0 and only its label.
#[derive(Clone, Copy)]
pub struct Claim<'a> {
    pub cost: u32,
    pub set: &'a [LabelId],
}

/// A node without those below it: a leaf with its label, an inner node with its claim, or a chain with its claim, its
/// bits and its side label.
#[derive(Clone, Copy)]
pub enum Node<'a> {
    Leaf(LabelId),
    Inner(Claim<'a>),
    Chain {
        claim: Claim<'a>,
        path: &'a Path,
        side: LabelId,
    },
}

/// Returns whether the label is one of `labels`.
pub fn has_label(labels: &[LabelId], id: LabelId) -> bool
    ensures { result ≡ has_number (numbers_of labels.now) id.0 }
{
    labels.iter().any(|label| id.0 == label.0)
}
