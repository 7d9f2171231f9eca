use crate::label::LabelId;
use prefix_keys::Span;

/// A mapping of a prefix map: the addresses of a span have a label. Of two mappings that cover an address the later one
/// decides.
#[derive(Clone, Copy)]
pub struct Statement {
    pub span: Span,
    pub label: LabelId,
}
