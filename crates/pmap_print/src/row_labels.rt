ghost use Rattle.std.specs.Prelude.{◌≤◌, IfSome, length};
ghost use Rattle.std.proofs.Props.{props};

/// The labels of a row's source and destination address. An address without a label has `None`. A label has at most 255
/// bytes.
#[derive(Clone, Copy)]
pub struct RowLabels<'a> {
    /// The label of the source.
    pub src: Option<&'a [u8]>,
    /// The label of the destination.
    pub dst: Option<&'a [u8]>,
    ghost src_is_short: { IfSome src (λ t. length t.now ≤ 255) } by { Prim.hlevel props },
    ghost dst_is_short: { IfSome dst (λ t. length t.now ≤ 255) } by { Prim.hlevel props },
}
