//! Printing a compact certificate with each chain opened.
ghost use Rattle.std.specs.Prelude.{◌≡◌, ◌+◌, ◌<◌, ◌≤◌, ◌++◌, ◌∷◌, [], OnOk, drop};
ghost use Rattle.std.specs.Prelude.{if◌then◌else◌, length, nat_lt, position, take};
ghost use Rattle.std.specs.Fmt.{decimal};
ghost use Rattle.std.specs.List.{flat_map};
ghost use Rattle.flow_io.specs.Sinks.{Adds, Pushes};
ghost use Rattle.pmap_cert.specs.CertificateText.{InnerLine, LeafLine, certificate_text, node_line_text};
ghost use Rattle.pmap_cert.specs.CertificateModel.{CertificateModel, claim_of};
ghost use Rattle.pmap_cert.specs.Node.{Node as AnyNode, first_node};
ghost use Rattle.pmap_cert.specs.Opened.{IsOpenedAt, Opens, cost_above, node_text, numbers_of};
ghost use Rattle.pmap_cert.specs.Opened.{path_node, set_above, text_down, text_up, with_number};

use crate::certificate::Certificate;
use crate::cursor::Cursor;
use crate::format::Format;
use crate::node::{Node, has_label};
use crate::path::Path;
use crate::writing::{push_head, push_line, push_number, push_set};
use flow_io::{Printable, Sink};
use itoa::write_digits;
use pmap_model::LabelId;

// The room for the two lines of a chain, which have at most 37 bytes, and the room for the second one.
const ROOM: usize = 40;

const LEAF_ROOM: usize = 16;

// A chain whose bits are the last ones of `value`. The first bytes of `lines` are the line of a node that claims the
// side label alone, and then the line of a side block, with which `leaf` begins, too. The arrays have a constant size,
// so they are copied fast.
#[derive(Clone, Copy)]
struct Chain {
    cost: u32,
    side: LabelId,
    value: u128,
    lines: [u8; ROOM],
    node_len: usize,
    both_len: usize,
    leaf: [u8; LEAF_ROOM],
    leaf_len: usize,
    ghost node_within: { node_len ≤ length lines },
    ghost both_within: { both_len ≤ length lines },
    ghost leaf_within: { leaf_len ≤ length leaf },
    ghost node_is: { take node_len lines ≡ node_line_text (InnerLine cost (side.0 ∷ [])) ++ 10 ∷ [] },
    ghost leaf_is: { take leaf_len leaf ≡ node_line_text (LeafLine side.0) ++ 10 ∷ [] },
    ghost both_is: { take both_len lines
        ≡ (node_line_text (InnerLine cost (side.0 ∷ [])) ++ 10 ∷ []) ++ (node_line_text (LeafLine side.0) ++ 10 ∷ []) },
}

// Writes a byte before the index `end`, and returns its index.
fn write_byte(lines: &mut [u8], end: usize, byte: u8) -> usize
    requires some { 0 < end }
    requires within { end ≤ length lines.old }
    ensures text { drop result lines.new ≡ byte ∷ drop end lines.old }
    ensures start { result + 1 ≡ end }
{
    lines[end - 1] = byte;
    end - 1
}

// Writes a space and a number before the index `end`, and returns the index of the space.
fn write_number(lines: &mut [u8], end: usize, number: u32) -> usize
    requires some { 11 ≤ end }
    requires within { end ≤ length lines.old }
    ensures text { drop result lines.new ≡ 32 ∷ (decimal number ++ drop end lines.old) }
    ensures start { result + 1 + length (decimal number) ≡ end }
    ensures few { end ≤ result + 11 }
{
    let start = write_digits(u64::from(number), lines, end);
    write_byte(lines, start, b' ')
}

// Writes the line of a node that claims the side label alone, and then the line of a side block, before the index
// `ROOM`. Returns the indices at which they begin.
fn write_lines(lines: &mut [u8; 2 * ROOM], cost: u32, side: LabelId) -> (usize, usize)
    ensures within { result.1 ≤ length lines.new }
    ensures few { (27 ≤ result.1) × (result.0 ≤ result.1) }
    ensures last { result.1 + length (node_line_text (LeafLine side.0) ++ 10 ∷ []) ≡ ROOM }
    ensures len { result.0 + length (node_line_text (InnerLine cost (side.0 ∷ [])) ++ 10 ∷ []) ≡ result.1 }
    ensures both { drop result.0 lines.new ≡ (node_line_text (InnerLine cost (side.0 ∷ [])) ++ 10 ∷ [])
        ++ ((node_line_text (LeafLine side.0) ++ 10 ∷ []) ++ drop ROOM lines.old) }
{
    let end = write_byte(lines, ROOM, b'\n');
    let number = write_number(lines, end, side.0);
    let leaf = write_byte(lines, number, b'l');
    let end = write_byte(lines, leaf, b'\n');
    let set = write_number(lines, end, side.0);
    let number = write_number(lines, set, cost);
    (write_byte(lines, number, b'n'), leaf)
}

// Returns the index of the first label of a set that comes after this label.
fn find_after(set: &[LabelId], side: LabelId) -> Option<usize>
    ensures { result ≡ position (λ id. nat_lt side.0 id.0) set.now }
{
    set.iter().position(|id| side.0 < id.0)
}

// Prints the numbers of a set with one more label, in ascending order, with a space before each.
fn push_set_with<S: Sink>(out: &mut S, set: &[LabelId], side: LabelId) -> Result<(), S::Fault>
    ensures { Pushes S.sink S.began out.old out.new
        (flat_map (λ n. 32 ∷ decimal n) (with_number side.0 (numbers_of set.now))) result }
{
    let index = find_after(set, side).unwrap_or(set.len());
    let (before, after) = set.split_at(index);
    push_set(out, before)?;
    push_number(out, side.0)?;
    push_set(out, after)
}

// Prints the line of an inner node that claims a set with one more label.
#[inline(never)]
fn push_inner_with<S: Sink>(
    out: &mut S,
    cost: u32,
    set: &[LabelId],
    side: LabelId,
) -> Result<(), S::Fault>
    ensures { Pushes S.sink S.began out.old out.new
        (node_line_text (InnerLine cost (with_number side.0 (numbers_of set.now))) ++ 10 ∷ []) result }
{
    out.push(b"n")?;
    push_number(out, cost)?;
    push_set_with(out, set, side)?;
    out.push(b"\n")
}

// Prints the line of a chain's node that has `more` of the chain's nodes below it, by the set of the chain's end, and
// then the line of the side block if that comes before the end.
#[inline(always)]
fn push_step<S: Sink>(
    out: &mut S,
    chain: &Chain,
    set: &[LabelId],
    more: u32,
    before: bool,
) -> Result<(), S::Fault>
    ensures { Pushes S.sink S.began out.old out.new
        ((node_line_text (InnerLine chain.now.cost (set_above chain.now.side.0 (numbers_of set.now) more)) ++ 10 ∷ [])
        ++ (if before then node_line_text (LeafLine chain.now.side.0) ++ 10 ∷ [] else [])) result }
{
    if more > 0 || has_label(set, chain.side) {
        return out.push_start(
            &chain.lines,
            if before {
                chain.both_len
            } else {
                chain.node_len
            },
        );
    }
    push_inner_with(out, chain.cost, set, chain.side)?;
    if before {
        out.push_start(&chain.leaf, chain.leaf_len)?;
    }
    Ok(())
}

// Prints the lines of a chain's last `bits` nodes, and of the side blocks before the chain's end, by the set of the
// end.
fn push_down<S: Sink>(
    out: &mut S,
    chain: &Chain,
    set: &[LabelId],
    bits: u32,
) -> Result<(), S::Fault>
    requires { bits ≤ 128 }
    ensures { Pushes S.sink S.began out.old out.new
        (text_down chain.now.cost chain.now.side.0 (numbers_of set.now) chain.now.value bits) result }
{
    if bits == 0 {
        return Ok(());
    }
    let more = bits - 1;
    push_step(out, chain, set, more, (chain.value >> more) % 2 == 1)?;
    push_down(out, chain, set, more)
}

// Prints the lines of the side blocks after a chain's end.
fn push_up<S: Sink>(out: &mut S, chain: &Chain, count: u32) -> Result<(), S::Fault>
    requires { count ≤ 128 }
    ensures { Pushes S.sink S.began out.old out.new (text_up chain.now.side.0 chain.now.value count) result }
{
    let mut rest = chain.value;
    for place in 0..count {
        if rest % 2 == 0 {
            out.push_start(&chain.leaf, chain.leaf_len)?;
        }
        rest >>= 1;
    }
    Ok(())
}

fn chain_of(cost: u32, side: LabelId, value: u128) -> Chain
    ensures cost { result.cost ≡ cost }
    ensures side { result.side ≡ side }
    ensures value { result.value ≡ value }
{
    let mut written = [0; 2 * ROOM];
    let (start, middle) = write_lines(&mut written, cost, side);
    let mut lines = [0; ROOM];
    lines.copy_from_slice(&written[start..start + ROOM]);
    let mut leaf = [0; LEAF_ROOM];
    leaf.copy_from_slice(&written[middle..middle + LEAF_ROOM]);
    Chain {
        cost,
        side,
        value,
        lines,
        node_len: middle - start,
        both_len: ROOM - start,
        leaf,
        leaf_len: ROOM - middle,
    }
}

// Prints the lines of a chain, opened, with those of its end, at which the cursor is. The cursor moves past the end.
#[cycle(node)]
fn push_chain<S: Sink>(
    out: &mut S,
    at: &mut Cursor<'_>,
    cost: u32,
    path: &Path,
    side: LabelId,
) -> Result<(), S::Fault>
    requires { IsOpenedAt at.old }
    ensures next { OnOk result (at.new ≡ drop 1 at.old) }
    ensures text { OnOk result ((end : AnyNode) → Opens (first_node at.old) end
        → cost ≡ cost_above side.0 (claim_of end)
        → Adds S.sink S.began out.old out.new (node_text (path_node side.0 path.now.value path.now.count end))) }
{
    let chain = chain_of(cost, side, path.value);
    push_down(out, &chain, at.claim().set, path.count)?;
    push_node(out, at)?;
    push_up(out, &chain, path.count)
}

// Prints the lines of the node at the cursor, opened. The cursor moves past the node.
#[cycle(node)]
fn push_node<S: Sink>(out: &mut S, at: &mut Cursor<'_>) -> Result<(), S::Fault>
    requires { IsOpenedAt at.old }
    ensures next { OnOk result (at.new ≡ drop 1 at.old) }
    ensures text { OnOk result ((node : AnyNode) → Opens (first_node at.old) node
        → Adds S.sink S.began out.old out.new (node_text node)) }
{
    let node = at.node();
    *at = at.next();
    match node {
        Node::Leaf(id) => push_line(out, Node::Leaf(id)),
        Node::Inner(claim) => {
            push_line(out, Node::Inner(claim))?;
            push_node(out, at)?;
            push_node(out, at)
        }
        Node::Chain { claim, path, side } => push_chain(out, at, claim.cost, path, side),
    }
}

/// The text of the certificate of format 1 that a compact one is with each chain opened. It is printed without its
/// nodes.
#[derive(Drop)]
pub struct OpenedText {
    pub compact: Certificate,
}

impl Printable for OpenedText {
    ghost use Rattle.pmap_cert.specs.Certificate.{IsOpening};

    ghost is_whole = { λ t. (c : CertificateModel) × IsOpening t.compact c };

    ghost is_text = { λ t text. (c : CertificateModel) → IsOpening t.compact c → text ≡ certificate_text c };

    fn print<S: Sink>(&self, out: &mut S) -> Result<(), S::Fault> {
        let compact = &self.compact;
        compact.labels.laws();
        push_head(out, Format::One, compact.version, &compact.labels)?;
        push_node(out, &mut Cursor::at_root(&compact.root))
    }
}
