//! Compacting: a chain replaces each spine of two inner nodes or more. A spine is a path down the tree whose inner
//! nodes each have a leaf in the half beside the path. These leaves have the same label, the side label.
ghost use Rattle.std.specs.Coded.{→_prop};
ghost use Rattle.std.specs.Prelude.{◌≡◌, ◌<◌, [], IfOk, IsSome, MatchOption, length, nat_eq, option_map};
ghost use Rattle.flow_io.specs.Sinks.{Pushes};
ghost use Rattle.pmap_cert.specs.Certificate.{certificate_of};
ghost use Rattle.pmap_cert.specs.CertificateText.{certificate_text, node_lines};
ghost use Rattle.pmap_cert.specs.Compacting.{compact, compacted, is_side, leaf_label, side_of};
ghost use Rattle.pmap_cert.specs.Opened.{node_text};
ghost use Rattle.pmap_cert.specs.Packed.{bits_in};
ghost use Rattle.pmap_cert.specs.declared.format.Format.TheVariants.{One};
ghost use Rattle.pmap_cert.specs.Inner.{AreEndsFrom, AreEndsFrom-prop, ArePlain, EndsAt, HasHalves};
ghost use Rattle.pmap_cert.specs.Inner.{HasPlace, IsLong, IsShort, IsSpine, IsStep, node_from};

use crate::certificate::Certificate;
use crate::certificate_reading::read_cert;
use crate::chain_laws::compact_has_a_text;
use crate::format::Format;
use crate::node::Node;
use crate::nodes::Nodes;
use crate::path::Path;
use crate::writing::{push_head, push_line, push_nodes};
use flow_io::{Printable, Sink, text_of};
use pmap_model::LabelId;
use std::alloc::{AllocError, Global};

// Returns the label of the node at line `number` if it is a leaf.
fn leaf_label(nodes: &Nodes, number: usize) -> Option<LabelId>
    requires plain { ArePlain nodes.now }
    requires within { number < length nodes.now }
    ensures { option_map (λ id. id.0) result ≡ leaf_label (node_from nodes.now number) }
{
    match nodes.node(number) {
        Node::Leaf(id) => Some(id),
        Node::Inner(_) | Node::Chain { .. } => None,
    }
}

// Returns the lines of the halves of the node at line `number`, or `None` for a leaf.
fn halves_of(nodes: &Nodes, ends: &[usize], number: usize) -> Option<(usize, usize)>
    requires { HasPlace nodes.now ends.now number }
    ensures { MatchOption result (IsSome (leaf_label (node_from nodes.now number)))
        (λ x. HasHalves nodes.now ends.now number x.0 x.1) }
{
    match leaf_label(nodes, number) {
        Some(_) => None,
        None => Some((number + 1, ends[number + 1])),
    }
}

// Returns the line after the node at line `number` and those below it, by the ends of the later nodes.
fn end_at(nodes: &Nodes, ends: &[usize], number: usize) -> usize
    requires { HasPlace nodes.now ends.now number }
    ensures { EndsAt nodes.now number result }
{
    match halves_of(nodes, ends, number) {
        None => number + 1,
        Some((_, upper)) => ends[upper],
    }
}

// Returns for each line the first line after its node and those below it.
fn ends_of(alloc: Global, nodes: &Nodes) -> Result<Vec<usize>, AllocError>
    requires { ArePlain nodes.now }
    ensures { IfOk result (λ ends. AreEndsFrom nodes.now ends.items 0) }
{
    let count = nodes.len();
    let mut ends = vec![in alloc; 0usize; count]?;
    let mut number = count;
    while number > 0 {
        number -= 1;
        ends[number] = end_at(nodes, ends.as_slice(), number);
    }
    Ok(ends)
}

fn is_side(nodes: &Nodes, number: usize, label: LabelId) -> bool
    requires plain { ArePlain nodes.now }
    requires within { number < length nodes.now }
    ensures { result ≡ is_side nat_eq label.0 (node_from nodes.now number) }
{
    leaf_label(nodes, number) == Some(label)
}

// Returns the next step of a spine of the side label from the node at line `number`: the bit and the line of the chosen
// half, or `None` if the spine ends there.
fn step(nodes: &Nodes, ends: &[usize], number: usize, side: LabelId) -> Option<(bool, usize)>
    requires { HasPlace nodes.now ends.now number }
    ensures { MatchOption result (IsSpine nodes.now ends.now side.0 number [] number)
        (λ x. IsStep nodes.now ends.now side.0 number x.0 x.1) }
{
    let (lower, upper) = halves_of(nodes, ends, number)?;
    if is_side(nodes, lower, side) {
        Some((true, upper))
    } else if is_side(nodes, upper, side) {
        Some((false, lower))
    } else {
        None
    }
}

// Follows a spine of the side label from line `first`, and returns its bits and the line of the node at its end.
fn go_down(nodes: &Nodes, ends: &[usize], first: usize, side: LabelId) -> (Path, usize)
    requires { HasPlace nodes.now ends.now first }
    ensures { IsSpine nodes.now ends.now side.0 first (bits_in result.0) result.1 }
{
    let mut path = Path { value: 0, count: 0 };
    let mut number = first;
    while let Some((bit, chosen)) = step(nodes, ends, number, side) {
        path = path.with(bit);
        number = chosen;
    }
    (path, number)
}

// The side label of the spine of an inner node whose halves have these lines.
fn side_of(nodes: &Nodes, lower: usize, upper: usize) -> Option<LabelId>
    requires plain { ArePlain nodes.now }
    requires lower { lower < length nodes.now }
    requires upper { upper < length nodes.now }
    ensures { option_map (λ id. id.0) result
        ≡ side_of (node_from nodes.now lower) (node_from nodes.now upper) }
{
    leaf_label(nodes, lower).or_else(|| leaf_label(nodes, upper))
}

// Returns the bits, the side label and the end's line of the spine from an inner node whose halves have these lines, or
// `None` if the spine has fewer than two bits.
fn spine_of(
    nodes: &Nodes,
    ends: &[usize],
    number: usize,
    halves: (usize, usize),
) -> Option<(Path, LabelId, usize)>
    requires place { HasPlace nodes.now ends.now number }
    requires halves { HasHalves nodes.now ends.now number halves.0 halves.1 }
    ensures { MatchOption result (IsShort (node_from nodes.now number))
        (λ x. IsLong nodes.now ends.now number x.1.0 (bits_in x.0) x.2) }
{
    let side = side_of(nodes, halves.0, halves.1)?;
    let (path, end) = go_down(nodes, ends, number, side);
    if path.len() < 2 {
        return None;
    }
    Some((path, side, end))
}

// Compacts the node at line `number` and adds the lines of the result to `out`.
fn compact_node<S: Sink>(
    out: &mut S,
    nodes: &Nodes,
    ends: &[usize],
    number: usize,
) -> Result<(), S::Fault>
    requires { HasPlace nodes.now ends.now number }
    ensures { Pushes S.sink S.began out.old out.new
        (node_text (compacted nat_eq (node_from nodes.now number))) result }
{
    let Some(halves) = halves_of(nodes, ends, number) else {
        return push_line(out, nodes.node(number));
    };
    match spine_of(nodes, ends, number, halves) {
        Some((path, side, end)) => {
            let chain = Node::Chain {
                claim: nodes.claim(number),
                path: &path,
                side,
            };
            push_line(out, chain)?;
            compact_node(out, nodes, ends, end)
        }
        None => {
            push_line(out, nodes.node(number))?;
            compact_node(out, nodes, ends, halves.0)?;
            compact_node(out, nodes, ends, halves.1)
        }
    }
}

/// The text of the certificate of `compact`, which is printed without its nodes.
#[derive(Drop)]
pub struct CompactText<'a> {
    pub certificate: &'a Certificate,
    // For each line of a certificate of format 1 the first line after its node and those below it.
    ends: Vec<usize>,
    ghost ends_are: { certificate.now.format ≡ One →
        AreEndsFrom (node_lines certificate.now.root) ends.items 0 } by { →_prop
            (AreEndsFrom-prop (node_lines certificate.now.root) ends.items 0) },
}

impl<'a> CompactText<'a> {
    /// Prepares to print a certificate, compacted. Printing doesn't allocate.
    pub fn new(alloc: Global, certificate: &'a Certificate) -> Result<CompactText<'a>, AllocError>
        ensures { IfOk result (λ text. text.certificate ≡ certificate.entry) }
    {
        let ends = match certificate.format {
            Format::One => ends_of(alloc, certificate.root.nodes())?,
            Format::Two => Vec::new(alloc),
        };
        Ok(CompactText { certificate, ends })
    }
}

impl Printable for CompactText<'_> {
    ghost use Rattle.std.specs.Prelude.{⊤};
    ghost use Rattle.pmap_cert.specs.Certificate.{certificate_of};

    ghost is_whole = { λ _. ⊤ };

    ghost is_text = { λ t text. text ≡ certificate_text (compact (certificate_of t.certificate.now)) };

    fn print<S: Sink>(&self, out: &mut S) -> Result<(), S::Fault> {
        let certificate = self.certificate;
        certificate.labels.laws();
        push_head(out, Format::Two, certificate.version, &certificate.labels)?;
        match certificate.format {
            Format::One => compact_node(out, certificate.root.nodes(), self.ends.as_slice(), 0),
            Format::Two => push_nodes(out, certificate.root.nodes()),
        }
    }
}

/// Compacts a certificate. In one of format 1, from the root down, a chain replaces each spine of two or more inner
/// nodes, which each have a leaf of the same label in one half, and the format becomes 2. One of format 2 is copied.
pub fn compact(alloc: Global, certificate: &Certificate) -> Result<Certificate, AllocError>
    ensures { IfOk result (λ found. certificate_of found ≡ compact (certificate_of certificate.now)) }
{
    let text = text_of(alloc, &CompactText::new(alloc, certificate)?)?;
    // Provides these laws: a certificate has a text, and so has a compacted one.
    let _root = certificate.root();
    compact_has_a_text();
    // A text of a certificate has no fault, so only an allocation can fail.
    read_cert(alloc, text.as_slice()).map_err(|_| AllocError)
}
