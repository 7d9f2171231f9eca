//! Printing the text of a certificate.
ghost use Rattle.std.specs.Prelude.{◌≡◌, ◌++◌, ◌<◌, ◌≤◌, ◌∷◌, [], IfOk, length, map, take};
ghost use Rattle.std.specs.List.{flat_map, join_with_byte};
ghost use Rattle.std.specs.Fmt.{decimal};
ghost use Rattle.flow_io.specs.Sinks.{Pushes};
ghost use Rattle.pmap_cert.specs.Certificate.{certificate_of};
ghost use Rattle.pmap_cert.specs.CertificateText.{ChainLine, InnerLine, LeafLine, bit_digits};
ghost use Rattle.pmap_cert.specs.CertificateText.{certificate_text, format_header, format_word};
ghost use Rattle.pmap_cert.specs.CertificateText.{node_line_text, text_of_lines, version_word};
ghost use Rattle.pmap_cert.specs.Format.{format_number};
ghost use Rattle.pmap_cert.specs.Packed.{bits_in, line_of};

use crate::certificate::Certificate;
use crate::format::Format;
use crate::node::{Claim, Node};
use crate::nodes::Nodes;
use crate::path::Path;
use flow_io::{Printable, Sink, text_of};
use itoa::Buffer;
use pmap_model::{LabelId, Labels};
use prefix_keys::Version;
use std::alloc::{AllocError, Global};

// Prints a space and a number of four digits or more.
#[inline(never)]
fn push_long<S: Sink>(out: &mut S, number: u32) -> Result<(), S::Fault>
    ensures { Pushes S.sink S.began out.old out.new (32 ∷ decimal number) result }
{
    out.push(b" ")?;
    let mut buffer = Buffer::new();
    out.push(buffer.format(number).as_bytes())
}

// Returns the digits of a number, followed by others, and how many they are.
#[inline(always)]
#[tactic(auto, using(crate::proofs::Written::digits))]
fn digits_of(number: u32) -> ((u8, u8, u8), usize)
    requires { number < 1000 }
    ensures digits { take result.1 (result.0.0 ∷ result.0.1 ∷ result.0.2 ∷ []) ≡ decimal number }
    ensures few { result.1 ≤ 3 }
{
    if number < 10 {
        return ((b'0' + number as u8, 0, 0), 1);
    }
    let (rest, last) = (number / 10, b'0' + (number % 10) as u8);
    if number < 100 {
        return ((b'0' + rest as u8, last, 0), 2);
    }
    (
        (b'0' + (rest / 10) as u8, b'0' + (rest % 10) as u8, last),
        3,
    )
}

/// Prints a space and a number.
#[inline(always)]
pub fn push_number<S: Sink>(out: &mut S, number: u32) -> Result<(), S::Fault>
    ensures { Pushes S.sink S.began out.old out.new (32 ∷ decimal number) result }
{
    // An optimisation: most labels and costs have at most three digits.
    if number >= 1000 {
        return push_long(out, number);
    }
    let ((first, second, third), count) = digits_of(number);
    out.push_start(&[b' ', first, second, third], count + 1)
}

// Prints a letter, a space and a number.
#[inline(always)]
fn push_first<S: Sink>(out: &mut S, letter: u8, number: u32) -> Result<(), S::Fault>
    ensures { Pushes S.sink S.began out.old out.new (letter ∷ 32 ∷ decimal number) result }
{
    if number >= 1000 {
        out.push(&[letter])?;
        return push_long(out, number);
    }
    let ((first, second, third), count) = digits_of(number);
    out.push_start(&[letter, b' ', first, second, third], count + 2)
}

/// Prints the numbers of a set, with a space before each.
pub fn push_set<S: Sink>(out: &mut S, set: &[LabelId]) -> Result<(), S::Fault>
    ensures { Pushes S.sink S.began out.old out.new
        (flat_map (λ n. 32 ∷ decimal n) (map (λ id. id.0) set.now)) result }
{
    for id in set {
        push_number(out, id.0)?;
    }
    Ok(())
}

// Prints a number and the numbers of a set, with a space before each.
#[inline(always)]
fn push_numbers<S: Sink>(out: &mut S, first: u32, set: &[LabelId]) -> Result<(), S::Fault>
    ensures { Pushes S.sink S.began out.old out.new
        (32 ∷ join_with_byte 32 (decimal first ∷ map decimal (map (λ id. id.0) set.now))) result }
{
    push_number(out, first)?;
    push_set(out, set)
}

fn push_leaf<S: Sink>(out: &mut S, id: LabelId) -> Result<(), S::Fault>
    ensures { Pushes S.sink S.began out.old out.new (node_line_text (LeafLine id.0) ++ 10 ∷ []) result }
{
    push_first(out, b'l', id.0)?;
    out.push(b"\n")
}

fn push_inner<S: Sink>(out: &mut S, claim: Claim) -> Result<(), S::Fault>
    ensures { Pushes S.sink S.began out.old out.new
        (node_line_text (InnerLine claim.entry.cost (map (λ id. id.0) claim.entry.set.now)) ++ 10 ∷ []) result }
{
    push_first(out, b'n', claim.cost)?;
    push_set(out, claim.set)?;
    out.push(b"\n")
}

// Prints a space and the bits as digits 0 and 1.
fn push_bits<S: Sink>(out: &mut S, path: &Path) -> Result<(), S::Fault>
    ensures { Pushes S.sink S.began out.old out.new (32 ∷ bit_digits (bits_in path.now)) result }
{
    let mut digits = [b'0'; 128];
    let mut rest = path.value;
    for place in 0..path.count {
        digits[127 - place as usize] = b'0' + (rest % 2) as u8;
        rest >>= 1;
    }
    let start = 128 - path.count as usize;
    out.push(b" ")?;
    out.push(&digits[start..])?;
    Ok(())
}

fn push_chain<S: Sink>(
    out: &mut S,
    claim: Claim,
    path: &Path,
    side: LabelId,
) -> Result<(), S::Fault>
    ensures { Pushes S.sink S.began out.old out.new
        (node_line_text (ChainLine claim.entry.cost (bits_in path.now) side.0 (map (λ id. id.0) claim.entry.set.now))
        ++ 10 ∷ []) result }
{
    out.push(b"c")?;
    push_number(out, claim.cost)?;
    push_bits(out, path)?;
    push_numbers(out, side.0, claim.set)?;
    out.push(b"\n")
}

/// Prints the line of a node.
#[inline(always)]
pub fn push_line<S: Sink>(out: &mut S, node: Node) -> Result<(), S::Fault>
    ensures { Pushes S.sink S.began out.old out.new (node_line_text (line_of node.entry) ++ 10 ∷ []) result }
{
    match node {
        Node::Leaf(id) => push_leaf(out, id),
        Node::Inner(claim) => push_inner(out, claim),
        Node::Chain { claim, path, side } => push_chain(out, claim, path, side),
    }
}

pub fn push_nodes<S: Sink>(out: &mut S, nodes: &Nodes) -> Result<(), S::Fault>
    ensures { Pushes S.sink S.began out.old out.new (text_of_lines (map node_line_text nodes.now)) result }
{
    for number in 0..nodes.len() {
        push_line(out, nodes.node(number))?;
    }
    Ok(())
}

// Prints the labels of a table, each on a line.
fn push_labels<S: Sink>(out: &mut S, labels: &Labels) -> Result<(), S::Fault>
    ensures { Pushes S.sink S.began out.old out.new (text_of_lines labels.now) result }
{
    labels.laws();
    for number in 0..labels.len() {
        let Some(text) = labels.text(LabelId(number as u32)) else {
            unreachable!()
        };
        out.push(text)?;
        out.push(b"\n")?;
    }
    Ok(())
}

// The name of a version in a header.
fn version_text(version: Version) -> &'static [u8]
    ensures { result.now ≡ version_word version }
{
    match version {
        Version::V4 => b"ipv4",
        Version::V6 => b"ipv6",
    }
}

// The name of a format in a header.
fn format_text(format: Format) -> &'static [u8]
    ensures { result.now ≡ format_word (format_number format) }
{
    match format {
        Format::One => b"1",
        Format::Two => b"2",
    }
}

fn push_header<S: Sink>(
    out: &mut S,
    format: Format,
    version: Version,
    count: u32,
) -> Result<(), S::Fault>
    ensures { Pushes S.sink S.began out.old out.new
        (format_header (format_number format, (version, count)) ++ 10 ∷ []) result }
{
    out.push(b"flowlabel-cert ")?;
    out.push(format_text(format))?;
    out.push(b" ")?;
    out.push(version_text(version))?;
    push_number(out, count)?;
    out.push(b"\n")?;
    Ok(())
}

/// Prints the beginning of a certificate's text: its header and its label table. The lines of its nodes must follow.
pub fn push_head<S: Sink>(
    out: &mut S,
    format: Format,
    version: Version,
    labels: &Labels,
) -> Result<(), S::Fault>
    ensures { Pushes S.sink S.began out.old out.new
        (text_of_lines (format_header (format_number format, (version, length labels.now)) ∷ labels.now)) result }
{
    labels.laws();
    push_header(out, format, version, labels.len() as u32)?;
    push_labels(out, labels)
}

impl Printable for Certificate {
    ghost use Rattle.std.specs.Prelude.{⊤};

    ghost is_whole = { λ _. ⊤ };

    ghost is_text = { λ c text. text ≡ certificate_text (certificate_of c) };

    fn print<S: Sink>(&self, out: &mut S) -> Result<(), S::Fault> {
        self.labels.laws();
        push_head(out, self.format, self.version, &self.labels)?;
        push_nodes(out, self.root.nodes())
    }
}

/// Returns the text of a certificate: a header, its label table and its nodes in preorder.
///
/// The lines are `flowlabel-cert FORMAT VERSION COUNT`, then COUNT labels, and then `l NUMBER` for a leaf,
/// `n COST NUMBER NUMBER ..` for an inner node, followed by its lower half and then its upper half, and
/// `c COST BITS SIDE NUMBER NUMBER ..` for a chain, followed by its end. The number of a label is its index in the
/// table, from 0. Each certificate has one text, and `read_cert` reads it back.
pub fn write_cert(alloc: Global, certificate: &Certificate) -> Result<Vec<u8>, AllocError>
    ensures { IfOk result (λ text. text.items ≡ certificate_text (certificate_of certificate.now)) }
{
    text_of(alloc, certificate)
}
