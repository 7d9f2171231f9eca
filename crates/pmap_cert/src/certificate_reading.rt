//! Reading the text of a certificate, line by line.
ghost use Rattle.std.specs.Prelude.{◌≡◌, ◌≢◌, ◌-◌, ◌<◌, ◌≤◌, [], Ok, Err, false, length, IfErr, IfOk, IsTrue, OnOk};
ghost use Rattle.pmap_model.specs.Label.{has_label, is_label as is_label_text};
ghost use Rattle.pmap_cert.specs.Certificate.{ReturnsCertificate, certificate_of};
ghost use Rattle.pmap_cert.specs.Format.{IsNodeOf};
ghost use Rattle.pmap_cert.specs.FormatReading.{format_reading, is_ended, labels_at, new_label};
ghost use Rattle.pmap_cert.specs.FormatReading.{line_value, BadLabelTable, NoMemory};
ghost use Rattle.pmap_cert.specs.Node.{HasChainForm, tree_of};
ghost use Rattle.pmap_cert.specs.Inner.{IsReadNode, node_due_at, reading_from};

use crate::certificate::Certificate;
use crate::fault::{CertFault, CertFaultKind};
use crate::format::Format;
use crate::lines::Lines;
use crate::node::Node;
use crate::node_line::{LineLimits, NodeBuffer};
use crate::nodes::Nodes;
use crate::root::Root;
use pmap_model::{KeyHashing, Labels, is_label};
use prefix_keys::Version;
use std::alloc::Global;

// Reads the next line as a label that the table doesn't have yet.
fn read_label<'a>(labels: &Labels, lines: &Lines<'a>) -> Result<(&'a [u8], Lines<'a>), CertFault>
    ensures ok { IfOk result (λ x. line_value BadLabelTable (new_label labels.now) lines.now ≡ Ok (x.0.now, x.1)) }
    ensures label { IfOk result (λ x. IsTrue (is_label_text x.0.now)) }
    ensures new { IfOk result (λ x. has_label labels.now x.0.now ≡ false) }
    ensures err { IfErr result (λ fault. line_value BadLabelTable (new_label labels.now) lines.now ≡ Err fault) }
{
    if let Some((line, after)) = lines.next()
        && is_label(line)
        && !labels.contains(line)
    {
        return Ok((line, after));
    }
    Err(lines.fault(CertFaultKind::BadLabelTable))
}

// Reads a table of `count` labels.
fn read_labels<'a>(
    alloc: Global,
    count: u32,
    lines: Lines<'a>,
    hashing: KeyHashing,
) -> Result<(Labels, Lines<'a>), CertFault>
    requires { count ≤ 65536 }
    ensures ok { IfOk result (λ x. labels_at count [] lines.entry ≡ Ok x) }
    ensures err { IfErr result (λ fault. fault.kind ≢ NoMemory → labels_at count [] lines.entry ≡ Err fault) }
    ensures memory { IfErr result (λ fault. fault.kind ≡ NoMemory → fault.line ≡ 0) }
{
    let mut labels = Labels::with_hashing(alloc, hashing);
    let mut lines = lines;
    while labels.len() < count as usize {
        let (label, after) = read_label(&labels, &lines)?;
        labels.add(label)?;
        lines = after;
    }
    Ok((labels, lines))
}

// Reads the next node, with at most `room` levels below it, adds its lines to `nodes`, and moves `lines` past them.
fn read_node(
    nodes: &mut Nodes,
    buffer: &mut NodeBuffer,
    limits: &LineLimits,
    room: u32,
    lines: &mut Lines,
) -> Result<(), CertFault>
    ensures ok { OnOk result (IsReadNode limits.now.format limits.now.width limits.now.labels.now room lines.old
        nodes.old nodes.new lines.new) }
    ensures err { IfErr result (λ fault. fault.kind ≢ NoMemory →
        node_due_at limits.now.format limits.now.width limits.now.labels.now room lines.old ≡ Err fault) }
    ensures memory { IfErr result (λ fault. fault.kind ≡ NoMemory → fault.line ≡ 0) }
{
    let deepest = lines.fault(CertFaultKind::TooDeep);
    let node = lines.next_node(buffer, limits)?;
    match node {
        Node::Leaf(id) => {
            nodes.push(Node::Leaf(id))?;
            Ok(())
        }
        Node::Inner(claim) => {
            if room == 0 {
                return Err(deepest);
            }
            nodes.push(Node::Inner(claim))?;
            read_node(nodes, buffer, limits, room - 1, lines)?;
            read_node(nodes, buffer, limits, room - 1, lines)?;
            Ok(())
        }
        Node::Chain { claim, path, side } => {
            let deep = path.len();
            if deep > room {
                return Err(deepest);
            }
            nodes.push(Node::Chain { claim, path, side })?;
            read_node(nodes, buffer, limits, room - deep, lines)?;
            Ok(())
        }
    }
}

// Reads the root with all nodes below it, and moves `lines` past them.
fn read_root(alloc: Global, limits: &LineLimits, lines: &mut Lines) -> Result<Root, CertFault>
    ensures ok { IfOk result (λ root.
        node_due_at limits.now.format limits.now.width limits.now.labels.now limits.now.width lines.old
        ≡ Ok (tree_of limits.now.labels.now root, lines.new)) }
    ensures form { IfOk result (λ root. HasChainForm (length limits.now.labels.now) root limits.now.width) }
    ensures kind { IfOk result (λ root. IsNodeOf limits.now.format root) }
    ensures err { IfErr result (λ fault. fault.kind ≢ NoMemory →
        node_due_at limits.now.format limits.now.width limits.now.labels.now limits.now.width lines.old ≡ Err fault) }
    ensures memory { IfErr result (λ fault. fault.kind ≡ NoMemory → fault.line ≡ 0) }
{
    let mut nodes = Nodes::new(alloc);
    let mut buffer = NodeBuffer::new(alloc);
    read_node(&mut nodes, &mut buffer, limits, limits.width, lines)?;
    Ok(Root::new(nodes))
}

/// What a certificate's text has before its nodes, and the lines of the nodes.
#[derive(Drop)]
pub struct Head<'a> {
    pub format: Format,
    pub version: Version,
    pub labels: Labels,
    pub nodes: Lines<'a>,
}

/// Reads the header and the label table of a certificate's text.
pub fn read_head<'a>(
    alloc: Global,
    text: &'a [u8],
    hashing: KeyHashing,
) -> Result<Head<'a>, CertFault>
    ensures ok { IfOk result (λ head. format_reading text.entry.now
        ≡ reading_from head.format head.version head.labels head.nodes) }
    ensures err { IfErr result (λ fault. fault.kind ≢ NoMemory → format_reading text.entry.now ≡ Err fault) }
    ensures memory { IfErr result (λ fault. fault.kind ≡ NoMemory → fault.line ≡ 0) }
{
    let ((format, version, count), lines) = Lines::new(text).header()?;
    let (labels, nodes) = read_labels(alloc, count, lines, hashing)?;
    Ok(Head {
        format,
        version,
        labels,
        nodes,
    })
}

// Reads the certificate of a text, or returns the first fault.
fn read_all(alloc: Global, text: &[u8], hashing: KeyHashing) -> Result<Certificate, CertFault>
    ensures ok { IfOk result (λ c. format_reading text.now ≡ Ok (certificate_of c)) }
    ensures err { IfErr result (λ fault. fault.kind ≢ NoMemory → format_reading text.now ≡ Err fault) }
    ensures memory { IfErr result (λ fault. fault.kind ≡ NoMemory → fault.line ≡ 0) }
{
    let Head {
        format,
        version,
        labels,
        nodes,
    } = read_head(alloc, text, hashing)?;
    let mut rest = nodes;
    let limits = LineLimits {
        format,
        width: version.width(),
        labels: &labels,
    };
    let root = read_root(alloc, &limits, &mut rest)?;
    if rest.is_ended() {
        Ok(Certificate::of_format(format, version, labels, root))
    } else {
        Err(rest.fault(CertFaultKind::NodesLeft))
    }
}

/// Reads the text of a certificate of either format. It accepts exactly the texts that `write_cert` writes, and returns
/// the certificate that was written.
///
/// # Errors
///
/// Returns the first faulty line, from 1, with the first of its faults in this order, or `NoMemory` with line 0.
///
/// - `BadHeader`: line 1 is not `flowlabel-cert FORMAT VERSION COUNT`, with FORMAT `1` or `2`, VERSION `ipv4` or
///   `ipv6`, and COUNT at most 65536.
/// - `BadLabelTable`: a label line is missing, isn't a label, or repeats one.
/// - `BadNode`: the line of a node is neither `l NUMBER` nor `n COST NUMBER ..` nor, in format 2,
///   `c COST BITS SIDE NUMBER ..` with at most as many bits as an address has, or the numbers of its set don't ascend.
/// - `TooDeep`: an inner node has a block of one address, or the bits of a chain lead below one.
/// - `NodesMissing`: the text ends before its last node; the line is the one after the last.
/// - `NodesLeft`: something follows the last node.
///
/// A line without its line feed is malformed. Numbers are decimal without leading zeros, words are separated by one
/// space, a label's number is below the count, and a cost is at most 4294967295.
pub fn read_cert(alloc: Global, text: &[u8]) -> Result<Certificate, CertFault>
    ensures { ReturnsCertificate text.now result }
{
    read_cert_with_hashing(alloc, text, KeyHashing::known())
}

/// Like [`read_cert`], but hashes labels by `hashing`, which doesn't affect the result.
pub fn read_cert_with_hashing(
    alloc: Global,
    text: &[u8],
    hashing: KeyHashing,
) -> Result<Certificate, CertFault>
    ensures { ReturnsCertificate text.now result }
{
    read_all(alloc, text, hashing)
}
