ghost use Rattle.std.specs.Prelude.{◌≡◌, ◌<◌, ◌∷◌, [], length, map};
ghost use Rattle.pmap_cert.specs.Packed.{line_of};
ghost use Rattle.pmap_cert.specs.CertificateModel.{claim_of};
ghost use Rattle.pmap_cert.specs.Node.{first_line, first_node, from_next_line};

use crate::node::{Claim, Node};
use crate::nodes::Nodes;
use crate::root::Root;
use std::marker::Model;

/// A position among a certificate's node lines, or their end. Its value is the nodes from there on, each with those
/// below it. A walk begins at `Certificate::root` and goes from line to line.
#[derive(Drop)]
pub struct Cursor<'a> {
    nodes: &'a Nodes,
    number: usize,
}

impl<'a> Model for Cursor<'a> {
    ghost use Rattle.std.specs.Prelude.{List, drop};
    ghost use Rattle.pmap_cert.specs.Node.{AreWhole, Node, node_code, nodes_of};
    ghost use Rattle.std.specs.Coded.{coded_list};

    ghost Value = { List Node };

    ghost coded = { coded_list node_code };

    ghost view = { λ c. nodes_of (drop c.number c.nodes.now) };

    ghost invariant = { λ c. AreWhole (drop c.number c.nodes.now) };
}

impl<'a> Cursor<'a> {
    /// Returns a cursor at the root of a tree.
    pub fn at_root(tree: &'a Root) -> Cursor<'a>
        ensures { result ≡ tree.now ∷ [] }
    {
        Cursor {
            nodes: tree.nodes(),
            number: 0,
        }
    }

    /// Returns the node.
    pub fn node(&self) -> Node<'a>
        requires { 0 < length self.now }
        ensures { line_of result ≡ first_line (first_node self.now) }
    {
        self.nodes.node(self.number)
    }

    /// Returns what the node claims.
    pub fn claim(&self) -> Claim<'a>
        requires { 0 < length self.now }
        ensures cost { result.cost ≡ (claim_of (first_node self.now)).cost }
        ensures set { map (λ id. id.0) result.set.now ≡ (claim_of (first_node self.now)).labels }
    {
        self.nodes.claim(self.number)
    }

    /// Returns a cursor at the next line. An inner node is followed by all lines of its lower half and then those of
    /// its upper half, a chain by those of its end.
    pub fn next(&self) -> Cursor<'a>
        requires { 0 < length self.now }
        ensures { result ≡ from_next_line self.now }
    {
        // Provides the bound on the number of nodes.
        let _count = self.nodes.len();
        Cursor {
            nodes: self.nodes,
            number: self.number + 1,
        }
    }
}
