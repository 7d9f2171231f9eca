ghost use Rattle.std.specs.Prelude.{◌≡◌, reverse};
ghost use Rattle.pmap_cert.specs.Node.{IsTree, Node, node_lines};

use crate::nodes::Nodes;
use std::marker::Model;

/// The root of a certificate with the nodes below it. A node is a leaf with the number of its label, an inner node with
/// the cost and the set that it claims and the nodes of its block's halves, or a chain with such a claim, its bits, its
/// side label and the node at its end. A walk over them begins at `Certificate::root`.
#[derive(Drop)]
pub struct Root {
    nodes: Nodes,
}

impl Model for Root {
    ghost use Rattle.pmap_cert.specs.Node.{IsTree, Node, first_node, node_code, nodes_of};

    ghost Value = { Node };

    ghost coded = { node_code };

    ghost view = { λ t. first_node (nodes_of t.nodes) };

    ghost invariant = { λ t. IsTree t.nodes };
}

impl Root {
    /// Returns the tree with these lines, which must be those of one node and the nodes below it.
    pub fn new(nodes: Nodes) -> Root
        requires { IsTree nodes }
        ensures { (node : Node) → nodes ≡ node_lines node → result ≡ node }
    {
        Root { nodes }
    }

    /// Returns the tree whose lines in reverse order are these: the line of a node follows those of the nodes below it.
    pub fn of_reversed(nodes: Nodes) -> Root
        requires { IsTree (reverse nodes) }
        ensures { (node : Node) → reverse nodes ≡ node_lines node → result ≡ node }
    {
        let mut nodes = nodes;
        nodes.reverse();
        Root::new(nodes)
    }

    /// Returns the lines of the tree.
    pub fn nodes(&self) -> &Nodes
        ensures { result.now ≡ node_lines self.now }
    {
        &self.nodes
    }
}
