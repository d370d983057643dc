//! Elements of XInclude. XInclude 1.1, section 3.
ghost use Rattle.std.specs.Prelude.{◌≡◌, ◌||◌, bytes_eq, codes};
ghost use Rattle.bk_spec.specs.Node as spec;
ghost use Rattle.bk_spec.specs.Node.{no_nodes};
ghost use Rattle.bk_info.specs.Nodes.{node_in, nodes_in};

use bk_info::{Node, NodeName};

/// The name of the namespace.
const XINCLUDE: &str = "http://www.w3.org/2001/XInclude";

fn is_inclusion(name: &NodeName) -> bool
    ensures value { result ≡ bytes_eq name.now.space (codes "http://www.w3.org/2001/XInclude") }
{
    name.space() == XINCLUDE
}

#[cycle(inclusion)]
fn holds_inclusion(node: &Node) -> bool
    ensures value { result ≡ spec.has_inclusion (node_in node.now no_nodes) }
{
    match node {
        Node::Elem { name, kids, .. } => is_inclusion(name) || has_inclusion(kids.as_slice()),
        Node::Text { .. } => false,
        Node::Comment { .. } => false,
        Node::Pi { .. } => false,
    }
}

/// Whether an element of XInclude is among the nodes.
#[cycle(inclusion)]
pub(crate) fn has_inclusion(nodes: &[Node]) -> bool
    ensures value { result ≡ spec.has_inclusion (nodes_in nodes.now) }
{
    for node in nodes {
        if holds_inclusion(node) {
            return true;
        }
    }
    false
}
