//! The printed tree of nodes: a line a node, two spaces a level before it.
ghost use Rattle.std.specs.Prelude.{◌≡◌, ◌++◌, List, ℕ, Some, codes, OnOk, IfOk};
ghost use Rattle.bk_spec.specs.Node.{Head, Nodes};
ghost use Rattle.bk_spec.specs.Print as page;
ghost use Rattle.bk_spec.specs.Print.{deeper, owner_text, how_text, quoted_text, attribute_lines, print_nodes, print_tree};
ghost use Rattle.bk_info.specs.Nodes.{how_in, attr_in, attrs_in, head_in, node_in, nodes_in};
ghost use Rattle.bk_place.specs.Printing.{IsIndent, own_lines, space_text, value_end};
ghost use Rattle.std.specs.Option.{option_copied};

use crate::value::{put, put_value};
use bk_info::{Attr, Context, How, Node, NodeName, Origin};
use bk_name::Uri;
use std::alloc::{AllocError, Global};

/// The name of the namespace of `xml`.
const XML: &str = "http://www.w3.org/XML/1998/namespace";

/// What stands before the local name.
fn put_space(out: &mut Vec<u8>, space: &str) -> Result<(), AllocError>
    ensures value { OnOk result (out.new.items ≡ out.old.items ++ space_text space.now) }
{
    if space.is_empty() {
        return Ok(());
    }
    if space == XML {
        return put(out, b"xml:");
    }
    put(out, b"{")?;
    put(out, space.as_bytes())?;
    put(out, b"}")
}

fn put_name(out: &mut Vec<u8>, name: &NodeName) -> Result<(), AllocError>
    ensures value { OnOk result (out.new.items ≡ out.old.items ++ page.name_text name.now.space name.now.local) }
{
    put_space(out, name.space())?;
    put(out, name.local().as_bytes())
}

/// The end of a node's line: where it came from.
fn put_origin(out: &mut Vec<u8>, origin: &Origin) -> Result<(), AllocError>
    ensures value { OnOk result (out.new.items ≡ out.old.items ++ codes " in " ++ owner_text origin.now ++ codes "\n") }
{
    put(out, b" in ")?;
    put(out, origin.file_name().as_bytes())?;
    if let Some(entity) = origin.entity() {
        put(out, b" by &")?;
        put(out, entity.as_bytes())?;
        return put(out, b";\n");
    }
    put(out, b"\n")
}

fn put_element_line(
    out: &mut Vec<u8>,
    indent: &[u8],
    name: &NodeName,
    origin: &Origin,
) -> Result<(), AllocError>
    ensures value { OnOk result ((head : Head) → head.space ≡ name.now.space → head.local ≡ name.now.local → head.origin ≡ origin.now → out.new.items ≡ out.old.items ++ page.element_line indent.now head) }
{
    put(out, indent)?;
    put(out, b"element ")?;
    put_name(out, name)?;
    put_origin(out, origin)
}

/// The base URI, where it isn't the parent's.
fn put_base_line(
    out: &mut Vec<u8>,
    indent: &[u8],
    parent: Option<&Uri>,
    base: &Uri,
) -> Result<(), AllocError>
    ensures value { OnOk result (out.new.items ≡ out.old.items ++ page.base_line (deeper indent.now) (option_copied parent.entry) base.now) }
{
    if let Some(parent) = parent {
        if parent.as_str() == base.as_str() {
            return Ok(());
        }
    }
    put(out, b"  ")?;
    put(out, indent)?;
    put(out, b"base ")?;
    put(out, base.as_str().as_bytes())?;
    put(out, b"\n")
}

/// How an attribute came, where it isn't written.
fn put_how(out: &mut Vec<u8>, how: How) -> Result<(), AllocError>
    ensures value { OnOk result (out.new.items ≡ out.old.items ++ how_text (how_in how)) }
{
    match how {
        How::Written => Ok(()),
        How::Default => put(out, b" default"),
        How::Fixup => put(out, b" fixup"),
    }
}

fn put_attribute_name(out: &mut Vec<u8>, indent: &[u8], name: &NodeName) -> Result<(), AllocError>
    ensures value { OnOk result (out.new.items ≡ out.old.items ++ deeper indent.now ++ codes "attribute " ++ page.name_text name.now.space name.now.local) }
{
    put(out, b"  ")?;
    put(out, indent)?;
    put(out, b"attribute ")?;
    put_name(out, name)
}

/// A value with its quotes.
fn put_quoted(out: &mut Vec<u8>, value: &str) -> Result<(), AllocError>
    ensures value { OnOk result (out.new.items ≡ out.old.items ++ quoted_text value.now) }
{
    put(out, b"\"")?;
    put_value(out, value.as_bytes())?;
    put(out, b"\"")
}

fn put_attribute_line(out: &mut Vec<u8>, indent: &[u8], attr: &Attr) -> Result<(), AllocError>
    ensures value { OnOk result (out.new.items ≡ out.old.items ++ page.attribute_line (deeper indent.now) (attr_in attr.now)) }
{
    put_attribute_name(out, indent, &attr.name)?;
    put(out, b"=")?;
    put_quoted(out, attr.value.as_str())?;
    put_how(out, attr.how)?;
    put(out, b"\n")
}

fn put_attributes(out: &mut Vec<u8>, indent: &[u8], attrs: &[Attr]) -> Result<(), AllocError>
    ensures value { OnOk result (out.new.items ≡ out.old.items ++ attribute_lines (deeper indent.now) (attrs_in attrs.now)) }
{
    for attr in attrs {
        put_attribute_line(out, indent, attr)?;
    }
    Ok(())
}

/// The lines of an element's own, before those of what it holds.
fn put_element(
    out: &mut Vec<u8>,
    indent: &[u8],
    parent: Option<&Uri>,
    name: &NodeName,
    attrs: &[Attr],
    context: &Context,
    origin: &Origin,
) -> Result<(), AllocError>
    ensures value { OnOk result (out.new.items ≡ out.old.items ++ own_lines indent.now (option_copied parent.entry) (head_in name.now attrs.now context.now origin.now)) }
{
    put_element_line(out, indent, name, origin)?;
    put_base_line(out, indent, parent, context.base())?;
    put_attributes(out, indent, attrs)
}

/// A value with its quotes, and where it came from.
fn put_value_end(out: &mut Vec<u8>, value: &str, origin: &Origin) -> Result<(), AllocError>
    ensures value { OnOk result (out.new.items ≡ out.old.items ++ value_end value.now origin.now) }
{
    put_quoted(out, value)?;
    put_origin(out, origin)
}

fn put_text_line(
    out: &mut Vec<u8>,
    indent: &[u8],
    value: &str,
    origin: &Origin,
) -> Result<(), AllocError>
    ensures value { OnOk result (out.new.items ≡ out.old.items ++ page.text_line indent.now value.now origin.now) }
{
    put(out, indent)?;
    put(out, b"text ")?;
    put_value_end(out, value, origin)
}

fn put_comment_line(
    out: &mut Vec<u8>,
    indent: &[u8],
    value: &str,
    origin: &Origin,
) -> Result<(), AllocError>
    ensures value { OnOk result (out.new.items ≡ out.old.items ++ page.comment_line indent.now value.now origin.now) }
{
    put(out, indent)?;
    put(out, b"comment ")?;
    put_value_end(out, value, origin)
}

fn put_pi_line(
    out: &mut Vec<u8>,
    indent: &[u8],
    target: &str,
    value: &str,
    origin: &Origin,
) -> Result<(), AllocError>
    ensures value { OnOk result (out.new.items ≡ out.old.items ++ page.pi_line indent.now target.now value.now origin.now) }
{
    put(out, indent)?;
    put(out, b"pi ")?;
    put(out, target.as_bytes())?;
    put(out, b" ")?;
    put_value_end(out, value, origin)
}

#[cycle(printing)]
fn put_node(
    out: &mut Vec<u8>,
    indent: &mut Vec<u8>,
    parent: Option<&Uri>,
    node: &Node,
) -> Result<(), AllocError>
    requires spaces { IsIndent indent.old.items }
    ensures value { OnOk result ((others : Nodes) → out.old.items ++ print_nodes indent.old.items (option_copied parent.entry) (node_in node.now others) ≡ out.new.items ++ print_nodes indent.old.items (option_copied parent.entry) others) }
    ensures same { OnOk result (indent.new.items ≡ indent.old.items) }
{
    match node {
        Node::Elem {
            name,
            attrs,
            context,
            kids,
            address,
        } => {
            let origin = address.origin();
            put_element(out, indent, parent, name, attrs.as_slice(), context, origin)?;
            put_kids(out, indent, context.base(), kids.as_slice())
        }
        Node::Text { value, address } => {
            put_text_line(out, indent, value.as_str(), address.origin())
        }
        Node::Comment { value, address } => {
            put_comment_line(out, indent, value.as_str(), address.origin())
        }
        Node::Pi {
            target,
            value,
            address,
        } => {
            let origin = address.origin();
            put_pi_line(out, indent, target.as_str(), value.as_str(), origin)
        }
    }
}

/// The nodes of an element, a level deeper.
#[cycle(printing)]
fn put_kids(
    out: &mut Vec<u8>,
    indent: &mut Vec<u8>,
    base: &Uri,
    kids: &[Node],
) -> Result<(), AllocError>
    requires spaces { IsIndent indent.old.items }
    ensures value { OnOk result (out.new.items ≡ out.old.items ++ print_nodes (deeper indent.old.items) (Some base.now) (nodes_in kids.now)) }
    ensures same { OnOk result (indent.new.items ≡ indent.old.items) }
{
    let level = indent.len();
    put(indent, b"  ")?;
    put_nodes(out, indent, Some(base), kids)?;
    indent.truncate(level);
    Ok(())
}

#[cycle(printing)]
fn put_nodes(
    out: &mut Vec<u8>,
    indent: &mut Vec<u8>,
    parent: Option<&Uri>,
    nodes: &[Node],
) -> Result<(), AllocError>
    requires spaces { IsIndent indent.old.items }
    ensures value { OnOk result (out.new.items ≡ out.old.items ++ print_nodes indent.old.items (option_copied parent.entry) (nodes_in nodes.now)) }
    ensures same { OnOk result (indent.new.items ≡ indent.old.items) }
{
    for node in nodes {
        put_node(out, indent, parent, node)?;
    }
    Ok(())
}

/// The printed tree of nodes. The one error is want of memory.
pub fn print(alloc: Global, nodes: &[Node]) -> Result<Vec<u8>, AllocError>
    ensures value { IfOk result (λ text. text.items ≡ print_tree (nodes_in nodes.now)) }
{
    let mut out = Vec::new(alloc);
    let mut indent = Vec::new(alloc);
    put_nodes(&mut out, &mut indent, None, nodes)?;
    Ok(out)
}
