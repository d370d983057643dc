//! The plain infoset of nodes. XML Information Set, sections 2.2 to 2.4, 2.6 and 2.7.
ghost use Rattle.std.specs.Prelude.{◌≡◌, ◌++◌, ◌∷◌, [], map, OnOk, IfOk, string_bytes};
ghost use Rattle.bk_spec.specs.Node.{Origin, Nodes};
ghost use Rattle.bk_spec.specs.Infoset.{Plain as Infoset, element_plain, plain_attr, plain_head, infoset_of};
ghost use Rattle.bk_info.specs.Nodes.{attrs_in, head_in, node_in, nodes_in};
ghost use Rattle.bk_info.specs.Plains.{plain_attrs_in, plain_in, plains_in, text_items, so_far};

use crate::attr::Attr;
use crate::context::Context;
use crate::name::NodeName;
use crate::node::Node;
use bk_name::Uri;
use sqlite_items::Items;
use std::alloc::{AllocError, Global};
use std::mem;
use xt_table::{Seq, SharedText, Txt};

/// An attribute, by its name and value alone.
#[derive(Debug, Drop)]
pub struct PlainAttr {
    pub name: NodeName,
    /// The normalized value.
    pub value: Txt,
}

/// An information item, without what it came from and how.
#[derive(Debug, Drop)]
pub enum Plain {
    /// An element, with its base URI, its language (empty where there is none) and what it holds.
    Elem {
        name: NodeName,
        attrs: Seq<PlainAttr>,
        base: Uri,
        lang: SharedText,
        kids: Items<Plain>,
    },
    /// All the characters between two other items.
    Text(Txt),
    Comment(Txt),
    /// A processing instruction.
    Pi {
        target: SharedText,
        value: Txt,
    },
}

/// The attributes, each by its name and value.
fn plain_attrs(alloc: Global, attrs: &[Attr]) -> Result<Seq<PlainAttr>, AllocError>
    ensures value { IfOk result (λ plain. plain_attrs_in plain ≡ map plain_attr (attrs_in attrs.now)) }
{
    let mut plain = Vec::with_capacity(alloc, attrs.len())?;
    for attr in attrs {
        plain.push(PlainAttr {
            name: attr.name.share()?,
            value: Txt::from_str(alloc, attr.value.as_str())?,
        })?;
    }
    Ok(Seq::from_vec(plain))
}

/// An element that holds these.
fn element(
    alloc: Global,
    name: &NodeName,
    attrs: &[Attr],
    context: &Context,
    kids: Items<Plain>,
) -> Result<Plain, AllocError>
    ensures value { IfOk result (λ item. (origin : Origin) (others : Infoset) → plain_in item others ≡ element_plain (plain_head (head_in name.now attrs.now context.now origin)) (plains_in kids) others) }
{
    Ok(Plain::Elem {
        name: name.share()?,
        attrs: plain_attrs(alloc, attrs)?,
        base: context.base().share()?,
        lang: context.lang().share()?,
        kids,
    })
}

/// Puts a text behind the items, where it has characters, and begins another.
fn put_text(alloc: Global, items: &mut Vec<Plain>, text: &mut String) -> Result<(), AllocError>
    ensures value { OnOk result (items.new.items ≡ items.old.items ++ text_items (string_bytes text.old)) }
    ensures text { OnOk result (string_bytes text.new ≡ []) }
{
    if text.is_empty() {
        return Ok(());
    }
    let text = mem::replace(text, String::new(alloc));
    items.push(Plain::Text(Txt::from_string(text)))?;
    Ok(())
}

/// Puts an item behind the items and the text.
fn put(
    alloc: Global,
    items: &mut Vec<Plain>,
    text: &mut String,
    item: Plain,
) -> Result<(), AllocError>
    ensures value { OnOk result ((items.new.items ≡ (items.old.items ++ text_items (string_bytes text.old)) ++ item ∷ []) × (string_bytes text.new ≡ [])) }
{
    put_text(alloc, items, text)?;
    items.push(item)?;
    Ok(())
}

/// Puts what a node gives behind the items and the text that was met since the last of them.
#[cycle(infoset)]
fn put_node(
    alloc: Global,
    items: &mut Vec<Plain>,
    text: &mut String,
    node: &Node,
) -> Result<(), AllocError>
    ensures value { OnOk result ((rest : Nodes) → so_far items.new.items (string_bytes text.new) (infoset_of rest) ≡ so_far items.old.items (string_bytes text.old) (infoset_of (node_in node.now rest))) }
{
    match node {
        Node::Elem {
            name,
            attrs,
            context,
            kids,
            ..
        } => {
            let kids = infoset(alloc, kids.as_slice())?;
            let item = element(alloc, name, attrs.as_slice(), context, kids)?;
            put(alloc, items, text, item)
        }
        Node::Text { value, .. } => {
            text.push_str(value.as_str())?;
            Ok(())
        }
        Node::Comment { value, .. } => {
            let value = Txt::from_str(alloc, value.as_str())?;
            put(alloc, items, text, Plain::Comment(value))
        }
        Node::Pi { target, value, .. } => {
            let target = target.share()?;
            let value = Txt::from_str(alloc, value.as_str())?;
            put(alloc, items, text, Plain::Pi { target, value })
        }
    }
}

/// The plain infoset of nodes: texts that stand side by side are one, and what each node came from is left out, and how
/// attributes came. The one error is want of memory.
///
/// Of `<a>x<!--y-->z</a>` it is the element `a` with a text, a comment and a text.
#[cycle(infoset)]
pub fn infoset(alloc: Global, nodes: &[Node]) -> Result<Items<Plain>, AllocError>
    ensures value { IfOk result (λ plain. plains_in plain ≡ infoset_of (nodes_in nodes.now)) }
{
    let mut items = Vec::new(alloc);
    let mut text = String::new(alloc);
    for node in nodes {
        put_node(alloc, &mut items, &mut text, node)?;
    }
    put_text(alloc, &mut items, &mut text)?;
    items.shrink_to_fit();
    Ok(Items::from_vec(items))
}
