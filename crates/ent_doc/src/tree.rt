//! The nodes of items, level by level.
ghost use Rattle.std.specs.Prelude.{◌≡◌, ◌+◌, ◌++◌, ◌∷◌, [], suc, List, ℕ, Option, IfOk, IfErr, OnOk};
ghost use Rattle.xt_spec.specs.Tree.{Items as TreeItems, nil, element, before};
ghost use Rattle.xt_tree.specs.Meaning.{at_span, item_of, items_in};
ghost use Rattle.xt_tree.specs.Items.{head_in, item_in};
ghost use Rattle.xt_tree.specs.Places.{tag_mark, marks_in, marks_of};
ghost use Rattle.xt_spec.specs.Reading.{document};
ghost use Rattle.bk_spec.specs.Node.{owned, node_count};
ghost use Rattle.bk_spec.specs.NodePaths.{path_below};
ghost use Rattle.bk_info.specs.Nodes.{nodes_in};
ghost use Rattle.bk_info.specs.Vias.{HaveVia};
ghost use Rattle.xt_read.specs.ContentTest.{ArePlaced, AreSpelled};
ghost use Rattle.ent_doc.specs.Opening.{open_fault};
ghost use Rattle.ent_doc.specs.Steps.{Gives, GivesFault, HavePaths, HasPaths, some_node};

use crate::element::own_of;
use crate::fault::OpenFault;
use crate::leaf::{comment_node, pi_node, text_node};
use crate::source::Source;
use crate::tag::values_of;
use crate::work::Work;
use bk_info::{Address, Context, Node, Siblings};
use sqlite_items::Items;
use std::alloc::{AllocError, Global};
use xt_tree::{Head, Item, Row};

/// Puts a node behind others, where there is one.
fn put(nodes: &mut Vec<Node>, node: Option<Node>) -> Result<(), AllocError>
    ensures value { OnOk result (nodes.new.items ≡ nodes.old.items ++ some_node node) }
{
    if let Some(node) = node {
        nodes.push(node)?;
    }
    Ok(())
}

/// The node of an element, with those of what it holds.
#[cycle(tree)]
fn element_node(
    alloc: Global,
    source: &Source<'_>,
    work: &mut Work,
    context: &Context,
    tag: &Head<'_>,
    kids: &Row<'_>,
    address: Address,
) -> Result<Node, OpenFault>
    requires tag { ArePlaced source.now.text.now (tag_mark (head_in tag.now) ∷ []) }
    requires kids { ArePlaced source.now.text.now (marks_of kids.now) }
    requires spelled { AreSpelled (items_in source.now.text.now kids.now) }
    requires owned { address.origin ≡ owned source.now.file.now document }
    ensures value { IfOk result (λ node. (close : Option (List ℕ)) (rest : TreeItems) → Gives source.now.file.now context.now (element (at_span source.now.text.now tag.now.span) (items_in source.now.text.now kids.now) close rest) rest work.old.count work.new.count (node ∷ [])) }
    ensures count { IfOk result (λ node. work.new.count ≡ work.old.count + node_count (nodes_in (node ∷ []))) }
    ensures paths { IfOk result (λ node. (close : Option (List ℕ)) (rest : TreeItems) (outer : List ℕ) (index : ℕ) → address.path ≡ path_below outer index → HasPaths outer index (element (at_span source.now.text.now tag.now.span) (items_in source.now.text.now kids.now) close rest) rest (suc index) (node ∷ [])) }
    ensures via { IfOk result (λ node. HaveVia address.via (node ∷ [])) }
    ensures fault { IfErr result (λ fault. (close : Option (List ℕ)) (rest : TreeItems) → GivesFault source.now.file.now context.now (element (at_span source.now.text.now tag.now.span) (items_in source.now.text.now kids.now) close rest) work.old.count (open_fault fault)) }
{
    let qname = source.text_at(tag.name);
    let values = values_of(alloc, source, &tag.attrs)?;
    let own = own_of(alloc, source, &mut work.names, context, qname, values)?;
    work.count_one(source)?;
    let kids = kids_of(alloc, source, work, &own.context, &address, kids)?;
    Ok(Node::Elem {
        name: own.name,
        attrs: own.attrs,
        context: own.context,
        kids,
        address,
    })
}

/// The node of an item; none where it gives none.
#[cycle(tree)]
fn node_of(
    alloc: Global,
    source: &Source<'_>,
    work: &mut Work,
    context: &Context,
    item: &Item<'_>,
    address: Address,
) -> Result<Option<Node>, OpenFault>
    requires tags { ArePlaced source.now.text.now (marks_in (item_in item.now)) }
    requires spelled { AreSpelled (before (item_of source.now.text.now (item_in item.now)) nil) }
    requires owned { address.origin ≡ owned source.now.file.now document }
    ensures value { IfOk result (λ node. (rest : TreeItems) → Gives source.now.file.now context.now (before (item_of source.now.text.now (item_in item.now)) rest) rest work.old.count work.new.count (some_node node)) }
    ensures count { IfOk result (λ node. work.new.count ≡ work.old.count + node_count (nodes_in (some_node node))) }
    ensures paths { IfOk result (λ node. (rest : TreeItems) (outer : List ℕ) (index : ℕ) → address.path ≡ path_below outer index → HasPaths outer index (before (item_of source.now.text.now (item_in item.now)) rest) rest (suc index) (some_node node)) }
    ensures via { IfOk result (λ node. HaveVia address.via (some_node node)) }
    ensures fault { IfErr result (λ fault. (rest : TreeItems) → GivesFault source.now.file.now context.now (before (item_of source.now.text.now (item_in item.now)) rest) work.old.count (open_fault fault)) }
{
    match item {
        Item::Elem { head, kids, .. } => Ok(Some(element_node(
            alloc, source, work, context, head, kids, address,
        )?)),
        Item::Text(span) => text_node(alloc, source, work, *span, address),
        Item::Comment(span) => Ok(Some(comment_node(alloc, source, work, *span, address)?)),
        Item::Pi(span) => Ok(Some(pi_node(alloc, source, work, *span, address)?)),
        Item::Ref(_) => Ok(None),
        Item::Gap(_) => Ok(None),
    }
}

/// The nodes of what an element holds. An element that holds nothing shares nothing.
#[cycle(tree)]
fn kids_of(
    alloc: Global,
    source: &Source<'_>,
    work: &mut Work,
    context: &Context,
    address: &Address,
    items: &Row<'_>,
) -> Result<Items<Node>, OpenFault>
    requires tags { ArePlaced source.now.text.now (marks_of items.now) }
    requires spelled { AreSpelled (items_in source.now.text.now items.now) }
    requires owned { address.now.origin ≡ owned source.now.file.now document }
    ensures value { IfOk result (λ nodes. Gives source.now.file.now context.now (items_in source.now.text.now items.now) nil work.old.count work.new.count nodes) }
    ensures count { IfOk result (λ nodes. work.new.count ≡ work.old.count + node_count (nodes_in nodes)) }
    ensures paths { IfOk result (HavePaths address.now.path (items_in source.now.text.now items.now)) }
    ensures via { IfOk result (HaveVia address.now.via) }
    ensures fault { IfErr result (λ fault. GivesFault source.now.file.now context.now (items_in source.now.text.now items.now) work.old.count (open_fault fault)) }
{
    if items.is_empty() {
        return Ok(Items::new(alloc));
    }
    let siblings = Siblings::within(alloc, address)?;
    nodes_of(alloc, source, work, context, &siblings, items)
}

/// The nodes of items.
#[cycle(tree)]
pub(crate) fn nodes_of(
    alloc: Global,
    source: &Source<'_>,
    work: &mut Work,
    context: &Context,
    siblings: &Siblings,
    items: &Row<'_>,
) -> Result<Items<Node>, OpenFault>
    requires tags { ArePlaced source.now.text.now (marks_of items.now) }
    requires spelled { AreSpelled (items_in source.now.text.now items.now) }
    requires owned { siblings.now.origin ≡ owned source.now.file.now document }
    ensures value { IfOk result (λ nodes. Gives source.now.file.now context.now (items_in source.now.text.now items.now) nil work.old.count work.new.count nodes) }
    ensures count { IfOk result (λ nodes. work.new.count ≡ work.old.count + node_count (nodes_in nodes)) }
    ensures paths { IfOk result (HavePaths siblings.now.path (items_in source.now.text.now items.now)) }
    ensures via { IfOk result (HaveVia siblings.now.via) }
    ensures fault { IfErr result (λ fault. GivesFault source.now.file.now context.now (items_in source.now.text.now items.now) work.old.count (open_fault fault)) }
{
    let mut nodes = Vec::new(alloc);
    let mut index = 0_usize;
    let mut left = items.again();
    while let Some((item, rest)) = left.split() {
        let address = siblings.address(index)?;
        put(
            &mut nodes,
            node_of(alloc, source, work, context, &item, address)?,
        )?;
        index += 1;
        left = rest;
    }
    nodes.shrink_to_fit();
    Ok(Items::from_vec(nodes))
}
