//! A table of nodes and their plain infosets, and references in their order, beside the contracts.
//!
//! An item is told as `(NAME ATTRIBUTES @BASE LANGUAGE ..)`, `[TEXT]`, `!COMMENT!` or `?TARGET DATA?`.

use bk_info::{
    Address, Attr, Context, How, Node, NodeName, Origin, Plain, Role, Siblings, Via, infoset,
};
use bk_name::{Base, Name, uri_of};
use sqlite_items::Items;
use std::alloc::{AllocError, Global};
use std::test::Fail;
use xt_table::{Seq, SharedText, Txt};
use xt_value::Scope;

/// A name of these tests, which are all names of files.
fn file_name(alloc: Global, file: &[u8]) -> Result<Name, AllocError> {
    match Name::read(alloc, file) {
        Ok(name) => Ok(name),
        Err(_) => Err(AllocError),
    }
}

/// The first item of a file.
fn address(alloc: Global, file: &[u8]) -> Result<Address, AllocError> {
    let origin = Origin::file(alloc, file_name(alloc, file)?, Role::Document)?;
    Siblings::top(alloc, origin, Via::none())?.address(0)
}

fn context(alloc: Global, file: &[u8], lang: &str) -> Result<Context, AllocError> {
    let (Ok(base), Ok(name)) = (Base::read(alloc, "file:///book/"), Name::read(alloc, file)) else {
        return Err(AllocError);
    };
    let scope = Scope::new(alloc)?;
    let uri = uri_of(alloc, &base, &name)?;
    Context::new(alloc, scope, uri, SharedText::from_str(alloc, lang)?)
}

fn name(alloc: Global, space: &str, local: &str) -> Result<NodeName, AllocError> {
    let space = if space.is_empty() {
        None
    } else {
        Some(SharedText::from_str(alloc, space)?)
    };
    NodeName::new(alloc, space, SharedText::from_str(alloc, local)?)
}

fn attr(
    alloc: Global,
    space: &str,
    local: &str,
    value: &str,
    how: How,
) -> Result<Attr, AllocError> {
    Ok(Attr {
        qname: SharedText::from_str(alloc, local)?,
        name: name(alloc, space, local)?,
        value: Txt::from_str(alloc, value)?,
        is_id: false,
        how,
    })
}

fn text(alloc: Global, file: &[u8], value: &str) -> Result<Node, AllocError> {
    Ok(Node::Text {
        value: Txt::from_str(alloc, value)?,
        address: address(alloc, file)?,
    })
}

fn comment(alloc: Global, value: &str) -> Result<Node, AllocError> {
    Ok(Node::Comment {
        value: Txt::from_str(alloc, value)?,
        address: address(alloc, b"b.xml")?,
    })
}

fn pi(alloc: Global, target: &str, value: &str) -> Result<Node, AllocError> {
    Ok(Node::Pi {
        target: SharedText::from_str(alloc, target)?,
        value: Txt::from_str(alloc, value)?,
        address: address(alloc, b"b.xml")?,
    })
}

fn element(
    alloc: Global,
    local: &str,
    attrs: Vec<Attr>,
    context: Context,
    kids: Vec<Node>,
) -> Result<Node, AllocError> {
    Ok(Node::Elem {
        name: name(alloc, "u", local)?,
        attrs: Seq::from_vec(attrs),
        context,
        kids: Items::from_vec(kids),
        address: address(alloc, b"b.xml")?,
    })
}

#[cycle(telling)]
fn add_items(out: &mut String, items: &[Plain]) -> Result<(), Fail> {
    for item in items {
        add_item(out, item)?;
    }
    Ok(())
}

#[cycle(telling)]
fn add_item(out: &mut String, item: &Plain) -> Result<(), Fail> {
    match item {
        Plain::Elem {
            name,
            attrs,
            base,
            lang,
            kids,
        } => {
            out.push_str("({")?;
            out.push_str(name.space())?;
            out.push_str("}")?;
            out.push_str(name.local())?;
            for attr in attrs.as_slice() {
                out.push_str(" {")?;
                out.push_str(attr.name.space())?;
                out.push_str("}")?;
                out.push_str(attr.name.local())?;
                out.push_str("=")?;
                out.push_str(attr.value.as_str())?;
            }
            out.push_str(" @")?;
            out.push_str(base.as_str())?;
            out.push_str(" ")?;
            out.push_str(lang.as_str())?;
            add_items(out, kids.as_slice())?;
            out.push_str(")")?;
        }
        Plain::Text(value) => {
            out.push_str("[")?;
            out.push_str(value.as_str())?;
            out.push_str("]")?;
        }
        Plain::Comment(value) => {
            out.push_str("!")?;
            out.push_str(value.as_str())?;
            out.push_str("!")?;
        }
        Plain::Pi { target, value } => {
            out.push_str("?")?;
            out.push_str(target.as_str())?;
            out.push_str(" ")?;
            out.push_str(value.as_str())?;
            out.push_str("?")?;
        }
    }
    Ok(())
}

fn told(alloc: Global, nodes: Vec<Node>) -> Result<String, Fail> {
    let mut out = String::new(alloc);
    let items = infoset(alloc, nodes.as_slice())?;
    add_items(&mut out, items.as_slice())?;
    Ok(out)
}

#[test]
fn texts_are_joined(rt: HostRuntime) -> Result<(), Fail> {
    let alloc = rt.alloc();
    let mut nodes = Vec::new(alloc);
    assert_eq!(rt; told(alloc, nodes)?.as_str(), "", "no nodes");

    nodes = Vec::new(alloc);
    nodes.push(text(alloc, b"b.xml", "ab")?)?;
    nodes.push(text(alloc, b"c.xml", "cd")?)?;
    nodes.push(text(alloc, b"b.xml", "")?)?;
    nodes.push(text(alloc, b"b.xml", "e")?)?;
    nodes.push(comment(alloc, "f")?)?;
    nodes.push(text(alloc, b"b.xml", "g")?)?;
    nodes.push(pi(alloc, "h", "i")?)?;
    nodes.push(text(alloc, b"b.xml", "")?)?;
    assert_eq!(rt;
        told(alloc, nodes)?.as_str(),
        "[abcde]!f![g]?h i?",
        "texts of several files"
    );
    Ok(())
}

#[test]
fn elements_keep_their_own(rt: HostRuntime) -> Result<(), Fail> {
    let alloc = rt.alloc();
    let mut kids = Vec::new(alloc);
    kids.push(text(alloc, b"b.xml", "x")?)?;
    kids.push(element(
        alloc,
        "c",
        Vec::new(alloc),
        context(alloc, b"c.xml", "de")?,
        Vec::new(alloc),
    )?)?;
    kids.push(text(alloc, b"b.xml", "y")?)?;
    kids.push(text(alloc, b"c.xml", "z")?)?;
    let mut attrs = Vec::new(alloc);
    attrs.push(attr(alloc, "", "p", "1", How::Written)?)?;
    attrs.push(attr(alloc, "v", "q", "2", How::Default)?)?;
    let mut nodes = Vec::new(alloc);
    nodes.push(pi(alloc, "t", "")?)?;
    nodes.push(element(alloc, "b", attrs, context(alloc, b"b.xml", "")?, kids)?)?;
    assert_eq!(rt;
        told(alloc, nodes)?.as_str(),
        "?t ?({u}b {}p=1 {v}q=2 @file:///book/b.xml [x]({u}c @file:///book/c.xml de)[yz])",
        "nested"
    );
    Ok(())
}

/// Adds each reference as its file and the indices of its path.
fn add_references(alloc: Global, out: &mut String, via: &Via) -> Result<(), Fail> {
    for reference in via.references(alloc)? {
        out.push_str(reference.origin.file_name())?;
        for index in reference.path.as_slice() {
            out.push_str(if *index == 0 { "/0" } else { "/n" })?;
        }
        out.push_str(" ")?;
    }
    Ok(())
}

#[test]
fn the_outermost_reference_comes_first(rt: HostRuntime) -> Result<(), Fail> {
    let alloc = rt.alloc();
    let mut out = String::new(alloc);
    let outer = address(alloc, b"b.xml")?;
    add_references(alloc, &mut out, outer.via())?;
    assert_eq!(rt; out.as_str(), "", "of the root");

    let origin = Origin::file(alloc, file_name(alloc, b"c.xml")?, Role::Entity)?;
    let element = Siblings::top(alloc, origin, Via::through(&outer)?)?.address(1)?;
    let inner = Siblings::within(alloc, &element)?.address(0)?;
    add_references(alloc, &mut out, inner.via())?;
    assert_eq!(rt; out.as_str(), "b.xml/0 ", "of what an element holds");

    let shown = Via::through(&inner)?;
    let mut out = String::new(alloc);
    add_references(alloc, &mut out, &shown.share()?)?;
    assert_eq!(rt;
        out.as_str(),
        "b.xml/0 c.xml/n/0 ",
        "of what a reference shows"
    );
    Ok(())
}

#[test]
fn an_origin_is_a_file_in_its_role_or_an_entity(rt: HostRuntime) -> Result<(), Fail> {
    let alloc = rt.alloc();
    let file = Origin::file(alloc, file_name(alloc, b"b.xml")?, Role::Text)?;
    assert_eq!(rt; file.file_name(), "b.xml");
    assert_eq!(rt; file.role(), Some(Role::Text));
    assert_eq!(rt; file.entity(), None);
    let entity = SharedText::from_str(alloc, "e")?;
    let inner = Origin::within_entity(alloc, file_name(alloc, b"c.xml")?, entity)?;
    assert_eq!(rt; inner.file_name(), "c.xml");
    assert_eq!(rt; inner.role(), None);
    assert_eq!(rt; inner.entity(), Some("e"));
    Ok(())
}
