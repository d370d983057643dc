//! Tables of documents: the nodes that each gives, or its fault, by the rules of the standards and beside the contracts.
//!
//! An element is told as its names, its attributes as `qname {namespace}local=value`, its base URI behind that of the book
//! and its language, and what it holds.

ghost use Rattle.std.specs.Prelude.{◌≡◌};

use bk_info::{Address, Attr, BookFault, Context, Node};
use bk_name::Name;
use ent_doc::{OpenFault, open_document};
use std::alloc::Global;
use std::marker::Brand;
use std::sync::ledger::{Blank, Ledger};
use std::test::Fail;
use xt_lex::Steps;

/// The most bytes of a file here.
const MOST_BYTES: usize = 10_000;

fn add_name(out: &mut String, space: &str, local: &str) -> Result<(), Fail> {
    out.push_str("{")?;
    out.push_str(space)?;
    out.push_str("}")?;
    out.push_str(local)?;
    Ok(())
}

fn add_attr(out: &mut String, attr: &Attr) -> Result<(), Fail> {
    out.push_str(if attr.is_id { " #" } else { " " })?;
    out.push_str(attr.qname.as_str())?;
    out.push_str(" ")?;
    add_name(out, attr.name.space(), attr.name.local())?;
    out.push_str("=")?;
    out.push_str(attr.value.as_str())?;
    Ok(())
}

fn add_context(out: &mut String, context: &Context) -> Result<(), Fail> {
    let base = context.base().as_str();
    out.push_str(" @")?;
    out.push_str(base.strip_prefix("file:///book/").unwrap_or(base))?;
    out.push_str(" ")?;
    out.push_str(context.lang().as_str())?;
    Ok(())
}

#[cycle(telling)]
fn add_nodes(out: &mut String, nodes: &[Node]) -> Result<(), Fail> {
    for node in nodes {
        add_node(out, node)?;
    }
    Ok(())
}

#[cycle(telling)]
fn add_node(out: &mut String, node: &Node) -> Result<(), Fail> {
    match node {
        Node::Elem {
            name,
            attrs,
            context,
            kids,
            ..
        } => {
            out.push_str("(")?;
            add_name(out, name.space(), name.local())?;
            for attr in attrs.as_slice() {
                add_attr(out, attr)?;
            }
            add_context(out, context)?;
            add_nodes(out, kids.as_slice())?;
            out.push_str(")")?;
        }
        Node::Text { value, .. } => {
            out.push_str("[")?;
            out.push_str(value.as_str())?;
            out.push_str("]")?;
        }
        Node::Comment { value, .. } => {
            out.push_str("!")?;
            out.push_str(value.as_str())?;
            out.push_str("!")?;
        }
        Node::Pi { target, value, .. } => {
            out.push_str("?")?;
            out.push_str(target.as_str())?;
            out.push_str(" ")?;
            out.push_str(value.as_str())?;
            out.push_str("?")?;
        }
    }
    Ok(())
}

fn fault_name(fault: &BookFault) -> &str {
    match fault {
        BookFault::Missing { .. } => "missing",
        BookFault::TooLarge { .. } => "too large",
        BookFault::Encoding { .. } => "encoding",
        BookFault::NotWellFormed { .. } => "not well-formed",
        BookFault::TooDeep { .. } => "too deep",
        BookFault::NotYet { .. } => "not yet",
        BookFault::BadNamespace { .. } => "bad namespace",
        BookFault::Unbound { prefix, .. } => prefix.as_str(),
        BookFault::DuplicateAttribute { .. } => "duplicate attribute",
        BookFault::BadReference { .. } => "bad reference",
        _ => "no fault of one document",
    }
}

fn told_over<L: Ledger>(alloc: Global, bytes: &[u8], blank: Blank) -> Result<String, Fail>
    requires name { blank.name ≡ L.name }
    requires parts { blank.parts ≡ L.parts }
    requires some { L.parts ≡ 1 }
{
    let mut steps = Steps::<L>::new(blank);
    let mut out = String::new(alloc);
    let Ok(file) = Name::read(alloc, b"b.xml") else {
        return Ok(out);
    };
    if bytes.len() > MOST_BYTES {
        return Ok(out);
    }
    match open_document(alloc, &file, bytes, &mut steps) {
        Ok(opened) => add_nodes(&mut out, opened.nodes.as_slice())?,
        Err(OpenFault::Book(fault)) => out.push_str(fault_name(&fault))?,
        Err(OpenFault::NoMemory) => out.push_str("no memory")?,
    }
    Ok(out)
}

/// The nodes of the document, or its fault; of an unbound prefix that prefix.
fn told(alloc: Global, text: &str) -> Result<String, Fail> {
    let blank = Blank::new(1);
    told_over::<Brand>(alloc, text.as_bytes(), blank)
}

#[test]
fn documents_give_these_nodes(rt: HostRuntime) -> Result<(), Fail> {
    let alloc = rt.alloc();
    for (text, nodes) in [
        ("<a/>", "({}a @b.xml )"),
        (
            "<?p q?><a>x<!--y--><![CDATA[]]></a>",
            "?p q?({}a @b.xml [x]!y!)",
        ),
        ("<a><![CDATA[]]><b/></a>", "({}a @b.xml ({}b @b.xml ))"),
        (
            "<a xmlns='u' b='1'><c xmlns=''/><d/></a>",
            "({u}a b {}b=1 @b.xml ({}c @b.xml )({u}d @b.xml ))",
        ),
        (
            "<p:a q:b='1' xmlns:p='u' xmlns:q='v'/>",
            "({u}a q:b {v}b=1 @b.xml )",
        ),
        (
            "<p:a xmlns:p='u'><p:a xmlns:p='v'/><p:a/></p:a>",
            "({u}a @b.xml ({v}a @b.xml )({u}a @b.xml ))",
        ),
        (
            "<a xml:base='c/'><b xml:base='d#e'/></a>",
            "({}a xml:base {http://www.w3.org/XML/1998/namespace}base=c/ @c/ ({}b xml:base {http://www.w3.org/XML/1998/namespace}base=d#e @c/d ))",
        ),
        (
            "<a xml:lang='de'><b/><c xml:lang=''/></a>",
            "({}a xml:lang {http://www.w3.org/XML/1998/namespace}lang=de @b.xml de({}b @b.xml de)({}c xml:lang {http://www.w3.org/XML/1998/namespace}lang= @b.xml ))",
        ),
        (
            "<a xml:id=' c  d ' id=' e '/>",
            "({}a #xml:id {http://www.w3.org/XML/1998/namespace}id=c d id {}id= e  @b.xml )",
        ),
    ] {
        let found = told(alloc, text)?;
        assert_eq!(rt; found.as_str(), nodes, "at {text}");
    }
    Ok(())
}

/// Tells the path of each node, and those of what an element holds behind it in brackets.
#[cycle(paths)]
fn add_paths(alloc: Global, out: &mut String, nodes: &[Node]) -> Result<(), Fail> {
    for node in nodes {
        match node {
            Node::Elem { kids, address, .. } => {
                add_path(alloc, out, address)?;
                out.push_str("(")?;
                add_paths(alloc, out, kids.as_slice())?;
                out.push_str(")")?;
            }
            Node::Text { address, .. } => add_path(alloc, out, address)?,
            Node::Comment { address, .. } => add_path(alloc, out, address)?,
            Node::Pi { address, .. } => add_path(alloc, out, address)?,
        }
    }
    Ok(())
}

fn add_path(alloc: Global, out: &mut String, address: &Address) -> Result<(), Fail> {
    for index in address.path(alloc)? {
        out.push_str("/")?;
        out.push(if index < 9 {
            (b'0' + index as u8) as char
        } else {
            '9'
        })?;
    }
    Ok(())
}

fn paths_over<L: Ledger>(alloc: Global, bytes: &[u8], blank: Blank) -> Result<String, Fail>
    requires name { blank.name ≡ L.name }
    requires parts { blank.parts ≡ L.parts }
    requires some { L.parts ≡ 1 }
{
    let mut steps = Steps::<L>::new(blank);
    let mut out = String::new(alloc);
    let Ok(file) = Name::read(alloc, b"b.xml") else {
        return Ok(out);
    };
    if bytes.len() > MOST_BYTES {
        return Ok(out);
    }
    if let Ok(opened) = open_document(alloc, &file, bytes, &mut steps) {
        add_paths(alloc, &mut out, opened.nodes.as_slice())?;
    }
    Ok(out)
}

fn paths(alloc: Global, text: &str) -> Result<String, Fail> {
    let blank = Blank::new(1);
    paths_over::<Brand>(alloc, text.as_bytes(), blank)
}

#[test]
fn nodes_have_the_paths_of_their_items(rt: HostRuntime) -> Result<(), Fail> {
    let alloc = rt.alloc();
    for (text, nodes) in [
        ("<a/>", "/0()"),
        (
            "<?xml version='1.0'?> <!--c--><a>x<b/>y</a>",
            "/2/3(/3/0/3/1()/3/2)",
        ),
        (
            "<a><![CDATA[]]><b><c/>x</b><!--y--></a>",
            "/0(/0/1(/0/1/0()/0/1/1)/0/2)",
        ),
    ] {
        let found = paths(alloc, text)?;
        assert_eq!(rt; found.as_str(), nodes, "at {text}");
    }
    Ok(())
}

#[test]
fn documents_have_these_faults(rt: HostRuntime) -> Result<(), Fail> {
    let alloc = rt.alloc();
    for (text, fault) in [
        ("<p:a q:b='1'/>", "p"),
        ("<a q:b='1' xml:base='http://['/>", "q"),
        ("<p:a xmlns:q=''/>", "bad namespace"),
        ("<a><b xmlns:p='u'/><p:c/></a>", "p"),
        (
            "<a xmlns:p='u' xmlns:q='u' p:b='1' q:b='1' xml:base='http://['/>",
            "duplicate attribute",
        ),
        (
            "<a xmlns:p='u' xmlns:q='u' c1='' c2='' c3='' c4='' c5='' c6='' c7='' c8='' c9='' d1='' d2='' d3='' d4='' d5='' d6='' p:b='' q:b=''/>",
            "duplicate attribute",
        ),
        (
            "<a xmlns:p='u' xmlns:q='v' c1='' c2='' c3='' c4='' c5='' c6='' c7='' c8='' c9='' d1='' d2='' d3='' d4='' d5='' d6='' p:b='' q:b='' r:b=''/>",
            "r",
        ),
        ("<a><b xml:base='http://['/><p:c/></a>", "bad reference"),
    ] {
        let found = told(alloc, text)?;
        assert_eq!(rt; found.as_str(), fault, "at {text}");
    }
    Ok(())
}
