//! Tables of parts of files, with what XML's own rules give.

use std::alloc::{AllocError, Global};
use std::process::Abort;
use std::test::Fail;
use xt_value::{
    NameFault, NamedText, Scope, ScopeFault, attribute_value, comment_text, expand_name,
    is_declaration, pi_parts, prefix_of, scope_of, text_value,
};

#[test]
fn items_have_their_values(rt: HostRuntime) -> Result<(), Fail> {
    let alloc = rt.alloc();
    for (item, value) in [
        ("a", "a"),
        ("a&lt;b&gt;&amp;&apos;&quot;", "a<b>&'\""),
        ("&#65;&#x42;&#x0000063;", "ABc"),
        ("a\r\nb\rc\n\r\r\n", "a\nb\nc\n\n\n"),
        ("a&#13;&#10;b", "a\r\nb"),
        ("\r&#10;", "\n\n"),
        ("&#128512;é", "😀é"),
        ("]] >", "]] >"),
        ("<![CDATA[]]>", ""),
        ("<![CDATA[]]><![CDATA[]]>", ""),
        ("a<![CDATA[<b>&amp;]]>c", "a<b>&amp;c"),
        ("<![CDATA[]]]]><![CDATA[>]]>", "]]>"),
        ("<![CDATA[a\r\n]]>\n<![CDATA[\r]]>\n", "a\n\n\n\n"),
        ("&lt;<![CDATA[&]]>é", "<&é"),
    ] {
        let found = text_value(alloc, item, false)?;
        assert_eq!(rt; found.as_str(), value, "at {item}");
    }
    for (item, value) in [
        ("a\r\nb\rc", "a\r\nb\rc"),
        ("&#13;\n<![CDATA[a\r\n]]>\r&lt;", "\r\na\r\n\r<"),
        ("a&#38;&amp;b", "a&&b"),
    ] {
        let found = text_value(alloc, item, true)?;
        assert_eq!(rt; found.as_str(), value, "of a replacement text at {item}");
    }
    Ok(())
}

#[test]
fn attributes_have_their_values(rt: HostRuntime) -> Result<(), Fail> {
    let alloc = rt.alloc();
    for (name, quoted, value) in [
        ("a", "\"\"", ""),
        ("a", "'\"'", "\""),
        ("a", "\"'b'\"", "'b'"),
        ("a", "' b  c '", " b  c "),
        ("a", "'b\tc\nd\re\r\nf\n\rg'", "b c d e f  g"),
        ("a", "'&#9;&#xA;&#13;&#32;'", "\t\n\r "),
        ("a", "\"&lt;&amp;&quot;é&#128512;\"", "<&\"é😀"),
        ("a", "'\r&#10;\n'", " \n "),
        ("xml:id", "' b  c\r\n\td '", "b c d"),
        ("xml:id", "'b'", "b"),
        ("xml:id", "'  '", ""),
        ("xml:id", "'&#32;b&#9;&#32;c'", "b\t c"),
        ("id", "' b '", " b "),
    ] {
        let found = attribute_value(alloc, name, quoted)?;
        assert_eq!(rt; found.as_str(), value, "at {name}={quoted}");
    }
    Ok(())
}

#[test]
fn markup_holds_its_text(rt: HostRuntime) -> Result<(), Fail> {
    let alloc = rt.alloc();
    for (comment, inner) in [
        ("<!---->", ""),
        ("<!-- a\r\n -->", " a\n "),
        ("<!--&amp;<b>-->", "&amp;<b>"),
    ] {
        let found = comment_text(alloc, comment)?;
        assert_eq!(rt; found.as_str(), inner, "at {comment}");
    }
    for (pi, target, inner) in [
        ("<?go?>", "go", ""),
        ("<?go on?>", "go", "on"),
        ("<?go \t\r\non  a\r\nb ?>", "go", "on  a\nb "),
        ("<?go ? >?>", "go", "? >"),
        ("<?é &amp;?>", "é", "&amp;"),
    ] {
        let found = pi_parts(alloc, pi)?;
        assert_eq!(rt;
            (found.target, found.value.as_str()),
            (target, inner),
            "at {pi}"
        );
    }
    Ok(())
}

#[test]
fn names_have_their_prefix(rt: HostRuntime) -> Result<(), Fail> {
    for (name, prefix, declares) in [
        ("a", "", false),
        ("p:a", "p", false),
        ("xmlns", "", true),
        ("xmlns:p", "xmlns", true),
        ("xmlnsp", "", false),
        ("p:xmlns", "p", false),
    ] {
        assert_eq!(rt;
            (prefix_of(name), is_declaration(name)),
            (prefix, declares),
            "at {name}"
        );
    }
    Ok(())
}

// The scope of an element with these attributes.
fn inner_scope(
    alloc: Global,
    outer: &Scope,
    attributes: &[(&str, &str)],
) -> Result<Result<Scope, ScopeFault>, Fail> {
    let mut named = Vec::new(alloc);
    for (name, value) in attributes {
        named.push(NamedText::new(name, String::from_str(alloc, value)?))?;
    }
    Ok(scope_of(alloc, outer, named.as_slice()))
}

#[test]
fn declarations_are_allowed_or_not(rt: HostRuntime) -> Result<(), Fail> {
    let alloc = rt.alloc();
    let outer = Scope::new(alloc)?;
    let xml = "http://www.w3.org/XML/1998/namespace";
    let xmlns = "http://www.w3.org/2000/xmlns/";
    for (name, value, allowed) in [
        ("a", "", true),
        ("xmlns", "", true),
        ("xmlns", "urn:a", true),
        ("xmlns:p", "urn:a", true),
        ("xmlns:p", "", false),
        ("xmlns:xml", xml, true),
        ("xmlns:xml", "urn:a", false),
        ("xmlns:p", xml, false),
        ("xmlns", xml, false),
        ("xmlns:p", xmlns, false),
        ("xmlns", xmlns, false),
        ("xmlns:xmlns", xmlns, false),
    ] {
        let found = inner_scope(alloc, &outer, &[("p:b", "c"), (name, value)])?;
        let answer = match found {
            Ok(_) => true,
            Err(ScopeFault::BadNamespace) => false,
            Err(ScopeFault::NoMemory) => return Err(Fail::from(AllocError)),
        };
        assert_eq!(rt; answer, allowed, "at {name}={value}");
    }
    Ok(())
}

#[test]
fn names_expand(rt: HostRuntime) -> Result<(), Fail> {
    let alloc = rt.alloc();
    let top = Scope::new(alloc)?;
    let outer = inner_scope(
        alloc,
        &top,
        &[("xmlns:p", "urn:p"), ("a", "b"), ("xmlns", "urn:d")],
    )??;
    let same = inner_scope(alloc, &outer, &[("a", "b")])??;
    let inner = inner_scope(alloc, &same, &[("xmlns:q", "urn:q"), ("xmlns:p", "urn:p2")])??;
    let plain = inner_scope(alloc, &inner, &[("xmlns", "")])??;
    let xml = "http://www.w3.org/XML/1998/namespace";
    for (scope, name, attribute, space, local) in [
        (&top, "a", false, "", "a"),
        (&top, "xml:id", true, xml, "id"),
        (&outer, "a", false, "urn:d", "a"),
        (&outer, "a", true, "", "a"),
        (&outer, "p:a", true, "urn:p", "a"),
        (&same, "p:a", false, "urn:p", "a"),
        (&inner, "p:a", false, "urn:p2", "a"),
        (&inner, "q:a", true, "urn:q", "a"),
        (&inner, "a", false, "urn:d", "a"),
        (&plain, "a", false, "", "a"),
        (&plain, "q:a", false, "urn:q", "a"),
        (&plain, "xml:a", false, xml, "a"),
    ] {
        let found = expand_name(scope, name, attribute)?;
        assert_eq!(rt; (found.space(), found.local()), (space, local), "at {name}");
    }
    for name in ["q:a", "xmlns:a", "xmlns:p"] {
        assert!(rt; matches!(expand_name(&outer, name, true), Err(NameFault::Unbound)));
    }
    Ok(())
}
