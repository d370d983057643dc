//! Tables of cases: what each call answers at a text, by XML's own rules and beside the contracts.

use xt_lex::{
    Kind, NotUtf8, is_char, is_name, is_ncname, is_qname, name_at, next_attribute, next_token,
    read_declaration, referenced_char, text_of,
};

#[test]
fn bytes_are_text_or_have_a_place(rt: HostRuntime) {
    assert_eq!(rt; text_of(b"a\xC3\xA9"), Ok("aé"));
    assert_eq!(rt; text_of(b"a\xC3"), Err(NotUtf8 { at: 1 }));
    assert_eq!(rt; text_of(b"a\xED\xA0\x80"), Err(NotUtf8 { at: 1 }));
}

#[test]
fn names_are_those_of_the_standards(rt: HostRuntime) {
    for (text, name, ncname, qname) in [
        ("a", true, true, true),
        ("", false, false, false),
        ("1a", false, false, false),
        ("a:b", true, false, true),
        ("a:b:c", true, false, false),
        (":a", true, false, false),
        ("é-·", true, true, true),
        ("·", false, false, false),
        ("a b", false, false, false),
    ] {
        assert_eq!(rt;
            (is_name(text), is_ncname(text), is_qname(text)),
            (name, ncname, qname),
            "at {text}"
        );
    }
    assert!(rt;
        is_char('\t') && is_char('\u{10ffff}') && !is_char('\u{fffe}') && !is_char('\u{0}')
    );
}

/// The kind and the end of the token at the front.
fn token(text: &str) -> Option<(Kind, u32)> {
    if text.is_empty() || text.len() > 1000 || !text.is_char_boundary(0) {
        return None;
    }
    match next_token(text, 0) {
        Ok(token) => Some((token.kind, token.span.to)),
        Err(_) => None,
    }
}

#[test]
fn the_longest_token_is_taken(rt: HostRuntime) {
    for (text, found) in [
        ("<a>b", Some((Kind::Start, 3))),
        ("<a b='c' d = \"<\"/>", None),
        ("<a b='&lt;&#38;' />", Some((Kind::Empty, 19))),
        ("<a b='&lt'/>", None),
        ("<a b='1'c='2'/>", None),
        ("</a:b >", Some((Kind::End, 7))),
        ("</1>", None),
        ("text]]&gt;", Some((Kind::Chars, 6))),
        ("text]]>", Some((Kind::Chars, 4))),
        ("]]>", None),
        ("a\u{1}", Some((Kind::Chars, 1))),
        ("é\u{ffff}", Some((Kind::Chars, 2))),
        ("&#x1F600;!", Some((Kind::CharRef, 9))),
        ("&#0;", None),
        ("&a:b;", None),
        ("&amp;", Some((Kind::EntRef, 5))),
    ] {
        assert_eq!(rt; token(text), found, "at {text}");
    }
}

#[test]
fn markup_is_a_token(rt: HostRuntime) {
    for (text, found) in [
        ("<![CDATA[]]>", Some((Kind::CData, 12))),
        ("<![CDATA[<a>&]]]>]]>", Some((Kind::CData, 17))),
        ("<![CDATA[a]]", None),
        ("<![cdata[a]]>", None),
        ("<![CDATA[\u{1}]]>", None),
        ("<!---->", Some((Kind::Comment, 7))),
        ("<!-- a-b <c> -->-->", Some((Kind::Comment, 16))),
        ("<!-- a --->", None),
        ("<!-- a -- b -->", None),
        ("<!-->", None),
        ("<!-- \u{fffe} -->", None),
        ("<?a?>b?>", Some((Kind::Pi, 5))),
        ("<?xml-stylesheet href='a' ?>", Some((Kind::Pi, 28))),
        ("<?a b??>", Some((Kind::Pi, 8))),
        ("<?a?b?>", None),
        ("<?a b", None),
        ("<?a:b c?>", None),
        ("<? a?>", None),
        ("<?XmL a?>", None),
        ("<?a \u{1}?>", None),
        ("<?xml version='1.0'?>", Some((Kind::Decl, 21))),
        (
            "<?xml version = \"1.17\" encoding='utf-8' standalone='no' ?><",
            Some((Kind::Decl, 58)),
        ),
        ("<?xml encoding='UTF-8'?>", Some((Kind::Decl, 24))),
        ("<?xml encoding='UTF-8' standalone='no'?>", None),
        ("<?xml version='1.0' standalone='maybe'?>", None),
        ("<?xml version='2.0'?>", None),
        ("<?xml version='1.0\"?>", None),
        ("<?xml version='1.0'encoding='UTF-8'?>", None),
        ("<?xml encoding='UTF-8' version='1.0'?>", None),
        ("<?xml ?>", None),
        ("<?XML version='1.0'?>", None),
        ("<!DOCTYPE a>b", Some((Kind::Doctype, 12))),
        ("<!DOCTYPE a:b SYSTEM 'é' >", Some((Kind::Doctype, 27))),
        (
            "<!DOCTYPE a PUBLIC \"-//b//c\" \"d.dtd\">",
            Some((Kind::Doctype, 37)),
        ),
        (
            "<!DOCTYPE a [<!ENTITY b \"]>\">]>",
            Some((Kind::Doctype, 31)),
        ),
        ("<!DOCTYPE a[<!-- ]' --><? ]\" ?>'<!--' ] ]>", None),
        (
            "<!DOCTYPE a[<!-- ]' --><? ]\" ?>'<!--'] >]>",
            Some((Kind::Doctype, 40)),
        ),
        ("<!DOCTYPE a [\u{1}<!é]\n>", Some((Kind::Doctype, 21))),
        ("<!DOCTYPE a ['] >", None),
        ("<!DOCTYPE a [<!-- ]>", None),
        ("<!DOCTYPE a SYSTEM '\u{1}'>", None),
        ("<!DOCTYPE a SYSTEM>", None),
        ("<!DOCTYPE a PUBLIC 'b'>", None),
        ("<!DOCTYPE a PUBLIC '{' 'c'>", None),
        ("<!DOCTYPE a []b>", None),
        ("<!DOCTYPE>", None),
        ("<!doctype a>", None),
    ] {
        assert_eq!(rt; token(text), found, "at {text}");
    }
}

#[test]
fn declarations_declare(rt: HostRuntime) {
    for (text, form, utf8) in [
        ("<?xml version='1.0'?>", (true, false), true),
        ("<?xml version='1.0' encoding='Utf-8'?>", (true, true), true),
        ("<?xml encoding='ISO-8859-1'?>", (false, true), false),
        (
            "<?xml version='1.0' encoding='UTF-8' standalone='yes'?>",
            (true, false),
            true,
        ),
    ] {
        assert!(rt;
            read_declaration(text).is_some_and(|d| {
                (d.is_xml_declaration(), d.is_text_declaration()) == form
                    && d.is_utf8_or_absent() == utf8
            }),
            "at {text}"
        );
    }
    assert!(rt; read_declaration("<?xml version='1.0'?> ").is_none());
}

#[test]
fn references_stand_for_characters(rt: HostRuntime) {
    for (text, c) in [
        ("&#38;", Some('&')),
        ("&#x26;", Some('&')),
        ("&#X26;", None),
        ("&#00000000000000000000000000000038;", Some('&')),
        ("&#99999999999999999999999999999999;", None),
        ("&#4294967334;", None),
        ("&#xD800;", None),
        ("&#x10FFFF;", Some('\u{10ffff}')),
        ("&apos;", Some('\'')),
        ("&amp;;", None),
        ("&nbsp;", None),
    ] {
        assert_eq!(rt; referenced_char(text), c, "at {text}");
    }
}

#[test]
fn attributes_stand_where_their_spans_say(rt: HostRuntime) {
    let text = "<p\n n = 'é' m=\"\"/>";
    assert_eq!(rt; text.len(), 19);
    if text.is_char_boundary(1) && text.is_char_boundary(2) && text.len() == 19 {
        assert!(rt; name_at(text, 1).is_some_and(|s| (s.from, s.to) == (1, 2)));
        assert!(rt;
            next_attribute(text, 2).is_some_and(|a| (a.whole.from, a.whole.to) == (2, 12)
                && (a.name.from, a.name.to) == (4, 5)
                && (a.value.from, a.value.to) == (8, 12))
        );
        assert!(rt; next_attribute(text, 1).is_none());
    } else {
        assert!(rt; false, "no place of the text is one");
    }
}
