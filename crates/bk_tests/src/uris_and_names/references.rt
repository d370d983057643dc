use super::uri_from;
use bk_name::{JoinFault, join, relative};
use std::process::Abort;
use std::test::Fail;

// The base and examples of RFC 3986, section 5.4; the host of `//g` has the path `/` by the URL Standard.
#[test]
fn joins_as_rfc_3986(rt: HostRuntime) -> Result<(), Fail> {
    let cases = [
        ("g:h", "g:h"),
        ("g", "http://a/b/c/g"),
        ("./g", "http://a/b/c/g"),
        ("g/", "http://a/b/c/g/"),
        ("/g", "http://a/g"),
        ("//g", "http://g/"),
        ("?y", "http://a/b/c/d;p?y"),
        ("g?y", "http://a/b/c/g?y"),
        ("#s", "http://a/b/c/d;p?q#s"),
        ("g?y#s", "http://a/b/c/g?y#s"),
        (";x", "http://a/b/c/;x"),
        ("", "http://a/b/c/d;p?q"),
        (".", "http://a/b/c/"),
        ("..", "http://a/b/"),
        ("../g", "http://a/b/g"),
        ("../../g", "http://a/g"),
        ("../../../g", "http://a/g"),
        ("g;x=1/../y", "http://a/b/c/y"),
        ("g?y/../x", "http://a/b/c/g?y/../x"),
        ("g#s/../x", "http://a/b/c/g#s/../x"),
    ];
    let base = uri_from(rt.alloc(), "http://a/b/c/d;p?q")?;
    for (reference, expected) in cases {
        assert_eq!(rt; join(rt.alloc(), &base, reference)?.as_str(), expected);
    }
    Ok(())
}

// URL Standard, section 4.4: drive letters, escapes and characters outside ASCII.
#[test]
fn joins_at_files(rt: HostRuntime) -> Result<(), Fail> {
    let cases = [
        ("/x", "file:///C:/x"),
        ("..", "file:///C:/"),
        ("../../x", "file:///C:/x"),
        ("/D|/x", "file:///D:/x"),
        ("//h/x", "file://h/x"),
        ("%7e%7E", "file:///C:/book/%7e%7E"),
        ("%2e/x", "file:///C:/book/x"),
        ("a b", "file:///C:/book/a%20b"),
        ("\u{E9}", "file:///C:/book/%C3%A9"),
        ("\\x", "file:///C:/x"),
    ];
    let base = uri_from(rt.alloc(), "file:///C:/book/a.xml")?;
    for (reference, expected) in cases {
        assert_eq!(rt; join(rt.alloc(), &base, reference)?.as_str(), expected);
    }
    Ok(())
}

#[test]
fn references_that_spell_no_url(rt: HostRuntime) -> Result<(), Fail> {
    let cases = [
        ("file:///a", "http://"),
        ("file:///a", "http://["),
        ("file:///a", "http://h:99999/"),
        ("file:///a", "http://a b/"),
        ("http://h/", "//["),
        ("urn:a", "g"),
        ("urn:a", ""),
    ];
    for (base, reference) in cases {
        let base = uri_from(rt.alloc(), base)?;
        let joined = join(rt.alloc(), &base, reference);
        assert!(rt;
            matches!(joined, Err(JoinFault::BadReference)),
            "{reference}"
        );
    }
    Ok(())
}

#[test]
fn relative_references(rt: HostRuntime) -> Result<(), Fail> {
    let cases = [
        // Down, up, beside, across.
        ("file:///book/a.xml", "file:///book/d/b.xml", "d/b.xml"),
        ("file:///book/d/b.xml", "file:///book/a.xml", "../a.xml"),
        ("file:///book/a.xml", "file:///book/b.xml", "b.xml"),
        (
            "file:///book/d/b.xml",
            "file:///book/e/f/c.xml",
            "../e/f/c.xml",
        ),
        ("file:///book/a.xml", "file:///book/a.xml?q#f", "?q#f"),
        // To itself the text would be empty.
        (
            "file:///book/a.xml",
            "file:///book/a.xml",
            "file:///book/a.xml",
        ),
        // Another scheme, another host, no path of segments.
        ("file:///book/a.xml", "http://h/b.xml", "http://h/b.xml"),
        ("http://h/a.xml", "http://g/b.xml", "http://g/b.xml"),
        ("urn:a", "urn:b", "urn:b"),
        // `/` leads to the root, `b:c` is a URL with the scheme b, and `..` stays below a drive.
        ("file:///book/d/b.xml", "file:///book/d/", "file:///book/d/"),
        ("file:///book/a.xml", "file:///book/b:c", "file:///book/b:c"),
        ("file:///C:/d/a", "file:///D:/d/b", "file:///D:/d/b"),
        (
            "file:///book/a.xml",
            "file:///book//b.xml",
            "file:///book//b.xml",
        ),
    ];
    for (from, to, expected) in cases {
        let from = uri_from(rt.alloc(), from)?;
        let to = uri_from(rt.alloc(), to)?;
        let text = relative(rt.alloc(), &from, &to)?;
        assert_eq!(rt; text.as_str(), expected);
        let back = join(rt.alloc(), &from, text.as_str())?;
        assert!(rt; back == to);
    }
    Ok(())
}
