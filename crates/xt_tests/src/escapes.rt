//! A table of texts, with what XML's own rules have written for them.

use std::process::Abort;
use std::test::Fail;
use xt_escape::escape_text;

#[test]
fn texts_are_written(rt: HostRuntime) -> Result<(), Fail> {
    let alloc = rt.alloc();
    for (text, written) in [
        ("", ""),
        ("plain, 'quoted' \"text\"", "plain, 'quoted' \"text\""),
        ("a]", "a&#93;"),
        ("]", "&#93;"),
        ("]a", "]a"),
        ("a]]b", "a]]b"),
        ("]]>", "]]&gt;"),
        ("]]", "]&#93;"),
        ("\n", "&#10;"),
        ("\n\n", "&#10;\n"),
        ("a\n", "a\n"),
        ("\n]", "&#10;&#93;"),
        ("a\r\nb\r", "a&#13;\nb&#13;"),
        ("<b>&amp;</b>", "&lt;b&gt;&amp;amp;&lt;/b&gt;"),
        ("\u{FEFF}a\u{FEFF}", "&#65279;a&#65279;"),
        ("，é", "，é"),
        ("😀<😀", "😀&lt;😀"),
    ] {
        let out = escape_text(alloc, text)?;
        assert_eq!(rt; out.as_str(), written, "at {text}");
    }
    Ok(())
}
