//! A table of cases: what each step leaves of a text.

use xt_scan::{after_blank, after_space, after_word, quoted};

#[test]
fn each_step_leaves_the_rest(rt: HostRuntime) {
    for (text, word, blank, space, in_quotes) in [
        ("", None, "", None, None),
        ("ab c", Some("b c"), "ab c", None, None),
        (" \t\r\na", None, "a", Some("a"), None),
        ("\u{a0}a", None, "\u{a0}a", None, None),
        ("\"é'\"b", None, "\"é'\"b", None, Some(("é'", "b"))),
        ("''", None, "''", None, Some(("", ""))),
        ("'\"a", None, "'\"a", None, None),
    ] {
        assert_eq!(rt; after_word("a", text), word, "at {text}");
        assert_eq!(rt; after_blank(text), blank, "at {text}");
        assert_eq!(rt; after_space(text), space, "at {text}");
        assert_eq!(rt; quoted(text), in_quotes, "at {text}");
    }
}
