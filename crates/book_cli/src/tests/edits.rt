use super::{HEAD, Want, check, over};
use std::alloc::Global;
use std::process::Abort;
use std::test::Fail;

/// A run that ends well.
#[derive(Clone, Copy)]
struct Edit {
    root: &'static str,
    script: &'static str,
    /// What is told before the tree.
    replies: &'static str,
    /// The tree behind its first two lines.
    tree: &'static str,
    /// The root afterwards.
    after: &'static str,
    /// How many calls of the disk are made.
    calls: u64,
}

/// Each text that is edited is written anew, and every other byte stays. A range counts characters, and a place the nodes
/// of the tree as it is then.
const EDITS: &[Edit] = &[
    Edit {
        root: "<a>a</a>",
        script: "text /1/1 0 1 \"z\"\nburst",
        replies: "ok\nburst 1\n",
        tree: "  text \"z\" in book.xml\n",
        after: "<a>z</a>",
        calls: 14,
    },
    Edit {
        root: "<a>a&lt;b</a>",
        script: "text /1/1 1 2 \">\"\nburst",
        replies: "ok\nburst 1\n",
        tree: "  text \"a>b\" in book.xml\n",
        after: "<a>a&gt;b</a>",
        calls: 14,
    },
    Edit {
        root: "<a>x&#38;y<i/>p&#113;r</a >\n",
        script: "text /1/3 1 2 \"Q\"\nburst",
        replies: "ok\nburst 1\n",
        tree: "  text \"x&y\" in book.xml\n  element i in book.xml\n  text \"pQr\" in book.xml\n",
        after: "<a>x&#38;y<i/>pQr</a >\n",
        calls: 14,
    },
    Edit {
        root: "<a>é€😀z</a>",
        script: "text /1/1 1 3 \"-\"\nburst",
        replies: "ok\nburst 1\n",
        tree: "  text \"é-z\" in book.xml\n",
        after: "<a>é-z</a>",
        calls: 14,
    },
    Edit {
        root: "<a>x</a>",
        script: "text /1/1 0 1 \"\\u{FFFD}\\u{10000}\\u{E000}\"\nburst",
        replies: "ok\nburst 1\n",
        tree: "  text \"\u{FFFD}\u{10000}\u{E000}\" in book.xml\n",
        after: "<a>\u{FFFD}\u{10000}\u{E000}</a>",
        calls: 14,
    },
    Edit {
        root: "<a>x</a>",
        script: "text /1/1 0 1 \"\\\"\\\\\\n\\t\\r\\u{41}&<>\\u{feff}]\"\nburst",
        replies: "ok\nburst 1\n",
        tree: "  text \"\\\"\\\\\\n\\t\\rA&<>\u{FEFF}]\" in book.xml\n",
        after: "<a>\"\\\n\t&#13;A&amp;&lt;&gt;&#65279;&#93;</a>",
        calls: 14,
    },
    Edit {
        root: "<a>x]</a>",
        script: "text /1/1 0 0 \"\\n\\n\"\ntext /1/1 4 4 \"y\"\nburst",
        replies: "ok\nok\nburst 1\n",
        tree: "  text \"\\n\\nx]y\" in book.xml\n",
        after: "<a>&#10;\nx]y</a>",
        calls: 15,
    },
    Edit {
        root: "<a>x<b/>y</a>",
        script: "text /1/1 0 1 \"\"\ntext /1/2 0 1 \"z\"\nburst",
        replies: "ok\nok\nburst 1\n",
        tree: "  element b in book.xml\n  text \"z\" in book.xml\n",
        after: "<a><b/>z</a>",
        calls: 15,
    },
    Edit {
        root: "<a>x<b>yz</b></a>",
        script: "text /1/2/1 1 1 \"-\"\ntext /1/1 1 1 \"x\"\nburst",
        replies: "ok\nok\nburst 1\n",
        tree: "  text \"xx\" in book.xml\n  element b in book.xml\n    text \"y-z\" in book.xml\n",
        after: "<a>xx<b>y-z</b></a>",
        calls: 15,
    },
    Edit {
        root: "<a>x</a>",
        script: "text /1/1 0 1 \"\"\nburst",
        replies: "ok\nburst 1\n",
        tree: "",
        after: "<a></a>",
        calls: 14,
    },
    Edit {
        root: "<a>a<![CDATA[<]]>b</a>",
        script: "text /1/1 1 2 \">\"\nburst",
        replies: "ok\nburst 1\n",
        tree: "  text \"a>b\" in book.xml\n",
        after: "<a>a&gt;b</a>",
        calls: 14,
    },
    Edit {
        root: "\u{FEFF}<?xml version='1.0'?>\r\n<a x = '1' >\r\n  <![CDATA[]]><?p q?>b\r\nc<!-- - --></a >\r\n<?z?>",
        script: "text /1/3 1 2 \"-\"\nburst",
        replies: "ok\nburst 1\n",
        tree: "  attribute x=\"1\"\n  text \"\\n  \" in book.xml\n  pi p \"q\" in book.xml\n  text \"b-c\" in book.xml\n  comment \" - \" in book.xml\npi z \"\" in book.xml\n",
        after: "\u{FEFF}<?xml version='1.0'?>\r\n<a x = '1' >\r\n  <![CDATA[]]><?p q?>b-c<!-- - --></a >\r\n<?z?>",
        calls: 14,
    },
    Edit {
        root: "<a xmlns:p='u:1'><![CDATA[]]><p:b p:n='1'>x</p:b></a>",
        script: "text /1/1/1 0 1 \"y\"\nburst",
        replies: "ok\nburst 1\n",
        tree: "  element {u:1}b in book.xml\n    attribute {u:1}n=\"1\"\n    text \"y\" in book.xml\n",
        after: "<a xmlns:p='u:1'><![CDATA[]]><p:b p:n='1'>y</p:b></a>",
        calls: 14,
    },
];

/// What is not saved is in the tree alone; a file is saved where it differs from what was last saved.
const SAVES: &[Edit] = &[
    Edit {
        root: "<a>a</a>",
        script: "text /1/1 0 1 \"z\"",
        replies: "ok\n",
        tree: "  text \"z\" in book.xml\n",
        after: "<a>a</a>",
        calls: 5,
    },
    Edit {
        root: "<a>a</a>",
        script: "burst",
        replies: "burst 0\n",
        tree: "  text \"a\" in book.xml\n",
        after: "<a>a</a>",
        calls: 5,
    },
    Edit {
        root: "<a>a</a>",
        script: "text /1/1 0 1 \"a\"\nburst",
        replies: "ok\nburst 0\n",
        tree: "  text \"a\" in book.xml\n",
        after: "<a>a</a>",
        calls: 6,
    },
    Edit {
        root: "<a>&#97;</a>",
        script: "text /1/1 0 1 \"a\"\nburst",
        replies: "ok\nburst 1\n",
        tree: "  text \"a\" in book.xml\n",
        after: "<a>a</a>",
        calls: 14,
    },
    Edit {
        root: "<a>a</a>",
        script: "text /1/1 0 1 \"z\"\ntext /1/1 0 1 \"a\"\nburst\nburst",
        replies: "ok\nok\nburst 0\nburst 0\n",
        tree: "  text \"a\" in book.xml\n",
        after: "<a>a</a>",
        calls: 8,
    },
    Edit {
        root: "<a>a</a>",
        script: "text /1/1 0 1 \"y\"\nburst\ntext /1/1 0 1 \"z\"\nburst\nburst\ntext /1/1 0 1 \"-\"",
        replies: "ok\nburst 1\nok\nburst 1\nburst 0\nok\n",
        tree: "  text \"-\" in book.xml\n",
        after: "<a>z</a>",
        calls: 26,
    },
    Edit {
        root: "<a>a</a>",
        script: "text /1/1 0 1 \"z\"\nburst\ntext /1/1 0 1 \"a\"\nburst",
        replies: "ok\nburst 1\nok\nburst 1\n",
        tree: "  text \"a\" in book.xml\n",
        after: "<a>a</a>",
        calls: 24,
    },
];

/// Edits of `<a>xyz<b/></a>` that are refused, with the first test that refuses each: a place that names no node, one that
/// names no text, a range that is not within it, and a character that no document may hold.
const REFUSED: &[(&str, &str)] = &[
    ("text /2 0 0 \"\"", "refused NoSuchPlace\n"),
    ("text /1/3 0 0 \"\"", "refused NoSuchPlace\n"),
    ("text /1/1/1 0 0 \"\"", "refused NoSuchPlace\n"),
    ("text /1/9 5 0 \"\\u{0}\"", "refused NoSuchPlace\n"),
    ("text /4294967295 0 0 \"\"", "refused NoSuchPlace\n"),
    ("text /1 0 0 \"x\"", "refused WrongKind\n"),
    ("text /1/2 0 0 \"\"", "refused WrongKind\n"),
    ("text /1 5 0 \"\\u{0}\"", "refused WrongKind\n"),
    ("text /1/1 2 1 \"\"", "refused BadRange\n"),
    ("text /1/1 0 4 \"\"", "refused BadRange\n"),
    ("text /1/1 4 4 \"\"", "refused BadRange\n"),
    ("text /1/1 2 1 \"\\u{0}\"", "refused BadRange\n"),
    ("text /1/1 0 4294967295 \"\\u{0}\"", "refused BadRange\n"),
    ("text /1/1 0 3 \"\\u{0}\"", "refused BadText\n"),
    ("text /1/1 3 3 \"x\\u{B}\"", "refused BadText\n"),
    ("text /1/1 3 3 \"x\\u{FFFE}\"", "refused BadText\n"),
    ("text /1/1 1 2 \"\\u{FFFF}y\"", "refused BadText\n"),
];

fn check_edits(rt: &impl Abort, alloc: Global, edits: &[Edit]) -> Result<(), Fail> {
    for edit in edits {
        let want = Want {
            status: 0,
            told: &[edit.replies, HEAD, edit.tree],
            calls: edit.calls,
            root: Some(edit.after.as_bytes()),
        };
        check(rt, alloc, &over(edit.root, edit.script), &want, edit.script)?;
    }
    Ok(())
}

#[test]
fn an_edit_changes_the_bytes_of_its_text_alone(rt: HostRuntime) -> Result<(), Fail> {
    check_edits(&rt, rt.alloc(), EDITS)
}

// A save that writes makes eight calls more than one that does not.
#[test]
fn a_file_is_saved_where_it_differs(rt: HostRuntime) -> Result<(), Fail> {
    check_edits(&rt, rt.alloc(), SAVES)
}

// The session goes on: an edit behind it is made and saved.
#[test]
fn an_edit_is_refused_by_the_first_test_that_holds(rt: HostRuntime) -> Result<(), Fail> {
    let alloc = rt.alloc();
    let root = "<a>xyz<b/></a>";
    for (line, reply) in REFUSED {
        let alone = Want {
            status: 1,
            told: &[
                reply,
                HEAD,
                "  text \"xyz\" in book.xml\n  element b in book.xml\n",
            ],
            calls: 5,
            root: Some(root.as_bytes()),
        };
        check(&rt, alloc, &over(root, line), &alone, line)?;
        let script = format!(in alloc; "{line}\ntext /1/1 0 1 \"X\"\nburst\n")?;
        let followed = Want {
            status: 1,
            told: &[
                reply,
                "ok\nburst 1\n",
                HEAD,
                "  text \"Xyz\" in book.xml\n  element b in book.xml\n",
            ],
            calls: 15,
            root: Some(b"<a>Xyz<b/></a>"),
        };
        check(&rt, alloc, &over(root, script.as_str()), &followed, line)?;
    }
    Ok(())
}

#[test]
fn each_refusal_has_its_reply(rt: HostRuntime) -> Result<(), Fail> {
    let script =
        "text /1 0 0 \"x\"\ntext /1/9 0 0 \"x\"\ntext /1/1 2 1 \"x\"\ntext /1/1 0 0 \"\\u{1}\"\nburst";
    let replies =
        "refused WrongKind\nrefused NoSuchPlace\nrefused BadRange\nrefused BadText\nburst 0\n";
    let case = over("<a>x<b><c/></b></a>", script);
    let want = Want {
        status: 1,
        told: &[
            replies,
            HEAD,
            "  text \"x\" in book.xml\n  element b in book.xml\n    element c in book.xml\n",
        ],
        calls: 9,
        root: case.root,
    };
    check(&rt, rt.alloc(), &case, &want, script)
}
