use bk_name::{BadName, Name, is_file_name};
use std::process::Abort;
use std::test::Fail;

// The ends of each range of NameChar from U+00B7 up, and each other kind of character that is allowed.
#[test]
fn characters_that_names_hold(rt: HostRuntime) -> Result<(), Fail> {
    let cases = [
        "a",
        "z",
        "A",
        "Z",
        "0",
        "9",
        "-",
        "_",
        "~",
        " ",
        "a.xml",
        "\u{B7}",
        "\u{C0}",
        "\u{D6}",
        "\u{D8}",
        "\u{F6}",
        "\u{F8}",
        "\u{2FF}",
        "\u{300}",
        "\u{36F}",
        "\u{370}",
        "\u{37D}",
        "\u{37F}",
        "\u{1FFF}",
        "\u{200C}",
        "\u{200D}",
        "\u{203F}",
        "\u{2040}",
        "\u{2070}",
        "\u{218F}",
        "\u{2C00}",
        "\u{2FEF}",
        "\u{3001}",
        "\u{D7FF}",
        "\u{F900}",
        "\u{FDCF}",
        "\u{FDF0}",
        "\u{FFFD}",
        "\u{10000}",
        "\u{EFFFF}",
    ];
    for text in cases {
        let name = Name::read(rt.alloc(), text.as_bytes())?;
        assert_eq!(rt; name.as_str(), text);
    }
    Ok(())
}

// The neighbours of those ranges, and ASCII of each other kind.
#[test]
fn characters_that_names_lack(rt: HostRuntime) {
    let cases = [
        "\0",
        "\t",
        "\n",
        "\r",
        "!",
        "\"",
        "#",
        "$",
        "%",
        "&",
        "'",
        "(",
        ")",
        "*",
        "+",
        ",",
        ":",
        ";",
        "<",
        "=",
        ">",
        "?",
        "@",
        "[",
        "\\",
        "]",
        "^",
        "`",
        "{",
        "|",
        "}",
        "\x7F",
        "\u{A0}",
        "\u{B6}",
        "\u{B8}",
        "\u{BF}",
        "\u{D7}",
        "\u{F7}",
        "\u{37E}",
        "\u{2000}",
        "\u{200B}",
        "\u{200E}",
        "\u{203E}",
        "\u{2041}",
        "\u{206F}",
        "\u{2190}",
        "\u{2BFF}",
        "\u{2FF0}",
        "\u{3000}",
        "\u{E000}",
        "\u{F8FF}",
        "\u{FDD0}",
        "\u{FDEF}",
        "\u{FFFE}",
        "\u{F0000}",
    ];
    for text in cases {
        assert!(rt;
            matches!(
                Name::read(rt.alloc(), text.as_bytes()),
                Err(BadName::BadName)
            ),
            "{text}"
        );
    }
}

#[test]
fn segments(rt: HostRuntime) {
    let cases = [
        ("a/b/c.xml", true),
        ("a b/c d", true),
        ("...", true),
        (".a", true),
        ("a.", true),
        ("..a/b", true),
        (".burst", true),
        ("a.burst-", true),
        ("", false),
        ("/", false),
        ("/a", false),
        ("a/", false),
        ("a//b", false),
        (".", false),
        ("..", false),
        ("./a", false),
        ("a/.", false),
        ("a/../b", false),
        (".burst-", false),
        (".burst-gate", false),
        ("a/.burst-journal", false),
        (".burst-d/a", false),
    ];
    for (text, is) in cases {
        assert_eq!(rt; is_file_name(text), is, "{text}");
        assert_eq!(rt;
            Name::read(rt.alloc(), text.as_bytes()).is_ok(),
            is,
            "{text}"
        );
    }
}

#[test]
fn bytes_that_are_no_text(rt: HostRuntime) {
    let cases = [b"a\xFF".as_slice(), b"\xC3", b"\xC0\xAF", b"\xED\xA0\x80"];
    for bytes in cases {
        assert!(rt; matches!(Name::read(rt.alloc(), bytes), Err(BadName::BadName)));
    }
}

// 255 bytes and one more, of one and of two bytes a character.
#[test]
fn the_longest_name(rt: HostRuntime) -> Result<(), Fail> {
    for (text, count) in [("a", 255), ("\u{E9}", 127)] {
        let mut name = String::new(rt.alloc());
        for _ in 0..count {
            name.push_str(text)?;
        }
        assert!(rt; is_file_name(name.as_str()), "{text}");
        name.push_str(text)?;
        assert!(rt; !is_file_name(name.as_str()), "{text}");
    }
    Ok(())
}

#[test]
fn names_compare_as_bytes_and_share_their_text(rt: HostRuntime) -> Result<(), Fail> {
    let low = Name::read(rt.alloc(), b"Z")?;
    let high = Name::read(rt.alloc(), b"a/b")?;
    assert!(rt; low < high && low != high);
    let again = high.share()?;
    let copy = again.clone()?;
    drop(high);
    assert!(rt; again == copy && copy.as_str() == "a/b");
    Ok(())
}
