use super::{Case, HEAD, Want, check, over, repeated};
use std::test::Fail;

const USAGE: &str = "usage: bookedit [--base URI] ROOT [CATALOG]...\n";

/// Words that have no reading.
const UNREAD: &[&[&str]] = &[
    &[],
    &["book.xml", "book.xml"],
    &["--base", "http://x.org", "book.xml"],
    &["--base=http://x.org/", "book.xml"],
    &["--make", "3"],
    &["--make=3"],
    &["--", "book.xml"],
    &["--"],
    &["-"],
    &["--help"],
    &["-book.xml"],
    &[""],
    &["."],
    &[".."],
    &[".burst-journal"],
    &[".burst-gate"],
    &[".burst-"],
    &["a/book.xml"],
    &["a/../b"],
    &["/book.xml"],
    &["book.xml/"],
    &["a\\b"],
    &["a b.xml"],
    &["a:b"],
    &["a+b"],
    &["%41"],
    &["a\n"],
    &["é.xml"],
];

/// Names that have a reading, of files that are not there.
const READ: &[(&str, &str)] = &[
    ("a", "fault Missing a\n"),
    ("A-z_0.9~", "fault Missing A-z_0.9~\n"),
    ("...", "fault Missing ...\n"),
    (".burst", "fault Missing .burst\n"),
    ("a.burst-gate", "fault Missing a.burst-gate\n"),
    ("BOOK.XML", "fault Missing BOOK.XML\n"),
];

// Neither the script nor the disk is read: the source would fail.
#[test]
fn words_without_a_reading_tell_the_usage(rt: HostRuntime) -> Result<(), Fail> {
    let case = Case {
        lost_reads: &[1],
        ..over("<a/>", "")
    };
    let want = Want {
        status: 2,
        told: &[USAGE],
        calls: 1,
        root: case.root,
    };
    for words in UNREAD {
        check(&rt, rt.alloc(), &Case { words, ..case }, &want, "words")?;
    }
    Ok(())
}

#[test]
fn a_name_of_one_segment_is_a_root(rt: HostRuntime) -> Result<(), Fail> {
    for (word, line) in READ {
        let case = Case {
            words: &[word],
            ..over("<a/>", "")
        };
        let want = Want {
            status: 3,
            told: &[line],
            calls: 4,
            root: case.root,
        };
        check(&rt, rt.alloc(), &case, &want, word)?;
    }
    Ok(())
}

#[test]
fn a_name_has_at_most_255_bytes(rt: HostRuntime) -> Result<(), Fail> {
    let alloc = rt.alloc();
    let longest = repeated(alloc, "", "x", 255, "")?;
    let longer = repeated(alloc, "", "x", 256, "")?;
    let line = repeated(alloc, "fault Missing ", "x", 255, "\n")?;
    for (word, status, told, calls) in [
        (longest.as_str(), 3, line.as_str(), 4),
        (longer.as_str(), 2, USAGE, 1),
    ] {
        let case = Case {
            words: &[word],
            ..over("<a/>", "")
        };
        let want = Want {
            status,
            told: &[told],
            calls,
            root: case.root,
        };
        check(&rt, alloc, &case, &want, told)?;
    }
    Ok(())
}

// An empty book.xml is there, and reads as no document; without one nothing is there to read.
#[test]
fn a_root_is_missing_or_reads_as_no_document(rt: HostRuntime) -> Result<(), Fail> {
    let alloc = rt.alloc();
    for (root, status, told, calls) in [
        (None, 3, ["fault Missing book.xml\n", ""], 4),
        (
            Some(b"".as_slice()),
            3,
            ["fault NotWellFormed book.xml\n", ""],
            4,
        ),
        (Some(b"<a/>".as_slice()), 0, [HEAD, ""], 4),
    ] {
        let case = Case {
            root,
            ..over("", "")
        };
        let want = Want {
            status,
            told: &told,
            calls,
            root,
        };
        check(&rt, alloc, &case, &want, told[0])?;
    }
    Ok(())
}
