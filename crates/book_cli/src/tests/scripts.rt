use super::{Case, HEAD, Want, check, over, repeated};
use std::test::Fail;

/// Scripts whose line of this number has no reading, or a command that is not built.
const FAULTS: &[(&[u8], &str)] = &[
    (b"undo", "fault script line 1\n"),
    (b"redo", "fault script line 1\n"),
    (b"tree", "fault script line 1\n"),
    (b"owner /1", "fault script line 1\n"),
    (b"put /1 first \"x\"", "fault script line 1\n"),
    (b"attr /1 n \"x\"", "fault script line 1\n"),
    (b"drop-attr /1 n", "fault script line 1\n"),
    (b"insert /1 first \"<b/>\"", "fault script line 1\n"),
    (b"insert /1/1 at 1 \"<b/>\"", "fault script line 1\n"),
    (b"delete /1/1", "fault script line 1\n"),
    (b"move /1/1 /1/2 after", "fault script line 1\n"),
    (b"extract /1/1 \"c.xml\"", "fault script line 1\n"),
    (b"inline /1/1^", "fault script line 1\n"),
    (b"text /1/1^ 0 0 \"x\"", "fault script line 1\n"),
    (b"text /01 0 0 \"x\"", "fault script line 1\n"),
    (b"text /0 0 0 \"x\"", "fault script line 1\n"),
    (b"text / 0 0 \"x\"", "fault script line 1\n"),
    (b"text 1/1 0 0 \"x\"", "fault script line 1\n"),
    (b"text /1/1 0 4294967296 \"x\"", "fault script line 1\n"),
    (b"text /1/1 00 0 \"x\"", "fault script line 1\n"),
    (b"text /1/1 -1 0 \"x\"", "fault script line 1\n"),
    (b"text /1/1 0 0 x", "fault script line 1\n"),
    (b"text /1/1 0 0 'x'", "fault script line 1\n"),
    (b"text /1/1 0 0 \"x", "fault script line 1\n"),
    (b"text /1/1 0 0 \"x\ny\"", "fault script line 1\n"),
    (b"text /1/1 0 0 \"\\x\"", "fault script line 1\n"),
    (b"text /1/1 0 0 \"\\u{}\"", "fault script line 1\n"),
    (b"text /1/1 0 0 \"\\u{0000041}\"", "fault script line 1\n"),
    (b"text /1/1 0 0 \"\\u{D800}\"", "fault script line 1\n"),
    (b"text /1/1 0 0 \"\\u{110000}\"", "fault script line 1\n"),
    (b"text /1/1 0 0 \"x\" burst", "fault script line 1\n"),
    (b"text /1/1 0 0", "fault script line 1\n"),
    (b"burst burst", "fault script line 1\n"),
    (b"BURST", "fault script line 1\n"),
    (b"\tburst", "fault script line 1\n"),
    (b"burst\rburst", "fault script line 1\n"),
    (b"burst\r", "fault script line 1\n"),
    (b"# \xFF\n", "fault script line 1\n"),
    (b"\xEF\xBB\xBFburst", "fault script line 1\n"),
    (b"burst\n\xC3", "fault script line 2\n"),
    (b"burst\r\nundo\r\nredo", "fault script line 2\n"),
    (
        b"# undo\n\n   \nburst\r\n\r\n  x # y",
        "fault script line 6\n",
    ),
];

// No command is carried out, and nothing but the line is asked of the disk.
#[test]
fn a_line_without_a_reading_is_told_by_its_number(rt: HostRuntime) -> Result<(), Fail> {
    for (script, line) in FAULTS {
        let case = Case {
            script: *script,
            ..over("<a>x</a>", "")
        };
        let want = Want {
            status: 4,
            told: &[line],
            calls: 1,
            root: case.root,
        };
        let at = str::from_utf8(script).unwrap_or("a script that is no text");
        check(&rt, rt.alloc(), &case, &want, at)?;
    }
    Ok(())
}

// Blank lines and comments have no command; a line ends at LF or at CR and LF, and the last one may lack both.
#[test]
fn each_line_has_one_command_at_most(rt: HostRuntime) -> Result<(), Fail> {
    for (script, replies, calls) in [
        ("", "", 4),
        ("\n\r\n   \n # undo\n#\n  ", "", 4),
        ("burst", "burst 0\n", 5),
        ("  burst  \r\nburst\n", "burst 0\nburst 0\n", 6),
        ("# one\nburst\n# two\n", "burst 0\n", 5),
        ("text /1/1 0 1 \"x\"", "ok\n", 5),
        ("  text   /1/1  0   1 \"x\"  \r\n", "ok\n", 5),
        ("text /1/1 0 1 \"\\u{78}\"", "ok\n", 5),
    ] {
        let case = over("<a>x</a>", script);
        let want = Want {
            status: 0,
            told: &[replies, HEAD, "  text \"x\" in book.xml\n"],
            calls,
            root: case.root,
        };
        check(&rt, rt.alloc(), &case, &want, script)?;
    }
    Ok(())
}

// The last line counts. Of a script that is too long the lines are not read.
#[test]
fn a_script_has_at_most_1048576_bytes(rt: HostRuntime) -> Result<(), Fail> {
    let alloc = rt.alloc();
    let longest = repeated(alloc, "burst\n#", "x", 1_048_563, "\nburst")?;
    let longer = repeated(alloc, "burst\n#", "x", 1_048_564, "\nburst")?;
    let unread = repeated(alloc, "undo\n#", "x", 1_048_571, "")?;
    let done = ["burst 0\nburst 0\n", HEAD];
    let long = ["fault script long\n", ""];
    for (script, status, told, calls) in [
        (longest.as_str(), 0, done, 6),
        (longer.as_str(), 4, long, 1),
        (unread.as_str(), 4, long, 1),
    ] {
        let case = over("<a/>", script);
        let want = Want {
            status,
            told: &told,
            calls,
            root: case.root,
        };
        check(&rt, alloc, &case, &want, told[0])?;
    }
    Ok(())
}

// A fault before the 4,097th command comes first, and one behind it does not.
#[test]
fn a_script_has_at_most_4096_commands(rt: HostRuntime) -> Result<(), Fail> {
    let alloc = rt.alloc();
    let most = repeated(alloc, "", "burst\n", 4096, "# burst\n")?;
    let replies = repeated(alloc, "", "burst 0\n", 4096, "")?;
    let more = repeated(alloc, "", "burst\n", 4097, "")?;
    let bad_before = repeated(alloc, "", "burst\n", 4096, "undo\nburst\n")?;
    let bad_behind = repeated(alloc, "", "burst\n", 4097, "undo\n")?;
    let many = ["fault script commands\n", ""];
    for (script, status, told, calls) in [
        (most.as_str(), 0, [replies.as_str(), HEAD], 4100),
        (more.as_str(), 4, many, 1),
        (bad_before.as_str(), 4, ["fault script line 4097\n", ""], 1),
        (bad_behind.as_str(), 4, many, 1),
    ] {
        let case = over("<a/>", script);
        let want = Want {
            status,
            told: &told,
            calls,
            root: case.root,
        };
        check(&rt, alloc, &case, &want, told[0])?;
    }
    Ok(())
}

// In pieces of 1 byte a script of 24 bytes takes 24 reads, and one more that finds its end.
#[test]
fn a_script_is_read_in_pieces_to_its_end(rt: HostRuntime) -> Result<(), Fail> {
    let script = "text /1/1 0 1 \"y\"\nburst\n";
    for piece in [1, 2, 5, 24, 25] {
        let case = Case {
            piece,
            lost_reads: &[26],
            ..over("<a>x</a>", script)
        };
        let want = Want {
            status: 0,
            told: &["ok\nburst 1\n", HEAD, "  text \"y\" in book.xml\n"],
            calls: 14,
            root: Some(b"<a>y</a>"),
        };
        check(&rt, rt.alloc(), &case, &want, script)?;
    }
    Ok(())
}

#[test]
fn a_source_that_fails_is_told_alone(rt: HostRuntime) -> Result<(), Fail> {
    for read in 1..=25 {
        let case = Case {
            piece: 1,
            lost_reads: &[read],
            ..over("<a>x</a>", "text /1/1 0 1 \"y\"\nburst\n")
        };
        let want = Want {
            status: 5,
            told: &["fault source\n"],
            calls: 1,
            root: case.root,
        };
        check(&rt, rt.alloc(), &case, &want, "a read")?;
    }
    Ok(())
}
