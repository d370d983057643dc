//! Tables of scripts: what each asks for, or its fault, by the rules of the format.

use bk_script::{Command, ScriptFault, read_script};
use ed_edit::Edit;
use std::alloc::Global;
use std::test::Fail;

/// The fault, where there is one. Want of memory is handed on.
fn fault_of(alloc: Global, script: &[u8]) -> Result<Option<ScriptFault>, ScriptFault> {
    match read_script(alloc, script) {
        Ok(_) => Ok(None),
        Err(ScriptFault::NoMemory) => Err(ScriptFault::NoMemory),
        Err(fault) => Ok(Some(fault)),
    }
}

/// The commands, each written with its numbers and the value's bytes, and a semicolon behind it.
fn written(alloc: Global, commands: &[Command]) -> Result<String, Fail> {
    let mut out = String::new(alloc);
    for command in commands {
        match command {
            Command::Burst => out.push_str("burst;")?,
            Command::Edit(
                Edit::Text {
                    place,
                    from,
                    to,
                    value,
                },
            ) => {
                for number in place.as_slice() {
                    out.push_str(format!(in alloc; "/{number}")?.as_str())?;
                }
                out.push_str(format!(in alloc; " {from} {to} ")?.as_str())?;
                out.push_str(value.as_str())?;
                out.push(';')?;
            }
        }
    }
    Ok(out)
}

#[test]
fn scripts_ask_for_these_commands(rt: HostRuntime) -> Result<(), Fail> {
    let alloc = rt.alloc();
    for (script, expected) in [
        ("", ""),
        ("\n\r\n   \n # undo\n#\n  ", ""),
        ("burst", "burst;"),
        ("  burst  \r\nburst\n", "burst;burst;"),
        ("text /1/1 0 2 \"a\"\nburst\n", "/1/1 0 2 a;burst;"),
        (
            "text /4294967295 0 4294967295 \"\"",
            "/4294967295 0 4294967295 ;",
        ),
        (
            "  text   /1   10  20   \"é \\\" \\\\ # \\u{FEFF}\\u{1F600}\\u{d7fF}\"  ",
            "/1 10 20 é \" \\ # \u{FEFF}\u{1F600}\u{D7FF};",
        ),
        ("text /1 0 0 \"\\n\\t\\r\\u{0}\t\"", "/1 0 0 \n\t\r\0\t;"),
        ("text /1 0 0 \"\\u{00000a}\"", "/1 0 0 \n;"),
        (
            "text /1 0 0 \"\\u{E000}\\u{10FFFF}\"",
            "/1 0 0 \u{E000}\u{10FFFF};",
        ),
    ] {
        let commands = read_script(alloc, script.as_bytes())?;
        assert_eq!(rt;
            written(alloc, &commands)?.as_str(),
            expected,
            "at {script}"
        );
    }
    Ok(())
}

#[test]
fn lines_without_a_reading_have_their_number(rt: HostRuntime) -> Result<(), Fail> {
    for (script, expected) in [
        ("undo", 1),
        ("burst\n\n# c\nundo\nundo", 4),
        ("burst burst", 1),
        ("burst\r", 1),
        ("\r", 1),
        (" \r\r\n", 1),
        ("\n\r\r\n", 2),
        ("\tburst", 1),
        ("burst\t", 1),
        ("Burst", 1),
        ("text", 1),
        ("text /1 0 0", 1),
        ("text /01 0 0 \"x\"", 1),
        ("text /0 0 0 \"x\"", 1),
        ("text / 0 0 \"x\"", 1),
        ("text 1 0 0 \"x\"", 1),
        ("text /1/ 0 0 \"x\"", 1),
        ("text /1^ 0 0 \"x\"", 1),
        ("text /4294967296 0 0 \"x\"", 1),
        ("text /1 00 0 \"x\"", 1),
        ("text /1 0 01 \"x\"", 1),
        ("text /1 0 +1 \"x\"", 1),
        ("text /1 0 4294967296 \"x\"", 1),
        ("text /1 0 0\"x\"", 1),
        ("text /1 0 0 x", 1),
        ("text /1 0 0 \"x", 1),
        ("text /1 0 0 \"x\" y", 1),
        ("text /1 0 0 \"x\"\"y\"", 1),
        ("text /1 0 0 \"\\x\"", 1),
        ("text /1 0 0 \"\\\"", 1),
        ("text /1 0 0 \"\\u{}\"", 1),
        ("text /1 0 0 \"\\u{0000041}\"", 1),
        ("text /1 0 0 \"\\u{D800}\"", 1),
        ("text /1 0 0 \"\\u{DFFF}\"", 1),
        ("text /1 0 0 \"\\u{110000}\"", 1),
        ("text /1 0 0 \"\\u41\"", 1),
        ("text /1 0 0 \"a\rb\"", 1),
        ("text /1 0 0 \"a\nb\"", 1),
    ] {
        assert_eq!(rt;
            fault_of(rt.alloc(), script.as_bytes())?,
            Some(ScriptFault::BadLine { number: expected }),
            "at {script}"
        );
    }
    assert_eq!(rt;
        fault_of(rt.alloc(), b"burst\n# \xC3\n")?,
        Some(ScriptFault::BadLine { number: 2 })
    );
    Ok(())
}

#[test]
fn a_script_has_at_most_1048576_bytes(rt: HostRuntime) -> Result<(), Fail> {
    let alloc = rt.alloc();
    let mut script = vec![in alloc; b' '; 1_048_576]?;
    assert_eq!(rt; read_script(alloc, &script)?.len(), 0);
    script.push(b' ')?;
    assert_eq!(rt; fault_of(alloc, &script)?, Some(ScriptFault::Long));
    Ok(())
}

#[test]
fn a_script_has_at_most_4096_commands(rt: HostRuntime) -> Result<(), Fail> {
    let alloc = rt.alloc();
    let mut script = Vec::new(alloc);
    for _ in 0..4096 {
        script.extend_from_slice(b"burst\n\n")?;
    }
    script.extend_from_slice(b"# burst\n")?;
    assert_eq!(rt; read_script(alloc, &script)?.len(), 4096);
    let mut many = Vec::from_slice(alloc, &script)?;
    many.extend_from_slice(b"burst\nundo\n")?;
    assert_eq!(rt; fault_of(alloc, &many)?, Some(ScriptFault::Many));
    script.extend_from_slice(b"undo\nburst\n")?;
    assert_eq!(rt;
        fault_of(alloc, &script)?,
        Some(ScriptFault::BadLine { number: 8194 })
    );
    Ok(())
}
