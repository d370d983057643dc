//! Scripts.

ghost use Rattle.std.specs.Prelude.{◌≡◌, ◌+◌, ◌≤◌, IfOk, IfErr, IfSome, map, Some, [], List, length, option_map};
ghost use Rattle.xt_spec.specs.Limit.{most_script_bytes};
ghost use Rattle.bk_script.specs.Command as model;
ghost use Rattle.bk_script.specs.declared.script.ScriptFault.TheVariants.{NoMemory};
ghost use Rattle.bk_script.specs.Reading.{Answers, added, ended_line_at, without_cr, line_of, lines_of, lines_read, script_read};
ghost use Rattle.bk_script.specs.Script.{IsScript, IsFaultOf};
ghost use Rattle.bk_script.specs.View.{command_of, script_fault};

use crate::command::Command;
use crate::line::line_of;
use crate::stop::Stop;
use memchr::memchr;
use std::alloc::Global;

/// A script has at most so many bytes.
const MAX_SCRIPT: usize = 1_048_576;

/// A script has at most so many commands.
const MAX_COMMANDS: usize = 4_096;

/// Why a script has no commands. Of `BadLine` and `Many` the one that comes first.
#[derive(Clone, Copy, Debug, PartialEq, Eq)]
pub enum ScriptFault {
    /// More than 1,048,576 bytes.
    Long,
    /// The first line that isn't UTF-8, has no reading, or has a command that isn't built: `undo`. From 1.
    BadLine { number: u32 },
    /// A line has the 4,097th command.
    Many,
    /// Out of memory.
    NoMemory,
}

/// Without one CR at the end.
fn without_cr(line: &[u8]) -> &[u8]
    ensures { result.now ≡ without_cr line.now }
{
    match line {
        [front @ .., last] => if *last == b'\r' { front } else { line },
        [] => line,
    }
}

/// The line that an LF ends, and what follows.
fn ended_line(bytes: &[u8]) -> Option<(&[u8], &[u8])>
    ensures { option_map (λ x. (x.0.now, x.1.now)) result ≡ ended_line_at bytes.now }
{
    match memchr(b'\n', bytes) {
        Some(at) => Some((without_cr(&bytes[..at]), &bytes[at + 1..])),
        None => None,
    }
}

/// What the line of this number counts is appended.
fn add_line(
    alloc: Global,
    line: &[u8],
    number: u32,
    commands: &mut Vec<Command>,
) -> Result<(), ScriptFault>
    ensures { Answers (λ _. map command_of commands.new.items) result (added (line_of line.now) number (map command_of commands.old.items)) }
{
    let command = match line_of(alloc, line) {
        Ok(Some(command)) => command,
        Ok(None) => return Ok(()),
        Err(Stop::NoReading) => return Err(ScriptFault::BadLine { number }),
        Err(Stop::NoMemory) => return Err(ScriptFault::NoMemory),
    };
    if commands.len() >= MAX_COMMANDS {
        return Err(ScriptFault::Many);
    }
    if commands.push(command).is_err() {
        return Err(ScriptFault::NoMemory);
    }
    Ok(())
}

fn read_lines(alloc: Global, bytes: &[u8]) -> Result<Vec<Command>, ScriptFault>
    requires few { length bytes.now ≤ most_script_bytes }
    ensures { Answers (λ v. map command_of v.items) result (lines_read 1 [] (lines_of bytes.now)) }
{
    let mut commands = Vec::new(alloc);
    let mut rest = bytes;
    let mut number = 1;
    while let Some((line, after)) = ended_line(rest) {
        add_line(alloc, line, number, &mut commands)?;
        number += 1;
        rest = after;
    }
    add_line(alloc, rest, number, &mut commands)?;
    Ok(commands)
}

#[tactic(auto, unfolding(crate::specs::Reading::script_read))]
fn read(alloc: Global, bytes: &[u8]) -> Result<Vec<Command>, ScriptFault>
    ensures { Answers (λ v. map command_of v.items) result (script_read bytes.now) }
{
    if bytes.len() > MAX_SCRIPT {
        return Err(ScriptFault::Long);
    }
    read_lines(alloc, bytes)
}

/// The commands of a script, in the order of their lines, or its first fault.
pub fn read_script(alloc: Global, bytes: &[u8]) -> Result<Vec<Command>, ScriptFault>
    ensures value { IfOk result (λ v. IsScript bytes.now (map command_of v.items)) }
    ensures fault { IfErr result (λ e. IfSome (script_fault e) (IsFaultOf bytes.now)) }
    // What is a script is read.
    ensures only { IfErr result (λ e. (commands : List model.Command) → IsScript bytes.now commands → e ≡ NoMemory) }
{
    read(alloc, bytes)
}
