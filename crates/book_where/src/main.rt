//! `book_where FILE`: where the first fault of a document's bytes is, and which rule is broken there; nothing where there is none.
#![tactic(auto)]

ghost use Rattle.std.specs.Prelude.{◌≡◌};

pub mod fault;
pub mod line;
pub mod position;
#[cfg(test)]
mod tests;

use fault::first_fault;
use line::put_found;
use std::alloc::AllocError;
use std::env;
use std::fs::File;
use std::io::{self, Read, Write};
use std::marker::Brand;
use std::process::ExitCode;
use std::sync::ledger::{Blank, Ledger};
use xt_lex::Steps;

/// As many bytes as a file of a book has at most.
const MOST: usize = 4_194_304;

/// The status where the words are no one file.
const USAGE: u8 = 2;

/// The status where the file has a fault, or can't be read.
const FAULT: u8 = 3;

const NO_OUTPUT: u8 = 6;

const NO_MEMORY: u8 = 7;

/// The bytes of a file, up to one more than it may have.
fn bytes_of(rt: &HostRuntime, file: &str) -> io::Result<Vec<u8>> {
    let mut bytes = Vec::new(rt.alloc());
    let mut front = File::open(rt, file)?.take(MOST as u64 + 1);
    front.read_to_end(&mut bytes)?;
    Ok(bytes)
}

fn put_text(line: &mut Vec<u8>, file: &str, text: &[u8]) -> Result<u8, AllocError> {
    line.extend_from_slice(file.as_bytes())?;
    line.extend_from_slice(text)?;
    Ok(FAULT)
}

/// Adds what is told of a file, and answers the status.
fn put_answer<L: Ledger>(
    rt: &HostRuntime,
    line: &mut Vec<u8>,
    file: &str,
    blank: Blank,
) -> Result<u8, AllocError>
    requires name { blank.name ≡ L.name }
    requires parts { blank.parts ≡ L.parts }
    requires some { L.parts ≡ 1 }
{
    let Ok(bytes) = bytes_of(rt, file) else {
        return put_text(line, file, b": can't be read as a file\n");
    };
    if bytes.len() > MOST {
        return put_text(line, file, b": has more than 4,194,304 bytes\n");
    }
    let mut steps = Steps::<L>::new(blank);
    match first_fault(rt.alloc(), &bytes, &mut steps)? {
        None => Ok(0),
        Some(found) => {
            put_found(line, file, &bytes, found)?;
            Ok(FAULT)
        }
    }
}

/// The words after the program's own name; none where one of them isn't UTF-8.
fn words_of(rt: &HostRuntime) -> Result<Vec<String>, AllocError> {
    let mut words = Vec::new(rt.alloc());
    if let Ok(all) = env::args(rt) {
        for word in all.skip(1) {
            words.push(word)?;
        }
    }
    Ok(words)
}

/// Adds what is told, and answers the status.
fn put_all<L: Ledger>(rt: &HostRuntime, line: &mut Vec<u8>, blank: Blank) -> Result<u8, AllocError>
    requires name { blank.name ≡ L.name }
    requires parts { blank.parts ≡ L.parts }
    requires some { L.parts ≡ 1 }
{
    let words = words_of(rt)?;
    match words.as_slice() {
        [file] => put_answer::<L>(rt, line, file.as_str(), blank),
        _ => {
            line.extend_from_slice(b"usage: book_where FILE\n")?;
            Ok(USAGE)
        }
    }
}

fn main(rt: HostRuntime) -> ExitCode {
    let blank = Blank::new(1);
    let mut line = Vec::new(rt.alloc());
    let Ok(status) = put_all::<Brand>(&rt, &mut line, blank) else {
        return ExitCode::from(NO_MEMORY);
    };
    match io::writer(&rt).write_all(&line) {
        Ok(()) => ExitCode::from(status),
        Err(_) => ExitCode::from(NO_OUTPUT),
    }
}
