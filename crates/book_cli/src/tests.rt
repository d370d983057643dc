//! Runs over a disk in memory, whose answers come from the standards and from this project's rules, and over real files.
ghost use Rattle.std.specs.Prelude.{◌≡◌};

mod closed;
mod edits;
mod faults;
mod journals;
mod limits;
mod real_files;
mod scripts;
mod shared_folder;
mod stops;
mod trees;
mod words;

use crate::run::run;
use crate::telling::NO_MEMORY;
use bk_desk::{Desk, DeskName, MemDesk, MemSource, Source};
use bk_name::{BadName, Name};
use std::alloc::{AllocError, Global};
use std::marker::Brand;
use std::process::Abort;
use std::sync::ledger::{Blank, Ledger};
use std::test::Fail;
use xt_lex::Steps;

/// The first lines of the tree of a root `a`.
const HEAD: &str = "element a in book.xml\n  base file:///book/book.xml\n";

/// What a run finds.
#[derive(Clone, Copy)]
struct Case<'a> {
    words: &'a [&'a str],
    /// The file book.xml, where it is there.
    root: Option<&'a [u8]>,
    journal: Option<&'a [u8]>,
    gate: Option<&'a [u8]>,
    script: &'a [u8],
    /// How many bytes a read of the script gives at most, from 1.
    piece: usize,
    /// The numbers, from 1, of the reads of the script that fail.
    lost_reads: &'a [u64],
    /// The numbers, from 1, of the calls of the disk that fail.
    lost_calls: &'a [u64],
}

/// What a run is to answer.
#[derive(Clone, Copy)]
struct Want<'a> {
    status: u8,
    /// What is told, in parts.
    told: &'a [&'a str],
    /// How many calls of the disk are made.
    calls: u64,
    /// The file book.xml afterwards.
    root: Option<&'a [u8]>,
}

/// What a run answered, and the disk afterwards.
#[derive(Debug, Drop)]
struct Outcome {
    status: u8,
    desk: MemDesk,
}

/// A run on book.xml over a disk that has this root alone, and no call fails.
fn over<'a>(root: &'a str, script: &'a str) -> Case<'a> {
    Case {
        words: &["book.xml"],
        root: Some(root.as_bytes()),
        journal: None,
        gate: None,
        script: script.as_bytes(),
        piece: 4096,
        lost_reads: &[],
        lost_calls: &[],
    }
}

fn copy(alloc: Global, bytes: &[u8]) -> Result<Vec<u8>, Fail> {
    Ok(Vec::from_slice(alloc, bytes)?)
}

fn book_file(alloc: Global, name: &str) -> Result<DeskName, Fail> {
    match Name::read(alloc, name.as_bytes()) {
        Ok(name) => Ok(DeskName::Book(name)),
        Err(BadName::BadName) => Err(Fail::from(BadName::BadName)),
        Err(BadName::NoMemory) => Err(Fail::from(AllocError)),
    }
}

/// A text, so many times a second one, and a third.
fn repeated(
    alloc: Global,
    front: &str,
    unit: &str,
    count: usize,
    back: &str,
) -> Result<String, Fail> {
    let mut text = String::from_str(alloc, front)?;
    for _ in 0..count {
        text.push_str(unit)?;
    }
    text.push_str(back)?;
    Ok(text)
}

fn joined(alloc: Global, parts: &[&str]) -> Result<Vec<u8>, Fail> {
    let mut text = Vec::new(alloc);
    for part in parts {
        text.extend_from_slice(part.as_bytes())?;
    }
    Ok(text)
}

/// The disk of a case.
fn desk_of(alloc: Global, case: &Case) -> Result<MemDesk, Fail> {
    let mut files = Vec::new(alloc);
    if let Some(bytes) = case.root {
        files.push((book_file(alloc, "book.xml")?, copy(alloc, bytes)?))?;
    }
    if let Some(bytes) = case.journal {
        files.push((DeskName::Journal, copy(alloc, bytes)?))?;
    }
    if let Some(bytes) = case.gate {
        files.push((DeskName::Gate, copy(alloc, bytes)?))?;
    }
    let lost_calls = Vec::from_slice(alloc, case.lost_calls)?;
    Ok(MemDesk::new(alloc, files, lost_calls)?)
}

fn run_on<D: Desk, S: Source, L: Ledger>(
    alloc: Global,
    words: &[String],
    script: &mut S,
    desk: &mut D,
    blank: Blank,
) -> u8
    requires name { blank.name ≡ L.name }
    requires parts { blank.parts ≡ L.parts }
    requires some { L.parts ≡ 1 }
{
    let mut steps = Steps::<L>::new(blank);
    run(alloc, words, script, desk, &mut steps)
}

/// A run of these words. Want of memory is handed on.
fn run_words<D: Desk, S: Source>(
    alloc: Global,
    words: &[&str],
    script: &mut S,
    desk: &mut D,
) -> Result<u8, Fail> {
    let mut texts = Vec::new(alloc);
    for word in words {
        texts.push(String::from_str(alloc, word)?)?;
    }
    let blank = Blank::new(1);
    let status = run_on::<D, S, Brand>(alloc, &texts, script, desk, blank);
    if status == NO_MEMORY {
        return Err(Fail::from(AllocError));
    }
    Ok(status)
}

/// A run of a case.
fn ran(alloc: Global, case: &Case) -> Result<Outcome, Fail> {
    let mut desk = desk_of(alloc, case)?;
    let lost_reads = Vec::from_slice(alloc, case.lost_reads)?;
    let mut script = MemSource::new(copy(alloc, case.script)?, case.piece.max(1), lost_reads);
    let status = run_words(alloc, case.words, &mut script, &mut desk)?;
    Ok(Outcome { status, desk })
}

/// A further run on book.xml over the same disk, without a command: its status.
fn opened_again(alloc: Global, desk: &mut MemDesk) -> Result<u8, Fail> {
    let mut script = MemSource::new(Vec::new(alloc), 1, Vec::new(alloc));
    run_words(alloc, &["book.xml"], &mut script, desk)
}

/// Whether a run answers what is wanted; where it does not, the test ends there, and `at` is printed.
fn check(rt: &impl Abort, alloc: Global, case: &Case, want: &Want, at: &str) -> Result<(), Fail> {
    let outcome = ran(alloc, case)?;
    let told = joined(alloc, want.told)?;
    let root = book_file(alloc, "book.xml")?;
    assert_eq!(rt; outcome.status, want.status, "at {at}");
    assert!(rt; outcome.desk.told() == told.as_slice(), "told, at {at}");
    assert_eq!(rt; outcome.desk.calls(), want.calls, "at {at}");
    assert!(rt; outcome.desk.file(&root) == want.root, "book.xml, at {at}");
    Ok(())
}
