//! `bookedit`: carries out the commands of a script over an XML document, and prints its tree.
#![tactic(auto)]

ghost use Rattle.std.specs.Prelude.{◌≡◌};

mod fault;
pub mod laws;
mod real;
pub mod run;
mod telling;
#[cfg(test)]
mod tests;
mod tree;
mod words;

use bk_desk::StdSource;
use real::RealDesk;
use std::alloc::AllocError;
use std::env;
use std::io::{self, ErrorKind};
use std::marker::Brand;
use std::process::ExitCode;
use std::sync::ledger::{Blank, Ledger};
use xt_lex::Steps;

/// The run over the current folder, with standard input as the script, and standard output.
fn run_on<L: Ledger>(rt: &HostRuntime, words: &[String], blank: Blank) -> u8
    requires name { blank.name ≡ L.name }
    requires parts { blank.parts ≡ L.parts }
    requires some { L.parts ≡ 1 }
{
    let mut desk = RealDesk::new(rt, io::writer(rt), rt.alloc());
    let mut script = StdSource::new(rt.reader());
    let mut steps = Steps::<L>::new(blank);
    run::run(rt.alloc(), words, &mut script, &mut desk, &mut steps)
}

/// The words after the program's own name; none where one of them isn't UTF-8, which have no reading either.
fn words_of(rt: &HostRuntime) -> Result<Vec<String>, AllocError> {
    let mut words = Vec::new(rt.alloc());
    match env::args(rt) {
        Ok(all) => {
            for word in all.skip(1) {
                words.push(word)?;
            }
        }
        Err(error) => {
            if error.kind() == ErrorKind::OutOfMemory {
                return Err(AllocError);
            }
        }
    }
    Ok(words)
}

fn main(rt: HostRuntime) -> ExitCode {
    let blank = Blank::new(1);
    match words_of(&rt) {
        Ok(words) => ExitCode::from(run_on::<Brand>(&rt, &words, blank)),
        Err(_) => ExitCode::from(telling::NO_MEMORY),
    }
}
