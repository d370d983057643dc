ghost use Rattle.std.specs.Prelude.{◌≤◌, vec_len};

use crate::{Failed, Source};

/// Bytes in memory that are read in pieces. The reads whose numbers are listed fail.
#[derive(Debug, Drop)]
pub struct MemSource {
    bytes: Vec<u8>,
    at: usize,
    piece: usize,
    fails: Vec<u64>,
    reads: u64,
    faults: u64,
    ghost within: { at ≤ vec_len bytes },
    ghost gives_some: { 1 ≤ piece },
}

impl MemSource {
    ghost use Rattle.std.specs.Prelude.{◌≤◌};
    ghost use Rattle.bk_desk.specs.MemSource.{IsNewSource};

    /// A source of these bytes, at most `piece` of them a read. The reads numbered in `fails`, from 1, fail.
    pub fn new(bytes: Vec<u8>, piece: usize, fails: Vec<u64>) -> MemSource
        requires piece { 1 ≤ piece }
        ensures value { IsNewSource bytes.items piece fails.items result }
    {
        MemSource {
            bytes,
            at: 0,
            piece,
            fails,
            reads: 0,
            faults: 0,
        }
    }
}

impl Source for MemSource {
    ghost use Rattle.std.specs.Prelude.{◌≡◌, ◌≤◌, Some, length, IfOk, OnErr, IsErr};
    ghost use Rattle.bk_desk.specs.Source.{TakesFront};
    ghost use Rattle.bk_desk.specs.Cause.{HasCause};
    ghost use Rattle.bk_desk.specs.MemSource.{mem_left, mem_read_faults, IsRead, KeepsSource};

    ghost left = { λ s. Some (mem_left s) };

    ghost faults = { mem_read_faults };

    fn read(&mut self, buffer: &mut [u8]) -> Result<usize, Failed>
        ensures fits { IfOk result (λ count. count ≤ length buffer.new) }
        ensures value { IfOk result (λ count. TakesFront (Some (mem_left self.old)) (Some (mem_left self.new)) buffer.new count) }
        ensures same { OnErr result (Some (mem_left self.new) ≡ Some (mem_left self.old)) }
        ensures cause { HasCause (mem_read_faults self.old) (mem_read_faults self.new) (IsErr result) }
        // It fails exactly where its number is listed.
        ensures fault { IsRead self.old (length buffer.old) result }
        ensures others { KeepsSource self.old self.new }
    {
        self.reads = self.reads.saturating_add(1);
        if self.fails.as_slice().contains(&self.reads) {
            self.faults = self.faults.saturating_add(1);
            return Err(Failed);
        }
        let rest = &self.bytes[self.at..];
        let count = rest.len().min(self.piece).min(buffer.len());
        buffer[..count].copy_from_slice(&rest[..count]);
        self.at += count;
        Ok(count)
    }
}
