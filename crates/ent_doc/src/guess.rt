//! Where a name that was met before is looked for first.

use std::alloc::{AllocError, Global};

/// How many places there are.
const PLACES: usize = 256;

/// What was kept for names, each at a place that its bytes tell. A place has what was put there last, be it for another
/// name, so who takes it has to compare.
#[derive(Drop)]
pub(crate) struct Guesses<T> {
    kept: Vec<Option<T>>,
}

/// The place for a name.
fn place_of(name: &str) -> usize {
    let mut sum = 0_usize;
    for b in name.as_bytes() {
        sum = sum.wrapping_mul(31).wrapping_add(*b as usize);
    }
    sum % PLACES
}

impl<T: Drop> Guesses<T> {
    /// Nothing kept. The one error is want of memory.
    pub(crate) fn new(alloc: Global) -> Result<Guesses<T>, AllocError> {
        let mut kept = Vec::with_capacity(alloc, PLACES)?;
        for _ in 0..PLACES {
            kept.push(None)?;
        }
        Ok(Guesses { kept })
    }

    /// What was put last at the place for the name.
    pub(crate) fn guess(&self, name: &str) -> Option<&T> {
        match self.kept.get(place_of(name)) {
            Some(Some(kept)) => Some(kept),
            _ => None,
        }
    }

    /// Puts it at the place for the name.
    pub(crate) fn put(&mut self, name: &str, value: T) {
        if let Some(place) = self.kept.get_mut(place_of(name)) {
            *place = Some(value);
        }
    }
}
