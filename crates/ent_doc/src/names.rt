//! Names that are stored once and shared.
ghost use Rattle.std.specs.Prelude.{◌≡◌, IfOk, IsTrue};

use crate::guess::Guesses;
use bk_info::NodeName;
use std::alloc::{AllocError, Global};
use std::collections::HashMap;
use xt_table::SharedText;
use xt_value::Expanded;

/// Texts, each stored once, and expanded names, each by the name as written: a million nodes have few names. What was met
/// lately is looked for first where it was put then, which most look-ups end with.
#[derive(Drop)]
pub(crate) struct Names {
    texts: HashMap<String, SharedText>,
    recent_texts: Guesses<SharedText>,
    names: HashMap<String, NodeName>,
    recent_names: Guesses<NodeName>,
}

/// Whether they are one expanded name.
fn is_name(node_name: &NodeName, name: &Expanded<'_>) -> bool
    ensures value { IsTrue result → node_name.now ≡ name.now }
{
    node_name.local() == name.local() && node_name.space() == name.space()
}

impl Names {
    /// No names. The one error is want of memory.
    pub(crate) fn new(alloc: Global) -> Result<Names, AllocError> {
        Ok(Names {
            texts: HashMap::new(alloc),
            recent_texts: Guesses::new(alloc)?,
            names: HashMap::new(alloc),
            recent_names: Guesses::new(alloc)?,
        })
    }

    /// The text from the store of all texts, with one owner more where it was met before.
    fn stored_text(&mut self, alloc: Global, text: &str) -> Result<SharedText, AllocError>
        ensures value { IfOk result (λ shared. shared ≡ text.now) }
    {
        // A key and its text are equal: the test stands for an invariant over all entries, which would have to be kept
        // through `insert`. It costs one comparison of a name.
        if let Some(shared) = self.texts.get(text) {
            if shared.as_str() == text {
                return shared.share();
            }
        }
        let shared = SharedText::from_str(alloc, text)?;
        self.texts
            .insert(String::from_str(alloc, text)?, shared.share()?)?;
        Ok(shared)
    }

    /// The text, with one owner more where it was met before. The one error is want of memory.
    pub(crate) fn text(&mut self, alloc: Global, text: &str) -> Result<SharedText, AllocError>
        ensures value { IfOk result (λ shared. shared ≡ text.now) }
    {
        if let Some(recent) = self.recent_texts.guess(text) {
            if recent.as_str() == text {
                return recent.share();
            }
        }
        let shared = self.stored_text(alloc, text)?;
        self.recent_texts.put(text, shared.share()?);
        Ok(shared)
    }

    /// The expanded name from the store of all names. Where the name as written now means another one, that takes its place.
    fn stored_name(
        &mut self,
        alloc: Global,
        written: &str,
        name: &Expanded<'_>,
    ) -> Result<NodeName, AllocError>
        ensures value { IfOk result (λ shared. shared ≡ name.now) }
    {
        if let Some(stored) = self.names.get(written) {
            if is_name(stored, name) {
                return stored.share();
            }
        }
        let local = self.text(alloc, name.local())?;
        let shared = NodeName::new(alloc, name.share_space()?, local)?;
        self.names
            .insert(String::from_str(alloc, written)?, shared.share()?)?;
        Ok(shared)
    }

    /// The expanded name of a name as written, with one owner more where it was met before. The one error is want of memory.
    pub(crate) fn name(
        &mut self,
        alloc: Global,
        written: &str,
        name: &Expanded<'_>,
    ) -> Result<NodeName, AllocError>
        ensures value { IfOk result (λ shared. shared ≡ name.now) }
    {
        if let Some(recent) = self.recent_names.guess(written) {
            if is_name(recent, name) {
                return recent.share();
            }
        }
        let shared = self.stored_name(alloc, written, name)?;
        self.recent_names.put(written, shared.share()?);
        Ok(shared)
    }
}
