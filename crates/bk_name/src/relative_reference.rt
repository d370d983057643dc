//! References from one URI to another.
ghost use Rattle.std.specs.Prelude.{◌≡◌, Some, IfOk, OnOk, string_bytes};
ghost use Rattle.bk_name.specs.Uri.{joined};
ghost use Rattle.bk_name.specs.Relative as spec;

use crate::{JoinFault, Uri, join};
use std::alloc::{AllocError, Global};

// `url`'s relative text, or nothing where it has none.
fn relative_text(alloc: Global, p: &Uri, b: &Uri) -> Result<String, AllocError>
    ensures value { IfOk result (λ text. string_bytes text ≡ spec.text_between p.now b.now) }
    ensures target { OnOk result (joined p.now b.now ≡ Some b.now) }
{
    match p.url().make_relative(b.url())? {
        Some(text) => Ok(text),
        None => Ok(String::new(alloc)),
    }
}

// Whether the reference leads from p to b.
fn leads_to(alloc: Global, p: &Uri, reference: &str, b: &Uri) -> Result<bool, AllocError>
    ensures value { IfOk result (λ leads. leads ≡ spec.leads_to p.now reference.now b.now) }
{
    match join(alloc, p, reference) {
        Ok(uri) => Ok(uri.as_str() == b.as_str()),
        Err(JoinFault::BadReference) => Ok(false),
        Err(JoinFault::NoMemory) => Err(AllocError),
    }
}

/// A reference that leads from p to b: `url`'s relative text where it does, else b itself.
/// From `file:///book/a.xml` to `file:///book/d/b.xml` it is `d/b.xml`. The one error is want of memory.
pub fn relative(alloc: Global, p: &Uri, b: &Uri) -> Result<String, AllocError>
    ensures value { IfOk result (λ text. string_bytes text ≡ spec.relative_of p.now b.now) }
    ensures leads { IfOk result (λ text. joined p.now (string_bytes text) ≡ Some b.now) }
{
    let text = relative_text(alloc, p, b)?;
    if !text.as_str().is_empty() && leads_to(alloc, p, text.as_str(), b)? {
        return Ok(text);
    }
    String::from_str(alloc, b.as_str())
}
