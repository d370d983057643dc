//! The URI of a file of a book, and the file that a URI names.
ghost use Rattle.std.specs.Prelude.{◌≡◌, Some, IfOk, OnOk, string_bytes};
ghost use Rattle.bk_name.specs.Uri.{ReadsBack};
ghost use Rattle.bk_name.specs.Base as spec;
ghost use Rattle.bk_name.specs.Laws.{IsUriOfFile};

use crate::{BadName, Base, Name, Uri};
use percent_encoding::{AsciiSet, NON_ALPHANUMERIC, ascii_set, percent_decode, percent_encode};
use std::alloc::{AllocError, Global};

// The bytes that the URI of a name escapes: all but ASCII letters, digits and `-._~/`.
const NAME_ESCAPES: AsciiSet = ascii_set!(
    NON_ALPHANUMERIC
        .remove(b'-')
        .remove(b'.')
        .remove(b'_')
        .remove(b'~')
        .remove(b'/')
);

// The text of the URI of a file.
fn uri_string(alloc: Global, base: &Base, name: &Name) -> Result<String, AllocError>
    ensures value { IfOk result (λ text. string_bytes text ≡ spec.uri_text base.now name.now) }
    ensures keeps { OnOk result (IsUriOfFile base.now name.now (spec.uri_text base.now name.now)) }
{
    let mut text = String::from_str(alloc, base.as_str())?;
    percent_encode(name.as_str().as_bytes(), NAME_ESCAPES).append_to(&mut text)?;
    Ok(text)
}

/// The URI of the file of this name. The one error is want of memory.
pub fn uri_of(alloc: Global, base: &Base, name: &Name) -> Result<Uri, AllocError>
    ensures value { IfOk result (λ uri. uri ≡ spec.uri_text base.now name.now) }
    ensures names { IfOk result (λ uri. spec.name_in base.now uri ≡ Some name.now) }
    ensures reads_back { IfOk result (λ uri. ReadsBack uri) }
{
    let text = uri_string(alloc, base, name)?;
    Uri::from_text(alloc, text.as_str())
}

fn has_tail(rest: &[u8]) -> bool
    ensures value { result ≡ spec.has_tail rest.now }
{
    rest.iter().any(|b| *b == b'?' || *b == b'#')
}

/// The name of the file that the URI names, or none where it lies outside the book.
/// The one error is want of memory.
pub fn name_of(alloc: Global, base: &Base, uri: &Uri) -> Result<Option<Name>, AllocError>
    ensures value { IfOk result (λ name. name ≡ spec.name_in base.now uri.now) }
{
    let Some(rest) = uri
        .as_str()
        .as_bytes()
        .strip_prefix(base.as_str().as_bytes())
    else {
        return Ok(None);
    };
    if has_tail(rest) {
        return Ok(None);
    }
    let mut bytes = Vec::new(alloc);
    percent_decode(rest).append_to(&mut bytes)?;
    match Name::read(alloc, bytes.as_slice()) {
        Ok(name) => Ok(Some(name)),
        Err(BadName::BadName) => Ok(None),
        Err(BadName::NoMemory) => Err(AllocError),
    }
}
