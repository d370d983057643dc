//! Cases whose answers come from the standards and from this project's rules.
mod known_files;
mod names;
mod references;
mod uris;

use bk_name::{Base, Name, Uri, join, uri_of};
use std::alloc::Global;
use std::test::Fail;

// The URI of an absolute text.
fn uri_from(alloc: Global, text: &str) -> Result<Uri, Fail> {
    let base = Base::read(alloc, "file:///")?;
    let name = Name::read(alloc, b"a")?;
    let any = uri_of(alloc, &base, &name)?;
    Ok(join(alloc, &any, text)?)
}
