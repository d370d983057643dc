//! The names of a book's files, the URIs that stand for them, and the files as far as they are known.
//! URIs and joining are those of the URL Standard (crate `url`), percent-encoding that of RFC 3986, section 2.1
//! (crate `percent_encoding`), NameChar that of XML 1.0 (Fifth Edition), section 2.3 (`xt_spec`).
//! Names, bases and URIs are seen as lists of bytes; a copy by `share` copies no text and takes no memory.
#![tactic(auto)]

mod base;
mod file_uri;
mod files;
mod joining;
mod laws;
mod name;
mod name_order;
mod relative_reference;
mod uri;

pub use base::{BadBase, Base};
pub use file_uri::{name_of, uri_of};
pub use files::{Bytes, Entry, Files, Look};
pub use joining::{JoinFault, join};
pub use laws::{
    file_uris_differ, file_uris_name, named_is_name, relatives_lead, uris_join_to_themselves,
    uris_read_back,
};
pub use name::{BadName, Name, is_file_name};
pub use relative_reference::relative;
pub use uri::Uri;
