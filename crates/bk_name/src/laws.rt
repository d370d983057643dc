//! Laws of names and URIs. These functions do nothing; their contracts are theorems over all texts.
ghost use Rattle.bk_name.specs.Laws.{FileUrisName, FileUrisDiffer, NamedIsName, UrisReadBack, UrisJoinToThemselves, RelativesLead};

/// The URI of each file of a base is a URI, reads back as itself, and names that file.
pub fn file_uris_name()
    ensures law { FileUrisName }
{}

/// Two files of a base have two URIs.
pub fn file_uris_differ()
    ensures law { FileUrisDiffer }
{}

/// Only a file name is named by a URI.
pub fn named_is_name()
    ensures law { NamedIsName }
{}

/// A URI reads back as itself.
pub fn uris_read_back()
    ensures law { UrisReadBack }
{}

/// A URI as a reference gives itself at each base.
pub fn uris_join_to_themselves()
    ensures law { UrisJoinToThemselves }
{}

/// The reference from one URI to another leads there.
pub fn relatives_lead()
    ensures law { RelativesLead }
{}
