//! Escapes: how a text is written in the content of an XML file, so that it reads back as itself. XML 1.0 (Fifth
//! Edition), sections 2.4, 2.11 and 4.6; which characters are written as references is of this project (`xt_spec`). It
//! asks nothing of the text: whether each character may stand in a document is the caller's test. Above, the clauses of
//! `escape_text` and the laws of `proofs/Theorems.antt` are all that is used.
#![tactic(auto)]

mod content;

pub use content::escape_text;
