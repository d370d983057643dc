//! The document whose nodes are made, and what is told of it.
ghost use Rattle.std.specs.Prelude.{◌≡◌, IfOk, [], unwrap_or};
ghost use Rattle.xt_spec.specs.Namespace.{prefix_of};
ghost use Rattle.xt_tree.specs.Meaning.{at_span};
ghost use Rattle.bk_spec.specs.Fault as spec;
ghost use Rattle.bk_info.specs.Nodes.{fault_in};
ghost use Rattle.ent_doc.specs.Steps.{IsCut};

use bk_info::BookFault;
use bk_name::Name;
use std::alloc::{AllocError, Global};
use xt_lex::Span;
use xt_table::Txt;

/// A document: its file and its text.
#[derive(Drop)]
pub(crate) struct Source<'a> {
    pub(crate) file: &'a Name,
    pub(crate) text: &'a str,
}

/// What stands at a span that cuts no character.
fn cut(text: &str, span: Span) -> &str
    requires cut { IsCut text.now span }
    ensures value { result.now ≡ at_span text.now span }
{
    &text[span.from as usize..span.to as usize]
}

impl<'a> Source<'a> {
    /// The text at a span that cuts no character.
    pub(crate) fn text_at(&self, span: Span) -> &'a str
        requires cut { IsCut self.now.text.now span }
        ensures value { result.now ≡ at_span self.now.text.now span }
    {
        cut(self.text, span)
    }

    /// The file has too many nodes.
    pub(crate) fn too_large(&self) -> Result<BookFault, AllocError>
        ensures value { IfOk result (λ fault. fault_in fault ≡ spec.too_large self.now.file.now) }
    {
        Ok(BookFault::TooLarge {
            file: self.file.share()?,
        })
    }

    /// A namespace declaration isn't allowed.
    pub(crate) fn bad_namespace(&self) -> Result<BookFault, AllocError>
        ensures value { IfOk result (λ fault. fault_in fault ≡ spec.bad_namespace self.now.file.now) }
    {
        Ok(BookFault::BadNamespace {
            file: self.file.share()?,
        })
    }

    /// The prefix of this name isn't bound.
    pub(crate) fn unbound(&self, alloc: Global, qname: &str) -> Result<BookFault, AllocError>
        ensures value { IfOk result (λ fault. fault_in fault ≡ spec.unbound self.now.file.now (unwrap_or (prefix_of qname.now) [])) }
    {
        Ok(BookFault::Unbound {
            file: self.file.share()?,
            prefix: Txt::from_str(alloc, xt_value::prefix_of(qname))?,
        })
    }

    /// Two attributes of one tag have one expanded name.
    pub(crate) fn duplicate_attribute(&self) -> Result<BookFault, AllocError>
        ensures value { IfOk result (λ fault. fault_in fault ≡ spec.duplicate_attribute self.now.file.now) }
    {
        Ok(BookFault::DuplicateAttribute {
            file: self.file.share()?,
        })
    }

    /// A base doesn't join.
    pub(crate) fn bad_reference(&self) -> Result<BookFault, AllocError>
        ensures value { IfOk result (λ fault. fault_in fault ≡ spec.bad_reference self.now.file.now) }
    {
        Ok(BookFault::BadReference {
            file: self.file.share()?,
        })
    }
}
