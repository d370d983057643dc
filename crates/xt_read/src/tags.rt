//! The places of a tag's parts.

ghost use Rattle.std.specs.Prelude.{◌≡◌, ◌<◌, ◌≤◌, ◌+◌, ◌^◌, ℕ, Bool, [], length, IfOk, drop, MatchOption};
ghost use Rattle.std.specs.Str.{IsCharBoundary};
ghost use Rattle.xt_tree.specs.Places.{IsTagAt};
ghost use Rattle.xt_tree.specs.Meaning.{at_span};
ghost use Rattle.xt_lex.specs.Place.{NoAttributeAt};
ghost use Rattle.xt_read.specs.Steps.{IsTagAhead, IsTagSoFar, IsEndTagAhead, IsEndTagNamed};

use std::alloc::{AllocError, Global};
use xt_lex::{AttrSrc, Span, name_at, next_attribute};
use xt_table::Seq;
use xt_tree::Tag;

/// The attributes from a place on, one right behind the other.
fn read_attributes(alloc: Global, text: &str, from: usize) -> Result<Vec<AttrSrc>, AllocError>
    requires within { from ≤ length text.now }
    requires boundary { IsCharBoundary text.now from }
    requires fits { length text.now < 2 ^ 32 }
    ensures value { IfOk result (λ attrs. (tag_from to : ℕ) (empty : Bool) → IsTagSoFar text.now tag_from to empty from [] → (at : ℕ) × IsTagSoFar text.now tag_from to empty at attrs.items × NoAttributeAt text.now at) }
{
    let mut attrs = Vec::new(alloc);
    let mut at = from;
    while let Some(attr) = next_attribute(text, at) {
        at = attr.whole.to as usize;
        attrs.push(attr)?;
    }
    Ok(attrs)
}

/// The tag that stands from one place of the text to another.
pub(crate) fn read_tag(
    alloc: Global,
    text: &str,
    span: Span,
    empty: bool,
) -> Result<Tag, AllocError>
    requires ahead { IsTagAhead text.now span.from span.to empty }
    requires within { span.from < length text.now }
    requires boundary { IsCharBoundary text.now (span.from + 1) }
    requires fits { length text.now < 2 ^ 32 }
    ensures value { IfOk result (λ tag. (tag.span ≡ span) × IsTagAt text.now span.from tag) }
    ensures kind { IfOk result (λ tag. tag.empty ≡ empty) }
{
    let Some(name) = name_at(text, span.from as usize + 1) else {
        unreachable!();
    };
    let attrs = read_attributes(alloc, text, name.to as usize)?;
    Ok(Tag {
        name,
        attrs: Seq::from_vec(attrs),
        span,
        empty,
    })
}

/// The name of the end-tag that stands from one place of the text to another.
pub(crate) fn read_end_name(text: &str, span: Span) -> Span
    requires ahead { IsEndTagAhead text.now span.from span.to }
    requires within { span.from + 2 ≤ length text.now }
    requires boundary { IsCharBoundary text.now (span.from + 2) }
    requires fits { length text.now < 2 ^ 32 }
    ensures value { IsEndTagNamed text.now span (at_span text.now result) }
{
    let Some(name) = name_at(text, span.from as usize + 2) else {
        unreachable!();
    };
    name
}
