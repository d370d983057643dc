use sqlite_items::Items;
use std::alloc::Global;
use xt_lex::{AttrSrc, Span};
use xt_table::Seq;

/// A start-tag, or an empty-element tag.
///
/// ```text
/// <name first="1" second='2'/>
///  ----                          name
///      ------------------        attrs: each with the white space before it
/// ----------------------------   span
/// ```
#[derive(Debug, Drop)]
pub struct Tag {
    pub name: Span,
    pub attrs: Seq<AttrSrc>,
    pub span: Span,
    pub empty: bool,
}

/// A syntax item of a file, as contracts see it. No value of it is made: a file's items are kept as entries, in a `Tape`.
#[derive(Debug, Drop)]
pub enum Src {
    /// An element: its tag, what it holds, and its end-tag where it has one.
    Elem {
        tail: Option<Span>,
        head: Tag,
        kids: Items<Src>,
    },
    /// A maximal run of character data and of references that stand for a character.
    Text(Span),
    /// A reference to an entity that isn't predefined.
    Ref(Span),
    Comment(Span),
    Pi(Span),
    /// What stands at the top of a document beside comments, processing instructions and the element.
    Gap(Span),
}
