//! What stands in front of a body: a byte order mark and a declaration.

ghost use Rattle.std.specs.Prelude.{◌≡◌, ◌<◌, ◌≤◌, ◌^◌, ◌++◌, length, drop, nat_eq, OnOk, IfOk, IfErr, MatchOption, if◌then◌else◌, IfSome};
ghost use Rattle.std.specs.List.{starts_with};
ghost use Rattle.std.specs.Str.{IsCharBoundary};
ghost use Rattle.xt_spec.specs.Reading.{mark};
ghost use Rattle.xt_lex.specs.DeclaredValues.{values_of};
ghost use Rattle.xt_tree.specs.Places.{AreInPlace};
ghost use Rattle.xt_read.specs.Progress.{body_of};
ghost use Rattle.xt_spec.specs.Front.{NoDeclared, IsForeign};
ghost use Rattle.xt_spec.specs.FirstFault.{HasBodyAt};
ghost use Rattle.xt_read.specs.Front.{form_of, body_for, gaps_to};
ghost use Rattle.xt_read.specs.Faults.{reading_fault, IsMarkupFault};
ghost use Rattle.xt_read.specs.FrontSteps.{IsDeclarationAt, NoDeclarationAt, IsDeclaredAt, mark_src, declared_src, front_src, front_items, front_marks, front_len};

use crate::stage::Body;
use crate::unread::Unread;
use std::alloc::AllocError;
use xt_lex::{Declaration, Kind, Span, next_token, read_declaration};
use xt_tree::Tape;

/// In which role a file is read.
#[derive(Clone, Copy, Debug, PartialEq, Eq)]
pub(crate) enum FileRole {
    Document,
    /// An external parsed entity.
    Entity,
    /// Included as a text: any characters that a document may hold.
    Text,
}

/// In which role a file of markup is read.
#[derive(Clone, Copy, Debug, PartialEq, Eq)]
pub(crate) enum MarkupRole {
    Document,
    Entity,
}

impl MarkupRole {
    /// What follows in front.
    pub(crate) fn body(self) -> Body
        ensures { body_of result ≡ body_for self }
    {
        match self {
            MarkupRole::Document => Body::Document,
            MarkupRole::Entity => Body::Content,
        }
    }

    /// Whether a declaration has the form that belongs in front.
    fn has(self, declaration: Declaration<'_>) -> bool
        ensures { result ≡ form_of self (values_of declaration.entry) }
    {
        match self {
            MarkupRole::Document => declaration.is_xml_declaration(),
            MarkupRole::Entity => declaration.is_text_declaration(),
        }
    }
}

/// What stands in front of a body, and where it begins: how many bytes the byte order mark takes, and the declaration.
#[derive(Clone, Copy, Debug)]
pub(crate) struct Front {
    pub(crate) mark: u32,
    pub(crate) declared: Option<Span>,
    pub(crate) to: usize,
}

/// How many bytes the byte order mark takes, where the text begins with one.
pub(crate) fn mark_len(text: &str) -> usize
    ensures value { result ≡ (if starts_with nat_eq text.now mark then 3 else 0) }
    ensures within { result ≤ length text.now }
    ensures cut { IsCharBoundary text.now result }
{
    if text.as_bytes().starts_with(b"\xEF\xBB\xBF") {
        3
    } else {
        0
    }
}

/// The span of the declaration that begins at a place.
fn declaration_at(text: &str, at: usize) -> Option<Span>
    requires within { at ≤ length text.now }
    requires boundary { IsCharBoundary text.now at }
    requires fits { length text.now < 2 ^ 32 }
    ensures value { MatchOption result (NoDeclarationAt text.now at) (IsDeclarationAt text.now at) }
{
    if at == text.len() {
        return None;
    }
    let Ok(token) = next_token(text, at) else {
        return None;
    };
    match token.kind {
        Kind::Decl => Some(token.span),
        _ => None,
    }
}

/// The span of the declaration at a place, where it has the form that belongs there.
fn declared_at(text: &str, at: usize, role: MarkupRole) -> Result<Option<Span>, Unread>
    requires within { at ≤ length text.now }
    requires boundary { IsCharBoundary text.now at }
    requires fits { length text.now < 2 ^ 32 }
    ensures value { IfOk result (λ found. MatchOption found (NoDeclared (form_of role) (drop at text.now)) (IsDeclaredAt (form_of role) text.now at)) }
    ensures fault { IfErr result (λ e. (e ≡ Unread.Encoding) × IsForeign (form_of role) (drop at text.now)) }
{
    let Some(span) = declaration_at(text, at) else {
        return Ok(None);
    };
    let Some(declaration) = read_declaration(&text[span.from as usize..span.to as usize]) else {
        return Ok(None);
    };
    if !role.has(declaration) {
        return Ok(None);
    }
    if declaration.is_utf8_or_absent() {
        Ok(Some(span))
    } else {
        Err(Unread::Encoding)
    }
}

/// The gap of a byte order mark of so many bytes, in front of all, where there is one.
pub(crate) fn begin_with_mark(tape: &mut Tape, mark: u32) -> Result<(), AllocError>
    ensures value { OnOk result (tape.new ≡ mark_src mark ++ tape.old) }
{
    if mark == 0 {
        return Ok(());
    }
    tape.begins_with_gap(Span { from: 0, to: mark })
}

/// The gap of a declaration, in front of all, where there is one.
fn begin_with_declaration(tape: &mut Tape, declared: Option<Span>) -> Result<(), AllocError>
    ensures value { OnOk result (tape.new ≡ declared_src declared ++ tape.old) }
{
    match declared {
        Some(span) => tape.begins_with_gap(span),
        None => Ok(()),
    }
}

impl Front {
    /// Puts the gaps in front of the items of the body.
    pub(crate) fn put_before(self, tape: &mut Tape) -> Result<(), AllocError>
        ensures value { OnOk result (tape.new ≡ front_src self.mark self.declared ++ tape.old) }
    {
        begin_with_declaration(tape, self.declared)?;
        begin_with_mark(tape, self.mark)
    }
}

/// Where the body begins, behind a byte order mark of so many bytes and a declaration.
fn front_len(mark: usize, declared: Option<Span>) -> usize
    ensures { result ≡ front_len mark declared }
{
    match declared {
        Some(span) => span.to as usize,
        None => mark,
    }
}

/// What stands in front of a body.
pub(crate) fn read_front(text: &str, role: MarkupRole) -> Result<Front, Unread>
    requires fits { length text.now < 2 ^ 32 }
    ensures value { IfOk result (λ front. front_items text.now front.mark front.declared ≡ gaps_to text.now front.to) }
    ensures opens { IfOk result (λ front. HasBodyAt (form_of role) text.now front.to) }
    ensures place { IfOk result (λ front. AreInPlace text.now 0 (front_marks front.mark front.declared) front.to) }
    ensures within { IfOk result (λ front. front.to ≤ length text.now) }
    ensures cut { IfOk result (λ front. IsCharBoundary text.now front.to) }
    ensures fault { IfErr result (λ e. IfSome (reading_fault e) (IsMarkupFault role text.now)) }
{
    let mark = mark_len(text);
    let declared = match declared_at(text, mark, role) {
        Ok(declared) => declared,
        Err(unread) => return Err(unread),
    };
    Ok(Front {
        mark: mark as u32,
        declared,
        to: front_len(mark, declared),
    })
}
