//! The DOCTYPE declaration. Of its subset only the end is found here.

ghost use Rattle.std.specs.Prelude.{◌≡◌, Some, option_map, true};
ghost use Rattle.std.specs.List.{list_all, prefix_len};
ghost use Rattle.std.specs.Option.{option_copied};
ghost use Rattle.xt_spec.specs.Doctype as spec;
ghost use Rattle.xt_scan.specs.Form.{space, ◌>>>◌};
ghost use Rattle.xt_lex.specs.DoctypeDecl as form;
ghost use Rattle.xt_lex.specs.Fast.{is_ending};
ghost use Rattle.xt_lex.specs.Kinds.{kind_of};
ghost use Rattle.xt_lex.specs.Scan.{drop_while, many, after_first, after_less, after_marked, is_plain_in_subset, after_subset_part, after_bracketed};
ghost use Rattle.xt_lex.specs.Markup.{doctype_step};

use crate::data::are_chars;
use crate::front::{after, after_all, cut, q_name};
use crate::token::Kind;
use xt_scan::{after_blank, after_space, after_word, quoted};

fn is_pubid_char(b: u8) -> bool
    ensures { result ≡ spec.is_pubid_char b }
{
    matches!(b, b' ' | b'\r' | b'\n' | b'A'..=b'Z' | b'a'..=b'z' | b'0'..=b'9' | b'!' | b'#'..=b'%' | b'\''..=b'/' | b':' | b';' | b'=' | b'?' | b'@' | b'_')
}

fn are_pubid_chars(bytes: &[u8]) -> bool
    ensures { result ≡ list_all spec.is_pubid_char bytes.now }
{
    bytes.iter().all(|b| is_pubid_char(*b))
}

/// A literal of Chars without its quotes, and what follows it.
#[tactic(auto, unfolding(crate::specs::DoctypeDecl::system_literal))]
fn system_literal(text: &str) -> Option<(&str, &str)>
    ensures { option_map (λ x. (x.0.now, x.1.now)) result ≡ form.system_literal.read text.now }
{
    let (inner, rest) = quoted(text)?;
    if are_chars(inner) {
        Some((inner, rest))
    } else {
        None
    }
}

/// A literal of a public identifier without its quotes, and what follows it.
#[tactic(auto, unfolding(crate::specs::DoctypeDecl::pubid_literal))]
fn pubid_literal(text: &str) -> Option<(&str, &str)>
    ensures { option_map (λ x. (x.0.now, x.1.now)) result ≡ form.pubid_literal.read text.now }
{
    let (inner, rest) = quoted(text)?;
    if are_pubid_chars(inner.as_bytes()) {
        Some((inner, rest))
    } else {
        None
    }
}

/// What follows `SYSTEM` and its literal.
#[tactic(auto, unfolding(crate::specs::DoctypeDecl::system_id))]
fn after_system_id(text: &str) -> Option<&str>
    ensures { option_map (λ x. (tt, x.now)) result ≡ form.system_id.read text.now }
{
    let (_, rest) = system_literal(after_space(after_word("SYSTEM", text)?)?)?;
    Some(rest)
}

/// What follows `PUBLIC` and its two literals.
#[tactic(auto, unfolding(crate::specs::DoctypeDecl::public_id))]
fn after_public_id(text: &str) -> Option<&str>
    ensures { option_map (λ x. (tt, x.now)) result ≡ form.public_id.read text.now }
{
    let (_, rest) = pubid_literal(after_space(after_word("PUBLIC", text)?)?)?;
    let (_, rest) = system_literal(after_space(rest)?)?;
    Some(rest)
}

/// What follows an external identifier.
#[tactic(auto, unfolding(crate::specs::DoctypeDecl::external_id))]
fn after_external_id(text: &str) -> Option<&str>
    ensures { option_map (λ x. (tt, x.now)) result ≡ form.external_id.read text.now }
{
    match after_system_id(text) {
        Some(rest) => Some(rest),
        None => after_public_id(text),
    }
}

fn spaced_external_id(text: &str) -> Option<&str>
    ensures { option_map (λ x. (tt, x.now)) result ≡ (space >>> form.external_id).read text.now }
{
    after_external_id(after_space(text)?)
}

/// What follows white space and an external identifier, where they stand.
#[tactic(auto, unfolding(crate::specs::DoctypeDecl::external))]
fn after_external(text: &str) -> &str
    ensures { Some (tt, result.now) ≡ form.external.read text.now }
{
    match spaced_external_id(text) {
        Some(rest) => rest,
        None => text,
    }
}

/// What follows the needle where it first stands.
fn after_first<'a>(needle: &str, text: &'a str) -> Option<&'a str>
    requires { is_ending needle.now ≡ true }
    ensures { option_copied result ≡ after_first needle.now text.now }
{
    let (_, rest) = cut(needle, text)?;
    Some(rest)
}

/// Behind a `<` of the subset: what follows a comment, a PI, or the byte alone.
#[tactic(auto, unfolding(crate::specs::Scan::after_less))]
fn after_less(text: &str) -> Option<&str>
    ensures { option_copied result ≡ after_less text.now }
{
    match after_all("!--", text) {
        Some(rest) => after_first("-->", rest),
        None => match after('?', text) {
            Some(rest) => after_first("?>", rest),
            None => Some(text),
        },
    }
}

/// What follows a literal of the subset, or what begins with `<` in it.
#[tactic(auto, unfolding(crate::specs::Scan::after_marked))]
fn after_marked(text: &str) -> Option<&str>
    ensures { option_copied result ≡ after_marked text.now }
{
    match after('<', text) {
        Some(rest) => after_less(rest),
        None => {
            let (_, rest) = quoted(text)?;
            Some(rest)
        }
    }
}

fn is_plain_in_subset(b: u8) -> bool
    ensures { result ≡ is_plain_in_subset b }
{
    !matches!(b, b']' | b'"' | b'\'' | b'<')
}

fn plain_len(bytes: &[u8]) -> usize
    ensures { result ≡ prefix_len is_plain_in_subset bytes.now }
{
    bytes.iter().take_while(|b| is_plain_in_subset(**b)).count()
}

/// The text from its first `]`, quote or `<` on.
fn at_mark(text: &str) -> &str
    ensures { result.now ≡ drop_while is_plain_in_subset text.now }
{
    &text[plain_len(text.as_bytes())..]
}

/// What follows all parts of the subset.
fn after_parts(text: &str) -> &str
    ensures { result.now ≡ many after_subset_part text.now }
{
    let mut rest = at_mark(text);
    while let Some(next) = after_marked(rest) {
        rest = at_mark(next);
    }
    rest
}

/// What follows a subset in brackets.
fn after_bracketed(text: &str) -> Option<&str>
    ensures { option_copied result ≡ after_bracketed text.now }
{
    let subset = after('[', text)?;
    after(']', after_parts(subset))
}

/// What follows the brackets and optional white space, where they stand.
#[tactic(auto, unfolding(crate::specs::DoctypeDecl::brackets, crate::specs::DoctypeDecl::bracketed))]
fn after_brackets(text: &str) -> &str
    ensures { Some (tt, result.now) ≡ form.brackets.read text.now }
{
    match after_bracketed(text) {
        Some(rest) => after_blank(rest),
        None => text,
    }
}

/// Behind `<!DOCTYPE`: the name, and what follows the declaration.
#[tactic(auto, unfolding(crate::specs::DoctypeDecl::doctype_decl))]
fn doctype_decl(text: &str) -> Option<(&str, &str)>
    ensures { option_map (λ x. (x.0.now, x.1.now)) result ≡ form.doctype_decl.read text.now }
{
    let (name, rest) = q_name(after_space(text)?)?;
    let rest = after_brackets(after_blank(after_external(rest)));
    Some((name, after_word(">", rest)?))
}

/// Behind `<!DOCTYPE`: what follows the declaration.
#[tactic(auto, unfolding(crate::specs::Markup::doctype_step))]
pub(crate) fn doctype(text: &str) -> Option<(Kind, &str)>
    ensures { option_map (λ x. (kind_of x.0, x.1.now)) result ≡ doctype_step text.now }
{
    let (_, rest) = doctype_decl(text)?;
    Some((Kind::Doctype, rest))
}
