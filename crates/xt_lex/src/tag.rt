//! Tags.

ghost use Rattle.std.specs.Prelude.{◌≡◌, option_map};
ghost use Rattle.xt_scan.specs.Step.{many_read};
ghost use Rattle.xt_lex.specs.Kinds.{kind_of};
ghost use Rattle.xt_lex.specs.Tag as form;

use crate::attribute::after_attribute;
use crate::front::{after, after_all, q_name};
use crate::token::Kind;
use xt_scan::after_blank;

/// What follows all attributes.
fn after_attributes(text: &str) -> &str
    ensures { result.now ≡ (many_read form.attribute.read text.now).1 }
{
    let mut rest = text;
    while let Some(next) = after_attribute(rest) {
        rest = next;
    }
    rest
}

#[tactic(auto, unfolding(crate::specs::Tag::open_end))]
fn open_end(text: &str) -> Option<(Kind, &str)>
    ensures { option_map (λ x. (kind_of x.0, x.1.now)) result ≡ form.open_end.read text.now }
{
    match after('>', text) {
        Some(rest) => Some((Kind::Start, rest)),
        None => {
            let rest = after_all("/>", text)?;
            Some((Kind::Empty, rest))
        }
    }
}

/// Behind the `<` of a start-tag or an empty-element tag.
#[tactic(auto, unfolding(crate::specs::Tag::open_tag))]
fn open_tag(text: &str) -> Option<(Kind, &str)>
    ensures { option_map (λ x. (kind_of x.0, x.1.now)) result ≡ form.open_tag.read text.now }
{
    let (_, rest) = q_name(text)?;
    open_end(after_blank(after_attributes(rest)))
}

/// Behind the `</` of an end-tag.
#[tactic(auto, unfolding(crate::specs::Tag::closing_tag))]
fn closing_tag(text: &str) -> Option<(Kind, &str)>
    ensures { option_map (λ x. (kind_of x.0, x.1.now)) result ≡ form.closing_tag.read text.now }
{
    let (_, rest) = q_name(text)?;
    let rest = after('>', after_blank(rest))?;
    Some((Kind::End, rest))
}

/// A tag, and what follows it.
#[tactic(auto, unfolding(crate::specs::Tag::tag))]
pub(crate) fn tag(text: &str) -> Option<(Kind, &str)>
    ensures { option_map (λ x. (kind_of x.0, x.1.now)) result ≡ form.tag.read text.now }
{
    let rest = after('<', text)?;
    match after('/', rest) {
        Some(name) => match closing_tag(name) {
            Some(found) => Some(found),
            None => open_tag(rest),
        },
        None => open_tag(rest),
    }
}
