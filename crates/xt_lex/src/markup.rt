//! Markup that is no tag.

ghost use Rattle.std.specs.Prelude.{◌≡◌, option_map, true};
ghost use Rattle.std.specs.Option.{option_copied};
ghost use Rattle.xt_spec.specs.Markup.{is_reserved};
ghost use Rattle.xt_lex.specs.Scan.{after_chars, after_target, after_data};
ghost use Rattle.xt_lex.specs.Markup.{cdata_step, comment_step, declared_section, declared, instruction, pi_or_declaration, tag_or_pi, angle_markup};
ghost use Rattle.xt_lex.specs.Kinds.{kind_of};
ghost use Rattle.xt_lex.specs.Fast.{is_ending};

use crate::data::are_chars;
use crate::declaration::declared_values;
use crate::doctype::doctype;
use crate::front::{after, after_all, after_space, cut, split_name};
use crate::names::is_ncname;
use crate::tag::tag;
use crate::token::Kind;

/// What follows Chars and the text that ends them, where it first stands.
#[tactic(auto, unfolding(crate::specs::Scan::after_chars))]
fn after_chars<'a>(end: &str, text: &'a str) -> Option<&'a str>
    requires { is_ending end.now ≡ true }
    ensures { option_copied result ≡ after_chars end.now text.now }
{
    let (inner, rest) = cut(end, text)?;
    if are_chars(inner) { Some(rest) } else { None }
}

/// Behind `<!--`: what follows the comment.
fn comment(text: &str) -> Option<(Kind, &str)>
    ensures { option_map (λ x. (kind_of x.0, x.1.now)) result ≡ comment_step text.now }
{
    let rest = after_chars("--", text)?;
    let rest = after('>', rest)?;
    Some((Kind::Comment, rest))
}

/// Behind `<![CDATA[`: what follows the section.
fn cdata_section(text: &str) -> Option<(Kind, &str)>
    ensures { option_map (λ x. (kind_of x.0, x.1.now)) result ≡ cdata_step text.now }
{
    let rest = after_chars("]]>", text)?;
    Some((Kind::CData, rest))
}

/// Behind `<!`, where no `--` stands.
#[tactic(auto, unfolding(crate::specs::Markup::declared_section))]
fn declared_section(text: &str) -> Option<(Kind, &str)>
    ensures { option_map (λ x. (kind_of x.0, x.1.now)) result ≡ declared_section text.now }
{
    match after_all("[CDATA[", text) {
        Some(rest) => cdata_section(rest),
        None => {
            let rest = after_all("DOCTYPE", text)?;
            doctype(rest)
        }
    }
}

/// Behind `<!`: the kind of the token, and what follows it.
#[tactic(auto, unfolding(crate::specs::Markup::declared))]
fn declared(text: &str) -> Option<(Kind, &str)>
    ensures { option_map (λ x. (kind_of x.0, x.1.now)) result ≡ declared text.now }
{
    match after_all("--", text) {
        Some(rest) => comment(rest),
        None => declared_section(text),
    }
}

/// Whether it is `xml` in any letter case, which is no target.
fn is_reserved(target: &str) -> bool
    ensures { result ≡ is_reserved target.now }
{
    target.eq_ignore_ascii_case("xml")
}

/// What follows the target of a PI.
fn after_target(text: &str) -> Option<&str>
    ensures { option_copied result ≡ after_target text.now }
{
    let (target, rest) = split_name(text);
    if is_ncname(target) && !is_reserved(target) {
        Some(rest)
    } else {
        None
    }
}

/// Behind the target of a PI: what follows its end.
#[tactic(auto, unfolding(crate::specs::Scan::after_data))]
fn after_data(text: &str) -> Option<&str>
    ensures { option_copied result ≡ after_data text.now }
{
    match after_all("?>", text) {
        Some(rest) => Some(rest),
        None => {
            after_space(text)?;
            after_chars("?>", text)
        }
    }
}

/// Behind `<?`: what follows the PI.
fn instruction(text: &str) -> Option<(Kind, &str)>
    ensures { option_map (λ x. (kind_of x.0, x.1.now)) result ≡ instruction text.now }
{
    let rest = after_target(text)?;
    let rest = after_data(rest)?;
    Some((Kind::Pi, rest))
}

/// Behind `<?`: a declaration, where the target is `xml`, or a PI; and what follows it.
#[tactic(auto, unfolding(crate::specs::Markup::pi_or_declaration))]
fn pi_or_declaration(text: &str) -> Option<(Kind, &str)>
    ensures { option_map (λ x. (kind_of x.0, x.1.now)) result ≡ pi_or_declaration text.now }
{
    let (target, rest) = split_name(text);
    if target == "xml" {
        let (_, rest) = declared_values(rest)?;
        Some((Kind::Decl, rest))
    } else {
        instruction(text)
    }
}

/// A token that begins with `<`, and not with `<!`, and what follows it.
#[tactic(auto, unfolding(crate::specs::Markup::tag_or_pi))]
fn tag_or_pi(text: &str) -> Option<(Kind, &str)>
    ensures { option_map (λ x. (kind_of x.0, x.1.now)) result ≡ tag_or_pi text.now }
{
    match after_all("<?", text) {
        Some(rest) => pi_or_declaration(rest),
        None => tag(text),
    }
}

/// A token that begins with `<`, and what follows it.
#[tactic(auto, unfolding(crate::specs::Markup::angle_markup))]
pub(crate) fn angle_markup(text: &str) -> Option<(Kind, &str)>
    ensures { option_map (λ x. (kind_of x.0, x.1.now)) result ≡ angle_markup text.now }
{
    match after_all("<!", text) {
        Some(rest) => declared(rest),
        None => tag_or_pi(text),
    }
}
