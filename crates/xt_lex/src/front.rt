//! Steps from the front of a text: each gives what follows it.

ghost use Rattle.std.specs.Prelude.{not, ◌==◌, ◌≡◌, ◌<◌, true, option_map, [], ◌∷◌};
ghost use Rattle.std.specs.List.{prefix_len};
ghost use Rattle.std.specs.Option.{option_copied};
ghost use Rattle.xt_spec.specs.Char.{is_space};
ghost use Rattle.xt_scan.specs.Form.{space, word as form_word};
ghost use Rattle.xt_lex.specs.XmlDecl.{equals};
ghost use Rattle.xt_lex.specs.Fast.{is_ending};
ghost use Rattle.xt_lex.specs.Scan.{after_space, take_while, drop_while, after, after_all, cut, after_ncname};
ghost use Rattle.xt_lex.specs.NameTest.{is_name_byte};
ghost use Rattle.xt_lex.specs.QName as form;

use crate::chars::{is_name_byte, is_space};
use crate::names::{is_ncname, is_qname};
use memchr::memmem;
use xt_scan::after_blank;

/// What follows the character, an ASCII one.
pub(crate) fn after(c: char, text: &str) -> Option<&str>
    requires { c < 128 }
    ensures value { option_copied result ≡ after c text.now }
    ensures form { option_map (λ x. (tt, x.now)) result ≡ (form_word (c ∷ [])).read text.now }
{
    text.strip_prefix(c)
}

/// What follows the needle at the front.
pub(crate) fn after_all<'a>(needle: &str, text: &'a str) -> Option<&'a str>
    ensures { option_copied result ≡ after_all needle.now text.now }
{
    text.strip_prefix(needle)
}

/// What stands before the first place where the needle stands, and what follows it there.
pub(crate) fn cut<'a>(needle: &str, text: &'a str) -> Option<(&'a str, &'a str)>
    requires { is_ending needle.now ≡ true }
    ensures { option_map (λ x. (x.0.now, x.1.now)) result ≡ cut needle.now text.now }
{
    match memmem::find(text.as_bytes(), needle.as_bytes()) {
        Some(at) => Some((&text[..at], &text[at + needle.len()..])),
        None => None,
    }
}

fn name_len(bytes: &[u8]) -> usize
    ensures { result ≡ prefix_len is_name_byte bytes.now }
{
    bytes.iter().take_while(|b| is_name_byte(**b)).count()
}

/// What follows white space, of which there is some.
pub(crate) fn after_space(text: &str) -> Option<&str>
    ensures value { option_copied result ≡ after_space text.now }
    ensures form { option_map (λ x. (tt, x.now)) result ≡ space.read text.now }
{
    match text.as_bytes() {
        [first, ..] => if is_space(*first) {
            Some(after_blank(text))
        } else {
            None
        },
        [] => None,
    }
}

/// The front that could be a name, and what follows it.
pub(crate) fn split_name(text: &str) -> (&str, &str)
    ensures name { result.0.now ≡ take_while is_name_byte text.now }
    ensures rest { result.1.now ≡ drop_while is_name_byte text.now }
{
    text.split_at(name_len(text.as_bytes()))
}

/// What follows an NCName.
pub(crate) fn after_ncname(text: &str) -> Option<&str>
    ensures { option_copied result ≡ after_ncname text.now }
{
    let (name, rest) = split_name(text);
    if is_ncname(name) { Some(rest) } else { None }
}

/// A QName, and what follows it.
#[tactic(auto, unfolding(crate::specs::QName::q_name))]
pub(crate) fn q_name(text: &str) -> Option<(&str, &str)>
    ensures { option_map (λ x. (x.0.now, x.1.now)) result ≡ form.q_name.read text.now }
{
    let (name, rest) = split_name(text);
    if is_qname(name) {
        Some((name, rest))
    } else {
        None
    }
}

/// What follows an equals sign, and the white space on both sides of it.
pub(crate) fn after_equals(text: &str) -> Option<&str>
    ensures { option_map (λ x. (tt, x.now)) result ≡ equals.read text.now }
{
    let rest = after('=', after_blank(text))?;
    Some(after_blank(rest))
}
