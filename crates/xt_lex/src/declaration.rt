//! The XML declaration and the text declaration.

ghost use Rattle.std.specs.Prelude.{◌≡◌, Some, option_map, IfSome};
ghost use Rattle.std.specs.List.{list_all};
ghost use Rattle.std.specs.Option.{option_copied, IfNone};
ghost use Rattle.xt_spec.specs.Declaration as spec;
ghost use Rattle.xt_spec.specs.Reference.{is_decimal_digit};
ghost use Rattle.xt_scan.specs.Form.{space, word as form_word, any_quoted, ◌>>>◌};
ghost use Rattle.xt_scan.specs.Front.{whole};
ghost use Rattle.xt_scan.specs.Step.{maybe_read};
ghost use Rattle.xt_lex.specs.XmlDecl as form;
ghost use Rattle.xt_lex.specs.DeclaredValues.{values_of};

use crate::front::after_equals;
use xt_scan::{after_blank, after_space, after_word, quoted};

/// What a declaration declares: the values that are written, without their quotes.
#[derive(Clone, Copy, Debug, PartialEq, Eq)]
pub struct Declaration<'a> {
    pub version: Option<&'a str>,
    pub encoding: Option<&'a str>,
    pub standalone: Option<&'a str>,
}

fn is_digit(b: u8) -> bool
    ensures { result ≡ is_decimal_digit b }
{
    matches!(b, b'0'..=b'9')
}

fn is_latin_letter(b: u8) -> bool
    ensures { result ≡ spec.is_latin_letter b }
{
    matches!(b, b'A'..=b'Z' | b'a'..=b'z')
}

fn is_encoding_char(b: u8) -> bool
    ensures { result ≡ spec.is_encoding_char b }
{
    is_latin_letter(b) || is_digit(b) || b == b'.' || b == b'_' || b == b'-'
}

fn are_digits(bytes: &[u8]) -> bool
    ensures { result ≡ list_all is_decimal_digit bytes.now }
{
    bytes.iter().all(|b| is_digit(*b))
}

fn are_encoding_chars(bytes: &[u8]) -> bool
    ensures { result ≡ list_all spec.is_encoding_char bytes.now }
{
    bytes.iter().all(|b| is_encoding_char(*b))
}

fn is_version_num(bytes: &[u8]) -> bool
    ensures { result ≡ spec.is_version_num bytes.now }
{
    match bytes {
        [a, b, c, rest @ ..] => *a == b'1' && *b == b'.' && is_digit(*c) && are_digits(rest),
        [_, _] => false,
        [_] => false,
        [] => false,
    }
}

fn is_enc_name(bytes: &[u8]) -> bool
    ensures { result ≡ spec.is_enc_name bytes.now }
{
    match bytes {
        [first, rest @ ..] => is_latin_letter(*first) && are_encoding_chars(rest),
        [] => false,
    }
}

fn is_yes_or_no(text: &str) -> bool
    ensures { result ≡ spec.is_yes_or_no text.now }
{
    text == "yes" || text == "no"
}

/// Behind white space, the word and Eq: the value in quotes, and what follows it.
fn word_value<'a>(word: &str, text: &'a str) -> Option<(&'a str, &'a str)>
    ensures { option_map (λ x. (x.0.now, x.1.now)) result ≡ (space >>> form_word word.now >>> form.equals >>> any_quoted).read text.now }
{
    let rest = after_word(word, after_space(text)?)?;
    quoted(after_equals(rest)?)
}

#[tactic(auto, unfolding(crate::specs::XmlDecl::version))]
fn version(text: &str) -> Option<(&str, &str)>
    ensures { option_map (λ x. (x.0.now, x.1.now)) result ≡ form.version.read text.now }
{
    let (value, rest) = word_value("version", text)?;
    if is_version_num(value.as_bytes()) {
        Some((value, rest))
    } else {
        None
    }
}

#[tactic(auto, unfolding(crate::specs::XmlDecl::encoding))]
fn encoding(text: &str) -> Option<(&str, &str)>
    ensures { option_map (λ x. (x.0.now, x.1.now)) result ≡ form.encoding.read text.now }
{
    let (value, rest) = word_value("encoding", text)?;
    if is_enc_name(value.as_bytes()) {
        Some((value, rest))
    } else {
        None
    }
}

#[tactic(auto, unfolding(crate::specs::XmlDecl::standalone))]
fn standalone(text: &str) -> Option<(&str, &str)>
    ensures { option_map (λ x. (x.0.now, x.1.now)) result ≡ form.standalone.read text.now }
{
    let (value, rest) = word_value("standalone", text)?;
    if is_yes_or_no(value) {
        Some((value, rest))
    } else {
        None
    }
}

/// What was found, or nothing and the text as it was.
fn maybe<'a>(found: Option<(&'a str, &'a str)>, text: &'a str) -> (Option<&'a str>, &'a str)
    ensures { Some (option_copied result.0, result.1.now) ≡ maybe_read text.now (option_map (λ x. (x.0.now, x.1.now)) found.entry) }
{
    match found {
        Some((value, rest)) => (Some(value), rest),
        None => (None, text),
    }
}

impl Declaration<'_> {
    /// Whether it is an XML declaration: it has a version.
    pub fn is_xml_declaration(self) -> bool
        ensures { result ≡ spec.is_xml_declaration (values_of self.entry) }
    {
        self.version.is_some()
    }

    /// Whether it is a text declaration: it has an encoding, and nothing of standalone.
    pub fn is_text_declaration(self) -> bool
        ensures { result ≡ spec.is_text_declaration (values_of self.entry) }
    {
        self.encoding.is_some() && self.standalone.is_none()
    }

    /// Whether it is one of both.
    fn has_form(self) -> bool
        ensures { result ≡ form.has_form (values_of self.entry) }
    {
        self.is_xml_declaration() || self.is_text_declaration()
    }

    /// Whether no encoding is declared, or UTF-8 in any letter case.
    pub fn is_utf8_or_absent(self) -> bool
        ensures { result ≡ spec.is_utf8_or_absent (values_of self.entry).encoding }
    {
        match self.encoding {
            Some(name) => name.eq_ignore_ascii_case("UTF-8"),
            None => true,
        }
    }
}

/// Behind `<?xml`: what is declared, and what follows the declaration.
#[tactic(auto, unfolding(crate::specs::XmlDecl::declared_values))]
pub(crate) fn declared_values(text: &str) -> Option<(Declaration<'_>, &str)>
    ensures { option_map (λ x. (values_of x.0, x.1.now)) result ≡ form.declared_values.read text.now }
{
    let (version, rest) = maybe(version(text), text);
    let (encoding, rest) = maybe(encoding(rest), rest);
    let (standalone, rest) = maybe(standalone(rest), rest);
    let rest = after_word("?>", after_blank(rest))?;
    let declaration = Declaration {
        version,
        encoding,
        standalone,
    };
    if declaration.has_form() {
        Some((declaration, rest))
    } else {
        None
    }
}

/// What the whole text, a declaration, declares.
#[tactic(auto, unfolding(crate::specs::XmlDecl::xml_decl))]
fn whole_declaration(text: &str) -> Option<Declaration<'_>>
    ensures { option_map values_of result ≡ whole (form.xml_decl.read text.now) }
{
    let (declaration, rest) = declared_values(after_word("<?xml", text)?)?;
    if rest.is_empty() {
        Some(declaration)
    } else {
        None
    }
}

/// What the whole text, a declaration as `<?xml version="1.0" encoding="UTF-8"?>`, declares.
pub fn read_declaration(text: &str) -> Option<Declaration<'_>>
    ensures only { IfSome result (λ d. spec.IsDeclarationOf (values_of d) text.now) }
    ensures one { IfSome result (λ d. (e : spec.Declaration) → spec.IsDeclarationOf e text.now → e ≡ values_of d) }
    ensures none { IfNone result (¬ spec.IsDeclaration text.now) }
{
    whole_declaration(text)
}
