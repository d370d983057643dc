//! Tokens, each a kind and a span of the text.

ghost use Rattle.std.specs.Prelude.{◌≡◌, ◌<◌, ◌≤◌, ◌+◌, ℕ, ◌^◌, length, drop, IfOk, IfErr, IsTrue, ◌↔◌, option_map, MatchOption};
ghost use Rattle.std.specs.Str.{IsCharBoundary};
ghost use Rattle.xt_spec.specs.Token.{NoFront, IsLongestFront};
ghost use Rattle.xt_lex.specs.Data.{IsDelimiter};
ghost use Rattle.xt_lex.specs.Kinds.{kind_of};
ghost use Rattle.xt_lex.specs.Markup.{markup};

use crate::data::data_len;
use crate::markup::angle_markup;
use crate::reference::reference;

/// Where a part of a text begins and ends, in bytes.
#[derive(Clone, Copy, Debug, PartialEq, Eq)]
pub struct Span {
    pub from: u32,
    pub to: u32,
}

#[derive(Clone, Copy, Debug, PartialEq, Eq)]
pub enum Kind {
    /// `<p a="1">`
    Start,
    /// `<p a="1"/>`
    Empty,
    /// `</p>`
    End,
    /// text, up to the next token of another kind or `]]>`
    Chars,
    /// `&#38;` or `&#x26;`
    CharRef,
    /// `&amp;`
    EntRef,
    /// `<![CDATA[a < b]]>`
    CData,
    /// `<!-- a -->`
    Comment,
    /// `<?target data?>`
    Pi,
    /// `<?xml version="1.0"?>` or `<?xml encoding="UTF-8"?>`
    Decl,
    /// `<!DOCTYPE a SYSTEM "a.dtd" [<!ENTITY b "c">]>`
    Doctype,
}

#[derive(Clone, Copy, Debug, PartialEq, Eq)]
pub struct Token {
    pub kind: Kind,
    pub span: Span,
}

/// No token is spelled at this place.
#[derive(Clone, Copy, Debug, PartialEq, Eq)]
pub struct LexFault {
    pub at: usize,
}

fn is_delimiter(b: u8) -> bool
    ensures { IsTrue result ↔ IsDelimiter b }
{
    b == b'<' || b == b'&'
}

/// A token that begins with `<` or `&`, and what follows it.
fn markup(text: &str) -> Option<(Kind, &str)>
    ensures { option_map (λ x. (kind_of x.0, x.1.now)) result ≡ markup text.now }
{
    match text.as_bytes() {
        [b'<', ..] => angle_markup(text),
        [b'&', ..] => reference(text),
        _ => None,
    }
}

/// The kind and the length of the longest token at the front.
fn front_token(text: &str) -> Option<(Kind, usize)>
    requires { 0 < length text.now }
    ensures { MatchOption result (NoFront text.now) (λ x. IsLongestFront text.now (kind_of x.0) x.1) }
{
    if is_delimiter(text.as_bytes()[0]) {
        return match markup(text) {
            Some((kind, rest)) => Some((kind, text.len() - rest.len())),
            None => None,
        };
    }
    let len = data_len(text);
    if len == 0 {
        None
    } else {
        Some((Kind::Chars, len))
    }
}

/// The longest token that is spelled at this place.
pub fn next_token(text: &str, at: usize) -> Result<Token, LexFault>
    requires within { at < length text.now }
    requires boundary { IsCharBoundary text.now at }
    requires fits { length text.now < 2 ^ 32 }

    ensures from { IfOk result (λ t. t.span.from ≡ at) }
    ensures token { IfOk result (λ t. (n : ℕ) × (t.span.to ≡ at + n) × IsLongestFront (drop at text.now) (kind_of t.kind) n) }
    ensures on { IfOk result (λ t. (at < t.span.to) × (t.span.to ≤ length text.now)) }
    ensures cut { IfOk result (λ t. IsCharBoundary text.now t.span.to) }
    ensures fault_at { IfErr result (λ e. e.at ≡ at) }
    ensures fault { IfErr result (λ _. NoFront (drop at text.now)) }
{
    match front_token(&text[at..]) {
        Some((kind, len)) => Ok(Token {
            kind,
            span: Span {
                from: at as u32,
                to: (at + len) as u32,
            },
        }),
        None => Err(LexFault { at }),
    }
}
