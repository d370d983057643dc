//! The names of files, relative to the book's folder.
ghost use Rattle.std.specs.Prelude.{◌≡◌, true, false, IfOk, IsErrOf};
ghost use Rattle.xt_spec.specs.Char as xml;
ghost use Rattle.bk_name.specs.declared.name.BadName.TheVariants as refused;
ghost use Rattle.bk_name.specs.FileName as spec;

use std::alloc::{AllocError, Global};
use std::marker::Model;
use std::rc::RcStr;

/// The name of a file of the book, as `chapters/one.xml`. Several owners share one text.
#[derive(Debug, Drop)]
pub struct Name {
    text: RcStr,
}

impl Model for Name {
    ghost use Rattle.std.specs.Prelude.{List, ℕ, ◌≡◌, true};
    ghost use Rattle.std.specs.Rc.{rc_str_bytes};
    ghost use Rattle.bk_name.specs.FileName.{is_file_name};

    ghost Value = { List ℕ };

    ghost view = { λ n. rc_str_bytes n.text };

    ghost invariant = { λ n. is_file_name (rc_str_bytes n.text) ≡ true };
}

/// Why bytes gave no name.
#[derive(Clone, Copy, Debug, PartialEq, Eq)]
pub enum BadName {
    /// The bytes are no file name: `a//b`.
    BadName,
    /// No memory for the text.
    NoMemory,
}

impl From<AllocError> for BadName {
    ghost use Rattle.std.specs.Prelude.{◌≡◌};
    ghost use Rattle.bk_name.specs.declared.name.BadName.TheVariants as refused;

    ghost from_gives = { λ _ e. e ≡ refused.NoMemory };

    fn from(_e: AllocError) -> BadName {
        BadName::NoMemory
    }
}

fn is_name_char(c: char) -> bool
    ensures value { result ≡ xml.is_name_char c }
{
    matches!(
        c,
        ':' | 'A'..='Z' | '_' | 'a'..='z' | '-' | '.' | '0'..='9' | '\u{B7}'
            | '\u{C0}'..='\u{D6}' | '\u{D8}'..='\u{F6}' | '\u{F8}'..='\u{37D}'
            | '\u{37F}'..='\u{1FFF}' | '\u{200C}'..='\u{200D}' | '\u{203F}'..='\u{2040}'
            | '\u{2070}'..='\u{218F}' | '\u{2C00}'..='\u{2FEF}' | '\u{3001}'..='\u{D7FF}'
            | '\u{F900}'..='\u{FDCF}' | '\u{FDF0}'..='\u{FFFD}' | '\u{10000}'..='\u{EFFFF}'
    )
}

fn is_file_name_char(c: char) -> bool
    ensures value { result ≡ spec.is_file_name_char c }
{
    c.is_ascii_alphanumeric()
        || matches!(c, '-' | '.' | '_' | '~' | ' ')
        || (c >= '\u{B7}' && is_name_char(c))
}

fn are_file_name_chars(segment: &str) -> bool
    ensures value { result ≡ spec.are_file_name_chars segment.now }
{
    segment.chars().all(is_file_name_char)
}

// What no segment is, whatever its characters.
fn is_reserved(segment: &str) -> bool
    ensures value { result ≡ spec.is_reserved segment.now }
{
    segment.is_empty() || segment == "." || segment == ".." || segment.starts_with(".burst-")
}

fn is_segment(segment: &str) -> bool
    ensures value { result ≡ spec.is_segment segment.now }
{
    !is_reserved(segment) && are_file_name_chars(segment)
}

fn are_segments(text: &str) -> bool
    ensures value { result ≡ spec.are_segments text.now }
{
    text.split('/').all(is_segment)
}

/// Whether the text is the name of a file: `a/b.xml` is one, `a/../b.xml` isn't.
pub fn is_file_name(text: &str) -> bool
    ensures value { result ≡ spec.is_file_name text.now }
{
    text.len() <= 255 && are_segments(text)
}

impl Name {
    /// Reads a name. The one error beside `BadName` is want of memory.
    pub fn read(alloc: Global, bytes: &[u8]) -> Result<Name, BadName>
        ensures value { IfOk result (λ name. (name ≡ bytes.now) × (spec.is_file_name bytes.now ≡ true)) }
        ensures fault { IsErrOf result refused.BadName → spec.is_file_name bytes.now ≡ false }
    {
        let Ok(text) = std::str::from_utf8(bytes) else {
            return Err(BadName::BadName);
        };
        if !is_file_name(text) {
            return Err(BadName::BadName);
        }
        Ok(Name {
            text: RcStr::from_str(alloc, text)?,
        })
    }

    /// The bytes of the name, which are a text.
    pub fn as_str(&self) -> &str
        ensures value { result.now ≡ self.now }
        ensures keeps { spec.is_file_name self.now ≡ true }
    {
        self.text.as_str()
    }

    /// One more owner of the same text. The one error is a full count of owners.
    pub fn share(&self) -> Result<Name, AllocError>
        ensures value { IfOk result (λ name. name ≡ self.now) }
    {
        Ok(Name {
            text: self.text.clone()?,
        })
    }
}
