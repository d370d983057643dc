//! Why a book did not open, in one line.
ghost use Rattle.std.specs.Prelude.{◌≡◌, ◌⊎◌, ◌++◌, codes, IsTrue, IfOk, OnOk};
ghost use Rattle.bk_desk.specs.CrashPoints.{AtEachCrash};
ghost use Rattle.bk_desk.specs.Cause.{HasCause, StaysFaultless};
ghost use Rattle.bk_spec.specs.IncludeKind.{kind_name};
ghost use Rattle.bk_spec.specs.Fault.{line, pair, fault_line};
ghost use Rattle.bk_info.specs.Nodes.{kind_in, fault_in};
ghost use Rattle.book_cli.specs.Ends.{IsToldWith};

use crate::telling::{NO_MEMORY, tell};
use bk_desk::Desk;
use bk_info::{BookFault, IncludeKind};
use bk_name::Name;
use std::alloc::{AllocError, Global};
use xt_table::Txt;

fn put(out: &mut Vec<u8>, bytes: &[u8]) -> Result<(), AllocError>
    ensures value { OnOk result (out.new.items ≡ out.old.items ++ bytes.now) }
{
    out.extend_from_slice(bytes)
}

/// The front of the line: the fault's name and its first field.
fn front_of(alloc: Global, name: &[u8], field: &str) -> Result<Vec<u8>, AllocError>
    ensures value { IfOk result (λ text. text.items ≡ codes "fault " ++ name.now ++ codes " " ++ field.now) }
{
    let mut text = Vec::from_slice(alloc, b"fault ")?;
    put(&mut text, name)?;
    put(&mut text, b" ")?;
    put(&mut text, field.as_bytes())?;
    Ok(text)
}

/// The line of a fault that has one field.
fn one_field(alloc: Global, name: &[u8], field: &str) -> Result<Vec<u8>, AllocError>
    ensures value { IfOk result (λ text. text.items ≡ line name.now field.now) }
{
    let mut text = front_of(alloc, name, field)?;
    put(&mut text, b"\n")?;
    Ok(text)
}

/// The line of a fault that has the file as its one field.
fn line_of(alloc: Global, name: &[u8], file: &Name) -> Result<Vec<u8>, AllocError>
    ensures value { IfOk result (λ text. text.items ≡ line name.now file.now) }
{
    one_field(alloc, name, file.as_str())
}

/// The line of a fault that has two fields, the file and another.
fn two_fields(alloc: Global, name: &[u8], file: &Name, field: &str) -> Result<Vec<u8>, AllocError>
    ensures value { IfOk result (λ text. text.items ≡ line name.now (pair file.now field.now)) }
{
    let mut text = front_of(alloc, name, file.as_str())?;
    put(&mut text, b" ")?;
    put(&mut text, field.as_bytes())?;
    put(&mut text, b"\n")?;
    Ok(text)
}

/// The line of a fault that has the file and a name or a prefix.
fn pair_line(alloc: Global, name: &[u8], file: &Name, field: &Txt) -> Result<Vec<u8>, AllocError>
    ensures value { IfOk result (λ text. text.items ≡ line name.now (pair file.now field.now)) }
{
    two_fields(alloc, name, file, field.as_str())
}

/// The word for how an element of XInclude is wrong.
fn word_of(kind: IncludeKind) -> &'static str
    ensures value { result.now ≡ kind_name (kind_in kind) }
{
    match kind {
        IncludeKind::Parse => "Parse",
        IncludeKind::Fragid => "Fragid",
        IncludeKind::SetXmlId => "SetXmlId",
        IncludeKind::HrefFragment => "HrefFragment",
        IncludeKind::TextPointer => "TextPointer",
        IncludeKind::NoPointer => "NoPointer",
        IncludeKind::Encoding => "Encoding",
        IncludeKind::TwoFallbacks => "TwoFallbacks",
        IncludeKind::ChildInNamespace => "ChildInNamespace",
        IncludeKind::StrayFallback => "StrayFallback",
    }
}

/// The line of an element of XInclude that is wrong.
fn include_line(alloc: Global, file: &Name, kind: IncludeKind) -> Result<Vec<u8>, AllocError>
    ensures value { IfOk result (λ text. text.items ≡ line (codes "BadInclude") (pair file.now (kind_name (kind_in kind)))) }
{
    two_fields(alloc, b"BadInclude", file, word_of(kind))
}

fn fault_text(alloc: Global, fault: &BookFault) -> Result<Vec<u8>, AllocError>
    ensures value { IfOk result (λ text. text.items ≡ fault_line (fault_in fault.now)) }
{
    match fault {
        BookFault::Missing { file } => line_of(alloc, b"Missing", file),
        BookFault::TooLarge { file } => line_of(alloc, b"TooLarge", file),
        BookFault::Encoding { file } => line_of(alloc, b"Encoding", file),
        BookFault::NotWellFormed { file } => line_of(alloc, b"NotWellFormed", file),
        BookFault::TooDeep { file } => line_of(alloc, b"TooDeep", file),
        BookFault::NotYet { file } => line_of(alloc, b"NotYet", file),
        BookFault::Unread { file } => line_of(alloc, b"Unread", file),
        BookFault::Catalog { file } => line_of(alloc, b"Catalog", file),
        BookFault::OutsideBook { uri } => one_field(alloc, b"OutsideBook", uri.as_str()),
        BookFault::Undeclared { file, name } => pair_line(alloc, b"Undeclared", file, name),
        BookFault::EntityLoop { file, name } => pair_line(alloc, b"EntityLoop", file, name),
        BookFault::ExternalInAttribute { file, name } => pair_line(
            alloc,
            b"ExternalInAttribute",
            file,
            name,
        ),
        BookFault::Unparsed { file, name } => pair_line(alloc, b"Unparsed", file, name),
        BookFault::BadNamespace { file } => line_of(alloc, b"BadNamespace", file),
        BookFault::Unbound { file, prefix } => pair_line(alloc, b"Unbound", file, prefix),
        BookFault::DuplicateAttribute { file } => line_of(alloc, b"DuplicateAttribute", file),
        BookFault::BadReference { file } => line_of(alloc, b"BadReference", file),
        BookFault::BadInclude { file, kind } => include_line(alloc, file, *kind),
        BookFault::BadPointer { file } => line_of(alloc, b"BadPointer", file),
        BookFault::IncludeLoop { file } => line_of(alloc, b"IncludeLoop", file),
        BookFault::NoFallback { file } => line_of(alloc, b"NoFallback", file),
        BookFault::RootNotOne { file } => line_of(alloc, b"RootNotOne", file),
    }
}

/// Tells the line that says why a book did not open.
pub(crate) fn tell_fault<D: Desk>(alloc: Global, fault: &BookFault, desk: &mut D) -> u8
    ensures value { (result ≡ 3) ⊎ ((result ≡ 6) ⊎ (result ≡ 7)) }
    ensures output { IsTrue D.tells → IsToldWith 3 (fault_line (fault_in fault.now)) (D.standing desk.old) (D.standing desk.new) (AtEachCrash D.time D.was desk.old desk.new) result }
    ensures no_fault { StaysFaultless D.faultless D.faults desk.old desk.new }
    ensures cause_desk { HasCause (D.faults desk.old) (D.faults desk.new) (result ≡ 6) }
{
    match fault_text(alloc, fault) {
        Ok(text) => tell(desk, &text, 3),
        Err(_) => NO_MEMORY,
    }
}
