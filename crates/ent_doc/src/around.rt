//! What an element changes of its context: the scope, the base URI and the language. Namespaces in XML 1.0, section 6.1; XML
//! Base, section 3; XML 1.0 (Fifth Edition), section 2.12.
ghost use Rattle.std.specs.Prelude.{◌≡◌, Some, Ok, codes, unwrap_or, IfOk, IfErr};
ghost use Rattle.std.specs.List.{list_any};
ghost use Rattle.std.specs.Option.{option_copied};
ghost use Rattle.xt_spec.specs.Namespace as names;
ghost use Rattle.bk_spec.specs.Fault.{bad_namespace};
ghost use Rattle.bk_spec.specs.DocumentNodes.{or_fault, base_at};
ghost use Rattle.ent_doc.specs.Opening.{open_fault};
ghost use Rattle.ent_doc.specs.Steps.{Fails, attr_value};

use crate::fault::OpenFault;
use crate::names::Names;
use crate::source::Source;
use bk_info::{Attr, Context};
use bk_name::{JoinFault, Uri, join};
use std::alloc::{AllocError, Global};
use xt_table::SharedText;
use xt_value::{NamedText, Scope, ScopeFault, is_declaration, scope_of};

/// Whether an attribute is a declaration.
fn declares(values: &[NamedText<'_>]) -> bool
    ensures value { result ≡ list_any (λ value. names.is_declaration value.name) values.now }
{
    values.iter().any(|value| is_declaration(value.name()))
}

/// The scope of an element with these attributes; none where it declares nothing.
pub(crate) fn scope_in(
    alloc: Global,
    source: &Source<'_>,
    outer: &Scope,
    values: &[NamedText<'_>],
) -> Result<Option<Scope>, OpenFault>
    ensures value { IfOk result (λ scope. names.scope_of outer.now values.now ≡ Some (unwrap_or scope outer.now)) }
    ensures fault { IfErr result (λ fault. Fails (or_fault (bad_namespace source.now.file.now) (names.scope_of outer.now values.now)) (open_fault fault)) }
{
    if !declares(values) {
        return Ok(None);
    }
    match scope_of(alloc, outer, values) {
        Ok(scope) => Ok(Some(scope)),
        Err(ScopeFault::BadNamespace) => Err(OpenFault::Book(source.bad_namespace()?)),
        Err(ScopeFault::NoMemory) => Err(OpenFault::NoMemory),
    }
}

/// The value of the attribute of this name, as written.
fn value_at<'a>(attrs: &'a [Attr], qname: &str) -> Option<&'a str>
    ensures value { option_copied result ≡ attr_value attrs.now qname.now }
{
    for attr in attrs {
        if attr.qname.as_str() == qname {
            return Some(attr.value.as_str());
        }
    }
    None
}

/// The base URI that `xml:base` gives; none where there is no such attribute.
pub(crate) fn base_in(
    alloc: Global,
    source: &Source<'_>,
    outer: &Uri,
    attrs: &[Attr],
) -> Result<Option<Uri>, OpenFault>
    ensures value { IfOk result (λ base. base_at source.now.file.now outer.now (attr_value attrs.now (codes "xml:base")) ≡ Ok (unwrap_or base outer.now)) }
    ensures fault { IfErr result (λ fault. Fails (base_at source.now.file.now outer.now (attr_value attrs.now (codes "xml:base"))) (open_fault fault)) }
{
    let Some(reference) = value_at(attrs, "xml:base") else {
        return Ok(None);
    };
    match join(alloc, outer, reference) {
        Ok(uri) => Ok(Some(uri.without_fragment(alloc)?)),
        Err(JoinFault::BadReference) => Err(OpenFault::Book(source.bad_reference()?)),
        Err(JoinFault::NoMemory) => Err(OpenFault::NoMemory),
    }
}

/// The language that `xml:lang` gives; none where there is no such attribute. The one error is want of memory.
pub(crate) fn lang_in(
    alloc: Global,
    names: &mut Names,
    attrs: &[Attr],
) -> Result<Option<SharedText>, AllocError>
    ensures value { IfOk result (λ lang. lang ≡ attr_value attrs.now (codes "xml:lang")) }
{
    match value_at(attrs, "xml:lang") {
        Some(lang) => Ok(Some(names.text(alloc, lang)?)),
        None => Ok(None),
    }
}
