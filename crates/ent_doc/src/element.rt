//! An element's own: its expanded name, its attributes, and the context of what it holds.
ghost use Rattle.std.specs.Prelude.{◌≡◌, false, Ok, unwrap_or, IfOk, IfErr};
ghost use Rattle.bk_spec.specs.DocumentNodes.{named, element_of};
ghost use Rattle.ent_doc.specs.Opening.{open_fault};
ghost use Rattle.ent_doc.specs.Steps.{Fails, element_in};

use crate::around::{base_in, lang_in, scope_in};
use crate::attribute::distinct_attrs;
use crate::fault::OpenFault;
use crate::names::Names;
use crate::source::Source;
use bk_info::{Attr, Context, NodeName};
use std::alloc::Global;
use xt_table::Seq;
use xt_value::{NameFault, NamedText, Scope, expand_name};

/// An element's own, and the context of what it holds.
#[derive(Drop)]
pub(crate) struct Own {
    pub(crate) name: NodeName,
    pub(crate) attrs: Seq<Attr>,
    pub(crate) context: Context,
}

/// The scope of an element, within another.
fn inner_or<'a>(inner: &'a Option<Scope>, outer: &'a Scope) -> &'a Scope
    ensures value { result.now ≡ unwrap_or inner.now outer.now }
{
    match inner {
        Some(scope) => scope,
        None => outer,
    }
}

/// The expanded name of an element.
fn name_of(
    alloc: Global,
    source: &Source<'_>,
    names: &mut Names,
    scope: &Scope,
    qname: &str,
) -> Result<NodeName, OpenFault>
    ensures value { IfOk result (λ name. named source.now.file.now scope.now false qname.now ≡ Ok name) }
    ensures fault { IfErr result (λ fault. Fails (named source.now.file.now scope.now false qname.now) (open_fault fault)) }
{
    match expand_name(scope, qname, false) {
        Ok(name) => Ok(names.name(alloc, qname, &name)?),
        Err(NameFault::Unbound) => Err(OpenFault::Book(source.unbound(alloc, qname)?)),
        Err(NameFault::NoMemory) => Err(OpenFault::NoMemory),
    }
}

/// An element's own, from its name as written and the attributes of its tag, within a context. What it has in common with
/// the context is shared.
pub(crate) fn own_of(
    alloc: Global,
    source: &Source<'_>,
    names: &mut Names,
    context: &Context,
    qname: &str,
    values: Vec<NamedText<'_>>,
) -> Result<Own, OpenFault>
    ensures value { IfOk result (λ own. element_of source.now.file.now context.now qname.now values.entry.items ≡ Ok (element_in source.now.file.now own)) }
    ensures fault { IfErr result (λ fault. Fails (element_of source.now.file.now context.now qname.now values.entry.items) (open_fault fault)) }
{
    let declared = scope_in(alloc, source, context.scope(), values.as_slice())?;
    let scope = inner_or(&declared, context.scope());
    let name = name_of(alloc, source, names, scope, qname)?;
    let attrs = distinct_attrs(alloc, source, names, scope, values)?;
    let base = base_in(alloc, source, context.base(), attrs.as_slice())?;
    let lang = lang_in(alloc, names, attrs.as_slice())?;
    Ok(Own {
        name,
        attrs: Seq::from_vec(attrs),
        context: context.child(alloc, declared, base, lang)?,
    })
}
