//! The attributes of an element. Namespaces in XML 1.0, sections 5 and 6.
ghost use Rattle.std.specs.Prelude.{◌≡◌, ◌++◌, ◌∷◌, [], true, Ok, OnOk, IfOk, IfErr};
ghost use Rattle.bk_spec.specs.DocumentNodes.{named};
ghost use Rattle.bk_spec.specs.DocumentNodes as spec;
ghost use Rattle.bk_info.specs.Nodes.{attrs_in};
ghost use Rattle.ent_doc.specs.Opening.{open_fault};
ghost use Rattle.ent_doc.specs.Steps.{Fails, IsAttrOf};

use crate::distinct::are_distinct;
use crate::fault::OpenFault;
use crate::names::Names;
use crate::source::Source;
use bk_info::{Attr, How};
use std::alloc::{AllocError, Global};
use xt_table::Txt;
use xt_value::{NameFault, NamedText, Scope, expand_name, is_declaration};

/// The attribute of a name and a value.
fn attr_of(
    alloc: Global,
    source: &Source<'_>,
    names: &mut Names,
    scope: &Scope,
    value: NamedText<'_>,
) -> Result<Attr, OpenFault>
    ensures value { IfOk result (IsAttrOf source.now.file.now scope.now value.entry) }
    ensures fault { IfErr result (λ fault. Fails (named source.now.file.now scope.now true value.entry.name) (open_fault fault)) }
{
    let written = value.name();
    match expand_name(scope, written, true) {
        Ok(name) => Ok(Attr {
            qname: names.text(alloc, written)?,
            name: names.name(alloc, written, &name)?,
            value: Txt::from_string(value.into_value()),
            is_id: written == "xml:id",
            how: How::Written,
        }),
        Err(NameFault::Unbound) => Err(OpenFault::Book(source.unbound(alloc, written)?)),
        Err(NameFault::NoMemory) => Err(OpenFault::NoMemory),
    }
}

/// Puts an attribute behind others.
fn put(attrs: &mut Vec<Attr>, attr: Attr) -> Result<(), AllocError>
    ensures value { OnOk result (attrs.new.items ≡ attrs.old.items ++ attr ∷ []) }
{
    attrs.push(attr)?;
    Ok(())
}

/// The attributes of a tag, in order; declarations are not among them.
fn attrs_of(
    alloc: Global,
    source: &Source<'_>,
    names: &mut Names,
    scope: &Scope,
    values: Vec<NamedText<'_>>,
) -> Result<Vec<Attr>, OpenFault>
    ensures value { IfOk result (λ attrs. spec.attrs_of source.now.file.now scope.now values.entry.items ≡ Ok (attrs_in attrs.items)) }
    ensures fault { IfErr result (λ fault. Fails (spec.attrs_of source.now.file.now scope.now values.entry.items) (open_fault fault)) }
{
    let mut attrs = Vec::with_capacity(alloc, values.len())?;
    for value in values {
        if !is_declaration(value.name()) {
            put(&mut attrs, attr_of(alloc, source, names, scope, value)?)?;
        }
    }
    Ok(attrs)
}

/// The attributes of a tag, where no two have one expanded name.
pub(crate) fn distinct_attrs(
    alloc: Global,
    source: &Source<'_>,
    names: &mut Names,
    scope: &Scope,
    values: Vec<NamedText<'_>>,
) -> Result<Vec<Attr>, OpenFault>
    ensures value { IfOk result (λ attrs. spec.distinct_attrs source.now.file.now scope.now values.entry.items ≡ Ok (attrs_in attrs.items)) }
    ensures kept { IfOk result (λ attrs. spec.attrs_of source.now.file.now scope.now values.entry.items ≡ Ok (attrs_in attrs.items)) }
    ensures fault { IfErr result (λ fault. Fails (spec.distinct_attrs source.now.file.now scope.now values.entry.items) (open_fault fault)) }
{
    let attrs = attrs_of(alloc, source, names, scope, values)?;
    if !are_distinct(alloc, attrs.as_slice())? {
        return Err(OpenFault::Book(source.duplicate_attribute()?));
    }
    Ok(attrs)
}
