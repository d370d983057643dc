//! Whether two attributes of one tag have one expanded name. Namespaces in XML 1.0, section 6.3.
ghost use Rattle.std.specs.Prelude.{◌≡◌, ◌&&◌, bytes_eq, IfOk};
ghost use Rattle.std.specs.List.{list_any};
ghost use Rattle.bk_spec.specs.DocumentNodes as spec;
ghost use Rattle.bk_info.specs.Nodes.{attr_in, attrs_in};
ghost use Rattle.ent_doc.specs.Steps.{are_apart, key_texts, attr_texts};

use bk_info::{Attr, NodeName};
use std::alloc::{AllocError, Global};
use std::collections::BTreeSet;

/// To how many attributes a tag has few.
const FEW: usize = 16;

fn is_same(a: &NodeName, b: &NodeName) -> bool
    ensures value { result ≡ (bytes_eq a.now.space b.now.space && bytes_eq a.now.local b.now.local) }
{
    // Most names differ in their local part.
    if a.local() != b.local() {
        return false;
    }
    a.space() == b.space()
}

/// Whether an attribute has this name.
fn has_name(attr: &Attr, others: &[Attr]) -> bool
    ensures value { result ≡ list_any (λ other. spec.has_name (attr_in attr.now) (attr_in other)) others.now }
{
    others.iter().any(|other| is_same(&attr.name, &other.name))
}

/// Whether no two of a few attributes have one name.
fn are_few_distinct(attrs: &[Attr]) -> bool
    ensures value { result ≡ are_apart attrs.now }
{
    for i in 0..attrs.len() {
        if has_name(&attrs[i], &attrs[i + 1..]) {
            return false;
        }
    }
    true
}

/// What is compared of an attribute: the name of its namespace, and its local name.
fn key(attr: &Attr) -> (&str, &str)
    ensures space { result.0.now ≡ attr.now.name.space }
    ensures local { result.1.now ≡ attr.now.name.local }
{
    (attr.name.space(), attr.name.local())
}

/// Whether no two of many attributes have one name: a set of the names is as long as the list.
fn are_many_distinct(alloc: Global, attrs: &[Attr]) -> Result<bool, AllocError>
    ensures value { IfOk result (λ distinct. distinct ≡ spec.are_distinct (attrs_in attrs.now)) }
{
    let names: BTreeSet<(&str, &str)> = attrs.iter().map(key).collect(alloc)?;
    Ok(names.len() == attrs.len())
}

/// Whether no two attributes have one expanded name. A few are compared in place, which takes no memory; many are put
/// into a set, so that the time isn't that of all pairs.
pub(crate) fn are_distinct(alloc: Global, attrs: &[Attr]) -> Result<bool, AllocError>
    ensures value { IfOk result (λ distinct. distinct ≡ spec.are_distinct (attrs_in attrs.now)) }
{
    if attrs.len() <= FEW {
        Ok(are_few_distinct(attrs))
    } else {
        are_many_distinct(alloc, attrs)
    }
}
