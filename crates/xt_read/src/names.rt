//! Whether two attributes of one tag have one name.

ghost use Rattle.std.specs.Prelude.{◌≡◌, IfOk};
ghost use Rattle.std.specs.List.{list_any};
ghost use Rattle.std.specs.Prelude.{bytes_eq, not};
ghost use Rattle.xt_spec.specs.Reading.{are_distinct};
ghost use Rattle.xt_tree.specs.Meaning.{at_span};
ghost use Rattle.xt_read.specs.Progress.{names_at, are_apart};

use crate::bytes::{bytes_at, is_same};
use std::alloc::{AllocError, Global};
use std::collections::BTreeSet;
use xt_lex::{AttrSrc, Span};

/// To how many attributes a tag has few.
const FEW: usize = 16;

/// Whether an attribute has this name.
fn has_name(bytes: &[u8], name: Span, attrs: &[AttrSrc]) -> bool
    ensures { result ≡ list_any (λ other. bytes_eq (at_span bytes.now name) (at_span bytes.now other.name)) attrs.now }
{
    attrs.iter().any(|other| is_same(bytes_at(bytes, name), bytes_at(bytes, other.name)))
}

/// Whether no two of a few attributes have one name.
fn are_few_distinct(bytes: &[u8], attrs: &[AttrSrc]) -> bool
    ensures { result ≡ are_apart bytes.now attrs.now }
{
    for i in 0..attrs.len() {
        if has_name(bytes, attrs[i].name, &attrs[i + 1..]) {
            return false;
        }
    }
    true
}

/// Whether no two of many attributes have one name: a set of the names is as long as the list.
fn are_many_distinct(alloc: Global, bytes: &[u8], attrs: &[AttrSrc]) -> Result<bool, AllocError>
    ensures { IfOk result (λ distinct. distinct ≡ are_distinct (names_at bytes.now attrs.now)) }
{
    let names: BTreeSet<&[u8]> = attrs
        .iter()
        .map(|attr| bytes_at(bytes, attr.name))
        .collect(alloc)?;
    Ok(names.len() == attrs.len())
}

/// Whether no two attributes have one name. A few are compared in place, which takes no memory; many are put into a
/// set, so that the time isn't that of all pairs.
pub(crate) fn are_distinct(
    alloc: Global,
    bytes: &[u8],
    attrs: &[AttrSrc],
) -> Result<bool, AllocError>
    ensures { IfOk result (λ distinct. distinct ≡ are_distinct (names_at bytes.now attrs.now)) }
{
    if attrs.len() <= FEW {
        Ok(are_few_distinct(bytes, attrs))
    } else {
        are_many_distinct(alloc, bytes, attrs)
    }
}
