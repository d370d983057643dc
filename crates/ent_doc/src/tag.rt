//! The attributes of a tag, with their values.
ghost use Rattle.std.specs.Prelude.{◌≡◌, List, map, IfOk};
ghost use Rattle.xt_spec.specs.Namespace.{NamedValue};
ghost use Rattle.xt_spec.specs.Content.{HaveValues};
ghost use Rattle.ent_doc.specs.Steps.{attribute_at, AreCut};

use crate::source::Source;
use std::alloc::{AllocError, Global};
use xt_tree::Attrs;
use xt_value::{NamedText, attribute_value};

/// The attributes of a tag, in order, with their values. The one error is want of memory.
pub(crate) fn values_of<'a>(
    alloc: Global,
    source: &Source<'a>,
    attrs: &Attrs<'_>,
) -> Result<Vec<NamedText<'a>>, AllocError>
    requires cut { AreCut source.now.text.now attrs.now }
    ensures value { IfOk result (λ values. (others : List NamedValue) → HaveValues (map (attribute_at source.now.text.now) attrs.now) others → others ≡ values.items) }
{
    let mut values = Vec::new(alloc);
    let mut left = attrs.again();
    while let Some((attr, rest)) = left.split() {
        let name = source.text_at(attr.name);
        let quoted = source.text_at(attr.value);
        values.push(NamedText::new(name, attribute_value(alloc, name, quoted)?))?;
        left = rest;
    }
    Ok(values)
}
