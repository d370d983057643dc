//! Which prefix is bound to which namespace, and the names that follow. Namespaces in XML 1.0, sections 2.2, 3, 5 and 6.
ghost use Rattle.std.specs.Prelude.{◌≡◌, [], ◌∷◌, ◌++◌, true, false, Some, None, option_to_list, IfOk, IsErrOf, OnOk};
ghost use Rattle.std.specs.List.{list_all};
ghost use Rattle.std.specs.Option.{option_copied};
ghost use Rattle.xt_spec.specs.Namespace as spec;

use crate::expanded::split_qname;
use crate::named::NamedText;
use std::alloc::{AllocError, Global};
use std::marker::Model;
use std::rc::Rc;
use xt_table::{Seq, SharedText};

/// A prefix, empty for the default namespace, and the name of a namespace, empty for none.
#[derive(Debug, Drop)]
struct Bound {
    prefix: SharedText,
    namespace: SharedText,
}

impl Model for Bound {
    ghost use Rattle.xt_spec.specs.Namespace.{Binding};

    ghost Value = { Binding };

    ghost view = { λ b. record { prefix = b.prefix; namespace = b.namespace } };
}

/// The bindings in scope, which several elements share; the innermost counts.
#[derive(Debug, Drop)]
#[cycle(scope)]
pub struct Scope {
    declared: Option<Rc<Declared>>,
}

/// What one element declares, a binding at least, within a scope.
#[derive(Debug, Drop)]
#[cycle(scope)]
struct Declared {
    first: Bound,
    others: Seq<Bound>,
    outer: Scope,
}

impl Model for Scope {
    ghost use Rattle.std.specs.Prelude.{List, length};
    ghost use Rattle.xt_spec.specs.Namespace.{Binding};

    ghost Value = { List Binding };

    ghost use Rattle.xt_value.specs.Scopes.{bindings_in};

    ghost view = { λ s. bindings_in s.declared };

    ghost size = { length };

    ghost use Rattle.std.proofs.Common.{arith, length-append};

    ghost size_decreases = { λ a h. Prim.grind (arith, length-append) };
}

/// Why an element has no scope.
#[derive(Clone, Copy, Debug, PartialEq, Eq, Drop)]
pub enum ScopeFault {
    /// A namespace declaration isn't allowed, as `xmlns:p=""`.
    BadNamespace,
    /// Memory was wanting.
    NoMemory,
}

impl From<AllocError> for ScopeFault {
    ghost use Rattle.xt_value.specs.declared.scope.ScopeFault.TheVariants.{NoMemory};

    ghost from_gives = { λ _ fault. fault ≡ NoMemory };

    fn from(_e: AllocError) -> Self {
        ScopeFault::NoMemory
    }
}

const XML_NAMESPACE: &str = "http://www.w3.org/XML/1998/namespace";

const XMLNS_NAMESPACE: &str = "http://www.w3.org/2000/xmlns/";

/// What these bind, the first of one prefix counting.
fn namespace_in<'a>(bounds: &'a [Bound], prefix: &str) -> Option<&'a SharedText>
    ensures value { option_copied result ≡ spec.namespace_at bounds.now prefix.now }
{
    for bound in bounds {
        if bound.prefix.as_str() == prefix {
            return Some(&bound.namespace);
        }
    }
    None
}

impl Declared {
    /// What the element itself binds the prefix to.
    fn own_namespace_at(&self, prefix: &str) -> Option<&SharedText>
        ensures value { option_copied result ≡ spec.namespace_at (self.now.first ∷ self.now.others) prefix.now }
    {
        if self.first.prefix.as_str() == prefix {
            Some(&self.first.namespace)
        } else {
            namespace_in(self.others.as_slice(), prefix)
        }
    }
}

impl Scope {
    /// What a document begins with: `xml` is bound. The one error is want of memory.
    pub fn new(alloc: Global) -> Result<Scope, AllocError>
        ensures value { IfOk result (λ scope. scope ≡ spec.xml_scope) }
    {
        let xml = Bound::new(alloc, "xml", XML_NAMESPACE)?;
        Scope { declared: None }.within(alloc, xml, Vec::new(alloc))
    }

    /// These bindings, within a scope. The one error is want of memory.
    fn within(self, alloc: Global, first: Bound, others: Vec<Bound>) -> Result<Scope, AllocError>
        ensures value { IfOk result (λ scope. scope ≡ first ∷ others.items ++ self) }
    {
        let declared = Declared {
            first,
            others: Seq::from_vec(others),
            outer: self,
        };
        Ok(Scope {
            declared: Some(Rc::new(alloc, declared)?),
        })
    }

    /// One more owner of the same bindings. The one error is a full count of owners.
    pub fn share(&self) -> Result<Scope, AllocError>
        ensures value { IfOk result (λ scope. scope ≡ self.now) }
    {
        match &self.declared {
            Some(declared) => Ok(Scope {
                declared: Some(declared.clone()?),
            }),
            None => Ok(Scope { declared: None }),
        }
    }

    /// What the prefix is bound to; the empty prefix stands for the default namespace.
    pub(crate) fn namespace_at(&self, prefix: &str) -> Option<&SharedText>
        ensures value { option_copied result ≡ spec.namespace_at self.now prefix.now }
    {
        let mut scope = self;
        while let Some(declared) = &scope.declared {
            match declared.own_namespace_at(prefix) {
                Some(namespace) => return Some(namespace),
                None => scope = &declared.outer,
            }
        }
        None
    }
}

/// The prefix that an attribute of this name declares, empty for the default namespace; none where it declares none.
fn declared_prefix(name: &str) -> Option<&str>
    ensures value { option_copied result ≡ spec.declared_prefix name.now }
{
    if name == "xmlns" {
        return Some("");
    }
    match split_qname(name) {
        (Some("xmlns"), local) => Some(local),
        _ => None,
    }
}

/// Whether a declaration is allowed.
fn is_allowed(prefix: &str, namespace: &str) -> bool
    ensures value { result ≡ spec.is_allowed (record { prefix = prefix.now; namespace = namespace.now }) }
{
    match prefix {
        "xmlns" => false,
        "xml" => namespace == XML_NAMESPACE,
        _ => {
            namespace != XML_NAMESPACE
                && namespace != XMLNS_NAMESPACE
                && (prefix.is_empty() || !namespace.is_empty())
        }
    }
}

impl Bound {
    /// Copies of the prefix and the name. The one error is want of memory.
    fn new(alloc: Global, prefix: &str, namespace: &str) -> Result<Bound, AllocError>
        ensures value { IfOk result (λ bound. bound ≡ record { prefix = prefix.now; namespace = namespace.now }) }
    {
        Ok(Bound {
            prefix: SharedText::from_str(alloc, prefix)?,
            namespace: SharedText::from_str(alloc, namespace)?,
        })
    }
}

/// What one attribute declares, if it declares anything.
fn bound_by(alloc: Global, attribute: &NamedText<'_>) -> Result<Option<Bound>, ScopeFault>
    ensures value { IfOk result (λ bound. (option_to_list bound ≡ spec.bindings_of (attribute.now ∷ [])) × (list_all spec.is_allowed (option_to_list bound) ≡ true)) }
    ensures fault { IsErrOf result ScopeFault.BadNamespace → list_all spec.is_allowed (spec.bindings_of (attribute.now ∷ [])) ≡ false }
{
    match declared_prefix(attribute.name()) {
        Some(prefix) => {
            if is_allowed(prefix, attribute.value()) {
                Ok(Some(Bound::new(alloc, prefix, attribute.value())?))
            } else {
                Err(ScopeFault::BadNamespace)
            }
        }
        None => Ok(None),
    }
}

fn keep(bounds: &mut Vec<Bound>, bound: Bound) -> Result<(), AllocError>
    ensures value { OnOk result (bounds.new.items ≡ bounds.old.items ++ bound ∷ []) }
{
    bounds.push(bound)?;
    Ok(())
}

/// What attributes declare, in order.
fn bounds_by(alloc: Global, attributes: &[NamedText<'_>]) -> Result<Vec<Bound>, ScopeFault>
    ensures value { IfOk result (λ bounds. (bounds.items ≡ spec.bindings_of attributes.now) × (list_all spec.is_allowed bounds.items ≡ true)) }
    ensures fault { IsErrOf result ScopeFault.BadNamespace → list_all spec.is_allowed (spec.bindings_of attributes.now) ≡ false }
{
    let mut bounds = Vec::new(alloc);
    let mut rest = attributes;
    while let [first, others @ ..] = rest {
        if let Some(bound) = bound_by(alloc, first)? {
            keep(&mut bounds, bound)?;
        }
        rest = others;
    }
    Ok(bounds)
}

/// What is in scope of an element with these attributes.
pub fn scope_of(
    alloc: Global,
    outer: &Scope,
    attributes: &[NamedText<'_>],
) -> Result<Scope, ScopeFault>
    ensures value { IfOk result (λ scope. spec.scope_of outer.now attributes.now ≡ Some scope) }
    ensures fault { IsErrOf result ScopeFault.BadNamespace → spec.scope_of outer.now attributes.now ≡ None }
{
    let mut rest = attributes;
    while let [first, others @ ..] = rest {
        if let Some(bound) = bound_by(alloc, first)? {
            let others = bounds_by(alloc, others)?;
            return Ok(outer.share()?.within(alloc, bound, others)?);
        }
        rest = others;
    }
    Ok(outer.share()?)
}
