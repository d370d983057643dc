//! Expanded names. Namespaces in XML 1.0, sections 2.1, 5 and 6.2.
ghost use Rattle.std.specs.Prelude.{◌≡◌, [], false, Some, None, unwrap_or, IfOk, IsErrOf};
ghost use Rattle.std.specs.List.{position_or_len};
ghost use Rattle.std.specs.Option.{option_copied};
ghost use Rattle.xt_spec.specs.Namespace as spec;

use crate::scope::Scope;
use std::alloc::AllocError;
use std::marker::Model;
use xt_table::SharedText;

/// An expanded name: the name of its namespace, empty where it has none, and its local name.
#[derive(Drop)]
pub struct Expanded<'a> {
    /// None where it has no namespace.
    space: Option<SharedText>,
    local: &'a str,
}

impl<'a> Model for Expanded<'a> {
    ghost use Rattle.std.specs.Prelude.{[], unwrap_or};
    ghost use Rattle.xt_spec.specs.Namespace.{Expanded};

    ghost Value = { Expanded };

    ghost view = { λ e. record { space = unwrap_or e.space []; local = e.local.now } };
}

impl<'a> Expanded<'a> {
    /// The name of the namespace, empty where it has none.
    pub fn space(&self) -> &str
        ensures value { result.now ≡ self.now.space }
    {
        match &self.space {
            Some(space) => space.as_str(),
            None => "",
        }
    }

    /// The local name.
    pub fn local(&self) -> &'a str
        ensures value { result.now ≡ self.now.local }
    {
        self.local
    }

    /// The name of the namespace, with one more owner; none where it has none. The one error is a full count of owners.
    pub fn share_space(&self) -> Result<Option<SharedText>, AllocError>
        ensures value { IfOk result (λ space. unwrap_or space [] ≡ self.now.space) }
    {
        match &self.space {
            Some(space) => Ok(Some(space.share()?)),
            None => Ok(None),
        }
    }
}

/// Why a name has no expanded name.
#[derive(Clone, Copy, Debug, PartialEq, Eq, Drop)]
pub enum NameFault {
    /// Its prefix isn't bound.
    Unbound,
    /// Memory was wanting.
    NoMemory,
}

impl From<AllocError> for NameFault {
    ghost use Rattle.xt_value.specs.declared.expanded.NameFault.TheVariants.{NoMemory};

    ghost from_gives = { λ _ fault. fault ≡ NoMemory };

    fn from(_e: AllocError) -> Self {
        NameFault::NoMemory
    }
}

/// The place of the first colon, or the length. Names are short, so bytes are looked at one by one.
fn colon_at(name: &[u8]) -> usize
    ensures value { result ≡ position_or_len spec.is_colon name.now }
{
    name.iter().take_while(|b| **b != b':').count()
}

/// The prefix of a name, where it has one, and its local part.
pub(crate) fn split_qname(qname: &str) -> (Option<&str>, &str)
    ensures prefix { option_copied result.0 ≡ spec.prefix_of qname.now }
    ensures local { result.1.now ≡ spec.local_of qname.now }
{
    let at = colon_at(qname.as_bytes());
    if at == qname.len() {
        (None, qname)
    } else {
        (Some(&qname[..at]), &qname[at + 1..])
    }
}

/// The prefix of a name, empty where it has none.
pub fn prefix_of(qname: &str) -> &str
    ensures value { result.now ≡ unwrap_or (spec.prefix_of qname.now) [] }
{
    let (prefix, _) = split_qname(qname);
    prefix.unwrap_or("")
}

/// Whether an attribute of this name declares a namespace.
pub fn is_declaration(name: &str) -> bool
    ensures value { result ≡ spec.is_declaration name.now }
{
    name == "xmlns" || prefix_of(name) == "xmlns"
}

/// The namespace of this name, with one more owner; none where the name is empty. The one error is a full count of owners.
fn share_named(namespace: &SharedText) -> Result<Option<SharedText>, AllocError>
    ensures value { IfOk result (λ space. unwrap_or space [] ≡ namespace.now) }
{
    if namespace.len() == 0 {
        Ok(None)
    } else {
        Ok(Some(namespace.share()?))
    }
}

/// The default namespace, if there is one. The one error is a full count of owners.
fn default_space(scope: &Scope) -> Result<Option<SharedText>, AllocError>
    ensures value { IfOk result (λ space. unwrap_or space [] ≡ spec.default_of scope.now false) }
{
    match scope.namespace_at("") {
        Some(namespace) => share_named(namespace),
        None => Ok(None),
    }
}

/// The expanded name of an attribute, or of an element: a default namespace is for elements alone.
pub fn expand_name<'a>(
    scope: &Scope,
    qname: &'a str,
    attribute: bool,
) -> Result<Expanded<'a>, NameFault>
    ensures value { IfOk result (λ name. spec.expanded_name scope.now attribute qname.now ≡ Some name) }
    ensures fault { IsErrOf result NameFault.Unbound → spec.expanded_name scope.now attribute qname.now ≡ None }
{
    let (prefix, local) = split_qname(qname);
    let space = match prefix {
        Some(prefix) => match scope.namespace_at(prefix) {
            Some(namespace) => share_named(namespace)?,
            None => return Err(NameFault::Unbound),
        },
        None if attribute => None,
        None => default_space(scope)?,
    };
    Ok(Expanded { space, local })
}
