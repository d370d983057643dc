//! Expanded names that many nodes share.
ghost use Rattle.std.specs.Prelude.{◌≡◌, [], unwrap_or, IfOk};

use std::alloc::{AllocError, Global};
use std::marker::Model;
use xt_table::{Shared, SharedText};

#[derive(Debug, Drop)]
struct NameData {
    /// None where it has no namespace.
    space: Option<SharedText>,
    local: SharedText,
}

/// An expanded name: the name of its namespace, empty where it has none, and its local name. Both stand in one block, so
/// that a node or an attribute pays for one pointer.
#[derive(Debug, Drop)]
pub struct NodeName {
    data: Shared<NameData>,
}

impl Model for NodeName {
    ghost use Rattle.std.specs.Prelude.{[], unwrap_or};
    ghost use Rattle.xt_spec.specs.Namespace.{Expanded};

    ghost Value = { Expanded };

    ghost view = { λ n. record { space = unwrap_or n.data.space []; local = n.data.local } };
}

impl NodeName {
    /// The name of this namespace, or of none, and this local name. The one error is want of memory.
    pub fn new(
        alloc: Global,
        space: Option<SharedText>,
        local: SharedText,
    ) -> Result<NodeName, AllocError>
        ensures value { IfOk result (λ name. name ≡ record { space = unwrap_or space []; local = local }) }
    {
        Ok(NodeName {
            data: Shared::new(alloc, NameData { space, local })?,
        })
    }

    /// The name of the namespace, empty where it has none.
    pub fn space(&self) -> &str
        ensures value { result.now ≡ self.now.space }
    {
        match &self.data.get().space {
            Some(space) => space.as_str(),
            None => "",
        }
    }

    /// The local name.
    pub fn local(&self) -> &str
        ensures value { result.now ≡ self.now.local }
    {
        self.data.get().local.as_str()
    }

    /// One more owner of the same name. The one error is a full count of owners.
    pub fn share(&self) -> Result<NodeName, AllocError>
        ensures value { IfOk result (λ name. name ≡ self.now) }
    {
        Ok(NodeName {
            data: self.data.share()?,
        })
    }
}
