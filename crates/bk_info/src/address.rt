//! Where nodes stand: what they came from, the paths of their items, and the references through which they came.
ghost use Rattle.std.specs.Prelude.{◌≡◌, [], ◌∷◌, ◌++◌, ◌<◌, ◌^◌, IfOk, OnOk, MatchOption};
ghost use Rattle.bk_info.specs.Address.{reference_at, via_behind};

use crate::origin::Origin;
use crate::reference::Reference;
use std::alloc::{AllocError, Global};
use std::marker::Model;
use std::rc::Rc;
use xt_table::Seq;

/// What stands round the nodes side by side.
#[derive(Debug, Drop)]
#[cycle(address)]
enum Round {
    /// No element: they stand at the top of a file, or of what a reference shows, and came through these references.
    Top(Via),
    /// The element at this address. They came through the references of the element.
    Element(Address),
}

/// What the nodes side by side in a file or an element have in common.
#[derive(Debug, Drop)]
#[cycle(address)]
struct Within {
    origin: Origin,
    round: Round,
}

/// The address of a node: what it came from, the path of the item that gives it, and the references through which it came.
/// Nodes side by side share what leads to them, so an address takes no memory of its own.
#[derive(Debug, Drop)]
#[cycle(address)]
pub struct Address {
    within: Rc<Within>,
    index: u32,
}

/// The references through which nodes came, the outermost first. It is kept as the address of the innermost one, which has
/// the references before it, so it takes no memory of its own.
#[derive(Debug, Drop)]
#[cycle(address)]
pub struct Via {
    innermost: Option<Address>,
}

impl Model for Address {
    ghost use Rattle.std.specs.Prelude.{◌+◌, length};
    ghost use Rattle.bk_info.specs.Address.{Address};

    ghost Value = { Address };

    ghost use Rattle.bk_info.specs.Within.{address_at, weight, weight-append};

    ghost view = { λ a. address_at a.within a.index };

    ghost size = { λ a. length a.path + weight a.via };

    ghost use Rattle.std.proofs.Common.{arith, length-append};

    ghost size_decreases = { λ a h. Prim.grind (arith, length-append, weight-append) };
}

impl Model for Via {
    ghost use Rattle.std.specs.Prelude.{List};
    ghost use Rattle.bk_info.specs.declared.reference.Reference.{Reference};

    ghost Value = { List Reference };

    ghost use Rattle.bk_info.specs.Within.{via_to, weight, weight-append};

    ghost view = { λ v. via_to v.innermost };

    ghost size = { weight };

    ghost use Rattle.std.proofs.Common.{arith, length-append};

    ghost size_decreases = { λ a h. Prim.grind (arith, length-append, weight-append) };
}

impl Via {
    /// No references, as of the nodes of a document that is the root; no memory is taken.
    pub fn none() -> Via
        ensures value { result ≡ [] }
    {
        Via { innermost: None }
    }

    /// The references through which comes what the one at this address shows: those of the address, and then itself. The
    /// one error is a full count of owners.
    pub fn through(reference: &Address) -> Result<Via, AllocError>
        ensures value { IfOk result (λ via. via ≡ via_behind reference.now) }
    {
        Ok(Via {
            innermost: Some(reference.share()?),
        })
    }

    /// The address of the innermost reference, whose own are those before it; none where there is none.
    pub fn innermost(&self) -> Option<&Address>
        ensures value { MatchOption result (self.now ≡ []) (λ address. self.now ≡ via_behind address.now) }
    {
        self.innermost.as_ref()
    }

    /// Adds the references, the outermost first. The one error is want of memory, or a full count of owners.
    pub fn push_into(&self, alloc: Global, out: &mut Vec<Reference>) -> Result<(), AllocError>
        ensures value { OnOk result (out.new.items ≡ out.old.items ++ self.now) }
    {
        if let Some(innermost) = &self.innermost {
            innermost.via().push_into(alloc, out)?;
            let reference = innermost.reference(alloc)?;
            out.push(reference)?;
        }
        Ok(())
    }

    /// The references, the outermost first. The one error is want of memory, or a full count of owners.
    pub fn references(&self, alloc: Global) -> Result<Vec<Reference>, AllocError>
        ensures value { IfOk result (λ references. references.items ≡ self.now) }
    {
        let mut references = Vec::new(alloc);
        self.push_into(alloc, &mut references)?;
        Ok(references)
    }

    /// One more owner of the same references. The one error is a full count of owners.
    pub fn share(&self) -> Result<Via, AllocError>
        ensures value { IfOk result (λ via. via ≡ self.now) }
    {
        match &self.innermost {
            Some(innermost) => Via::through(innermost),
            None => Ok(Via::none()),
        }
    }
}

impl Address {
    /// What the node came from.
    pub fn origin(&self) -> &Origin
        ensures value { result.now ≡ self.now.origin }
    {
        &self.within.as_ref().origin
    }

    /// The references through which the node came.
    pub fn via(&self) -> &Via
        ensures value { result.now ≡ self.now.via }
    {
        let within: &Within = self.within.as_ref();
        match &within.round {
            Round::Top(via) => via,
            Round::Element(outer) => outer.via(),
        }
    }

    /// Adds the path: indices from 0, the first of an item among those at the top of the file, each further one of an item
    /// in the content of the element before. The one error is want of memory.
    pub fn push_path_into(&self, out: &mut Vec<u32>) -> Result<(), AllocError>
        ensures value { OnOk result (out.new.items ≡ out.old.items ++ self.now.path) }
    {
        let within: &Within = self.within.as_ref();
        if let Round::Element(outer) = &within.round {
            outer.push_path_into(out)?;
        }
        out.push(self.index)?;
        Ok(())
    }

    /// The path. The one error is want of memory.
    pub fn path(&self, alloc: Global) -> Result<Vec<u32>, AllocError>
        ensures value { IfOk result (λ path. path.items ≡ self.now.path) }
    {
        let mut path = Vec::new(alloc);
        self.push_path_into(&mut path)?;
        Ok(path)
    }

    /// The reference at this address, as one of a list. The one error is want of memory, or a full count of owners.
    pub fn reference(&self, alloc: Global) -> Result<Reference, AllocError>
        ensures value { IfOk result (λ reference. reference ≡ reference_at self.now) }
    {
        let path = self.path(alloc)?;
        Ok(Reference {
            origin: self.origin().share()?,
            path: Seq::from_vec(path),
        })
    }

    /// One more owner of the same address. The one error is a full count of owners.
    pub fn share(&self) -> Result<Address, AllocError>
        ensures value { IfOk result (λ address. address ≡ self.now) }
    {
        Ok(Address {
            within: self.within.clone()?,
            index: self.index,
        })
    }
}

/// The nodes side by side in a file or an element: each has an address by the index of its item.
#[derive(Debug, Drop)]
pub struct Siblings {
    within: Rc<Within>,
}

impl Model for Siblings {
    ghost use Rattle.bk_info.specs.Address.{Address};

    ghost Value = { Address };

    ghost use Rattle.bk_info.specs.Within.{siblings_at};

    ghost view = { λ s. siblings_at s.within };
}

impl Siblings {
    /// The top of a file, or of what a reference shows, whose nodes came through these references. The one error is want of memory.
    pub fn top(alloc: Global, origin: Origin, via: Via) -> Result<Siblings, AllocError>
        ensures value { IfOk result (λ siblings. siblings ≡ record { origin = origin; path = []; via = via }) }
    {
        let within = Within {
            origin,
            round: Round::Top(via),
        };
        Ok(Siblings {
            within: Rc::new(alloc, within)?,
        })
    }

    /// What the element at an address holds, which came through the references of the element. The one error is want of memory, or
    /// a full count of owners.
    pub fn within(alloc: Global, outer: &Address) -> Result<Siblings, AllocError>
        ensures value { IfOk result (λ siblings. siblings ≡ outer.now) }
    {
        let within = Within {
            origin: outer.origin().share()?,
            round: Round::Element(outer.share()?),
        };
        Ok(Siblings {
            within: Rc::new(alloc, within)?,
        })
    }

    /// The address of the node that the item of this index gives; no memory is taken. The one error is a full count of owners, or
    /// an index of 2^32 or more.
    pub fn address(&self, index: usize) -> Result<Address, AllocError>
        ensures value { IfOk result (λ address. address ≡ record { origin = self.now.origin; path = self.now.path ++ index ∷ []; via = self.now.via }) }
        ensures small { IfOk result (λ address. index < 2 ^ 32) }
    {
        let Ok(index) = u32::try_from(index) else {
            return Err(AllocError);
        };
        Ok(Address {
            within: self.within.clone()?,
            index,
        })
    }
}
