//! The base of a book: the URI of its folder.
ghost use Rattle.std.specs.Prelude.{◌≡◌, true, false, IfOk, IsErrOf};
ghost use Rattle.url.specs.Parts.{IsValid};
ghost use Rattle.bk_name.specs.declared.base.BadBase.TheVariants as refused;
ghost use Rattle.bk_name.specs.Base as spec;

use crate::uri::is_out_of_room;
use std::alloc::{AllocError, AllocFailed, Global};
use std::marker::Model;
use std::rc::Rc;
use url::Url;

/// The URI of a book's folder, as `file:///book/`. Several owners share one text.
#[derive(Debug, Drop)]
pub struct Base {
    url: Rc<Url>,
}

impl Model for Base {
    ghost use Rattle.std.specs.Prelude.{List, ℕ};
    ghost use Rattle.url.specs.Parts.{serialize};
    ghost use Rattle.bk_name.specs.Base.{IsBaseUrl};

    ghost Value = { List ℕ };

    ghost view = { λ b. serialize b.url.value };

    ghost invariant = { λ b. IsBaseUrl b.url.value };
}

/// Why a text gave no base.
#[derive(Clone, Copy, Debug, PartialEq, Eq)]
pub enum BadBase {
    /// The text is no base: `file:///book`.
    BadBase,
    /// No memory, or a URL longer than `url` takes.
    NoMemory,
}

impl From<AllocFailed<Url>> for BadBase {
    ghost use Rattle.std.specs.Prelude.{◌≡◌};
    ghost use Rattle.bk_name.specs.declared.base.BadBase.TheVariants as refused;

    ghost from_gives = { λ _ e. e ≡ refused.NoMemory };

    fn from(_e: AllocFailed<Url>) -> BadBase {
        BadBase::NoMemory
    }
}

fn is_base_url(url: &Url) -> bool
    ensures value { result ≡ spec.is_base_url url.now }
    ensures keeps { IsValid url.now }
{
    let scheme = url.scheme();
    (scheme == "file" || scheme == "http" || scheme == "https")
        && matches!(url.path().as_bytes(), [.., b'/'])
        && url.query().is_none()
        && url.fragment().is_none()
}

impl Base {
    /// Reads a base. The one error beside `BadBase` is want of memory.
    pub fn read(alloc: Global, text: &str) -> Result<Base, BadBase>
        ensures value { IfOk result (λ base. (base ≡ text.now) × (spec.is_base text.now ≡ true)) }
        ensures fault { IsErrOf result refused.BadBase → spec.is_base text.now ≡ false }
    {
        match Url::parse(alloc, text) {
            Ok(url) => {
                if is_base_url(&url) && url.as_str() == text {
                    Ok(Base {
                        url: Rc::new(alloc, url)?,
                    })
                } else {
                    Err(BadBase::BadBase)
                }
            }
            Err(error) => {
                if is_out_of_room(error) {
                    Err(BadBase::NoMemory)
                } else {
                    Err(BadBase::BadBase)
                }
            }
        }
    }

    /// The text of the base.
    pub fn as_str(&self) -> &str
        ensures value { result.now ≡ self.now }
        ensures keeps { spec.IsBase self.now }
    {
        self.url.as_str()
    }

    /// One more owner of the same base. The one error is a full count of owners.
    pub fn share(&self) -> Result<Base, AllocError>
        ensures value { IfOk result (λ base. base ≡ self.now) }
    {
        Ok(Base {
            url: self.url.clone()?,
        })
    }
}

impl Clone for Base {
    ghost is_clone = { λ base copy. copy ≡ base };

    fn clone(&self) -> Result<Base, AllocError> {
        self.share()
    }
}
