//! Joining a reference to a base, after the URL Standard, section 4.4.
ghost use Rattle.std.specs.Prelude.{◌≡◌, Some, None, IfOk, IsErrOf};
ghost use Rattle.bk_name.specs.declared.joining.JoinFault.TheVariants as refused;
ghost use Rattle.bk_name.specs.Uri.{joined};

use crate::Uri;
use crate::uri::is_out_of_room;
use std::alloc::{AllocError, Global};

/// Why a reference gave no URI.
#[derive(Clone, Copy, Debug, PartialEq, Eq)]
pub enum JoinFault {
    /// The reference gives no URL at the base: `http://[`.
    BadReference,
    /// No memory, or a URL longer than `url` takes.
    NoMemory,
}

impl From<AllocError> for JoinFault {
    ghost use Rattle.std.specs.Prelude.{◌≡◌};
    ghost use Rattle.bk_name.specs.declared.joining.JoinFault.TheVariants as refused;

    ghost from_gives = { λ _ e. e ≡ refused.NoMemory };

    fn from(_e: AllocError) -> JoinFault {
        JoinFault::NoMemory
    }
}

/// The URI that a reference gives at a base. The one error beside `BadReference` is want of memory.
pub fn join(alloc: Global, base: &Uri, reference: &str) -> Result<Uri, JoinFault>
    ensures value { IfOk result (λ uri. joined base.now reference.now ≡ Some uri) }
    ensures fault { IsErrOf result refused.BadReference → joined base.now reference.now ≡ None }
{
    match base.url().join(reference) {
        Ok(url) => Ok(Uri::from_parsed(alloc, url)?),
        Err(error) => {
            if is_out_of_room(error) {
                Err(JoinFault::NoMemory)
            } else {
                Err(JoinFault::BadReference)
            }
        }
    }
}
