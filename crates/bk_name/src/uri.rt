//! URIs: texts that parse and serialize to themselves.
ghost use Rattle.std.specs.Prelude.{◌≡◌, IfOk, OnOk, IsTrue, ◌↔◌};
ghost use Rattle.url.specs.Parser.{IsOutOfRoom};
ghost use Rattle.url.specs.Parts.{serialize, IsValid};
ghost use Rattle.url.specs.Canonical.{IsCanonical};
ghost use Rattle.bk_name.specs.Uri.{IsUri, IsUriUrl, ReadsBack};
ghost use Rattle.bk_name.specs.Uri as spec;

use std::alloc::{AllocError, Global};
use std::marker::Model;
use std::rc::Rc;
use url::{ParseError, Position, Url};

/// A URI, as `file:///book/a%20b.xml`. Several owners share one text.
#[derive(Debug, Drop)]
pub struct Uri {
    url: Rc<Url>,
}

impl Model for Uri {
    ghost use Rattle.std.specs.Prelude.{List, ℕ};
    ghost use Rattle.url.specs.Parts.{serialize};
    ghost use Rattle.bk_name.specs.Uri.{IsUriUrl};

    ghost Value = { List ℕ };

    ghost view = { λ u. serialize u.url.value };

    ghost invariant = { λ u. IsUriUrl u.url.value };
}

impl Uri {
    // The URI of a URL that the parser gave.
    pub(crate) fn from_parsed(alloc: Global, url: Url) -> Result<Uri, AllocError>
        requires { IsValid url → IsCanonical url }
        ensures value { IfOk result (λ uri. uri ≡ serialize url) }
        ensures keeps { OnOk result (IsValid url) }
    {
        // A clause of `path` says that the URL is valid.
        let _ = url.path();
        Ok(Uri {
            url: Rc::new(alloc, url)?,
        })
    }

    // The URI of a text that is one.
    pub(crate) fn from_text(alloc: Global, text: &str) -> Result<Uri, AllocError>
        requires uri { IsUri text.now }
        ensures value { IfOk result (λ uri. uri ≡ text.now) }
    {
        match Url::parse(alloc, text) {
            Ok(url) => Uri::from_parsed(alloc, url),
            Err(error) => {
                if is_out_of_room(error) {
                    Err(AllocError)
                } else {
                    unreachable!()
                }
            }
        }
    }

    // The parsed URI.
    pub(crate) fn url(&self) -> &Url
        ensures value { serialize result.now ≡ self.now }
        ensures keeps { IsUriUrl result.now }
    {
        self.url.as_ref()
    }

    /// The text of the URI.
    pub fn as_str(&self) -> &str
        ensures value { result.now ≡ self.now }
        ensures keeps { IsUri self.now }
        ensures reads_back { ReadsBack self.now }
    {
        self.url.as_str()
    }

    /// The URI without its fragment, as a base has none (RFC 3986, section 5.1). The one error is want of memory.
    pub fn without_fragment(&self, alloc: Global) -> Result<Uri, AllocError>
        ensures value { IfOk result (λ uri. uri ≡ spec.without_fragment self.now) }
    {
        let url = self.url();
        if url.fragment().is_none() {
            return self.share();
        }
        Uri::from_text(
            alloc,
            url.slice(Position::BeforeScheme, Position::AfterQuery),
        )
    }

    /// One more owner of the same URI. The one error is a full count of owners.
    pub fn share(&self) -> Result<Uri, AllocError>
        ensures value { IfOk result (λ uri. uri ≡ self.now) }
    {
        Ok(Uri {
            url: self.url.clone()?,
        })
    }
}

impl Clone for Uri {
    ghost is_clone = { λ uri copy. copy ≡ uri };

    fn clone(&self) -> Result<Uri, AllocError> {
        self.share()
    }
}

impl PartialEq for Uri {
    ghost use Rattle.std.specs.Prelude.{bytes_eq};
    ghost use Rattle.std.specs.Cmp.{partial_equiv_from_equiv};
    ghost use Rattle.std.specs.Cmp.Lexicographic.{nat_list_eq_equiv};

    ghost eq = { bytes_eq };

    ghost laws = { partial_equiv_from_equiv nat_list_eq_equiv };

    fn eq(&self, other: &Uri) -> bool {
        self.as_str() == other.as_str()
    }
}

impl Eq for Uri {
    ghost use Rattle.std.specs.Cmp.Lexicographic.{nat_list_eq_equiv};

    ghost laws = { nat_list_eq_equiv };
}

// `url` had no room for the answer.
pub(crate) fn is_out_of_room(error: ParseError) -> bool
    ensures value { IsTrue result ↔ IsOutOfRoom error }
{
    matches!(error, ParseError::OutOfMemory | ParseError::Overflow)
}
