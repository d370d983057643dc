//! The attributes of a tag.
ghost use Rattle.std.specs.Prelude.{◌≡◌, [], ◌∷◌, MatchOption};
ghost use Rattle.xt_tree.specs.Levels.{levels, starts_at};

use crate::entry::Entry;
use std::marker::Model;
use xt_lex::{AttrSrc, Span};

/// Attributes of one tag, in order, from one of them on.
#[derive(Debug, Drop)]
pub struct Attrs<'a> {
    from: u32,
    entries: &'a [Entry],
}

impl<'a> Model for Attrs<'a> {
    ghost use Rattle.std.specs.Prelude.{List};
    ghost use Rattle.xt_lex.specs.declared.attribute.AttrSrc.{AttrSrc};

    ghost Value = { List AttrSrc };

    ghost use Rattle.xt_tree.specs.Levels.{levels, starts_at};

    ghost view = { λ s. starts_at s.from (levels s.entries.now).attrs };
}

/// Those that the entries begin with, behind this place.
pub(crate) fn attrs_at<'a>(from: u32, entries: &'a [Entry]) -> Attrs<'a>
    ensures value { result ≡ starts_at from (levels entries.now).attrs }
{
    Attrs { from, entries }
}

impl<'a> Attrs<'a> {
    fn parts(&self) -> (u32, &'a [Entry])
        ensures value { self.now ≡ starts_at result.0 (levels result.1.now).attrs }
    {
        (self.from, self.entries)
    }

    /// The same attributes.
    pub fn again(&self) -> Attrs<'a>
        ensures value { result ≡ self.now }
    {
        attrs_at(self.from, self.entries)
    }

    /// The first, and those behind it.
    pub fn split(&self) -> Option<(AttrSrc, Attrs<'a>)>
        ensures value { MatchOption result (self.now ≡ []) (λ found. self.now ≡ found.0 ∷ found.1) }
    {
        let (start, entries) = self.parts();
        let Some((first, rest)) = entries.split_first() else {
            return None;
        };
        match *first {
            Entry::Attr {
                at,
                name_to,
                from,
                to,
            } => {
                let attr = AttrSrc {
                    name: Span {
                        from: at,
                        to: name_to,
                    },
                    value: Span { from, to },
                    whole: Span { from: start, to },
                };
                Some((attr, attrs_at(to, rest)))
            }
            _ => None,
        }
    }
}
