//! What a node came from.
ghost use Rattle.std.specs.Prelude.{◌≡◌, IfOk, MatchOption, option_map};
ghost use Rattle.xt_spec.specs.Reading as xml;
ghost use Rattle.bk_spec.specs.Node.{owned, from_entity};
ghost use Rattle.bk_info.specs.Origins.{role_in, file_of, role_of};

use bk_name::Name;
use std::alloc::{AllocError, Global};
use std::marker::Model;
use xt_table::{Shared, SharedText};

/// In which role a file is read.
#[derive(Clone, Copy, Debug, PartialEq, Eq)]
pub enum Role {
    /// As a document.
    Document,
    /// As an external parsed entity.
    Entity,
    /// As a text that is no XML.
    Text,
}

/// A file in a role; or an internal entity, and the file that holds the reference.
#[derive(Debug, Drop)]
enum Source {
    File(Name, Role),
    Entity(Name, SharedText),
}

/// What a node came from, which many nodes share.
#[derive(Debug, Drop)]
pub struct Origin {
    source: Shared<Source>,
}

impl Model for Origin {
    ghost use Rattle.bk_spec.specs.Node.{Origin};

    ghost Value = { Origin };

    ghost use Rattle.bk_info.specs.Origins.{origin_of};

    ghost view = { λ o. origin_of o.source };
}

impl Origin {
    /// The nodes of a file that is read in this role. The one error is want of memory.
    pub fn file(alloc: Global, name: Name, role: Role) -> Result<Origin, AllocError>
        ensures value { IfOk result (λ origin. origin ≡ owned name (role_in role)) }
    {
        Ok(Origin {
            source: Shared::new(alloc, Source::File(name, role))?,
        })
    }

    /// The nodes of an internal entity, and the file that holds the reference. The one error is want of memory.
    pub fn within_entity(
        alloc: Global,
        file: Name,
        entity: SharedText,
    ) -> Result<Origin, AllocError>
        ensures value { IfOk result (λ origin. origin ≡ from_entity file entity) }
    {
        Ok(Origin {
            source: Shared::new(alloc, Source::Entity(file, entity))?,
        })
    }

    /// The name of the file; for an entity, of the one that holds the reference.
    pub fn file_name(&self) -> &str
        ensures value { result.now ≡ file_of self.now }
    {
        match self.source.get() {
            Source::File(name, _) => name.as_str(),
            Source::Entity(name, _) => name.as_str(),
        }
    }

    /// The role in which the file is read for the node; none for an internal entity.
    pub fn role(&self) -> Option<Role>
        ensures value { option_map role_in result ≡ role_of self.now }
    {
        match self.source.get() {
            Source::File(_, role) => Some(*role),
            Source::Entity(_, _) => None,
        }
    }

    /// The name of the entity, where it is one.
    pub fn entity(&self) -> Option<&str>
        ensures value { MatchOption result ((role : xml.Role) × (self.now ≡ owned (file_of self.now) role)) (λ entity. self.now ≡ from_entity (file_of self.now) entity.now) }
    {
        match self.source.get() {
            Source::File(_, _) => None,
            Source::Entity(_, entity) => Some(entity.as_str()),
        }
    }

    /// One more owner of the same origin. The one error is a full count of owners.
    pub fn share(&self) -> Result<Origin, AllocError>
        ensures value { IfOk result (λ origin. origin ≡ self.now) }
    {
        Ok(Origin {
            source: self.source.share()?,
        })
    }
}
