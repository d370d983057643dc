//! What an element hands on to what it holds.
ghost use Rattle.std.specs.Prelude.{◌≡◌, IfOk, unwrap_or};

use bk_name::Uri;
use std::alloc::{AllocError, Global};
use std::marker::Model;
use xt_table::{Shared, SharedText};
use xt_value::Scope;

#[derive(Debug, Drop)]
struct ContextData {
    scope: Scope,
    base: Uri,
    lang: SharedText,
}

/// The bindings in scope, the base URI and the language, which an element and what it holds share.
#[derive(Debug, Drop)]
pub struct Context {
    data: Shared<ContextData>,
}

impl Model for Context {
    ghost use Rattle.bk_spec.specs.DocumentNodes.{Context};

    ghost Value = { Context };

    ghost view = { λ c. record { scope = c.data.scope; base = c.data.base; lang = c.data.lang } };
}

impl Context {
    /// The context of these. The one error is want of memory.
    pub fn new(
        alloc: Global,
        scope: Scope,
        base: Uri,
        lang: SharedText,
    ) -> Result<Context, AllocError>
        ensures value { IfOk result (λ context. context ≡ record { scope = scope; base = base; lang = lang }) }
    {
        let data = ContextData { scope, base, lang };
        Ok(Context {
            data: Shared::new(alloc, data)?,
        })
    }

    /// The context with what is given in place of its own; with nothing given it is this one, and no memory is taken.
    /// The one error is want of memory, or a full count of owners.
    pub fn child(
        &self,
        alloc: Global,
        scope: Option<Scope>,
        base: Option<Uri>,
        lang: Option<SharedText>,
    ) -> Result<Context, AllocError>
        ensures value { IfOk result (λ context. context ≡ record { scope = unwrap_or scope self.now.scope; base = unwrap_or base self.now.base; lang = unwrap_or lang self.now.lang }) }
    {
        if scope.is_none() && base.is_none() && lang.is_none() {
            return self.share();
        }
        let scope = match scope {
            Some(scope) => scope,
            None => self.scope().share()?,
        };
        let base = match base {
            Some(base) => base,
            None => self.base().share()?,
        };
        let lang = match lang {
            Some(lang) => lang,
            None => self.lang().share()?,
        };
        Context::new(alloc, scope, base, lang)
    }

    /// One more owner of the same context. The one error is a full count of owners.
    pub fn share(&self) -> Result<Context, AllocError>
        ensures value { IfOk result (λ context. context ≡ self.now) }
    {
        Ok(Context {
            data: self.data.share()?,
        })
    }

    /// The bindings in scope.
    pub fn scope(&self) -> &Scope
        ensures value { result.now ≡ self.now.scope }
    {
        &self.data.get().scope
    }

    /// The base URI.
    pub fn base(&self) -> &Uri
        ensures value { result.now ≡ self.now.base }
    {
        &self.data.get().base
    }

    /// The language, empty where there is none.
    pub fn lang(&self) -> &SharedText
        ensures value { result.now ≡ self.now.lang }
    {
        &self.data.get().lang
    }
}
