//! How a reader goes on with one token of the text.

ghost use Rattle.std.specs.Prelude.{◌≡◌, ◌<◌, ◌≤◌, ◌+◌, ◌^◌, ℕ, length, drop, OnOk, IfOk, IfErr, IfSome};
ghost use Rattle.std.specs.Str.{IsCharBoundary};
ghost use Rattle.xt_tree.specs.Built.{IsSound};
ghost use Rattle.xt_tree.specs.Meaning.{at_span};
ghost use Rattle.xt_lex.specs.Kinds.{kind_of};
ghost use Rattle.xt_lex.specs.declared.token.Kind.TheVariants as kind;
ghost use Rattle.xt_read.specs.Progress.{state_of, IsPlaced, PlacesOn};
ghost use Rattle.xt_read.specs.Steps.{Takes, IsTokenAt};
ghost use Rattle.xt_read.specs.Faults.{reading_fault, IsHaltAt};
ghost use Rattle.xt_read.specs.Run.{part_piece, reference_piece, IsPiece, Tok, tok_text, IsToken, step};

use crate::reader::Reader;
use crate::tags::{read_end_name, read_tag};
use crate::unread::{Halt, Unread};
use std::alloc::Global;
use xt_lex::{Kind, Token, next_token, referenced_char};

impl Reader {
    /// Goes on with a start-tag.
    fn takes_start(&mut self, alloc: Global, text: &str, token: Token) -> Result<(), Halt>
        requires kind { token.kind ≡ kind.Start }
        requires token { IsTokenAt text.now token }
        requires place { IsPlaced text.now self.old token.span.from }
        requires sound { IsSound self.old.tape }
        ensures sound { OnOk result (IsSound self.new.tape) }
        ensures value { Takes text.now token (state_of text.now self.old) result (state_of text.now self.new) }
        ensures place { OnOk result (PlacesOn text.now self.old self.new token.span.from token.span.to) }
    {
        match read_tag(alloc, text, token.span, false) {
            Ok(head) => self.opens(alloc, text.as_bytes(), head),
            Err(_) => Err(Halt::NoMemory),
        }
    }

    /// Goes on with an empty-element tag.
    fn takes_empty(&mut self, alloc: Global, text: &str, token: Token) -> Result<(), Halt>
        requires kind { token.kind ≡ kind.Empty }
        requires token { IsTokenAt text.now token }
        requires place { IsPlaced text.now self.old token.span.from }
        requires sound { IsSound self.old.tape }
        ensures sound { OnOk result (IsSound self.new.tape) }
        ensures value { Takes text.now token (state_of text.now self.old) result (state_of text.now self.new) }
        ensures place { OnOk result (PlacesOn text.now self.old self.new token.span.from token.span.to) }
    {
        match read_tag(alloc, text, token.span, true) {
            Ok(head) => self.holds_empty(alloc, text.as_bytes(), head),
            Err(_) => Err(Halt::NoMemory),
        }
    }

    /// Goes on with an end-tag.
    fn takes_end(&mut self, text: &str, token: Token) -> Result<(), Halt>
        requires kind { token.kind ≡ kind.End }
        requires token { IsTokenAt text.now token }
        requires place { IsPlaced text.now self.old token.span.from }
        requires sound { IsSound self.old.tape }
        ensures sound { OnOk result (IsSound self.new.tape) }
        ensures value { Takes text.now token (state_of text.now self.old) result (state_of text.now self.new) }
        ensures place { OnOk result (PlacesOn text.now self.old self.new token.span.from token.span.to) }
    {
        let name = read_end_name(text, token.span);
        self.closes(text.as_bytes(), token.span, name)
    }

    /// Goes on with character data.
    fn takes_data(&mut self, text: &str, token: Token) -> Result<(), Halt>
        requires kind { token.kind ≡ kind.Chars }
        requires token { IsTokenAt text.now token }
        requires place { IsPlaced text.now self.old token.span.from }
        requires sound { IsSound self.old.tape }
        ensures sound { OnOk result (IsSound self.new.tape) }
        ensures value { Takes text.now token (state_of text.now self.old) result (state_of text.now self.new) }
        ensures place { OnOk result (PlacesOn text.now self.old self.new token.span.from token.span.to) }
    {
        self.holds_data(text.as_bytes(), token.span)
    }

    /// Goes on with a part of a text item that is no character data.
    fn takes_part(&mut self, text: &str, token: Token) -> Result<(), Halt>
        requires kind { IsPiece (kind_of token.kind) part_piece (at_span text.now token.span) }
        requires token { IsTokenAt text.now token }
        requires place { IsPlaced text.now self.old token.span.from }
        requires sound { IsSound self.old.tape }
        ensures sound { OnOk result (IsSound self.new.tape) }
        ensures value { Takes text.now token (state_of text.now self.old) result (state_of text.now self.new) }
        ensures place { OnOk result (PlacesOn text.now self.old self.new token.span.from token.span.to) }
    {
        self.holds_part(text.as_bytes(), token.span)
    }

    /// Goes on with a reference that stands for no character.
    fn takes_reference(&mut self, text: &str, token: Token) -> Result<(), Halt>
        requires kind { IsPiece (kind_of token.kind) reference_piece (at_span text.now token.span) }
        requires token { IsTokenAt text.now token }
        requires place { IsPlaced text.now self.old token.span.from }
        requires sound { IsSound self.old.tape }
        ensures sound { OnOk result (IsSound self.new.tape) }
        ensures value { Takes text.now token (state_of text.now self.old) result (state_of text.now self.new) }
        ensures place { OnOk result (PlacesOn text.now self.old self.new token.span.from token.span.to) }
    {
        self.holds_reference(text.as_bytes(), token.span)
    }

    /// Goes on with a comment.
    fn takes_comment(&mut self, text: &str, token: Token) -> Result<(), Halt>
        requires kind { token.kind ≡ kind.Comment }
        requires token { IsTokenAt text.now token }
        requires place { IsPlaced text.now self.old token.span.from }
        requires sound { IsSound self.old.tape }
        ensures sound { OnOk result (IsSound self.new.tape) }
        ensures value { Takes text.now token (state_of text.now self.old) result (state_of text.now self.new) }
        ensures place { OnOk result (PlacesOn text.now self.old self.new token.span.from token.span.to) }
    {
        self.holds_comment(text.as_bytes(), token.span)
    }

    /// Goes on with a processing instruction.
    fn takes_pi(&mut self, text: &str, token: Token) -> Result<(), Halt>
        requires kind { token.kind ≡ kind.Pi }
        requires token { IsTokenAt text.now token }
        requires place { IsPlaced text.now self.old token.span.from }
        requires sound { IsSound self.old.tape }
        ensures sound { OnOk result (IsSound self.new.tape) }
        ensures value { Takes text.now token (state_of text.now self.old) result (state_of text.now self.new) }
        ensures place { OnOk result (PlacesOn text.now self.old self.new token.span.from token.span.to) }
    {
        self.holds_pi(text.as_bytes(), token.span)
    }

    /// Goes on with a DOCTYPE declaration.
    fn takes_doctype(&mut self, text: &str, token: Token) -> Result<(), Halt>
        requires kind { token.kind ≡ kind.Doctype }
        requires token { IsTokenAt text.now token }
        requires place { IsPlaced text.now self.old token.span.from }
        requires sound { IsSound self.old.tape }
        ensures sound { OnOk result (IsSound self.new.tape) }
        ensures value { Takes text.now token (state_of text.now self.old) result (state_of text.now self.new) }
        ensures place { OnOk result (PlacesOn text.now self.old self.new token.span.from token.span.to) }
    {
        self.holds_doctype(text.as_bytes(), token.span)
    }

    /// A declaration stands in front of a body alone.
    fn takes_declaration(&mut self, text: &str, token: Token) -> Result<(), Halt>
        requires kind { token.kind ≡ kind.Decl }
        requires token { IsTokenAt text.now token }
        requires place { IsPlaced text.now self.old token.span.from }
        requires sound { IsSound self.old.tape }
        ensures sound { OnOk result (IsSound self.new.tape) }
        ensures value { Takes text.now token (state_of text.now self.old) result (state_of text.now self.new) }
        ensures place { OnOk result (PlacesOn text.now self.old self.new token.span.from token.span.to) }
    {
        Err(Halt::Misplaced)
    }

    /// Goes on with a reference to an entity, predefined or not.
    fn takes_entity(&mut self, text: &str, token: Token) -> Result<(), Halt>
        requires kind { token.kind ≡ kind.EntRef }
        requires token { IsTokenAt text.now token }
        requires place { IsPlaced text.now self.old token.span.from }
        requires sound { IsSound self.old.tape }
        ensures sound { OnOk result (IsSound self.new.tape) }
        ensures value { Takes text.now token (state_of text.now self.old) result (state_of text.now self.new) }
        ensures place { OnOk result (PlacesOn text.now self.old self.new token.span.from token.span.to) }
    {
        match referenced_char(&text[token.span.from as usize..token.span.to as usize]) {
            Some(_) => self.takes_part(text, token),
            None => self.takes_reference(text, token),
        }
    }

    /// Goes on with the token.
    fn takes(&mut self, alloc: Global, text: &str, token: Token) -> Result<(), Halt>
        requires token { IsTokenAt text.now token }
        requires place { IsPlaced text.now self.old token.span.from }
        requires sound { IsSound self.old.tape }
        ensures sound { OnOk result (IsSound self.new.tape) }
        ensures value { Takes text.now token (state_of text.now self.old) result (state_of text.now self.new) }
        ensures place { OnOk result (PlacesOn text.now self.old self.new token.span.from token.span.to) }
    {
        match token.kind {
            Kind::Start => self.takes_start(alloc, text, token),
            Kind::Empty => self.takes_empty(alloc, text, token),
            Kind::End => self.takes_end(text, token),
            Kind::Chars => self.takes_data(text, token),
            Kind::CharRef => self.takes_part(text, token),
            Kind::EntRef => self.takes_entity(text, token),
            Kind::CData => self.takes_part(text, token),
            Kind::Comment => self.takes_comment(text, token),
            Kind::Pi => self.takes_pi(text, token),
            Kind::Decl => self.takes_declaration(text, token),
            Kind::Doctype => self.takes_doctype(text, token),
        }
    }

    /// Goes on with the token at a place, and answers where it ends.
    pub(crate) fn advances(&mut self, alloc: Global, text: &str, at: usize) -> Result<usize, Unread>
        requires within { at < length text.now }
        requires boundary { IsCharBoundary text.now at }
        requires fits { length text.now < 2 ^ 32 }
        requires place { IsPlaced text.now self.old at }
        requires sound { IsSound self.old.tape }
        ensures sound { IfOk result (λ to. IsSound self.new.tape) }
        ensures value { IfOk result (λ to. (tok : Tok) × IsToken tok (drop at text.now) × (to ≡ at + length (tok_text tok)) × (step (state_of text.now self.old) tok ≡ Some (state_of text.now self.new))) }
        ensures place { IfOk result (PlacesOn text.now self.old self.new at) }
        ensures on { IfOk result (λ to. (at < to) × (to ≤ length text.now) × IsCharBoundary text.now to) }
        ensures fault { IfErr result (λ e. IfSome (reading_fault e) (IsHaltAt text.now at (state_of text.now self.old))) }
    {
        let Ok(token) = next_token(text, at) else {
            return Err(Unread::NotWellFormed { at });
        };
        match self.takes(alloc, text, token) {
            Ok(()) => Ok(token.span.to as usize),
            Err(halt) => Err(halt.at(at)),
        }
    }
}
