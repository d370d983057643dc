//! What was read of a file so far, and how each kind of token goes on from there.

ghost use Rattle.std.specs.Prelude.{◌≡◌, ◌<◌, ◌≤◌, ◌↔◌, ◌||◌, not, IsTrue, true, false, OnOk, length, map, option_map, List, ℕ, [], ◌∷◌, ◌++◌, Option, Some, None};
ghost use Rattle.xt_spec.specs.Reading.{are_distinct};
ghost use Rattle.xt_tree.specs.Meaning.{at_span, item_of};
ghost use Rattle.xt_tree.specs.Places.{tag_mark, span_mark};
ghost use Rattle.xt_read.specs.Run.{IsWhole, longer, begin, with_text, is_top, is_inside, is_full, begins_root, data_piece, part_piece, reference_piece, comment_piece, pi_piece, doctype_piece, with_item, start_tok, empty_tok, end_tok, piece_tok};
ghost use Rattle.xt_tree.specs.Rows.{IsShaped};
ghost use Rattle.xt_tree.specs.Built.{built, IsSound};
ghost use Rattle.xt_spec.specs.Tree.{leaf_item, element_item, nil};
ghost use Rattle.xt_read.specs.Progress.{kind_of_leaf, stage_of, body_of, state_of, names_at, Gives, settled_marks, all_marks, Joins, joined_span, AddsText};

use crate::bytes::{bytes_at, is_blank, is_same};
use crate::names::are_distinct;
use crate::stage::{self, Body, Stage};
use crate::unread::Halt;
use std::alloc::{AllocError, Global};
use xt_lex::Span;
use xt_tree::{Building, Leaf, Tag, Tape};

/// How many elements may be open.
const MOST_LEVELS: usize = 128;

/// What was read: the entries so far, with the elements that are open; the text item that may go on behind them; and how far
/// the top of the document has come, or none where content stands at the top.
#[derive(Debug, Drop)]
pub(crate) struct Reader {
    pub(crate) tape: Building,
    pub(crate) text: Option<Span>,
    pub(crate) stage: Option<Stage>,
}

impl Reader {
    pub(crate) fn new(alloc: Global, body: Body) -> Reader
        ensures value { (bytes : _) → state_of bytes result ≡ begin (body_of body) }
        ensures marks { all_marks result ≡ [] }
        ensures sound { IsSound result.tape }
    {
        Reader {
            tape: Building::new(alloc),
            text: None,
            stage: body.first_stage(),
        }
    }

    /// Whether no more elements may be open.
    fn is_full(&self) -> bool
        requires sound { IsSound self.now.tape }
        ensures { (bytes : _) → result ≡ is_full (state_of bytes self.now) }
    {
        self.tape.depth() >= MOST_LEVELS
    }

    fn at_top(&self) -> bool
        requires sound { IsSound self.now.tape }
        ensures { (bytes : _) → result ≡ is_top (state_of bytes self.now).opened }
    {
        self.tape.depth() == 0
    }

    /// Whether an element may begin here, but for the levels.
    fn may_begin(&self) -> bool
        requires sound { IsSound self.now.tape }
        ensures { (bytes : _) → result ≡ (not (is_top (state_of bytes self.now).opened) || begins_root (state_of bytes self.now).stage) }
    {
        !self.at_top() || stage::begins_root(self.stage)
    }

    /// Whether text may stand here.
    fn is_inside(&self) -> bool
        requires sound { IsSound self.now.tape }
        ensures { (bytes : _) → result ≡ is_inside (state_of bytes self.now) }
    {
        !self.at_top() || self.stage.is_none()
    }

    /// The text item goes on no more.
    pub(crate) fn settle(&mut self) -> Result<(), AllocError>
        requires sound { IsSound self.old.tape }
        ensures items { OnOk result ((bytes : _) → map (item_of bytes) (built self.new.tape).items ≡ with_text (map (item_of bytes) (built self.old.tape).items) (option_map (at_span bytes) self.old.text)) }
        ensures text { OnOk result (self.new.text ≡ None) }
        ensures others { OnOk result (((built self.new.tape).opened ≡ (built self.old.tape).opened) × (self.new.stage ≡ self.old.stage)) }
        ensures sound { OnOk result (IsSound self.new.tape) }
        ensures marks { OnOk result (settled_marks self.new ≡ all_marks self.old) }
    {
        match self.text {
            Some(span) => {
                self.text = None;
                self.tape.adds_leaf(Leaf::Text, span)
            }
            None => Ok(()),
        }
    }

    /// Whether nothing is left open.
    pub(crate) fn is_whole(&self) -> bool
        requires sound { IsSound self.now.tape }
        ensures opened { IsTrue result → (built self.now.tape).opened ≡ [] }
        ensures value { (bytes : _) → (IsTrue result ↔ IsWhole (state_of bytes self.now)) }
    {
        self.at_top() && stage::has_ended(self.stage)
    }

    /// The items at the top.
    pub(crate) fn into_tape(self) -> Tape
        requires sound { IsSound self.tape }
        requires whole { (built self.tape).opened ≡ [] }
        ensures { result ≡ (built self.tape).items }
    {
        let Reader { tape, .. } = self;
        tape.into_tape()
    }

    /// An element begins with its start-tag.
    pub(crate) fn opens(&mut self, alloc: Global, bytes: &[u8], head: Tag) -> Result<(), Halt>
        requires sound { IsSound self.old.tape }
        requires shaped { IsShaped head }
        requires kind { head.empty ≡ false }
        ensures value { Gives (state_of bytes.now self.old) (start_tok (at_span bytes.now head.span) (at_span bytes.now head.name) (names_at bytes.now head.attrs)) result (state_of bytes.now self.new) }
        ensures sound { OnOk result (IsSound self.new.tape) }
        ensures marks { OnOk result (all_marks self.new ≡ all_marks self.old ++ tag_mark head ∷ []) }
    {
        if self.is_full() {
            return Err(Halt::TooDeep);
        }
        if !self.may_begin() || !are_distinct(alloc, bytes, head.attrs.as_slice())? {
            return Err(Halt::Misplaced);
        }
        self.settle()?;
        self.tape.opens(&head)?;
        self.stage = stage::behind_element(self.stage);
        Ok(())
    }

    /// An element is its empty-element tag alone.
    pub(crate) fn holds_empty(&mut self, alloc: Global, bytes: &[u8], head: Tag) -> Result<(), Halt>
        requires sound { IsSound self.old.tape }
        requires shaped { IsShaped head }
        requires kind { head.empty ≡ true }
        ensures value { Gives (state_of bytes.now self.old) (empty_tok (at_span bytes.now head.span) (names_at bytes.now head.attrs)) result (state_of bytes.now self.new) }
        ensures sound { OnOk result (IsSound self.new.tape) }
        ensures marks { OnOk result (all_marks self.new ≡ all_marks self.old ++ tag_mark head ∷ []) }
    {
        if self.is_full() {
            return Err(Halt::TooDeep);
        }
        if !self.may_begin() || !are_distinct(alloc, bytes, head.attrs.as_slice())? {
            return Err(Halt::Misplaced);
        }
        self.adds_tag(&head)?;
        self.stage = stage::behind_element(self.stage);
        Ok(())
    }

    /// The innermost element ends with its end-tag, which has this name.
    pub(crate) fn closes(&mut self, bytes: &[u8], span: Span, name: Span) -> Result<(), Halt>
        requires sound { IsSound self.old.tape }
        ensures value { Gives (state_of bytes.now self.old) (end_tok (at_span bytes.now span) (at_span bytes.now name)) result (state_of bytes.now self.new) }
        ensures sound { OnOk result (IsSound self.new.tape) }
        ensures marks { OnOk result (all_marks self.new ≡ all_marks self.old ++ span_mark span ∷ []) }
    {
        self.settle()?;
        let Some(own) = self.tape.innermost() else {
            return Err(Halt::Misplaced);
        };
        if !is_same(bytes_at(bytes, own), bytes_at(bytes, name)) {
            return Err(Halt::Misplaced);
        }
        self.tape.closes(span)?;
        Ok(())
    }

    /// The text item goes on with this span.
    fn lengthen(&mut self, span: Span)
        requires joins { Joins self.old.text span }
        ensures value { (bytes : List ℕ) → option_map (at_span bytes) self.new.text ≡ Some (longer (option_map (at_span bytes) self.old.text) (at_span bytes span)) }
        ensures text { self.new.text ≡ Some (joined_span self.old.text span) }
        ensures others { (self.new.tape ≡ self.old.tape) × (self.new.stage ≡ self.old.stage) }
    {
        match self.text {
            Some(text) => {
                self.text = Some(Span {
                    from: text.from,
                    to: span.to,
                });
            }
            None => self.text = Some(span),
        }
    }

    /// An item of its own, behind the text item.
    fn adds(&mut self, leaf: Leaf, span: Span) -> Result<(), AllocError>
        requires sound { IsSound self.old.tape }
        ensures value { OnOk result ((bytes : _) → state_of bytes self.new ≡ with_item (state_of bytes self.old) (leaf_item (kind_of_leaf leaf) (at_span bytes span))) }
        ensures marks { OnOk result (all_marks self.new ≡ all_marks self.old ++ span_mark span ∷ []) }
        ensures sound { OnOk result (IsSound self.new.tape) }
    {
        self.settle()?;
        self.tape.adds_leaf(leaf, span)
    }

    /// An element that is its tag alone, behind the text item.
    fn adds_tag(&mut self, head: &Tag) -> Result<(), AllocError>
        requires sound { IsSound self.old.tape }
        requires shaped { IsShaped head.now }
        requires kind { head.now.empty ≡ true }
        ensures value { OnOk result ((bytes : _) → state_of bytes self.new ≡ with_item (state_of bytes self.old) (element_item (at_span bytes head.now.span) nil None)) }
        ensures marks { OnOk result (all_marks self.new ≡ all_marks self.old ++ tag_mark head.now ∷ []) }
        ensures sound { OnOk result (IsSound self.new.tape) }
    {
        self.settle()?;
        self.tape.adds_empty(head)
    }

    /// Character data: it goes on with the text item; at the top of a document it is white space.
    pub(crate) fn holds_data(&mut self, bytes: &[u8], span: Span) -> Result<(), Halt>
        requires joins { Joins self.old.text span }
        requires sound { IsSound self.old.tape }
        ensures value { Gives (state_of bytes.now self.old) (piece_tok data_piece (at_span bytes.now span)) result (state_of bytes.now self.new) }
        ensures sound { OnOk result (IsSound self.new.tape) }
        ensures marks { OnOk result (AddsText self.old span self.new) }
    {
        if self.is_inside() {
            self.lengthen(span);
            return Ok(());
        }
        if !is_blank(bytes_at(bytes, span)) {
            return Err(Halt::Misplaced);
        }
        self.adds(Leaf::Gap, span)?;
        Ok(())
    }

    /// A reference that stands for a character, or a CDATA section: the text item goes on with it.
    pub(crate) fn holds_part(&mut self, bytes: &[u8], span: Span) -> Result<(), Halt>
        requires joins { Joins self.old.text span }
        requires sound { IsSound self.old.tape }
        ensures value { Gives (state_of bytes.now self.old) (piece_tok part_piece (at_span bytes.now span)) result (state_of bytes.now self.new) }
        ensures sound { OnOk result (IsSound self.new.tape) }
        ensures marks { OnOk result (AddsText self.old span self.new) }
    {
        if !self.is_inside() {
            return Err(Halt::Misplaced);
        }
        self.lengthen(span);
        Ok(())
    }

    /// Any other reference: an item of its own.
    pub(crate) fn holds_reference(&mut self, bytes: &[u8], span: Span) -> Result<(), Halt>
        requires sound { IsSound self.old.tape }
        ensures value { Gives (state_of bytes.now self.old) (piece_tok reference_piece (at_span bytes.now span)) result (state_of bytes.now self.new) }
        ensures sound { OnOk result (IsSound self.new.tape) }
        ensures marks { OnOk result (all_marks self.new ≡ all_marks self.old ++ span_mark span ∷ []) }
    {
        if !self.is_inside() {
            return Err(Halt::Misplaced);
        }
        self.adds(Leaf::Ref, span)?;
        Ok(())
    }

    /// A comment, wherever it stands.
    pub(crate) fn holds_comment(&mut self, bytes: &[u8], span: Span) -> Result<(), Halt>
        requires sound { IsSound self.old.tape }
        ensures value { Gives (state_of bytes.now self.old) (piece_tok comment_piece (at_span bytes.now span)) result (state_of bytes.now self.new) }
        ensures sound { OnOk result (IsSound self.new.tape) }
        ensures marks { OnOk result (all_marks self.new ≡ all_marks self.old ++ span_mark span ∷ []) }
    {
        self.adds(Leaf::Comment, span)?;
        Ok(())
    }

    /// A processing instruction, wherever it stands.
    pub(crate) fn holds_pi(&mut self, bytes: &[u8], span: Span) -> Result<(), Halt>
        requires sound { IsSound self.old.tape }
        ensures value { Gives (state_of bytes.now self.old) (piece_tok pi_piece (at_span bytes.now span)) result (state_of bytes.now self.new) }
        ensures sound { OnOk result (IsSound self.new.tape) }
        ensures marks { OnOk result (all_marks self.new ≡ all_marks self.old ++ span_mark span ∷ []) }
    {
        self.adds(Leaf::Pi, span)?;
        Ok(())
    }

    /// A DOCTYPE declaration: a gap at the top of a document, before the document element, once.
    pub(crate) fn holds_doctype(&mut self, bytes: &[u8], span: Span) -> Result<(), Halt>
        requires sound { IsSound self.old.tape }
        ensures value { Gives (state_of bytes.now self.old) (piece_tok doctype_piece (at_span bytes.now span)) result (state_of bytes.now self.new) }
        ensures sound { OnOk result (IsSound self.new.tape) }
        ensures marks { OnOk result (all_marks self.new ≡ all_marks self.old ++ span_mark span ∷ []) }
    {
        if !self.at_top() || !stage::begins_document(self.stage) {
            return Err(Halt::Misplaced);
        }
        self.adds(Leaf::Gap, span)?;
        self.stage = Some(Stage::BeforeRoot);
        Ok(())
    }
}
