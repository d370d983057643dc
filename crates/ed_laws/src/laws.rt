//! Laws of edits, each a clause of a function that does nothing.

ghost use Rattle.std.specs.Prelude.{◌≡◌, ◌≢◌, List, ℕ, true, Some, is_some, encode_utf8_all};
ghost use Rattle.std.specs.List.{list_all};
ghost use Rattle.xt_spec.specs.Char.{is_char};
ghost use Rattle.xt_spec.specs.Tree.{Items, Item, source_text};
ghost use Rattle.xt_spec.specs.Paths.{item_at};
ghost use Rattle.bk_spec.specs.Node.{Nodes};
ghost use Rattle.bk_spec.specs.DocumentNodes.{Context};
ghost use Rattle.bk_spec.specs.Opening.{GivesNodes, IsOpen};
ghost use Rattle.ed_spec.specs.Place.{path_of, text_set};
ghost use Rattle.ed_spec.specs.Book.{Book, Opens};
ghost use Rattle.ed_spec.specs.Edit.{Edit, text_edit, IsInText, range_replaced, edited, Accepts, AcceptsIn};
ghost use Rattle.ed_spec.specs.Session.{Session, Command, Reply, Step, opened, Does, DoesAll};
ghost use Rattle.ed_laws.specs.Bytes.{ChangesOneText};
ghost use Rattle.ed_laws.specs.LocalSteps.{IsLocalEdit, AreLocalSteps};
ghost use Rattle.ed_laws.specs.NodePlaces.{has_node};
ghost use Rattle.ed_laws.specs.Outcome.{Outcome, HasOutcome};

/// An edit of a text gives the text at the place its new value, and the other nodes stay; a text whose new value is empty
/// goes. `law` says so of each tree that the edit may make, `value` of an edit that is accepted.
pub fn edit_changes_the_node()
    ensures law { (file : List ℕ) (context : Context) (count : ℕ) (items : Items) (nodes : Nodes) (place : List ℕ) (from to : ℕ) (new path characters : List ℕ)
        → GivesNodes file context count items nodes → IsInText items place from to path characters → list_all is_char new ≡ true
        → GivesNodes file context count (edited items path characters from to new) (text_set nodes place (encode_utf8_all (range_replaced characters from to new))) }
    ensures value { (file : List ℕ) (context : Context) (count : ℕ) (items others : Items) (nodes : Nodes) (place : List ℕ) (from to : ℕ) (new : List ℕ)
        → GivesNodes file context count items nodes → Accepts items (text_edit place from to new) others
        → (path characters : List ℕ) × IsInText items place from to path characters
        × GivesNodes file context count others (text_set nodes place (encode_utf8_all (range_replaced characters from to new))) }
{}

/// A document in which an edit is accepted opens afterwards too; `value` says with which nodes: the text at the place has
/// its new value, and the others stay.
pub fn an_edited_document_opens()
    ensures law { (file bytes : List ℕ) (items others : Items) (nodes : Nodes) (edit : Edit)
        → IsOpen file bytes items nodes → Accepts items edit others → (next : Nodes) × IsOpen file (source_text others) others next }
    ensures value { (file bytes : List ℕ) (items others : Items) (nodes : Nodes) (place : List ℕ) (from to : ℕ) (new : List ℕ)
        → IsOpen file bytes items nodes → Accepts items (text_edit place from to new) others
        → (path characters : List ℕ) × IsInText items place from to path characters
        × IsOpen file (source_text others) others (text_set nodes place (encode_utf8_all (range_replaced characters from to new))) }
{}

/// Over given items an edit has one outcome at most: it is refused for one reason, or gives one tree.
pub fn one_outcome()
    ensures law { (items : Items) (edit : Edit) (a b : Outcome) → HasOutcome items edit a → HasOutcome items edit b → a ≡ b }
{}

/// Over the items of a document that opens each edit has an outcome.
pub fn an_edit_has_an_outcome()
    ensures law { (file bytes : List ℕ) (items : Items) (nodes : Nodes) (edit : Edit) → IsOpen file bytes items nodes → (outcome : Outcome) × HasOutcome items edit outcome }
{}

/// An accepted edit changes no file but the root.
pub fn other_files_stay()
    ensures law { (root name : List ℕ) (book next : Book) (edit : Edit) → AcceptsIn root book edit next → name ≢ root → next name ≡ book name }
{}

/// An accepted edit of a text changes in its file the bytes of one text item, the one that the place names: those in front of
/// it and those behind it stay. `value` says so of the root of a book.
pub fn other_bytes_stay()
    ensures law { (items others : Items) (place : List ℕ) (from to : ℕ) (new : List ℕ) → Accepts items (text_edit place from to new) others → ChangesOneText items others place from to new }
    ensures value { (root : List ℕ) (book next : Book) (place : List ℕ) (from to : ℕ) (new : List ℕ) → AcceptsIn root book (text_edit place from to new) next
        → (items others : Items) × Opens root book (source_text items) items × ChangesOneText items others place from to new × (next root ≡ Some (source_text others)) }
{}

/// In a session a command has one reply at most, and leaves one session; so do commands in a row.
pub fn one_reply()
    ensures law { (root : List ℕ) (s t u : Session) (command : Command) (r q : Reply) → Does root s command r t → Does root s command q u → (r ≡ q) × (t ≡ u) }
    ensures value { (root : List ℕ) (s t u : Session) (commands : List Command) (xs ys : List Step)
        → DoesAll root s commands xs t → DoesAll root s commands ys u → (xs ≡ ys) × (t ≡ u) }
{}

/// An accepted edit is local: the root opens before and after it, with nodes that differ in one text, its bytes differ in
/// that text's item, and no other file does. `value` says so of the steps of a session in which nothing was done: each makes
/// a local edit, takes one back, or leaves the book as it was.
pub fn steps_are_local()
    ensures law { (root : List ℕ) (edit : Edit) (book next : Book) → AcceptsIn root book edit next → IsLocalEdit root edit book next }
    ensures value { (root : List ℕ) (book : Book) (last : Session) (commands : List Command) (steps : List Step)
        → DoesAll root (opened root book) commands steps last → AreLocalSteps root book commands steps }
{}

/// Places are those of the printed tree: one leads to an item exactly where the nodes have a node. `value`: the path that it
/// leads along is that of an item.
pub fn places_have_nodes()
    ensures law { (file : List ℕ) (context : Context) (count : ℕ) (items : Items) (nodes : Nodes)
        → GivesNodes file context count items nodes → (place : List ℕ) → is_some (path_of items place) ≡ has_node nodes place }
    ensures value { (items : Items) (place path : List ℕ) → path_of items place ≡ Some path → (item : Item) × (item_at items path ≡ Some item) }
{}
