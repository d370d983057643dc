//! Laws of opening, each a clause of a function that does nothing.
ghost use Rattle.std.specs.Prelude.{◌≡◌, ◌⊎◌, ◌≤◌, List, ℕ, length};
ghost use Rattle.xt_spec.specs.Limit.{most_file_bytes};
ghost use Rattle.xt_spec.specs.Tree.{Items};
ghost use Rattle.bk_spec.specs.Node.{Nodes};
ghost use Rattle.bk_spec.specs.Fault.{Fault};
ghost use Rattle.bk_spec.specs.Opening.{IsOpen};
ghost use Rattle.bk_spec.specs.FirstFault.{IsDocumentFault};

/// A document has one first fault.
pub fn one_document_fault()
    ensures law { (file bytes : List ℕ) (a b : Fault) → IsDocumentFault file bytes a → IsDocumentFault file bytes b → a ≡ b }
{}

/// A document that opens has no fault.
pub fn an_open_document_has_no_fault()
    ensures law { (file bytes : List ℕ) (items : Items) (nodes : Nodes) (fault : Fault) → IsOpen file bytes items nodes → IsDocumentFault file bytes fault → ⊥ }
{}

/// A document opens with one list of items, and of nodes.
pub fn a_document_opens_once()
    ensures law { (file bytes : List ℕ) (i j : Items) (m n : Nodes) → IsOpen file bytes i m → IsOpen file bytes j n → (i ≡ j) × (m ≡ n) }
{}

/// A document that isn't too long opens, or has a first fault.
pub fn a_document_opens_or_has_a_fault()
    ensures law { (file bytes : List ℕ) → length bytes ≤ most_file_bytes → ((items : Items) × (nodes : Nodes) × IsOpen file bytes items nodes) ⊎ ((fault : Fault) × IsDocumentFault file bytes fault) }
{}
