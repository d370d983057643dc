//! Laws of scripts: each call does nothing, and its clauses hold of all texts.

ghost use Rattle.std.specs.Prelude.{◌≡◌, ℕ, List, [], ◌∷◌, ◌++◌, ◌⊎◌};
ghost use Rattle.std.specs.List.{list_all};
ghost use Rattle.xt_spec.specs.Name.{IsSpeltBy};
ghost use Rattle.bk_script.specs.Command.{Command, IsCommandLine};
ghost use Rattle.bk_script.specs.Script.{IsComment, IsScript, ScriptFault, IsFaultOf};
ghost use Rattle.bk_script.specs.Word.{IsBlank, IsString, is_plain};

/// A line is at most one command, of all that the grammar has, and then it is neither blank nor a comment.
pub fn one_command()
    ensures one { (text : List ℕ) (a b : Command) → IsCommandLine text a → IsCommandLine text b → a ≡ b }
    ensures none { (text : List ℕ) (a : Command) → IsCommandLine text a → IsBlank text ⊎ IsComment text → ⊥ }
{}

/// A string has at most one value. A text whose characters are no quote, backslash, LF or CR stands between quotes for
/// itself, of however many bytes each is.
pub fn one_value()
    ensures one { (text v w : List ℕ) → IsString text v → IsString text w → v ≡ w }
    ensures value { (text : List ℕ) → IsSpeltBy (list_all is_plain) text → IsString (0x22 ∷ (text ++ 0x22 ∷ [])) text }
{}

/// Bytes are a script of at most one list of commands, and then they have no fault.
pub fn one_script()
    ensures one { (bytes : List ℕ) (a b : List Command) → IsScript bytes a → IsScript bytes b → a ≡ b }
    ensures fault { (bytes : List ℕ) (a : List Command) (e : ScriptFault) → IsScript bytes a → IsFaultOf bytes e → ⊥ }
{}

/// Bytes have at most one fault.
pub fn one_fault()
    ensures one { (bytes : List ℕ) (d e : ScriptFault) → IsFaultOf bytes d → IsFaultOf bytes e → d ≡ e }
{}
