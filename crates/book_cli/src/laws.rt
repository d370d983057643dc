//! Laws of the definitions that the program's output rests on. Each call does nothing: what it says is its clause.
ghost use Rattle.std.specs.Prelude.{◌≡◌, ◌⊎◌, List, ℕ};
ghost use Rattle.bk_desk.specs.Disk.{DiskImage};
ghost use Rattle.xt_spec.specs.Tree.{Items};
ghost use Rattle.ed_spec.specs.Book.{Opens};
ghost use Rattle.book_cli.specs.Words.{root_of};
ghost use Rattle.book_cli.specs.Output.{IsOutput};
ghost use Rattle.book_cli.specs.Leaves.{RecoveredBook};

/// Words, script and files determine the exit status and the output.
pub fn run_output_is_determined()
    ensures value { (words : List (List ℕ)) (bytes : List ℕ) (files : DiskImage) (a b : ℕ) (x y : List ℕ) → IsOutput words bytes files a x → IsOutput words bytes files b y → (a ≡ b) × (x ≡ y) }
{}

/// Where words, script and files give a book that is recovered and whose root opens, there is an output, with status 0 or 1.
/// `value`: whatever words, script and files are, there is one.
pub fn an_output_exists()
    ensures law { (words : List (List ℕ)) (bytes : List ℕ) (files : DiskImage) (of : RecoveredBook (root_of words) bytes files) (file : List ℕ) (items : Items) → Opens of.name of.book file items
        → (status : ℕ) × (text : List ℕ) × ((status ≡ 0) ⊎ (status ≡ 1)) × IsOutput words bytes files status text }
    ensures value { (words : List (List ℕ)) (bytes : List ℕ) (files : DiskImage) → (status : ℕ) × (text : List ℕ) × IsOutput words bytes files status text }
{}
