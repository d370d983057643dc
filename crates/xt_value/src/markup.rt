//! What comments and processing instructions hold. XML 1.0 (Fifth Edition), sections 2.5, 2.6 and 2.11.
ghost use Rattle.std.specs.Prelude.{◌≡◌, List, ℕ, IfOk, string_bytes};
ghost use Rattle.xt_spec.specs.LineEnds.{lines_read};
ghost use Rattle.xt_spec.specs.Markup.{IsCommentOf, IsPiOf};

use crate::cuts::{behind_space, between, split_space};
use crate::lines::read_lines;
use std::alloc::{AllocError, Global};

/// The text of a comment of a file, with its line ends as read: `<!--a-->` has `a`. Nothing is said of a text that is none.
pub fn comment_text(alloc: Global, comment: &str) -> Result<String, AllocError>
    ensures exact { IfOk result (λ value. (inner : List ℕ) → IsCommentOf comment.now inner → lines_read inner ≡ string_bytes value) }
{
    read_lines(alloc, between(comment, "<!--", "-->").unwrap_or(""))
}

/// The parts of a processing instruction of a file: `<?go on?>` has the target `go` and the data `on`.
#[derive(Debug, Drop)]
pub struct PiParts<'a> {
    /// The target as written.
    pub target: &'a str,
    /// The data, with their line ends as read.
    pub value: String,
}

/// The target and the data of a processing instruction of a file. Nothing is said of a text that is none.
pub fn pi_parts<'a>(alloc: Global, pi: &'a str) -> Result<PiParts<'a>, AllocError>
    ensures exact { IfOk result (λ parts. (target inner : List ℕ) → IsPiOf pi.now target inner → (target ≡ parts.target.now) × (lines_read inner ≡ string_bytes parts.value)) }
{
    let (target, rest) = split_space(between(pi, "<?", "?>").unwrap_or(""));
    let value = read_lines(alloc, behind_space(rest))?;
    Ok(PiParts { target, value })
}
