//! Steps from the front of a text.

ghost use Rattle.std.specs.Prelude.{◌≡◌, ◌<◌, option_map};
ghost use Rattle.std.specs.List.{prefix_len};
ghost use Rattle.std.specs.Option.{option_copied};
ghost use Rattle.xt_spec.specs.Reference as spec;
ghost use Rattle.xt_spec.specs.Reference.{is_hexadecimal_digit};
ghost use Rattle.xt_scan.specs.Step.{take_while, drop_while};
ghost use Rattle.xt_lex.specs.Scan.{after};
ghost use Rattle.bk_script.specs.Word as words;
ghost use Rattle.bk_script.specs.Word.{is_blank, is_plain};
ghost use Rattle.bk_script.specs.Reading.{is_no_blank, word_at, ascii_at};

/// What follows the character, an ASCII one.
pub(crate) fn after(c: char, text: &str) -> Option<&str>
    requires { c < 128 }
    ensures { option_copied result ≡ after c text.now }
{
    text.strip_prefix(c)
}

fn blank_len(bytes: &[u8]) -> usize
    ensures { result ≡ prefix_len is_blank bytes.now }
{
    bytes.iter().take_while(|b| **b == b' ').count()
}

fn no_blank_len(bytes: &[u8]) -> usize
    ensures { result ≡ prefix_len is_no_blank bytes.now }
{
    bytes.iter().take_while(|b| **b != b' ').count()
}

fn is_plain(b: u8) -> bool
    ensures { result ≡ words.is_plain b }
{
    !matches!(b, b'"' | b'\\' | b'\n' | b'\r')
}

fn plain_len(bytes: &[u8]) -> usize
    ensures { result ≡ prefix_len is_plain bytes.now }
{
    bytes.iter().take_while(|b| is_plain(**b)).count()
}

fn is_hexadecimal_digit(b: u8) -> bool
    ensures { result ≡ spec.is_hexadecimal_digit b }
{
    matches!(b, b'0'..=b'9' | b'A'..=b'F' | b'a'..=b'f')
}

fn hexadecimal_len(bytes: &[u8]) -> usize
    ensures { result ≡ prefix_len is_hexadecimal_digit bytes.now }
{
    bytes
        .iter()
        .take_while(|b| is_hexadecimal_digit(**b))
        .count()
}

/// What follows optional spaces.
pub(crate) fn after_blanks(text: &str) -> &str
    ensures { result.now ≡ drop_while is_blank text.now }
{
    &text[blank_len(text.as_bytes())..]
}

fn split_word(text: &str) -> (&str, &str)
    ensures word { result.0.now ≡ take_while is_no_blank text.now }
    ensures rest { result.1.now ≡ drop_while is_no_blank text.now }
{
    text.split_at(no_blank_len(text.as_bytes()))
}

/// What stands before the next space behind optional spaces, and the rest.
#[tactic(auto, unfolding(crate::specs::Reading::word_at))]
pub(crate) fn next_word(text: &str) -> (&[u8], &str)
    ensures word { result.0.now ≡ (word_at text.now).0 }
    ensures rest { result.1.now ≡ (word_at text.now).1 }
{
    let (word, rest) = split_word(after_blanks(text));
    (word.as_bytes(), rest)
}

/// The front that stands for itself in a string, and what follows it.
pub(crate) fn split_plain(text: &str) -> (&str, &str)
    ensures plain { result.0.now ≡ take_while is_plain text.now }
    ensures rest { result.1.now ≡ drop_while is_plain text.now }
{
    text.split_at(plain_len(text.as_bytes()))
}

/// The hexadecimal digits at the front, and what follows them.
pub(crate) fn split_hexadecimal(text: &str) -> (&str, &str)
    ensures digits { result.0.now ≡ take_while is_hexadecimal_digit text.now }
    ensures rest { result.1.now ≡ drop_while is_hexadecimal_digit text.now }
{
    text.split_at(hexadecimal_len(text.as_bytes()))
}

/// The first byte where it is ASCII, and what follows it.
pub(crate) fn ascii_at(text: &str) -> Option<(u8, &str)>
    ensures { option_map (λ x. (x.0, x.1.now)) result ≡ ascii_at text.now }
{
    match text.as_bytes() {
        [first, ..] => if *first < 128 {
            Some((*first, &text[1..]))
        } else {
            None
        },
        [] => None,
    }
}
