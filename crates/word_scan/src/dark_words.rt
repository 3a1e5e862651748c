//! The words of a logical line.

ghost use Rattle.std.specs.Prelude.{◌≡◌, ◌∷◌, [], not, position, IfSome, IfNone};
ghost use Rattle.word_scan.specs.Logical.{is_white, dark_words};

use crate::parts::is_white;

fn first_white(bytes: &[u8]) -> Option<usize>
    ensures { result ≡ position (λ b. is_white b) bytes.now }
{
    bytes.iter().position(|b| is_white(*b))
}

fn first_dark(bytes: &[u8]) -> Option<usize>
    ensures { result ≡ position (λ b. not (is_white b)) bytes.now }
{
    bytes.iter().position(|b| !is_white(*b))
}

/// The first word of a logical line, and what stands after it. Words are the longest runs of bytes that are neither
/// space nor tab nor CR. None exactly where the line has no word. It takes no memory.
pub fn next_dark_word(line: &[u8]) -> Option<(&[u8], &[u8])>
    ensures found { IfSome result (λ found. dark_words line.now ≡ found.0.now ∷ dark_words found.1.now) }
    ensures none { IfNone result (dark_words line.now ≡ []) }
{
    let start = first_dark(line)?;
    let dark = &line[start..];
    match first_white(dark) {
        Some(end) => Some((&dark[..end], &dark[end..])),
        None => Some((dark, &dark[dark.len()..])),
    }
}
