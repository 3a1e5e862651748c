//! The words of a line.

ghost use Rattle.std.specs.Prelude.{◌≡◌, ◌∷◌, [], not, position, IfSome, IfNone, Some, None, ◌==◌};
ghost use Rattle.word_scan.specs.Words.{is_blank, words_of, parted};

/// A space or a tab.
fn is_blank(byte: u8) -> bool
    ensures { result ≡ is_blank byte }
{
    byte == b' ' || byte == b'\t'
}

fn first_blank(bytes: &[u8]) -> Option<usize>
    ensures { result ≡ position (λ b. is_blank b) bytes.now }
{
    bytes.iter().position(|b| is_blank(*b))
}

fn first_dark(bytes: &[u8]) -> Option<usize>
    ensures { result ≡ position (λ b. not (is_blank b)) bytes.now }
{
    bytes.iter().position(|b| !is_blank(*b))
}

/// The first word of a line, and what stands after it. Words are the longest runs of bytes that
/// are neither space nor tab. None exactly where the line has no word. It takes no memory.
pub fn next_word(line: &[u8]) -> Option<(&[u8], &[u8])>
    ensures found { IfSome result (λ found. words_of line.now ≡ found.0.now ∷ words_of found.1.now) }
    ensures none { IfNone result (words_of line.now ≡ []) }
{
    let start = first_dark(line)?;
    let dark = &line[start..];
    match first_blank(dark) {
        Some(end) => Some((&dark[..end], &dark[end..])),
        None => Some((dark, &dark[dark.len()..])),
    }
}

fn first_place(text: &[u8], byte: u8) -> Option<usize>
    ensures { result ≡ position (λ b. b == byte) text.now }
{
    text.iter().position(|b| *b == byte)
}

/// What stands before the first `byte` of a text, and what after it. None exactly where the byte
/// stands nowhere in it. It takes no memory.
pub fn part_at(text: &[u8], byte: u8) -> Option<(&[u8], &[u8])>
    ensures found { IfSome result (λ parts. parted byte text.now ≡ Some (parts.0.now, parts.1.now)) }
    ensures none { IfNone result (parted byte text.now ≡ None) }
{
    let end = first_place(text, byte)?;
    Some((&text[..end], &text[end + 1..]))
}
