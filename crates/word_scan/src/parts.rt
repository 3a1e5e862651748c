//! What a physical line adds to its logical line.

ghost use Rattle.std.specs.Prelude.{◌≡◌, ◌≤◌, ◌<◌, ◌-◌, ◌+◌, ◌==◌, position, take, length};
ghost use Rattle.std.specs.List.{suffix_len, before_first};
ghost use Rattle.word_scan.specs.Logical.{is_white, uncommented, told, continues, part_of};

/// A space, a tab or CR.
pub(crate) fn is_white(byte: u8) -> bool
    ensures { result ≡ is_white byte }
{
    byte == b' ' || byte == b'\t' || byte == b'\r'
}

fn hash(line: &[u8]) -> Option<usize>
    ensures { result ≡ position (λ b. b == 35) line.now }
{
    line.iter().position(|b| *b == b'#')
}

/// The bytes before the first `#`.
fn uncommented(line: &[u8]) -> &[u8]
    ensures { result.now ≡ uncommented line.now }
{
    match hash(line) {
        Some(end) => &line[..end],
        None => line,
    }
}

/// The bytes before a comment, without white space at the end.
fn told(line: &[u8]) -> &[u8]
    ensures { result.now ≡ told line.now }
{
    let text = uncommented(line);
    let mut end = text.len();
    while end > 0 && is_white(text[end - 1]) {
        end -= 1;
    }
    &text[..end]
}

/// What the line adds, and whether the next one continues it.
pub(crate) fn part(line: &[u8]) -> (&[u8], bool)
    ensures part { result.0.now ≡ part_of line.now }
    ensures continues { result.1 ≡ continues line.now }
{
    let text = told(line);
    if !text.is_empty() && text[text.len() - 1] == b'\\' {
        (&text[..text.len() - 1], true)
    } else {
        (text, false)
    }
}
