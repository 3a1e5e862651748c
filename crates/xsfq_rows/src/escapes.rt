//! The bytes that a text with escapes stands for, and the text of bytes.

use anyhow::{Result, bail};

/// How far an escape is read.
#[derive(Clone, Copy)]
enum Escape {
    /// There is none.
    Outside,
    /// Its backslash.
    Begun,
    /// Its `\x`.
    Hex,
    /// Its `\x` and the digit of this value.
    Digit(u8),
}

/// The value of a hexadecimal digit.
fn digit(byte: u8) -> Result<u8> {
    match byte {
        b'0'..=b'9' => Ok(byte - b'0'),
        b'a'..=b'f' => Ok(byte - b'a' + 10),
        _ => bail!("no hexadecimal digit behind \\x"),
    }
}

/// The byte that stands behind a backslash.
fn escaped(byte: u8) -> Result<u8> {
    match byte {
        b'n' => Ok(b'\n'),
        b'r' => Ok(b'\r'),
        b't' => Ok(b'\t'),
        b'\\' => Ok(b'\\'),
        _ => bail!("an escape is one of \\n, \\r, \\t, \\\\ and \\x with two digits"),
    }
}

/// Adds the byte that this one ends, and tells how far an escape is read behind it.
fn take(escape: Escape, byte: u8, bytes: &mut Vec<u8>) -> Result<Escape> {
    let whole = match (escape, byte) {
        (Escape::Outside, b'\\') => return Ok(Escape::Begun),
        (Escape::Begun, b'x') => return Ok(Escape::Hex),
        (Escape::Hex, _) => return Ok(Escape::Digit(digit(byte)?)),
        (Escape::Outside, _) => byte,
        (Escape::Begun, _) => escaped(byte)?,
        (Escape::Digit(high), _) => high.wrapping_mul(16) | digit(byte)?,
    };
    bytes.push(whole)?;
    Ok(Escape::Outside)
}

/// Adds the bytes that a text stands for: itself, but for `\n`, `\r`, `\t`, `\\`, and `\x` with two digits of `0` to `9`
/// and `a` to `f`, which stand for one byte each.
pub(crate) fn add_unescaped(text: &str, bytes: &mut Vec<u8>) -> Result<()> {
    let mut escape = Escape::Outside;
    for byte in text.bytes() {
        escape = take(escape, byte, bytes)?;
    }
    match escape {
        Escape::Outside => Ok(()),
        _ => bail!("an escape is cut off"),
    }
}

/// Writes one byte, by an escape where it can't be printed.
fn add_byte(byte: u8, text: &mut String) -> Result<()> {
    match byte {
        b'\n' => text.push_str("\\n")?,
        b'\\' => text.push_str("\\\\")?,
        b' '..=b'~' => text.push(char::from(byte))?,
        _ => write!(text, "\\x{byte:02x}")?,
    }
    Ok(())
}

/// Writes bytes as a text with escapes, in one line; of many bytes only the first ones.
pub(crate) fn add_escaped(bytes: &[u8], text: &mut String) -> Result<()> {
    for byte in bytes.iter().take(600) {
        add_byte(*byte, text)?;
    }
    Ok(())
}
