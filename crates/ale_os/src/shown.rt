//! Text on a terminal: bytes that are not printable are shown by their numbers.

ghost use Rattle.std.specs.Prelude.{◌<◌, ◌≤◌, length};

use std::io::Write;
use std::{io, str};

/// Writes bytes to a terminal. The ends of lines and printable text are written as they are, and each other byte as `\x` and
/// its two hexadecimal digits. Printable is text in UTF-8 without control characters.
pub(crate) fn write_shown<W: Write>(out: &mut W, bytes: &[u8]) -> io::Result<()> {
    for line in bytes.split_inclusive(|byte| *byte == b'\n') {
        write_line(out, line)?;
    }
    Ok(())
}

/// Writes a line.
fn write_line<W: Write>(out: &mut W, line: &[u8]) -> io::Result<()> {
    let mut rest = line;
    loop {
        let (front, behind) = rest.split_at(printable_front(rest));
        out.write_all(front)?;
        let Some((byte, behind)) = behind.split_first() else {
            return Ok(());
        };
        write_byte(out, *byte)?;
        rest = behind;
    }
}

/// Writes a byte that ends a line, or else its number.
fn write_byte<W: Write>(out: &mut W, byte: u8) -> io::Result<()> {
    if byte == b'\n' {
        out.write_all(b"\n")
    } else {
        out.write_all(&[b'\\', b'x', digit(byte / 16), digit(byte % 16)])
    }
}

/// A hexadecimal digit.
fn digit(value: u8) -> u8
    requires { value < 16 }
{
    if value < 10 {
        b'0' + value
    } else {
        b'A' + (value - 10)
    }
}

/// How many bytes at the front are printable.
fn printable_front(bytes: &[u8]) -> usize
    ensures { result ≤ length bytes.now }
{
    let text = utf8_front(bytes);
    text.find(|c: char| c.is_control()).unwrap_or(text.len())
}

/// The longest front of the bytes that is UTF-8.
fn utf8_front(bytes: &[u8]) -> &str
    ensures { length result.now ≤ length bytes.now }
{
    match str::from_utf8(bytes) {
        Ok(text) => text,
        Err(error) => {
            let (front, _) = bytes.split_at(error.valid_up_to());
            str::from_utf8(front).unwrap_or("")
        }
    }
}
