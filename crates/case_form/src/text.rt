//! Words, numbers and texts of case files.

ghost use Rattle.std.specs.Prelude.{◌≡◌, ◌==◌, ℕ, List, ◌<◌, [], ◌∷◌, ◌++◌, true, false, length, find, nat_eq, Ok, Err, OnOk, IfOk, IfErr, IfSome, MatchOption};
ghost use Rattle.std.specs.Char.{is_ascii_digit};
ghost use Rattle.std.specs.List.{list_all, position, repeat};
ghost use Rattle.std.specs.Option.{option_map};
ghost use Rattle.std.specs.Cmp.Lexicographic.{pointwise};
ghost use Rattle.case_form.specs.declared.rule.LineEnd.{LineEnd};
ghost use Rattle.case_form.specs.Rules.{IsBroken, IsEndOf};
ghost use Rattle.case_form.specs.Text.{has, before, behind, parts, parts_left, number_read, byte_named, byte_of, what_read, times, braced_read, part_read, text_read, both};

use crate::rule::{LineEnd, bad_number, open_brace};
use std::str;

/// The parts before and behind the first of these bytes. None exactly where there is none.
pub fn cut(text: &[u8], at: u8) -> Option<(&[u8], &[u8])>
    ensures { MatchOption result (has at text.now ≡ false) (λ found. (has at text.now ≡ true)
        × (found.0.now ≡ before at text.now) × (found.1.now ≡ behind at text.now)) }
{
    match place_of(text, at) {
        Some(place) => Some((&text[..place], &text[place + 1..])),
        None => None,
    }
}

/// The place of the first such byte.
fn place_of(text: &[u8], at: u8) -> Option<usize>
    ensures { result ≡ position (λ b. b == at) text.now }
{
    text.iter().position(|byte| *byte == at)
}

/// The first word of a line, and what stands behind the blank at its end.
pub fn first_word(line: &[u8]) -> (&[u8], &[u8])
    ensures word { result.0.now ≡ before 32 line.now }
    ensures rest { result.1.now ≡ behind 32 line.now }
{
    match cut(line, b' ') {
        Some(found) => found,
        None => (line, &[]),
    }
}

/// The part before the first such byte, and what is behind that byte, if there is one.
pub(crate) fn first_part(text: &[u8], at: u8) -> (&[u8], Option<&[u8]>)
    ensures parts { parts at text.now ≡ result.0.now ∷ parts_left at result.1 }
    ensures fewer { IfSome result.1 (λ left. length left.now < length text.now) }
{
    match cut(text, at) {
        Some((part, left)) => (part, Some(left)),
        None => (text, None),
    }
}

/// What a word stands for by a table of words: the meaning in its first row. None exactly where no row has the word.
///
/// A table is cheaper to prove than a `match` on texts, of which the checker sees each byte as a branch.
pub fn meaning_of<T: Copy>(words: &[(&'static [u8], T)], word: &[u8]) -> Option<T>
    ensures { result ≡ option_map (λ row. row.1) (find (λ row. pointwise nat_eq row.0.now word.now) words.now) }
{
    let (_, meaning) = words.iter().find(|row| row.0 == word)?;
    Some(*meaning)
}

/// The number that decimal digits spell. There is a digit at least, and the number fits 32 bits.
pub fn number_of(digits: &[u8]) -> Result<u32, LineEnd>
    ensures number { IfOk result (λ number. number_read digits.now ≡ Ok number) }
    ensures fault { IfErr result (IsBroken (number_read digits.now)) }
{
    if !are_digits(digits) {
        return Err(LineEnd::Broken(bad_number()));
    }
    match str::from_utf8(digits) {
        Ok(digits) => parsed(digits),
        Err(_) => Err(LineEnd::Broken(bad_number())),
    }
}

/// Whether all bytes are decimal digits.
fn are_digits(digits: &[u8]) -> bool
    ensures { result ≡ list_all is_ascii_digit digits.now }
{
    digits.iter().all(|byte| byte.is_ascii_digit())
}

/// The number that a text of digits alone spells.
fn parsed(digits: &str) -> Result<u32, LineEnd>
    requires { list_all is_ascii_digit digits.now ≡ true }
    ensures number { IfOk result (λ number. number_read digits.now ≡ Ok number) }
    ensures fault { IfErr result (IsBroken (number_read digits.now)) }
{
    match digits.parse::<u32>() {
        Ok(number) => Ok(number),
        Err(_) => Err(LineEnd::Broken(bad_number())),
    }
}

/// Appends the bytes that a text stands for: those between braces by their names, and all others as they are.
pub fn put_text(bytes: &mut Vec<u8>, text: &[u8]) -> Result<(), LineEnd>
    ensures read { OnOk result (both (Ok bytes.old.items) (text_read text.now) ≡ Ok bytes.new.items) }
    ensures fault { IfErr result (IsEndOf (text_read text.now)) }
{
    let (plain, mut left) = first_part(text, b'{');
    bytes.extend_from_slice(plain)?;
    while let Some(braced) = left {
        let (part, behind) = first_part(braced, b'{');
        put_part(bytes, part)?;
        left = behind;
    }
    Ok(())
}

/// Appends what stands behind an open brace.
fn put_part(bytes: &mut Vec<u8>, part: &[u8]) -> Result<(), LineEnd>
    ensures read { OnOk result (both (Ok bytes.old.items) (part_read part.now) ≡ Ok bytes.new.items) }
    ensures fault { IfErr result (IsEndOf (part_read part.now)) }
{
    match cut(part, b'}') {
        Some((inner, plain)) => {
            put_braced(bytes, inner)?;
            bytes.extend_from_slice(plain)?;
            Ok(())
        }
        None => Err(LineEnd::Broken(open_brace())),
    }
}

/// Appends what stands between braces: `WHAT`, or `COUNT*WHAT`.
fn put_braced(bytes: &mut Vec<u8>, inner: &[u8]) -> Result<(), LineEnd>
    ensures read { OnOk result (both (Ok bytes.old.items) (braced_read inner.now) ≡ Ok bytes.new.items) }
    ensures fault { IfErr result (IsEndOf (braced_read inner.now)) }
{
    match cut(inner, b'*') {
        Some((count, what)) => put_what(bytes, what, number_of(count)?),
        None => put_what(bytes, inner, 1),
    }
}

/// Appends what `WHAT` stands for, so many times.
fn put_what(bytes: &mut Vec<u8>, what: &[u8], count: u32) -> Result<(), LineEnd>
    ensures read { OnOk result (both (Ok bytes.old.items) (times (Ok count) (what_read what.now)) ≡ Ok bytes.new.items) }
    ensures fault { IfErr result (IsEndOf (what_read what.now)) }
{
    match what.strip_prefix(b"#") {
        Some(number) => put_times(bytes, &[byte_of(number)?], count),
        None => match byte_named(what) {
            Some(byte) => put_times(bytes, &[byte], count),
            None => put_times(bytes, what, count),
        },
    }
}

/// Bytes by their names.
const NAMED_BYTES: [(&'static [u8], u8); 3] = [(b"blank", b' '), (b"CR", b'\r'), (b"LF", b'\n')];

/// The byte of a name.
fn byte_named(name: &[u8]) -> Option<u8>
    ensures { result ≡ byte_named name.now }
{
    meaning_of(&NAMED_BYTES, name)
}

/// The byte of this number.
fn byte_of(number: &[u8]) -> Result<u8, LineEnd>
    ensures read { IfOk result (λ byte. byte_of (number_read number.now) ≡ Ok (byte ∷ [])) }
    ensures fault { IfErr result (IsBroken (byte_of (number_read number.now))) }
{
    match u8::try_from(number_of(number)?) {
        Ok(byte) => Ok(byte),
        Err(_) => Err(LineEnd::Broken(bad_number())),
    }
}

/// Appends these bytes so many times.
pub fn put_times(bytes: &mut Vec<u8>, part: &[u8], count: u32) -> Result<(), LineEnd>
    ensures put { OnOk result (bytes.new.items ≡ bytes.old.items ++ repeat count part.now) }
    ensures fault { IfErr result (λ end. end ≡ LineEnd.OutOfMemory) }
{
    for _time in 0..count {
        bytes.extend_from_slice(part)?;
    }
    Ok(())
}
