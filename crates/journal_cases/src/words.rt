//! Words of the items, and values as a line.

ghost use Rattle.std.specs.Prelude.{◌<◌, IfOk};

use case_form::{LineEnd, Rule, Text, first_word, number_of, put_text};
use std::alloc::Global;
use std::fmt::Display;

const NO_VOLUME: Rule = Rule("a volume has a number below 16");

/// The number that the first word spells, and the words behind it.
pub(crate) fn number_word(words: &[u8]) -> Result<(u32, &[u8]), LineEnd> {
    let (word, rest) = first_word(words);
    Ok((number_of(word)?, rest))
}

/// The volume that the first word names, and the words behind it.
pub(crate) fn volume_word(words: &[u8]) -> Result<(u8, &[u8]), LineEnd>
    ensures { IfOk result (λ found. found.0 < 16) }
{
    let (number, rest) = number_word(words)?;
    if number >= 16 {
        return Err(NO_VOLUME.into());
    }
    Ok((number as u8, rest))
}

/// The numbers that the words spell.
pub(crate) fn numbers(alloc: Global, words: &[u8]) -> Result<Vec<u64>, LineEnd> {
    let mut numbers = Vec::new(alloc);
    for word in words.split(|byte| *byte == b' ') {
        if !word.is_empty() {
            numbers.push(u64::from(number_of(word)?))?;
        }
    }
    Ok(numbers)
}

/// The bytes that a text of a case stands for.
pub(crate) fn plain(alloc: Global, text: &[u8]) -> Result<Vec<u8>, LineEnd> {
    let mut bytes = Vec::new(alloc);
    put_text(&mut bytes, text)?;
    Ok(bytes)
}

/// Puts a line that shows a value.
pub(crate) fn put_shown(
    alloc: Global,
    text: &mut Text,
    value: &impl Display,
) -> Result<(), LineEnd> {
    let line = format!(in alloc; "{value}")?;
    Ok(text.put_line(line.as_bytes())?)
}
