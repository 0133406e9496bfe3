//! The words of a line.

ghost use Rattle.std.specs.Prelude.{◌≡◌, ◌<◌, ◌≤◌, [], ◌∷◌, length, drop, take, slice_index, IfOk, IfSome, IfNone, false};
ghost use Rattle.script_text.specs.Words.{is_gap, ends_word, words_of, texts};

use ale_base::OutOfMemory;
use std::alloc::Global;

/// The words of a line, in order.
pub(crate) fn words_of(alloc: Global, line: &[u8]) -> Result<Vec<&[u8]>, OutOfMemory>
    ensures { IfOk result (λ words. texts words.items ≡ words_of line.now) }
{
    let mut words = Vec::new(alloc);
    let mut rest = line;
    while let Some((word, behind)) = first_word(rest) {
        words.push(word)?;
        rest = behind;
    }
    Ok(words)
}

/// The first word, and the bytes behind it. None exactly where there is no word.
fn first_word(bytes: &[u8]) -> Option<(&[u8], &[u8])>
    ensures found { IfSome result (λ parts. (words_of bytes.now ≡ parts.0.now ∷ words_of parts.1.now)
        × (length parts.1.now < length bytes.now)) }
    ensures none { IfNone result (words_of bytes.now ≡ []) }
{
    let from = gap_len(bytes);
    if from == bytes.len() {
        return None;
    }
    let bytes = &bytes[from..];
    let end = word_len(bytes);
    Some((&bytes[..end], &bytes[end..]))
}

/// How many spaces and tabs come first.
fn gap_len(bytes: &[u8]) -> usize
    ensures within { result ≤ length bytes.now }
    ensures skipped { words_of bytes.now ≡ words_of (drop result bytes.now) }
    ensures stops { result < length bytes.now → is_gap (slice_index bytes.now result) ≡ false }
{
    for (at, byte) in bytes.iter().enumerate() {
        if !is_gap(*byte) {
            return at;
        }
    }
    bytes.len()
}

/// How long the word is that comes first.
fn word_len(bytes: &[u8]) -> usize
    requires some { 0 < length bytes.now }
    requires first { is_gap (slice_index bytes.now 0) ≡ false }
    ensures within { result ≤ length bytes.now }
    ensures least { 0 < result }
    ensures word { words_of bytes.now ≡ take result bytes.now ∷ words_of (drop result bytes.now) }
{
    for (at, byte) in bytes.iter().enumerate() {
        if is_gap(*byte) {
            return at;
        }
    }
    bytes.len()
}

/// Whether a byte parts words.
pub(crate) fn is_gap(byte: u8) -> bool
    ensures { result ≡ is_gap byte }
{
    byte == b' ' || byte == b'\t'
}
