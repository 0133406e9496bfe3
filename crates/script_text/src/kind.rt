//! The kinds of words that commands have.

ghost use Rattle.std.specs.Prelude.{◌≡◌, IfOk};
ghost use Rattle.std.specs.List.{list_all};
ghost use Rattle.std.specs.Str.{is_utf8};
ghost use Rattle.memchr.specs.Find.{IsFirstByte, is_byte};
ghost use Rattle.script_text.specs.Kinds.{are_letters, is_of, is_field, field_value, number_of, before_sign, behind_sign, is_letter};

use crate::keyword::Keyword;
use ale_base::{FieldValue, Items, OutOfMemory, Tid};
use memchr::memchr;
use std::alloc::Global;
use std::str;

/// The most digits of a number.
const MOST_DIGITS: usize = 15;

/// The most letters of a `wire`.
const MOST_LETTERS: usize = 64;

/// A kind of word.
#[derive(Clone, Copy)]
pub(crate) enum Kind {
    /// This word.
    The(Keyword),
    /// Any word, as the name of a system.
    Any,
    /// The number of a document: 1 to 15 digits, of which the first is no zero.
    Number,
    /// A transaction id.
    Id,
    /// What becomes of shipments: 1 to 64 letters.
    Letters,
    /// The name of a file: any word that is UTF-8.
    Utf8,
}

impl Kind {
    /// Whether a word is of this kind.
    pub(crate) fn takes(self, word: &[u8]) -> bool
        ensures { result ≡ is_of self word.now }
    {
        match self {
            Kind::The(keyword) => word == keyword.text(),
            Kind::Any => true,
            Kind::Number => number_of(word).is_some(),
            Kind::Id => Tid::read(word).is_some(),
            Kind::Letters => are_letters(word),
            Kind::Utf8 => is_utf8(word),
        }
    }
}

/// The number that a word spells: 1 to 15 digits, of which the first is no zero. None exactly where it spells none.
pub(crate) fn number_of(word: &[u8]) -> Option<u64>
    ensures { result ≡ number_of word.now }
{
    if word.is_empty() || word[0] == b'0' || word.len() > MOST_DIGITS {
        return None;
    }
    let mut number: u64 = 0;
    for digit in word {
        if !digit.is_ascii_digit() {
            return None;
        }
        number = number * 10 + u64::from(*digit - b'0');
    }
    Some(number)
}

fn is_utf8(word: &[u8]) -> bool
    ensures { result ≡ is_utf8 word.now }
{
    str::from_utf8(word).is_ok()
}

fn are_letters(word: &[u8]) -> bool
    ensures { result ≡ are_letters word.now }
{
    1 <= word.len() && word.len() <= MOST_LETTERS && has_letters_alone(word)
}

fn has_letters_alone(word: &[u8]) -> bool
    ensures { result ≡ list_all is_letter word.now }
{
    word.iter().all(|byte| is_letter(*byte))
}

fn is_letter(byte: u8) -> bool
    ensures { result ≡ is_letter byte }
{
    b"oqrtcf".iter().any(|letter| *letter == byte)
}

/// Whether a word is `FIELD=VALUE`: whether it has an equals sign.
pub(crate) fn is_field(word: &[u8]) -> bool
    ensures { result ≡ is_field word.now }
{
    word.iter().any(|byte| *byte == b'=')
}

/// The field and the value of `FIELD=VALUE`, which its first equals sign splits.
pub(crate) fn field_value(alloc: Global, word: &[u8]) -> Result<FieldValue, OutOfMemory>
    ensures { IfOk result (λ field. field ≡ field_value word.now) }
{
    let (field, value) = split_field(word);
    Ok(FieldValue {
        field: Items::from_slice(alloc, field)?,
        value: Items::from_slice(alloc, value)?,
    })
}

/// A word before its first equals sign, and behind it.
fn split_field(word: &[u8]) -> (&[u8], &[u8])
    ensures field { result.0.now ≡ before_sign word.now }
    ensures value { result.1.now ≡ behind_sign word.now }
{
    match first_sign(word) {
        Some(sign) => (&word[..sign], &word[sign + 1..]),
        None => (word, &[]),
    }
}

/// The place of the first equals sign.
fn first_sign(word: &[u8]) -> Option<usize>
    ensures { IsFirstByte (is_byte 61) word.now result }
{
    memchr(b'=', word)
}
