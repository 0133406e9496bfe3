//! Why a text is no model.

ghost use Rattle.std.specs.Prelude.{◌≡◌, ◌<◌, ◌++◌, IfOk, OnOk};
ghost use Rattle.std.specs.List.{flat_map};
ghost use Rattle.model_text.specs.Words.{fault_name, fault_path, fault_words, hex_digit, shown_byte};

use ale_base::{Items, OutOfMemory};
use std::alloc::Global;
use thiserror::Error;

/// The first fault of a model's text, with the path to it: keys joined by `.`, with the places of elements in brackets,
/// counted from 0.
#[derive(Debug, Drop, Error)]
pub enum ModelFault {
    /// The bytes are no UTF-8, or no TOML.
    #[error("the text is no TOML")]
    Toml,
    /// A key is absent.
    #[error("a key is missing")]
    Missing(Items<u8>),
    /// A key, or the name that stands there, is not known.
    #[error("a key or a name is unknown")]
    Unknown(Items<u8>),
    /// A value has not the type, the form or the range.
    #[error("a value is wrong")]
    Wrong(Items<u8>),
    /// A name stands there for the second time.
    #[error("a name stands twice")]
    Twice(Items<u8>),
    /// There is more than is allowed.
    #[error("a limit is passed")]
    Limit(Items<u8>),
    /// A profile removes a mandatory segment type and not its parent.
    #[error("a mandatory segment type is removed")]
    MandatoryRemoved(Items<u8>),
    /// A mandatory segment type has no definition by the release of a profile.
    #[error("a mandatory segment type has no definition by a release")]
    NoVersion(Items<u8>),
    /// There was not enough memory.
    #[error("out of memory")]
    OutOfMemory,
}

impl ModelFault {
    /// The fault in words: its name, and behind a blank the path where it has one. They are one line: a control byte of a key is told by
    /// its number, as `\x0A`.
    pub fn words(&self, alloc: Global) -> Result<Vec<u8>, OutOfMemory>
        ensures { IfOk result (λ words. words.items ≡ fault_words self.now) }
    {
        let mut words = Vec::from_slice(alloc, self.name())?;
        put_shown(&mut words, self.path())?;
        Ok(words)
    }

    /// The name of the fault, and a blank where a path follows.
    fn name(&self) -> &'static [u8]
        ensures { result.now ≡ fault_name self.now }
    {
        match self {
            ModelFault::Toml => b"Toml",
            ModelFault::Missing(_) => b"Missing ",
            ModelFault::Unknown(_) => b"Unknown ",
            ModelFault::Wrong(_) => b"Wrong ",
            ModelFault::Twice(_) => b"Twice ",
            ModelFault::Limit(_) => b"Limit ",
            ModelFault::MandatoryRemoved(_) => b"MandatoryRemoved ",
            ModelFault::NoVersion(_) => b"NoVersion ",
            ModelFault::OutOfMemory => b"OutOfMemory",
        }
    }

    /// The path of the fault; no bytes where it has none.
    fn path(&self) -> &[u8]
        ensures { result.now ≡ fault_path self.now }
    {
        match self {
            ModelFault::Toml | ModelFault::OutOfMemory => &[],
            ModelFault::Missing(path)
            | ModelFault::Unknown(path)
            | ModelFault::Wrong(path)
            | ModelFault::Twice(path)
            | ModelFault::Limit(path)
            | ModelFault::MandatoryRemoved(path)
            | ModelFault::NoVersion(path) => path.as_slice(),
        }
    }
}

/// Appends bytes, a control byte by its number.
fn put_shown(words: &mut Vec<u8>, bytes: &[u8]) -> Result<(), OutOfMemory>
    ensures { OnOk result (words.new.items ≡ words.old.items ++ flat_map shown_byte bytes.now) }
{
    for byte in bytes {
        put_byte(words, *byte)?;
    }
    Ok(())
}

/// Appends a byte, or its number.
fn put_byte(words: &mut Vec<u8>, byte: u8) -> Result<(), OutOfMemory>
    ensures { OnOk result (words.new.items ≡ words.old.items ++ shown_byte byte) }
{
    if byte < 32 || byte == 127 {
        words.extend_from_slice(&[b'\\', b'x', hex_digit(byte / 16), hex_digit(byte % 16)])?;
    } else {
        words.push(byte)?;
    }
    Ok(())
}

/// A hexadecimal digit.
fn hex_digit(digit: u8) -> u8
    requires { digit < 16 }
    ensures { result ≡ hex_digit digit }
{
    if digit < 10 {
        b'0' + digit
    } else {
        b'A' + (digit - 10)
    }
}
