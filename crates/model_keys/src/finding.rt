//! What is wrong in a text, and where: causes, findings, and the paths to them.

ghost use Rattle.std.specs.Prelude.{◌≡◌, ◌++◌, IfOk};
ghost use Rattle.model_keys.specs.declared.finding.Cause.TheVariants.{Unknown};
ghost use Rattle.model_keys.specs.declared.finding.ReadError.TheVariants.{Memory};
ghost use Rattle.model_keys.specs.Finding.{at, joined, element, Deepens};

use ale_base::{Items, OutOfMemory};
use itoa::Buffer;
use std::alloc::{AllocError, AllocFailed, Global};

/// What is wrong with what stands at a key.
#[derive(Clone, Copy, PartialEq, Eq)]
pub enum Cause {
    /// The key is absent.
    Missing,
    /// The key, or the name that stands there, is not known.
    Unknown,
    /// The value has not the type, the form or the range.
    Wrong,
    /// The name stands there for the second time.
    Twice,
    /// There is more than is allowed.
    Limit,
    /// Something that has to be sent is removed.
    MandatoryRemoved,
    /// Something that has to be sent has no definition by a release.
    NoVersion,
}

/// What is wrong, and the path to it: keys joined by `.`, with the places of elements in brackets, counted from 0.
#[derive(Drop)]
pub struct Finding {
    /// What is wrong.
    pub cause: Cause,
    /// The path. It is empty for the value that was read itself.
    pub path: Items<u8>,
}

/// Why nothing was read.
#[derive(Drop)]
pub enum ReadError {
    /// There was not enough memory.
    Memory,
    /// Something is wrong in the text.
    Found(Finding),
}

impl From<AllocError> for ReadError {
    ghost from_gives = { λ _ e. e ≡ Memory };

    fn from(_refused: AllocError) -> ReadError {
        ReadError::Memory
    }
}

impl From<OutOfMemory> for ReadError {
    ghost from_gives = { λ _ e. e ≡ Memory };

    fn from(_refused: OutOfMemory) -> ReadError {
        ReadError::Memory
    }
}

impl<T: Drop> From<AllocFailed<T>> for ReadError {
    ghost from_gives = { λ _ e. e ≡ Memory };

    fn from(_refused: AllocFailed<T>) -> ReadError {
        ReadError::Memory
    }
}

/// The finding of a cause at a path.
pub fn at(alloc: Global, cause: Cause, path: &str) -> Result<Finding, OutOfMemory>
    ensures { IfOk result (λ finding. finding ≡ at cause path.now) }
{
    Ok(Finding {
        cause,
        path: Items::from_slice(alloc, path.as_bytes())?,
    })
}

/// The finding of a key that is not known, with a text before it in its path.
pub fn unknown(alloc: Global, before: &str, key: &str) -> Result<Finding, OutOfMemory>
    ensures { IfOk result (λ finding. finding ≡ at Unknown (before.now ++ key.now)) }
{
    let mut path = Vec::from_slice(alloc, before.as_bytes())?;
    path.extend_from_slice(key.as_bytes())?;
    Ok(Finding {
        cause: Cause::Unknown,
        path: Items::from_vec(path),
    })
}

/// The path of the element at a place, counted from 0, of the list at a key.
pub fn element(alloc: Global, key: &str, place: usize) -> Result<Vec<u8>, AllocError>
    ensures { IfOk result (λ path. path.items ≡ element key.now place) }
{
    let mut buffer = Buffer::new();
    let mut path = Vec::from_slice(alloc, key.as_bytes())?;
    path.extend_from_slice(b"[")?;
    path.extend_from_slice(buffer.format(place).as_bytes())?;
    path.extend_from_slice(b"]")?;
    Ok(path)
}

/// The path of the element at a place of the list at a key, and behind it the path from there.
fn joined(alloc: Global, key: &str, place: usize, path: &[u8]) -> Result<Items<u8>, AllocError>
    ensures { IfOk result (λ whole. whole ≡ joined (element key.now place) path.now) }
{
    let mut whole = element(alloc, key, place)?;
    match path {
        [] => {}
        // the dot is there already, as before an empty key
        [b'.', ..] => whole.extend_from_slice(path)?,
        [_, ..] => {
            whole.extend_from_slice(b".")?;
            whole.extend_from_slice(path)?;
        }
    }
    Ok(Items::from_vec(whole))
}

/// What was found in the element at a place, counted from 0, of the list at a key, seen from the table that has the key.
pub fn within(alloc: Global, key: &str, place: usize, error: ReadError) -> ReadError
    ensures { Deepens key.now place error result }
{
    match error {
        ReadError::Memory => ReadError::Memory,
        ReadError::Found(finding) => {
            match joined(alloc, key, place, finding.path.as_slice()) {
                Err(_) => ReadError::Memory,
                Ok(path) => ReadError::Found(Finding {
                    cause: finding.cause,
                    path,
                }),
            }
        }
    }
}
