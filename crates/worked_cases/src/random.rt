//! Scripts by dice.

use crate::rules;
use case_form::{BlockLine, Dice, LineEnd, first_word, number_of};
use std::alloc::Global;

/// The seed and the count of a random script, from `SEED COUNT`.
#[derive(Clone, Copy)]
pub(crate) struct Throws {
    pub(crate) seed: u32,
    pub(crate) count: u32,
}

impl Throws {
    /// What these words say.
    pub(crate) fn of(words: &[u8]) -> Result<Throws, LineEnd> {
        let (seed, count) = first_word(words);
        match (number_of(seed), number_of(count)) {
            (Ok(seed), Ok(count)) => Ok(Throws { seed, count }),
            _ => Err(rules::BAD_RANDOM.into()),
        }
    }

    /// So many of these commands, a line each, picked by the dice of the seed.
    pub(crate) fn script(self, alloc: Global, commands: &[BlockLine]) -> Result<Vec<u8>, LineEnd> {
        let mut dice = Dice::of(self.seed);
        let mut script = Vec::new(alloc);
        for _line in 0..self.count {
            match dice.pick(commands) {
                Some(command) => put_line(&mut script, command.text.as_slice())?,
                None => return Err(rules::BAD_RANDOM.into()),
            }
        }
        Ok(script)
    }
}

/// Appends a line as it stands.
pub(crate) fn put_line(text: &mut Vec<u8>, line: &[u8]) -> Result<(), LineEnd> {
    text.extend_from_slice(line)?;
    text.push(b'\n')?;
    Ok(())
}
