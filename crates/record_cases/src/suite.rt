//! The suite: a case file's items, answered one after another on one line and one control record.

use crate::records::{
    made_line, put_control, put_control_bytes, put_data, put_data_bytes, put_layout,
};
use ale_base::OutOfMemory;
use case_form::{Bench, Item, LineEnd, Outcome, Rule, Suite, Text, Texts, meaning_of, outcome_on};
use idoc_record::Control;
use std::alloc::Global;

const NO_SUCH_ITEM: Rule = Rule("an item is one that the program has");

/// The cases of records.
pub(crate) struct Records;

/// What the items of a case work on.
#[derive(Drop)]
struct LineBench {
    /// The line that is to be read as a record.
    line: Vec<u8>,
    /// The control record that was read last. It is blank at first.
    control: Control,
}

impl Suite for Records {
    ghost use Rattle.case_form.specs.Answered.{IsAnswered};
    ghost use Rattle.record_cases.specs.Bench.{sets_up};

    ghost comes_out = { λ _ _ file bytes outcome. IsAnswered sets_up (λ _ _. Unit {0}) file bytes outcome };

    fn outcome(
        &self,
        alloc: Global,
        _texts: &Texts,
        file: &str,
        bytes: &[u8],
    ) -> Result<Outcome, OutOfMemory> {
        let mut bench = LineBench {
            line: Vec::new(alloc),
            control: Control::blank(),
        };
        outcome_on(alloc, &mut bench, file, bytes)
    }
}

/// What an item is about.
#[derive(Clone, Copy)]
enum About {
    Control,
    Data,
    WrittenControl,
    WrittenData,
    Layout,
}

/// The words of the items.
const WORDS: [(&'static [u8], About); 5] = [
    (b"control", About::Control),
    (b"data", About::Data),
    (b"written_control", About::WrittenControl),
    (b"written_data", About::WrittenData),
    (b"layout", About::Layout),
];

impl Bench for LineBench {
    ghost use Rattle.record_cases.specs.Bench.{sets_up};

    ghost sets_up = { sets_up };

    /// What an item finds. One that makes a line finds nothing.
    fn found(&mut self, alloc: Global, item: &Item) -> Result<Option<Vec<u8>>, LineEnd> {
        if item.word.as_slice() == b"line".as_slice() {
            self.line = made_line(alloc, item)?;
            return Ok(None);
        }
        let about = meaning_of(&WORDS, item.word.as_slice()).ok_or(NO_SUCH_ITEM)?;
        let mut text = Text::new(alloc);
        self.put_found(alloc, about, item.rest.as_slice(), &mut text)?;
        Ok(Some(text.into_bytes()))
    }
}

impl LineBench {
    /// Puts what an item finds.
    fn put_found(
        &mut self,
        alloc: Global,
        about: About,
        rest: &[u8],
        text: &mut Text,
    ) -> Result<(), LineEnd> {
        let line = self.line.as_slice();
        match about {
            About::Control => put_control(text, line, &mut self.control),
            About::Data => put_data(alloc, text, line),
            About::WrittenControl => put_control_bytes(alloc, text, &self.control),
            About::WrittenData => put_data_bytes(alloc, text, &self.control, line, rest),
            About::Layout => Ok(put_layout(text)?),
        }
    }
}
