//! What the items of a case work on: the texts of models.

ghost use Rattle.std.specs.Prelude.{◌≡◌};
ghost use Rattle.model_cases.specs.Bench.{sets_up};

use crate::growth::unkept;
use crate::lookups::{inbound_of, message_named, outbound_of, receivers, system_named};
use crate::rules::{NO_MODEL, NO_SUCH_ITEM};
use case_form::{Bench, Item, LineEnd, meaning_of, put_text};
use dist_model::Model;
use model_text::read;
use std::alloc::Global;

/// The texts that were set up.
#[derive(Drop)]
pub(crate) struct ModelBench {
    /// The first lines of each text behind it.
    head: Vec<u8>,
    /// The text of the model that is to be replaced.
    before: Vec<u8>,
    /// The text of the model that is asked.
    model: Vec<u8>,
}

impl ModelBench {
    /// No text.
    pub(crate) fn new(alloc: Global) -> ModelBench {
        ModelBench {
            head: Vec::new(alloc),
            before: Vec::new(alloc),
            model: Vec::new(alloc),
        }
    }
}

/// What a model is asked.
#[derive(Clone, Copy)]
enum About {
    Unkept,
    SystemNamed,
    MessageNamed,
    Receivers,
    OutboundOf,
    InboundOf,
}

const WORDS: [(&'static [u8], About); 6] = [
    (b"unkept", About::Unkept),
    (b"system_named", About::SystemNamed),
    (b"message_named", About::MessageNamed),
    (b"receivers", About::Receivers),
    (b"outbound_of", About::OutboundOf),
    (b"inbound_of", About::InboundOf),
];

impl Bench for ModelBench {
    ghost use Rattle.model_cases.specs.Bench.{sets_up};

    ghost sets_up = { sets_up };

    fn found(&mut self, alloc: Global, item: &Item) -> Result<Option<Vec<u8>>, LineEnd> {
        if sets_up(item.word.as_slice()) {
            self.set_up(alloc, item)?;
            return Ok(None);
        }
        let Some(about) = meaning_of(&WORDS, item.word.as_slice()) else {
            return Err(NO_SUCH_ITEM.into());
        };
        Ok(Some(self.asked(alloc, about, item.rest.as_slice())?))
    }
}

/// Whether an item of this word sets a text up.
fn sets_up(word: &[u8]) -> bool
    ensures { result ≡ sets_up word.now }
{
    word == b"head".as_slice() || word == b"before".as_slice() || word == b"model".as_slice()
}

impl ModelBench {
    /// Sets up the text of the word of an item.
    fn set_up(&mut self, alloc: Global, item: &Item) -> Result<(), LineEnd> {
        let word = item.word.as_slice();
        if word == b"head".as_slice() {
            self.head = text_of(alloc, &[], item)?;
        } else if word == b"before".as_slice() {
            self.before = text_of(alloc, self.head.as_slice(), item)?;
        } else {
            self.model = text_of(alloc, self.head.as_slice(), item)?;
        }
        Ok(())
    }

    /// What is found in the model that is asked.
    fn asked(&self, alloc: Global, about: About, words: &[u8]) -> Result<Vec<u8>, LineEnd> {
        let model = model_of(alloc, self.model.as_slice())?;
        let found = match about {
            About::Unkept => self.unkept(alloc, &model),
            _ => looked_up(alloc, &model, about, words),
        };
        drop(model);
        found
    }

    /// What of the model that is to be replaced this one does not keep.
    fn unkept(&self, alloc: Global, new: &Model) -> Result<Vec<u8>, LineEnd> {
        let old = model_of(alloc, self.before.as_slice())?;
        let found = unkept(alloc, &old, new);
        drop(old);
        found
    }
}

/// What is looked up in a model.
fn looked_up(alloc: Global, model: &Model, about: About, words: &[u8]) -> Result<Vec<u8>, LineEnd> {
    match about {
        About::SystemNamed => system_named(alloc, model, words),
        About::MessageNamed => message_named(alloc, model, words),
        About::Receivers => receivers(alloc, model, words),
        About::OutboundOf => outbound_of(alloc, model, words),
        About::InboundOf => inbound_of(alloc, model, words),
        About::Unkept => Err(NO_SUCH_ITEM.into()),
    }
}

/// The model that a text says.
fn model_of(alloc: Global, text: &[u8]) -> Result<Model, LineEnd> {
    match read(alloc, text) {
        Ok(model) => Ok(model),
        Err(_) => Err(NO_MODEL.into()),
    }
}

/// First lines, and those of an item's block.
fn text_of(alloc: Global, head: &[u8], item: &Item) -> Result<Vec<u8>, LineEnd> {
    let mut text = Vec::from_slice(alloc, head)?;
    for line in &item.block {
        put_text(&mut text, line.text.as_slice())?;
        text.push(b'\n')?;
    }
    Ok(text)
}
