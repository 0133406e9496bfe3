//! What the items of a case work on: the text of a model, and a master.

ghost use Rattle.std.specs.Prelude.{◌≡◌, ◌<◌, length};
ghost use Rattle.idoc_tree.specs.Forest.{AllNodes};
ghost use Rattle.idoc_tree.specs.Lines.{IsNode};
ghost use Rattle.idoc_tree.specs.Nodes.{forest_of};
ghost use Rattle.outbound_cases.specs.Bench.{sets_up};

use crate::master::{control, model_text, records};
use crate::rules::{NO_MODEL, NO_SUCH_ITEM, NO_SUCH_NUMBER};
use crate::sending::{keeps, leaves, master_of, queues, sends};
use case_form::{Bench, Item, LineEnd, Texts, first_word, meaning_of, number_of};
use dist_model::{Model, RowNo};
use idoc_record::{Control, Data};
use idoc_tree::Doc;
use model_text::{ModelFault, read};
use std::alloc::Global;

/// The text of a model, and a master.
#[derive(Drop)]
pub(crate) struct SendingBench<'t> {
    /// The texts of the folder.
    texts: &'t Texts,
    /// The text of the model.
    model: Vec<u8>,
    /// The control record of the master.
    control: Control,
    /// The data records of the master.
    records: Vec<Data>,
}

/// What an item asks.
#[derive(Clone, Copy)]
enum About {
    Keeps,
    Leaves,
    Sends,
    Queues,
}

const WORDS: [(&'static [u8], About); 4] = [
    (b"keeps", About::Keeps),
    (b"leaves", About::Leaves),
    (b"sends", About::Sends),
    (b"queues", About::Queues),
];

impl<'t> Bench for SendingBench<'t> {
    ghost use Rattle.outbound_cases.specs.Bench.{sets_up};

    ghost sets_up = { sets_up };

    fn found(&mut self, alloc: Global, item: &Item) -> Result<Option<Vec<u8>>, LineEnd> {
        if sets_up(item.word.as_slice()) {
            self.set_up(alloc, item)?;
            return Ok(None);
        }
        let Some(about) = meaning_of(&WORDS, item.word.as_slice()) else {
            return Err(NO_SUCH_ITEM.into());
        };
        Ok(Some(self.asked(alloc, about, item.rest.as_slice())?))
    }
}

/// Whether an item of this word sets the model or the master up.
fn sets_up(word: &[u8]) -> bool
    ensures { result ≡ sets_up word.now }
{
    word == b"model".as_slice() || word == b"control".as_slice() || word == b"records".as_slice()
}

impl<'t> SendingBench<'t> {
    ghost use Rattle.std.specs.Prelude.{◌<◌, IfOk, length};
    ghost use Rattle.idoc_tree.specs.Forest.{AllNodes};
    ghost use Rattle.idoc_tree.specs.Lines.{IsNode};
    ghost use Rattle.idoc_tree.specs.Nodes.{forest_of};

    /// No text, and an empty master.
    pub(crate) fn new(alloc: Global, texts: &'t Texts) -> SendingBench<'t> {
        SendingBench {
            texts,
            model: Vec::new(alloc),
            control: Control::blank(),
            records: Vec::new(alloc),
        }
    }

    /// Sets up what the word of an item names.
    fn set_up(&mut self, alloc: Global, item: &Item) -> Result<(), LineEnd> {
        let word = item.word.as_slice();
        if word == b"model".as_slice() {
            self.model = model_text(alloc, self.texts, item)?;
        } else if word == b"control".as_slice() {
            self.control = control(alloc, item)?;
        } else {
            self.records = records(alloc, item)?;
        }
        Ok(())
    }

    /// What an item finds.
    fn asked(&self, alloc: Global, about: About, words: &[u8]) -> Result<Vec<u8>, LineEnd> {
        let model = self.model_for(alloc, about, words)?;
        let found = self.found_by(alloc, &model, about, words);
        drop(model);
        found
    }

    /// The model of the text; for `keeps` with a line behind it.
    fn model_for(&self, alloc: Global, about: About, line: &[u8]) -> Result<Model, LineEnd> {
        let mut text = Vec::from_slice(alloc, self.model.as_slice())?;
        if matches!(about, About::Keeps) {
            text.extend_from_slice(line)?;
        }
        match read(alloc, text.as_slice()) {
            Ok(model) => Ok(model),
            Err(ModelFault::OutOfMemory) => Err(LineEnd::OutOfMemory),
            Err(_) => Err(NO_MODEL.into()),
        }
    }

    /// What an item finds by a row of a model.
    fn found_by(
        &self,
        alloc: Global,
        model: &Model,
        about: About,
        words: &[u8],
    ) -> Result<Vec<u8>, LineEnd> {
        let place = place_of(model, about, words)?;
        if usize::from(place) >= model.as_lists().rows.len() {
            return Err(NO_SUCH_NUMBER.into());
        }
        let row = RowNo(place);
        let master = self.master_of(alloc, model, row)?;
        let (_, number) = first_word(words);
        let found = found_of(alloc, model, row, &master, about, number);
        drop(master);
        found
    }

    /// The master by the message type of a row.
    fn master_of(&self, alloc: Global, model: &Model, row: RowNo) -> Result<Doc, LineEnd>
        requires { row < length model.now.rows }
        ensures { IfOk result (λ doc. AllNodes (IsNode model.now.definitions) (forest_of doc.forest.items)) }
    {
        let control = self.control.clone()?;
        master_of(alloc, model, row, control, self.records.as_slice())
    }
}

/// What an item finds by a row of a model and a master.
fn found_of(
    alloc: Global,
    model: &Model,
    row: RowNo,
    master: &Doc,
    about: About,
    number: &[u8],
) -> Result<Vec<u8>, LineEnd>
    requires row { row < length model.now.rows }
    requires nodes { AllNodes (IsNode model.now.definitions) (forest_of master.now.forest.items) }
{
    match about {
        About::Keeps => keeps(alloc, model, row, master),
        About::Leaves => leaves(alloc, model, row, master),
        About::Sends => sends(alloc, model, row, number, master),
        About::Queues => queues(alloc, model, row, master),
    }
}

/// The place of the row that an item names, counted from 0; for `keeps` that of the last one.
fn place_of(model: &Model, about: About, words: &[u8]) -> Result<u16, LineEnd> {
    let (number, _) = first_word(words);
    let place = match about {
        About::Keeps => model.as_lists().rows.len().saturating_sub(1),
        _ => number_of(number)? as usize,
    };
    match u16::try_from(place) {
        Ok(place) => Ok(place),
        Err(_) => Err(NO_SUCH_NUMBER.into()),
    }
}
