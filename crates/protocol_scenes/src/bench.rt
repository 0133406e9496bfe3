//! What the items of a case work on: the units that it lists, a scene of them, and logs made by hand.

ghost use Rattle.std.specs.Prelude.{◌≡◌};
ghost use Rattle.protocol_scenes.specs.Bench.{sets_up};

use crate::events::read_event;
use crate::fault::Fault;
use crate::given::Given;
use crate::laws::{logs_found, put_broken};
use crate::listing::{NO_LENGTHS, lengths_of, put_world};
use crate::scene::Scene;
use crate::units::{Lists, add_systems, add_unit};
use crate::walks::put_walks;
use crate::words::Words;
use ale_base::Items;
use case_form::{Bench, Item, LineEnd, Text, meaning_of};
use std::alloc::Global;
use trfc_protocol::Event;

/// The word that begins an item which is a step.
#[derive(Clone, Copy)]
pub(crate) enum ItemWord {
    Event,
    Ask,
    Again,
    Law,
    Walks,
    Legal,
    Read,
    Breach,
    Told,
    Marked,
    Stopped,
}

const ITEMS: [(&'static [u8], ItemWord); 11] = [
    (b"event", ItemWord::Event),
    (b"ask", ItemWord::Ask),
    (b"again", ItemWord::Again),
    (b"law", ItemWord::Law),
    (b"walks", ItemWord::Walks),
    (b"legal", ItemWord::Legal),
    (b"read", ItemWord::Read),
    (b"breach", ItemWord::Breach),
    (b"told", ItemWord::Told),
    (b"marked", ItemWord::Marked),
    (b"stopped", ItemWord::Stopped),
];

/// The units of a case, the events so far and the scene after them, and the logs that it gives.
#[derive(Drop)]
pub(crate) struct SceneBench {
    alloc: Global,
    lists: Lists,
    events: Items<Event>,
    /// None before the first event.
    scene: Option<Scene>,
    given: Given,
}

impl Bench for SceneBench {
    ghost use Rattle.protocol_scenes.specs.Bench.{sets_up};

    ghost sets_up = { sets_up };

    fn found(&mut self, alloc: Global, item: &Item) -> Result<Option<Vec<u8>>, LineEnd> {
        match self.answer(alloc, item) {
            Ok(found) => Ok(found),
            Err(fault) => Err(fault.end()),
        }
    }
}

/// Whether an item of this word is no step.
fn sets_up(word: &[u8]) -> bool
    ensures { result ≡ sets_up word.now }
{
    word == b"systems".as_slice()
        || word == b"unit".as_slice()
        || word == b"committed".as_slice()
        || word == b"given".as_slice()
}

impl SceneBench {
    ghost use Rattle.std.specs.Prelude.{◌≡◌, not, IfOk};
    ghost use Rattle.std.specs.Option.{is_some};
    ghost use Rattle.protocol_scenes.specs.Bench.{sets_up};

    pub(crate) fn new(alloc: Global) -> SceneBench {
        SceneBench {
            alloc,
            lists: Items::new(alloc),
            events: Items::new(alloc),
            scene: None,
            given: Given::new(alloc),
        }
    }

    /// What is found at an item, where it is a step.
    fn answer(&mut self, alloc: Global, item: &Item) -> Result<Option<Vec<u8>>, Fault>
        ensures { IfOk result (λ found. is_some found ≡ not (sets_up item.now.word.items)) }
    {
        let mut words = Words::of(item.rest.as_slice());
        if sets_up(item.word.as_slice()) {
            self.set_up(&mut words, item)?;
            words.end()?;
            return Ok(None);
        }
        let Some(word) = meaning_of(&ITEMS, item.word.as_slice()) else {
            return Err(Fault::NoItem);
        };
        let mut text = Text::new(alloc);
        self.put(&mut text, word, &mut words)?;
        words.end()?;
        Ok(Some(text.into_bytes()))
    }

    /// Sets up what an item says that is no step.
    fn set_up(&mut self, words: &mut Words, item: &Item) -> Result<(), Fault> {
        let word = item.word.as_slice();
        if word == b"systems".as_slice() {
            add_systems(self.alloc, &mut self.lists, words)
        } else if word == b"unit".as_slice() {
            add_unit(self.alloc, &mut self.lists, words)
        } else if word == b"committed".as_slice() {
            self.given.read_committed(words)
        } else {
            self.given.read_logs(&self.lists, item.block.as_slice())
        }
    }

    /// Puts what is found at a step.
    fn put(&mut self, text: &mut Text, word: ItemWord, words: &mut Words) -> Result<(), Fault> {
        match word {
            ItemWord::Event => self.put_event(text, words),
            ItemWord::Ask => self.put_answer(text, words),
            ItemWord::Again => self.put_again(text),
            ItemWord::Walks => put_walks(self.alloc, text, &self.lists, words),
            ItemWord::Law if self.given.is_empty() => self.put_law(text),
            _ => self.given.put(text, &self.lists, word, words),
        }
    }

    /// The scene so far, which is taken out.
    fn take_scene(&mut self) -> Result<Scene, Fault> {
        match self.scene.take() {
            Some(scene) => Ok(scene),
            None => Scene::first(self.alloc, &self.lists),
        }
    }

    /// Puts what an event does: the records that join the logs, all claims, and who is down.
    fn put_event(&mut self, text: &mut Text, words: &mut Words) -> Result<(), Fault> {
        let event = read_event(self.alloc, &self.lists, words)?;
        let happened = self.happen(text, &event);
        self.events.push(event)?;
        happened
    }

    fn happen(&mut self, text: &mut Text, event: &Event) -> Result<(), Fault> {
        let scene = self.take_scene()?;
        let lengths = lengths_of(scene.world());
        let scene = scene.after(self.alloc, event)?;
        let listed = put_world(text, &lengths, scene.world());
        self.scene = Some(scene);
        Ok(listed?)
    }

    /// Puts what is so of a unit.
    fn put_answer(&mut self, text: &mut Text, words: &mut Words) -> Result<(), Fault> {
        let tid = words.tid()?;
        let scene = self.take_scene()?;
        let put = scene.put_unit(self.alloc, text, tid);
        self.scene = Some(scene);
        Ok(put?)
    }

    /// Puts the whole logs and the claims, where all events so far happen at once to the scene at first.
    fn put_again(&self, text: &mut Text) -> Result<(), Fault> {
        let first = Scene::first(self.alloc, &self.lists)?;
        let scene = first.after_all(self.alloc, self.events.as_slice())?;
        Ok(put_world(text, &NO_LENGTHS, scene.world())?)
    }

    /// Puts the clauses of the law that the logs of the scene break.
    fn put_law(&mut self, text: &mut Text) -> Result<(), Fault> {
        let scene = self.take_scene()?;
        let logs = logs_found(self.alloc, scene.world(), 0);
        self.scene = Some(scene);
        Ok(put_broken(self.alloc, text, &self.lists, &logs?, None)?)
    }
}
