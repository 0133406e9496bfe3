//! What a case file says.

use crate::held::Holding;
use ale_base::{Items, OutOfMemory};
use ale_io::StoredFile;
use case_form::{Item, Relation, Texts};
use std::alloc::Global;

/// A case: the files that all its runs see, and its runs and broken texts, in order. The first run starts on empty volumes.
#[derive(Drop)]
pub(crate) struct Case {
    pub(crate) files: Items<StoredFile>,
    /// The texts that its broken texts may use.
    pub(crate) texts: Texts,
    pub(crate) parts: Vec<Part>,
}

/// A part of a case, which becomes a step.
#[derive(Drop)]
pub(crate) enum Part {
    /// The program is run.
    Run(Run),
    /// The text of an item's block is no case.
    Broken(Item),
}

/// The words of a run.
#[derive(Drop)]
pub(crate) enum Words {
    /// The words of the command line.
    Given(Vec<String>),
    /// Memory ran out before the words were there.
    Wanting,
}

/// A run of the program, and what is expected of it.
#[derive(Drop)]
pub(crate) struct Run {
    /// The line of its item in the case file, from 1.
    pub(crate) line: u32,
    /// Whether it is marked: what it expects is wrong on purpose.
    pub(crate) differs: bool,
    pub(crate) start: Start,
    /// What volumes are made to hold before it, one after another.
    pub(crate) holds: Items<Holding>,
    /// How many works meet at its gate. None where the gate is open.
    pub(crate) gate: Option<u8>,
    pub(crate) words: Words,
    /// Which calls fail in it: it is made once for each of these, from each of its starts.
    pub(crate) failing: Items<Failing>,
    /// The moments that its clock gives, the first one first, and then the last again and again; 0 where there is none.
    pub(crate) moments: Items<u64>,
    /// The status that is expected.
    pub(crate) status: u8,
    /// What is expected of the text.
    pub(crate) outputs: Items<Output>,
    /// How the logs that its volumes hold are expected to be judged. None where they are not.
    pub(crate) law: Option<Items<u8>>,
    /// Whether each unit that these logs committed is expected to be ended.
    pub(crate) ended: bool,
}

/// What the volumes of a run hold as it starts.
#[derive(Clone, Copy)]
pub(crate) enum Start {
    /// What the run before it left.
    Left,
    /// Nothing.
    Anew,
    /// What a crash of the run before it leaves.
    Crashed,
}

/// The numbers of the calls that fail in a run, counted from 1.
#[derive(Drop)]
pub(crate) struct Failing {
    /// Reads of files.
    pub(crate) reads: Items<u64>,
    /// Writes.
    pub(crate) puts: Items<u64>,
    /// Calls on volumes, counted over all of them.
    pub(crate) calls: Items<u64>,
}

impl Failing {
    /// No call fails.
    pub(crate) fn none(alloc: Global) -> Failing {
        Failing {
            reads: Items::new(alloc),
            puts: Items::new(alloc),
            calls: Items::new(alloc),
        }
    }

    /// A copy.
    pub(crate) fn copied(&self, alloc: Global) -> Result<Failing, OutOfMemory> {
        Ok(Failing {
            reads: Items::from_slice(alloc, self.reads.as_slice())?,
            puts: Items::from_slice(alloc, self.puts.as_slice())?,
            calls: Items::from_slice(alloc, self.calls.as_slice())?,
        })
    }
}

/// What is expected of the text that a run prints.
#[derive(Drop)]
pub(crate) struct Output {
    pub(crate) relation: Relation,
    /// The text that the case gives.
    pub(crate) text: Vec<u8>,
}
