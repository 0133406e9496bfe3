//! What commands answer that make documents, and how much logs hold.

use unit_core::Record;

/// What came of a master that was sent.
#[derive(Clone, Copy, PartialEq, Eq)]
pub struct Sent {
    /// How many outbound documents were made.
    pub documents: u64,
    /// How many units.
    pub units: u64,
}

/// What came of objects that were gathered.
#[derive(Clone, Copy, PartialEq, Eq)]
pub struct Gathered {
    /// How many masters were made.
    pub masters: u64,
    /// How many outbound documents.
    pub documents: u64,
    /// How many units.
    pub units: u64,
}

impl Gathered {
    ghost use Rattle.std.specs.Prelude.{◌≡◌};
    ghost use Rattle.landscape.specs.Carried.{sent_counts};

    /// Nothing was made.
    pub(crate) fn none() -> Gathered
        ensures { result ≡ record { masters = 0; documents = 0; units = 0 } }
    {
        Gathered {
            masters: 0,
            documents: 0,
            units: 0,
        }
    }

    /// How many documents and units of these.
    pub(crate) fn sent(&self) -> Sent
        ensures { result ≡ sent_counts self.now }
    {
        Sent {
            documents: self.documents,
            units: self.units,
        }
    }
}

/// How much the logs of all systems hold.
#[derive(Clone, Copy, PartialEq, Eq)]
pub struct Counts {
    /// How many masters were committed. It stops at the greatest number.
    pub masters: u64,
    /// How many units were committed.
    pub units: u64,
    /// How many units were received.
    pub received: u64,
    /// How many units were executed.
    pub executed: u64,
    /// How many units have ended. It stops at the greatest number.
    pub ended: u64,
}

/// What is counted by a walk through logs. Each number stops at the greatest one.
#[derive(Clone, Copy)]
pub(crate) struct Sums {
    /// How many masters were committed.
    pub(crate) masters: u64,
    /// How many units have ended.
    pub(crate) ended: u64,
}

impl Sums {
    ghost use Rattle.std.specs.Prelude.{◌≡◌, length};
    ghost use Rattle.landscape.specs.Counted.{added, none, noted, sums_of};

    /// Nothing is counted.
    pub(crate) fn none() -> Sums
        ensures { result ≡ none }
    {
        Sums {
            masters: 0,
            ended: 0,
        }
    }

    /// What a log holds.
    pub(crate) fn of_log(log: &[Record]) -> Sums
        ensures { result ≡ sums_of log.now }
    {
        let mut sums = Sums::none();
        for next in log {
            sums.note(next);
        }
        sums
    }

    /// Counts what a record adds.
    fn note(&mut self, next: &Record)
        ensures { self.new ≡ noted self.old next.now }
    {
        match next {
            Record::Commit { docs, .. } => self.masters = self
                .masters
                .saturating_add(docs.len() as u64),
            Record::Ended { .. } => self.ended = self.ended.saturating_add(1),
            _ => {}
        }
    }

    /// These and others together.
    pub(crate) fn with(self, other: Sums) -> Sums
        ensures { result ≡ added self other }
    {
        Sums {
            masters: self.masters.saturating_add(other.masters),
            ended: self.ended.saturating_add(other.ended),
        }
    }
}
