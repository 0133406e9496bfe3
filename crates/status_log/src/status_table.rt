//! The statuses of a system's documents.

ghost use Rattle.std.specs.Prelude.{◌<◌, length, OnOk, OnErr};
ghost use Rattle.status_log.specs.Statuses.{Adds, Keeps};

use crate::{Status, StatusAt};
use ale_base::{DocNum, Items, OutOfMemory};
use std::alloc::Global;
use std::marker::Model;

/// The statuses that documents got, by the numbers of the documents, which are those of one direction. Contracts see a table that
/// has the statuses of a document at the place of its number; a document that is behind its end has none.
#[derive(Drop)]
pub struct StatusLog {
    alloc: Global,
    table: Items<Items<StatusAt>>,
}

impl Model for StatusLog {
    ghost use Rattle.std.specs.Prelude.{List};
    ghost use Rattle.status_log.specs.declared.status_at.StatusAt.{StatusAt};

    ghost Value = { List (List StatusAt) };

    ghost view = { λ log. log.table };
}

impl StatusLog {
    ghost use Rattle.std.specs.Prelude.{◌≡◌, [], OnOk, OnErr};
    ghost use Rattle.status_log.specs.Statuses.{Adds, Keeps, given, statuses_of};

    /// No document has a status. It takes no memory.
    pub fn new(alloc: Global) -> StatusLog
        ensures { result ≡ [] }
    {
        StatusLog {
            alloc,
            table: Items::new(alloc),
        }
    }

    /// The statuses of a document, in the order in which it got them; none where it got none.
    pub fn list(&self, doc: DocNum) -> &[StatusAt]
        ensures { result.now ≡ statuses_of doc.0 self.now }
    {
        match self.table.get(doc.0 as usize) {
            None => &[],
            Some(statuses) => statuses.as_slice(),
        }
    }

    /// Gives a document a status behind those that it has, with the number of the record that gave it. All others stay. After an
    /// `Err` each document has what it had. It takes a time that does not grow with the documents, where they get their first status
    /// in the order of their numbers.
    pub fn add(&mut self, doc: DocNum, status: Status, number: u64) -> Result<(), OutOfMemory>
        ensures ok { OnOk result (Adds doc.0 (given number status) self.old self.new) }
        ensures err { OnErr result (Keeps self.old self.new) }
    {
        let place = doc.0 as usize;
        make_room(self.alloc, &mut self.table, place)?;
        push_at(&mut self.table, place, StatusAt { status, number })
    }
}

/// Makes a place for the statuses of the document of this number, and of those before it.
fn make_room(
    alloc: Global,
    table: &mut Items<Items<StatusAt>>,
    place: usize,
) -> Result<(), OutOfMemory>
    ensures there { OnOk result (place < length table.new) }
    ensures kept { Keeps table.old table.new }
{
    while table.len() <= place {
        table.push(Items::new(alloc))?;
    }
    Ok(())
}

/// Adds a status to those at a place.
fn push_at(
    table: &mut Items<Items<StatusAt>>,
    place: usize,
    one: StatusAt,
) -> Result<(), OutOfMemory>
    requires { place < length table.old }
    ensures ok { OnOk result (Adds place one table.old table.new) }
    ensures err { OnErr result (Keeps table.old table.new) }
{
    table.at_mut(place).push(one)
}
