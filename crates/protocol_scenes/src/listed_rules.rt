//! Rules that list each system's units.

ghost use Rattle.std.specs.Prelude.{◌≡◌, ◌≤◌, IsTrue, length};
ghost use Rattle.trfc_protocol.specs.Legal.{is_model};
ghost use Rattle.protocol_scenes.specs.ListedRules.{are_listed, is_unit, are_units, are_lists, is_commit_record, commits_of};

use ale_base::{Fixed, Items, OutOfMemory, SystemNo, Tid};
use std::alloc::Global;
use trfc_protocol::Rules;
use unit_core::{AleUnit, Record, are_different};

/// The most outbound queues of a unit.
pub(crate) const MOST_QUEUES: usize = 8;

/// Rules that list each system's units beforehand: the k-th Commit of a system commits the k-th unit of its list, and is
/// allowed while there is one. A Model is always allowed, and no other record of the application is.
/// `IDOC_INBOUND_ASYNCHRONOUS` alone is offered, by every model.
#[derive(Drop)]
pub struct ListedRules {
    /// The units of each system, from system 1 on.
    pub units: Items<Items<AleUnit>>,
    pub ghost listed: { IsTrue (are_listed units) },
}

impl ListedRules {
    ghost use Rattle.std.specs.Prelude.{◌≡◌, ◌↔◌, IsTrue, IsSome, IfSome};
    ghost use Rattle.protocol_scenes.specs.ListedRules.{are_listed, list_of};

    /// The function that is offered.
    pub const FUNCTION: &'static [u8] = b"IDOC_INBOUND_ASYNCHRONOUS";

    /// The rules with these lists, the first of which is that of system 1. None exactly where they are not the units of
    /// one to sixteen systems: unit k of a list has the id of its system and k, that system as sender, another one of
    /// them as receiver, names of queues that differ in each direction, and at most eight outbound ones, and a list has at most
    /// 65,536 units.
    pub fn of(units: Items<Items<AleUnit>>) -> Option<ListedRules>
        ensures some { IsSome result ↔ IsTrue (are_listed units) }
        ensures units { IfSome result (λ rules. rules.units ≡ units) }
    {
        if units.is_empty() || units.len() > SystemNo::MAX as usize {
            return None;
        }
        if !are_lists(units.len(), units.as_slice()) {
            return None;
        }
        Some(ListedRules { units })
    }

    /// The units of a system.
    pub(crate) fn list(&self, system: SystemNo) -> &[AleUnit]
        ensures { result.now ≡ list_of self.now.units system }
    {
        match self.units.get(system.get() as usize - 1) {
            Some(units) => units.as_slice(),
            None => &[],
        }
    }
}

impl Rules for ListedRules {
    ghost use Rattle.protocol_scenes.specs.ListedRules.{listed_meaning};
    ghost use Rattle.protocol_scenes.specs.ListedRulesLemmas.{lawful};

    ghost meaning = { λ rules. listed_meaning rules.units };

    ghost lawful = { λ rules. lawful rules.units rules.listed };

    fn systems(&self) -> u8 {
        self.units.len() as u8
    }

    fn units(
        &self,
        alloc: Global,
        system: SystemNo,
        log: &[Record],
    ) -> Result<Vec<AleUnit>, OutOfMemory> {
        let list = self.list(system);
        let mut units = Vec::new(alloc);
        for unit in &list[..commits_of(log).min(list.len())] {
            units.push(unit.clone()?)?;
        }
        Ok(units)
    }

    fn allows(
        &self,
        alloc: Global,
        system: SystemNo,
        log: &[Record],
        next: &Record,
    ) -> Result<bool, OutOfMemory> {
        let _ = alloc;
        Ok(is_model(next) || (is_commit_record(next) && commits_of(log) < self.list(system).len()))
    }

    fn offers(
        &self,
        alloc: Global,
        system: SystemNo,
        log: &[Record],
        function: &Fixed<30>,
    ) -> Result<bool, OutOfMemory> {
        let _ = (alloc, system, log);
        Ok(function.trimmed() == ListedRules::FUNCTION)
    }
}

/// The number of Commit records of a log.
pub(crate) fn commits_of(log: &[Record]) -> usize
    ensures { result ≡ commits_of log.now }
{
    let mut count = 0;
    for record in log {
        if is_commit_record(record) {
            count += 1;
        }
    }
    count
}

pub(crate) fn is_model(entry: &Record) -> bool
    ensures { result ≡ is_model entry.now }
{
    matches!(entry, Record::Model { .. })
}

pub(crate) fn is_commit_record(entry: &Record) -> bool
    ensures { result ≡ is_commit_record entry.now }
{
    matches!(entry, Record::Commit { .. })
}

/// Whether these are the units of the systems from the first on.
fn are_lists(systems: usize, lists: &[Items<AleUnit>]) -> bool
    requires { length lists.now ≤ SystemNo.MAX }
    ensures { result ≡ are_lists systems 1 lists.now }
{
    for (place, units) in lists.iter().enumerate() {
        if units.len() > Tid::MAX_UNIT as usize
            || !are_units(systems, place + 1, units.as_slice())
        {
            return false;
        }
    }
    true
}

/// Whether these are the units of a system from the first on.
fn are_units(systems: usize, system: usize, units: &[AleUnit]) -> bool
    requires { length units.now ≤ Tid.MAX_UNIT }
    ensures { result ≡ are_units systems system 1 units.now }
{
    for (place, unit) in units.iter().enumerate() {
        if !is_unit(systems, system, place + 1, unit) {
            return false;
        }
    }
    true
}

/// Whether this is a unit of a system, by its place from 1.
fn is_unit(systems: usize, system: usize, place: usize, unit: &AleUnit) -> bool
    ensures { result ≡ is_unit systems system place unit.now }
{
    unit.tid.system().get() as usize == system
        && unit.tid.unit() as usize == place
        && unit.sender.get() as usize == system
        && unit.receiver.get() >= 1
        && unit.receiver.get() as usize <= systems
        && unit.receiver.get() as usize != system
        && are_different(unit.outq.as_slice())
        && are_different(unit.inq.as_slice())
        && unit.outq.len() <= MOST_QUEUES
}
