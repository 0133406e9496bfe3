//! A system falls, and is opened.

use crate::{Event, Rules, World};
use ale_base::{OutOfMemory, SystemNo};
use std::alloc::Global;
use unit_core::Record;

impl<R: Rules> World<R> {
    ghost use Rattle.std.specs.Prelude.{◌≡◌, OnOk, OnErr};
    ghost use Rattle.trfc_protocol.specs.Happens.{happens, falls_empty, falls_writing, opens};
    ghost use Rattle.trfc_protocol.specs.Safe.{IsSafe};

    /// A system falls, with the record that it was writing or with none.
    pub(crate) fn fall_with(
        &mut self,
        alloc: Global,
        system: SystemNo,
        kept: &Option<Record>,
    ) -> Result<(), OutOfMemory>
        requires { IsSafe R.meaning self.old }
        ensures ok { OnOk result (self.new ≡ happens (R.meaning self.old.rules) self.old (Event.Fall system kept.now)) }
        ensures err { OnErr result (self.new ≡ self.old) }
    {
        match kept {
            Some(next) => self.fall_writing(alloc, system, next),
            None => {
                self.fall_empty(alloc, system);
                Ok(())
            }
        }
    }

    /// A system falls and leaves nothing to be found. Where it was up, all claims go and one fall more is counted; where it was
    /// down already, what it might have found is gone, and nothing else. It takes no memory.
    pub fn fall_empty(&mut self, alloc: Global, system: SystemNo)
        ensures { self.new ≡ falls_empty self.old system }
    {
        if self.is_up(system) {
            self.fall(alloc, system, None);
        } else {
            self.lie_down(system, None);
        }
    }

    /// A system falls as it writes a record, where an event that is possible now writes it.
    fn fall_writing(
        &mut self,
        alloc: Global,
        system: SystemNo,
        next: &Record,
    ) -> Result<(), OutOfMemory>
        requires { IsSafe R.meaning self.old }
        ensures ok { OnOk result (self.new ≡ falls_writing (R.meaning self.old.rules) self.old system next.now) }
        ensures err { OnErr result (self.new ≡ self.old) }
    {
        if !self.may_keep(alloc, system, next)? {
            return Ok(());
        }
        let rest = next.copied()?;
        self.fall(alloc, system, Some(rest));
        Ok(())
    }

    /// A system that is down is opened.
    pub(crate) fn open_fallen(&mut self, system: SystemNo) -> Result<(), OutOfMemory>
        ensures ok { OnOk result (self.new ≡ opens self.old system) }
        ensures err { OnErr result (self.new ≡ self.old) }
    {
        if self.is_up(system) {
            return Ok(());
        }
        self.open(system)
    }
}
