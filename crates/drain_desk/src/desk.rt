//! The desk of a drain. Its methods are those of `Desk`, by which workers take works and do them, and those by which a drain begins and ends.

ghost use Rattle.std.specs.Prelude.{◌≡◌};

use crate::acting::perform;
use crate::claiming::{Offer, claim_any};
use crate::preparing::prepared_from;
use crate::{Began, Ready, Work};
use ale_base::{OutOfMemory, SystemNo, Tid};
use ale_volumes::Volumes;
use dialog_pool::Desk;
use landscape::Landscape;
use std::alloc::Global;
use std::marker::Model;
use std::snapshot::Snapshot;
use unit_works::Wires;

/// What the workers of a drain share: the landscape and the letters, with which they began, and how many runs and executions have ended.
#[derive(Drop)]
pub struct DrainDesk<V: Volumes> {
    alloc: Global,
    origin: Began<V>,
    parts: Parts<V>,
}

impl<V: Volumes> Model for DrainDesk<V> {
    ghost use Rattle.drain_desk.specs.Desk.{SeenDesk, IsKeeping};

    ghost Value = { SeenDesk V };

    ghost view = { λ desk. record {
      origin = desk.origin;
      landscape = desk.parts.landscape;
      lines = desk.parts.wires;
      finished = desk.parts.finished;
      is_short = desk.parts.is_short;
    } };

    ghost invariant = { λ desk. IsKeeping V.disk (record {
      origin = desk.origin;
      landscape = desk.parts.landscape;
      lines = desk.parts.wires;
      finished = desk.parts.finished;
      is_short = desk.parts.is_short;
    }) };
}

impl<V: Volumes> DrainDesk<V> {
    ghost use Rattle.std.specs.Prelude.{◌≡◌};
    ghost use Rattle.drain_desk.specs.Desk.{AreGoingOn, Keeps};

    /// Workers begin.
    pub(crate) fn of(
        alloc: Global,
        origin: Began<V>,
        landscape: Landscape<V>,
        wires: Wires,
    ) -> DrainDesk<V>
        requires { AreGoingOn V.disk origin.landscape.value landscape origin.wires.value wires 0 }
        ensures { result.origin ≡ origin }
    {
        DrainDesk {
            alloc,
            origin,
            parts: Parts {
                landscape,
                wires,
                finished: 0,
                is_short: false,
            },
        }
    }

    /// The parts of a desk, once its workers have ended.
    pub(crate) fn end(self) -> Parts<V>
        ensures { Keeps V.disk self.origin.landscape.value result.landscape self.origin.wires.value result.wires result.is_short result.finished }
    {
        let DrainDesk {
            alloc: _,
            origin: _,
            parts,
        } = self;
        parts
    }
}

/// The parts of a desk.
#[derive(Drop)]
pub(crate) struct Parts<V: Volumes> {
    pub(crate) landscape: Landscape<V>,
    pub(crate) wires: Wires,
    pub(crate) finished: u64,
    pub(crate) is_short: bool,
}

impl<V: Volumes> Desk for DrainDesk<V> {
    ghost use Rattle.std.specs.Prelude.{◌≡◌, IfSome};
    ghost use Rattle.landscape.specs.Working.{IsPreparedFor};
    ghost use Rattle.unit_works.specs.Drained.{IsIdle};
    ghost use Rattle.unit_works.specs.Claims.{OneFell};
    ghost use Rattle.drain_desk.specs.Done.{HasDone};
    ghost use Rattle.drain_desk.specs.ToDo.{IsToDo, number_of};
    ghost use Rattle.drain_desk.specs.Work.{name_of, tid_of};

    type Work = Work<V>;

    type Ready = Ready;

    type Origin = Began<V>;

    ghost origin = { λ desk. desk.origin };

    ghost origin_of = { λ work. work.origin };

    ghost is_of = { λ ready work. IfSome ready.prepared
        (λ its. IsPreparedFor work.origin.landscape.value.world (tid_of work.task) its.postings) };

    ghost name_of = { λ work. name_of work.task };

    ghost is_idle = { λ desk. IsIdle desk.landscape.world };

    ghost is_to_do = { λ desk work. IsToDo desk.landscape.world work.task };

    ghost are_one = { λ work other. number_of work.task ≡ number_of other.task };

    ghost has_lost = { λ desk after. OneFell desk.landscape.world after.landscape.world };

    ghost has_done = { λ desk work after. HasDone V.disk desk.landscape after.landscape desk.lines after.lines work.task };

    ghost finishes = { λ desk. desk.finished };

    fn take(&mut self) -> Result<Option<Work<V>>, OutOfMemory> {
        if self.parts.is_short {
            return Err(OutOfMemory);
        }
        match claim_any(&mut self.parts.landscape) {
            Ok(Some(offer)) => Ok(Some(Work {
                offer,
                origin: Snapshot::of(&self.origin),
            })),
            Ok(None) => Ok(None),
            Err(OutOfMemory) => {
                self.parts.is_short = true;
                Err(OutOfMemory)
            }
        }
    }

    fn name(work: &Work<V>) -> (SystemNo, Tid) {
        work.offer.task.name()
    }

    fn prepare(alloc: Global, work: &Work<V>) -> Result<Ready, OutOfMemory> {
        let prepared = match &work.offer.basis {
            Some(basis) => Some(prepared_from(alloc, basis)?),
            None => None,
        };
        Ok(Ready { prepared })
    }

    fn act(&mut self, work: Work<V>, ready: Ready) -> Result<(), OutOfMemory> {
        if self.parts.is_short {
            return Err(OutOfMemory);
        }
        let Work { offer, .. } = work;
        let Offer { task, .. } = offer;
        let Ready { prepared } = ready;
        match perform(
            self.alloc,
            &mut self.parts.landscape,
            &mut self.parts.wires,
            task,
            prepared,
        ) {
            Ok(finished) => {
                if finished > u64::MAX - self.parts.finished {
                    self.parts.is_short = true;
                    return Err(OutOfMemory);
                }
                self.parts.finished += finished;
                Ok(())
            }
            Err(OutOfMemory) => {
                self.parts.is_short = true;
                Err(OutOfMemory)
            }
        }
    }

    fn finished(&self) -> u64 {
        self.parts.finished
    }
}
