//! A fake desk, which counts what is done to each of its works.

use crate::run::Call;
use ale_base::{OutOfMemory, SystemNo, Tid};
use case_gates::Meeting;
use dialog_pool::Desk;
use std::alloc::Global;
use std::sync::Arc;

/// A desk of so many works, numbered from 1.
#[derive(Drop)]
pub(crate) struct FakeDesk {
    works: u32,
    /// How many were taken.
    taken: u32,
    /// At which call on which work memory is wanting.
    want: Option<(Call, u32)>,
    /// Where preparations wait for each other.
    meeting: Option<Arc<Meeting>>,
    /// How often each was done.
    done: Vec<u64>,
    finished: u64,
}

/// A work of a fake desk.
#[derive(Drop)]
pub(crate) struct FakeWork {
    number: u32,
    /// How many works its desk has.
    of: u32,
    /// The unit of that number of system 1.
    tid: Tid,
    /// Whether memory is wanting when it is prepared.
    is_short: bool,
    meeting: Option<Arc<Meeting>>,
}

/// What was prepared for a work.
#[derive(Drop)]
pub(crate) struct FakeReady {
    number: u32,
}

/// How often the works of a desk were done.
#[derive(Clone, Copy)]
pub(crate) struct Tally {
    pub(crate) once: u64,
    pub(crate) more: u64,
    pub(crate) never: u64,
}

impl FakeDesk {
    /// A desk of so many works, of which none was taken.
    pub(crate) fn of(
        alloc: Global,
        works: u32,
        want: Option<(Call, u32)>,
        meeting: Option<Arc<Meeting>>,
    ) -> Result<FakeDesk, OutOfMemory> {
        Ok(FakeDesk {
            works,
            taken: 0,
            want,
            meeting,
            done: Vec::from_elem(alloc, 0u64, works as usize)?,
            finished: 0,
        })
    }

    /// How often its works were done.
    pub(crate) fn tally(&self) -> Tally {
        let done = self.done.as_slice();
        Tally {
            once: done.iter().filter(|times| **times == 1).count() as u64,
            more: done.iter().filter(|times| **times > 1).count() as u64,
            never: done.iter().filter(|times| **times == 0).count() as u64,
        }
    }
}

impl Desk for FakeDesk {
    ghost use Rattle.std.specs.Prelude.{◌≡◌, ◌<◌, ◌≤◌};

    type Work = FakeWork;

    type Ready = FakeReady;

    type Origin = u32;

    ghost origin = { λ desk. desk.works };

    ghost origin_of = { λ work. work.of };

    ghost is_of = { λ ready work. ready.number ≡ work.number };

    ghost name_of = { λ work. (work.tid.system, work.tid) };

    ghost is_idle = { λ desk. desk.works ≤ desk.taken };

    ghost is_to_do = { λ desk work. work.number < desk.taken };

    ghost are_one = { λ work other. work.number ≡ other.number };

    ghost has_lost = { λ desk after. ⊥ };

    ghost has_done = { λ desk work after. desk.finished ≤ after.finished };

    ghost finishes = { λ desk. desk.finished };

    fn take(&mut self) -> Result<Option<FakeWork>, OutOfMemory> {
        if self.taken >= self.works {
            return Ok(None);
        }
        let number = self.taken;
        if self.want == Some((Call::Take, number)) {
            return Err(OutOfMemory);
        }
        let meeting = match &self.meeting {
            Some(meeting) => Some(Arc::try_clone(meeting)?),
            None => None,
        };
        let Some(system) = SystemNo::of(1) else {
            // 1 is the number of a system.
            unreachable!()
        };
        self.taken += 1;
        Ok(Some(FakeWork {
            number,
            of: self.works,
            tid: Tid::of(system, number % Tid::MAX_UNIT + 1),
            is_short: self.want == Some((Call::Prepare, number)),
            meeting,
        }))
    }

    fn name(work: &FakeWork) -> (SystemNo, Tid) {
        (work.tid.system(), work.tid)
    }

    fn prepare(_alloc: Global, work: &FakeWork) -> Result<FakeReady, OutOfMemory> {
        if work.is_short {
            return Err(OutOfMemory);
        }
        if let Some(meeting) = &work.meeting {
            meeting.attend();
        }
        Ok(FakeReady {
            number: work.number,
        })
    }

    fn act(&mut self, work: FakeWork, _ready: FakeReady) -> Result<(), OutOfMemory> {
        if self.want == Some((Call::Act, work.number)) {
            return Err(OutOfMemory);
        }
        count(self.done.as_mut_slice(), work.number);
        self.finished = self.finished.saturating_add(1);
        Ok(())
    }

    fn finished(&self) -> u64 {
        self.finished
    }
}

/// Counts that the work of this number was done.
fn count(done: &mut [u64], number: u32) {
    if let Some(times) = done.get_mut(number as usize) {
        *times = times.saturating_add(1);
    }
}
