//! How many units each system received and executed, counted beside the logs.

ghost use Rattle.std.specs.Prelude.{◌≡◌, ◌-◌, ◌<◌, ◌≤◌, ◌^◌, length, slice_index_or};
ghost use Rattle.unit_core.specs.Filters.{received, executed};
ghost use Rattle.unit_landscape.specs.Counted.{sum_to};

use crate::AppendEnd;
use ale_base::SystemNo;
use trfc_protocol::SystemState;
use unit_core::Record;

/// What a record adds to the counts of its system.
#[derive(Clone, Copy)]
pub(crate) struct Adds {
    received: u64,
    executed: u64,
}

impl Adds {
    ghost use Rattle.std.specs.Prelude.{◌≡◌};
    ghost use Rattle.unit_landscape.specs.Counted.{adds_of};

    /// What this record adds.
    pub(crate) fn of(next: &Record) -> Adds
        ensures { result ≡ adds_of next.now }
    {
        let (received, executed) = match next {
            Record::Accept { .. } => (1, 0),
            Record::Direct { .. } => (1, 1),
            Record::Execute { .. } => (0, 1),
            _ => (0, 0),
        };
        Adds { received, executed }
    }
}

/// How many units each of the 16 systems received and executed, also while it is down.
#[derive(Clone, Copy)]
pub(crate) struct Counted {
    received: [u64; 16],
    executed: [u64; 16],
}

impl Counted {
    ghost use Rattle.std.specs.Prelude.{◌≡◌, ◌-◌, ◌≤◌, ◌<◌, ◌^◌, length, slice_index_or, slice_set};
    ghost use Rattle.unit_core.specs.Filters.{received, executed};
    ghost use Rattle.unit_landscape.specs.Counted.{AreCounted, HasRoom, counted_by, sum_to};

    /// The counts of the logs of systems.
    pub(crate) fn of(systems: &[SystemState]) -> Counted
        requires { length systems.now ≤ 16 }
        ensures { AreCounted systems.now result }
    {
        let mut counted = Counted {
            received: [0; 16],
            executed: [0; 16],
        };
        for (place, state) in systems.iter().enumerate() {
            counted.received[place] = received_in(state.log.as_slice());
            counted.executed[place] = executed_in(state.log.as_slice());
        }
        counted
    }

    /// Counts what a record adds to the log of a system, which has so many records, where an append left it there.
    pub(crate) fn note(
        &mut self,
        system: SystemNo,
        adds: Adds,
        records: usize,
        ended: &Result<(), AppendEnd>,
    )
        requires room { HasRoom self.old (system - 1) records ended.now }
        requires one { adds.received ≤ 1 × adds.executed ≤ 1 }
        ensures { self.new ≡ counted_by self.old (system - 1) adds ended.now }
    {
        let _records = records;
        let at = system.get() as usize - 1;
        match ended {
            Ok(()) | Err(AppendEnd::After) => {
                self.received[at] += adds.received;
                self.executed[at] += adds.executed;
            }
            Err(_) => {}
        }
    }

    /// Counts what the log of a system received and executed anew.
    pub(crate) fn count(&mut self, system: SystemNo, log: &[Record])
        ensures received { self.new.received ≡ slice_set self.old.received (system - 1) (length (received log.now)) }
        ensures executed { self.new.executed ≡ slice_set self.old.executed (system - 1) (length (executed log.now)) }
    {
        let at = system.get() as usize - 1;
        self.received[at] = received_in(log);
        self.executed[at] = executed_in(log);
    }

    /// How many units the first systems received together, as many as this.
    pub(crate) fn received(&self, count: usize) -> u64
        requires most { count ≤ 16 }
        requires few { sum_to (λ system. slice_index_or (self.now).received (system - 1) 0) count < 2 ^ 64 }
        ensures { result ≡ sum_to (λ system. slice_index_or (self.now).received (system - 1) 0) count }
    {
        sum(&self.received, count)
    }

    /// How many units the first systems executed together, as many as this.
    pub(crate) fn executed(&self, count: usize) -> u64
        requires most { count ≤ 16 }
        requires few { sum_to (λ system. slice_index_or (self.now).executed (system - 1) 0) count < 2 ^ 64 }
        ensures { result ≡ sum_to (λ system. slice_index_or (self.now).executed (system - 1) 0) count }
    {
        sum(&self.executed, count)
    }
}

/// How many units a log received.
fn received_in(log: &[Record]) -> u64
    ensures { result ≡ length (received log.now) }
{
    let mut many = 0;
    for next in log {
        many += Adds::of(next).received;
    }
    many
}

/// How many units a log executed.
fn executed_in(log: &[Record]) -> u64
    ensures { result ≡ length (executed log.now) }
{
    let mut many = 0;
    for next in log {
        many += Adds::of(next).executed;
    }
    many
}

/// The first of these numbers together, as many as this.
fn sum(numbers: &[u64; 16], count: usize) -> u64
    requires most { count ≤ 16 }
    requires few { sum_to (λ system. slice_index_or numbers.now (system - 1) 0) count < 2 ^ 64 }
    ensures { result ≡ sum_to (λ system. slice_index_or numbers.now (system - 1) 0) count }
{
    let mut all = 0;
    for place in 0..count {
        all += numbers[place];
    }
    all
}
