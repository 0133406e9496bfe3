//! The ids of which a log says that they are done or forgotten.

ghost use Rattle.std.specs.Prelude.{OnOk};
ghost use Rattle.unit_core.specs.Filters.{done_by, forgotten_by};
ghost use Rattle.log_tables.specs.OfLog.{Listed};

use ale_base::OutOfMemory;
use tid_table::Tids;
use unit_core::Record;

/// Notes a record in the ids that are done.
pub(crate) fn note_done(done: &mut Tids, next: &Record) -> Result<(), OutOfMemory>
    ensures { OnOk result (Listed (done_by next.now) done.old done.new) }
{
    match next {
        Record::Done { tid } => done.enter(*tid),
        _ => Ok(()),
    }
}

/// Notes a record in the ids that are forgotten.
pub(crate) fn note_forgotten(forgotten: &mut Tids, next: &Record) -> Result<(), OutOfMemory>
    ensures { OnOk result (Listed (forgotten_by next.now) forgotten.old forgotten.new) }
{
    match next {
        Record::Forget { tid } => forgotten.enter(*tid),
        _ => Ok(()),
    }
}
