//! Inbound documents are passed to the application again.

ghost use Rattle.std.specs.Prelude.{◌≡◌, ◌≢◌, List, Err, true};
ghost use Rattle.status_log.specs.declared.refusal.Refusal.TheVariants.{OutOfMemory};
ghost use Rattle.unit_core.specs.declared.records.Record.{Record as RecordOf};
ghost use Rattle.unit_core.specs.declared.records.Record.TheVariants.{App, Repost};
ghost use Rattle.document_state.specs.Tables.{AreTablesOf};
ghost use Rattle.unit_codec.specs.Condition.{IsWritable};
ghost use Rattle.landscape.specs.Asked.{asked_app, asked_pass, asked_repost, has_inbound};
ghost use Rattle.landscape.specs.steps.Judged.{JudgedChanges, is_applications};

use crate::wanted::Changes;
use ale_base::DocNum;
use application_rules::last_is;
use document_state::DocumentTables;
use status_log::Refusal;
use unit_core::Record;

/// The record by which an inbound document that waits for the application is posted. `N3` comes exactly where there is no such
/// document, and `N8` else where its last status is not 64. It takes no memory.
pub(crate) fn app(tables: &DocumentTables, doc: DocNum) -> Result<Changes, Refusal>
    ensures judged { (log : List RecordOf) → AreTablesOf log tables.now → JudgedChanges log (asked_app log doc.0) result }
    ensures memory { result ≢ Err OutOfMemory }
{
    pass(tables, doc, 64, Record::App { doc })
}

/// The record by which an inbound document that was not posted is posted again. `N3` comes exactly where there is no such document,
/// and `N8` else where its last status is not 51. It takes no memory.
pub(crate) fn repost(tables: &DocumentTables, doc: DocNum) -> Result<Changes, Refusal>
    ensures judged { (log : List RecordOf) → AreTablesOf log tables.now → JudgedChanges log (asked_repost log doc.0) result }
    ensures memory { result ≢ Err OutOfMemory }
{
    pass(tables, doc, 51, Record::Repost { doc })
}

/// The record by which an inbound document is passed to the application again, where its last status has a code.
fn pass(tables: &DocumentTables, doc: DocNum, code: u8, next: Record) -> Result<Changes, Refusal>
    requires kind { is_applications next ≡ true }
    requires writable { IsWritable next }
    ensures judged { (log : List RecordOf) → AreTablesOf log tables.now → JudgedChanges log (asked_pass log next code doc.0) result }
    ensures memory { result ≢ Err OutOfMemory }
{
    if !has_inbound(tables, doc) {
        return Err(Refusal::N3);
    }
    if !last_is(code, tables.inbound().statuses(doc)) {
        return Err(Refusal::N8);
    }
    Ok(Changes { next })
}

/// Whether there is an inbound document of a number.
fn has_inbound(tables: &DocumentTables, doc: DocNum) -> bool
    ensures { (log : List RecordOf) → AreTablesOf log tables.now → result ≡ has_inbound log doc.0 }
{
    doc.0 >= 1 && doc.0 as usize <= tables.inbound().count()
}
