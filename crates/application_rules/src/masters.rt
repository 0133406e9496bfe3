//! Whether a document may be a master.

ghost use Rattle.std.specs.Prelude.{◌≡◌, ◌≢◌, ◌⊎◌, Err, None, Some, OnOk, is_some, true};
ghost use Rattle.dist_model.specs.Named.{idoc_type_name_of};
ghost use Rattle.idoc_tree.specs.declared.fault.SyntaxFault.{SyntaxFault};
ghost use Rattle.idoc_reading.specs.Reading.{IsReadingOf, reading_in};
ghost use Rattle.outbound_build.specs.Added.{master_of, may_be_of};
ghost use Rattle.application_rules.specs.Masters.{master_fault, reading_fault};
ghost use Rattle.application_rules.specs.declared.fault.MasterFault.{MasterFault};

use crate::MasterFault;
use ale_base::OutOfMemory;
use dist_model::{Lists, MessageNo, Model, idoc_type_name_of};
use idoc_reading::{Reading, read_by_type};
use outbound_build::may_be_of;
use std::alloc::Global;
use unit_core::RawUnitDoc;

/// Says whether a document may be a master: MESTYP stands for a message type, where the name of a reduced one stands for the one
/// that is reduced, IDOCTYP is blank or names the IDoc type of that, and the data records are read by it. The number of segments
/// is not looked at.
///
/// `Unknown` comes where the control record is refused, and else `Syntax` with the first fault of the data records. `OutOfMemory`
/// comes where a request for memory was refused.
pub fn check_master(alloc: Global, model: &Model, doc: &RawUnitDoc) -> Result<(), MasterFault>
    ensures good { OnOk result (master_fault model.now doc.now ≡ None) }
    ensures fault { (fault : MasterFault) → result ≡ Err fault
        → (fault ≡ MasterFault.OutOfMemory) ⊎ (master_fault model.now doc.now ≡ Some fault) }
    // Want of memory is no fault of the data records.
    ensures memory { result ≢ Err (MasterFault.Syntax SyntaxFault.OutOfMemory) }
    // It is read as a master.
    ensures read { OnOk result (is_some (master_of model.now doc.now) ≡ true) }
{
    match read_by_type(alloc, model, &doc.control, doc.segments.as_slice()) {
        Err(OutOfMemory) => Err(MasterFault::OutOfMemory),
        Ok(reading) => check_reading(model.as_lists(), doc, reading),
    }
}

/// Says whether a document may be a master, of which this was read.
fn check_reading(lists: &Lists, doc: &RawUnitDoc, reading: Reading) -> Result<(), MasterFault>
    requires { IsReadingOf lists.now doc.now.control doc.now.segments reading }
    ensures good { OnOk result (reading_fault lists.now doc.now.control (reading_in reading) ≡ None) }
    ensures fault { (fault : MasterFault) → result ≡ Err fault
        → reading_fault lists.now doc.now.control (reading_in reading) ≡ Some fault }
    ensures memory { result ≢ Err (MasterFault.Syntax SyntaxFault.OutOfMemory) }
{
    match reading {
        Reading::Unknown => Err(MasterFault::Unknown),
        Reading::Faulty(message, fault) => {
            if may_be_as(lists, doc, message) {
                Err(MasterFault::Syntax(fault))
            } else {
                Err(MasterFault::Unknown)
            }
        }
        Reading::Read(message, _) => {
            if may_be_as(lists, doc, message) {
                Ok(())
            } else {
                Err(MasterFault::Unknown)
            }
        }
    }
}

/// Whether IDOCTYP of a document is blank or names the IDoc type of a message type.
fn may_be_as(lists: &Lists, doc: &RawUnitDoc, message: MessageNo) -> bool
    ensures { result ≡ may_be_of doc.now.control (idoc_type_name_of lists.now message) }
{
    may_be_of(&doc.control, idoc_type_name_of(lists, message))
}
