//! Commands that list.

ghost use Rattle.std.specs.Prelude.{◌≡◌, IfOk};
ghost use Rattle.script_text.specs.declared.form.Form.TheVariants as form;
ghost use Rattle.runs.specs.Does.{Does, IsOneCall, Shows};
ghost use Rattle.runs.specs.Text.{IsPrintable};

use crate::answered::{listed, refused};
use crate::{Answered, Halt, Inputs, Stage};
use ale_base::{DocNum, Way};
use ale_volumes::Volumes;
use status_log::{Refusal, Show};

/// `show docs`: lists documents.
pub(super) fn show_docs<V: Volumes>(
    stage: &mut Stage<V>,
    inputs: &Inputs,
    sys: &[u8],
) -> Result<Answered, Halt>
    ensures does { Does V.disk inputs.now stage.old result stage.new (form.ShowDocs sys.now) }
    ensures call { IsOneCall V.disk stage.old stage.new }
    ensures printable { IfOk result IsPrintable }
{
    match inputs.system(sys) {
        None => refused(Refusal::N1),
        Some(system) => show(stage, &Show::Docs(system)),
    }
}

/// `show doc`: prints an outbound document.
pub(super) fn show_doc<V: Volumes>(
    stage: &mut Stage<V>,
    inputs: &Inputs,
    sys: &[u8],
    doc: DocNum,
) -> Result<Answered, Halt>
    ensures does { Does V.disk inputs.now stage.old result stage.new (form.ShowDoc sys.now doc) }
    ensures call { IsOneCall V.disk stage.old stage.new }
    ensures printable { IfOk result IsPrintable }
{
    match inputs.system(sys) {
        None => refused(Refusal::N1),
        Some(system) => show(stage, &Show::Doc(system, doc)),
    }
}

/// `show history`: lists what became of a document.
pub(super) fn show_history<V: Volumes>(
    stage: &mut Stage<V>,
    inputs: &Inputs,
    sys: &[u8],
    way: Way,
    doc: DocNum,
) -> Result<Answered, Halt>
    ensures does { Does V.disk inputs.now stage.old result stage.new (form.ShowHistory sys.now way doc) }
    ensures call { IsOneCall V.disk stage.old stage.new }
    ensures printable { IfOk result IsPrintable }
{
    match inputs.system(sys) {
        None => refused(Refusal::N1),
        Some(system) => show(stage, &Show::History(system, way, doc)),
    }
}

/// `show units`: lists units.
pub(super) fn show_units<V: Volumes>(
    stage: &mut Stage<V>,
    inputs: &Inputs,
    sys: &[u8],
) -> Result<Answered, Halt>
    ensures does { Does V.disk inputs.now stage.old result stage.new (form.ShowUnits sys.now) }
    ensures call { IsOneCall V.disk stage.old stage.new }
    ensures printable { IfOk result IsPrintable }
{
    match inputs.system(sys) {
        None => refused(Refusal::N1),
        Some(system) => show(stage, &Show::Units(system)),
    }
}

/// `show queues`: lists queues.
pub(super) fn show_queues<V: Volumes>(
    stage: &mut Stage<V>,
    inputs: &Inputs,
    sys: &[u8],
) -> Result<Answered, Halt>
    ensures does { Does V.disk inputs.now stage.old result stage.new (form.ShowQueues sys.now) }
    ensures call { IsOneCall V.disk stage.old stage.new }
    ensures printable { IfOk result IsPrintable }
{
    match inputs.system(sys) {
        None => refused(Refusal::N1),
        Some(system) => show(stage, &Show::Queues(system)),
    }
}

/// `show objects`: lists objects.
pub(super) fn show_objects<V: Volumes>(
    stage: &mut Stage<V>,
    inputs: &Inputs,
    sys: &[u8],
) -> Result<Answered, Halt>
    ensures does { Does V.disk inputs.now stage.old result stage.new (form.ShowObjects sys.now) }
    ensures call { IsOneCall V.disk stage.old stage.new }
    ensures printable { IfOk result IsPrintable }
{
    match inputs.system(sys) {
        None => refused(Refusal::N1),
        Some(system) => show(stage, &Show::Objects(system)),
    }
}

/// What is listed of a system.
fn show<V: Volumes>(stage: &Stage<V>, what: &Show) -> Result<Answered, Halt>
    ensures does { Shows V.disk stage.now result stage.now what.now }
    ensures printable { IfOk result IsPrintable }
{
    listed(stage.landscape.show(what))
}
