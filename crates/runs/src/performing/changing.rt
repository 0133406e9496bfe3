//! Commands that change objects, and pass documents to the application again.

ghost use Rattle.std.specs.Prelude.{◌≡◌, IfOk};
ghost use Rattle.script_text.specs.declared.form.Form.TheVariants as form;
ghost use Rattle.trfc_protocol.specs.Worlds.{log_of};
ghost use Rattle.landscape.specs.Asked.{asked_app, asked_put, asked_repost, pointers_noted};
ghost use Rattle.landscape.specs.Carried.{status_at};
ghost use Rattle.report_text.specs.declared.reply.Reply.TheVariants.{Pointers, Posted};
ghost use Rattle.runs.specs.Does.{Does, IsOneCall, Operates};
ghost use Rattle.runs.specs.Text.{IsPrintable};

use crate::answered::{plain, refused};
use crate::{Answered, Halt, Inputs, Stage};
use ale_base::{Change, DocNum, SystemNo};
use ale_volumes::Volumes;
use report_text::Reply;
use status_log::Refusal;

/// `put`: changes an object.
pub(super) fn put<V: Volumes>(
    stage: &mut Stage<V>,
    inputs: &Inputs,
    sys: &[u8],
    change: &Change,
) -> Result<Answered, Halt>
    ensures does { Does V.disk inputs.now stage.old result stage.new (form.Put sys.now change.now) }
    ensures call { IsOneCall V.disk stage.old stage.new }
    ensures printable { IfOk result IsPrintable }
{
    match inputs.system(sys) {
        None => refused(Refusal::N1),
        Some(system) => put_at(stage, inputs, system, change),
    }
}

/// `put` at a system that the model names.
fn put_at<V: Volumes>(
    stage: &mut Stage<V>,
    inputs: &Inputs,
    system: SystemNo,
    change: &Change,
) -> Result<Answered, Halt>
    ensures does { Operates V.disk inputs.now stage.old result stage.new system (λ log. asked_put log change.now)
        (λ pointers. pointers ≡ pointers_noted (log_of stage.old.landscape.world system) change.now) Pointers }
    ensures call { IsOneCall V.disk stage.old stage.new }
    ensures printable { IfOk result IsPrintable }
{
    match stage.landscape.put(system, change) {
        Ok(pointers) => plain(Reply::Pointers(pointers)),
        Err(why) => refused(why),
    }
}

/// `app`: posts an inbound document that waits.
pub(super) fn app<V: Volumes>(
    stage: &mut Stage<V>,
    inputs: &Inputs,
    sys: &[u8],
    doc: DocNum,
) -> Result<Answered, Halt>
    ensures does { Does V.disk inputs.now stage.old result stage.new (form.App sys.now doc) }
    ensures call { IsOneCall V.disk stage.old stage.new }
    ensures printable { IfOk result IsPrintable }
{
    match inputs.system(sys) {
        None => refused(Refusal::N1),
        Some(system) => app_at(stage, inputs, system, doc),
    }
}

/// `app` at a system that the model names.
fn app_at<V: Volumes>(
    stage: &mut Stage<V>,
    inputs: &Inputs,
    system: SystemNo,
    doc: DocNum,
) -> Result<Answered, Halt>
    ensures does { Operates V.disk inputs.now stage.old result stage.new system (λ log. asked_app log doc.0)
        (λ status. status ≡ status_at stage.new.landscape.world system doc.0) Posted }
    ensures call { IsOneCall V.disk stage.old stage.new }
    ensures printable { IfOk result IsPrintable }
{
    match stage.landscape.app(system, doc) {
        Ok(status) => plain(Reply::Posted(status)),
        Err(why) => refused(why),
    }
}

/// `repost`: posts an inbound document again.
pub(super) fn repost<V: Volumes>(
    stage: &mut Stage<V>,
    inputs: &Inputs,
    sys: &[u8],
    doc: DocNum,
) -> Result<Answered, Halt>
    ensures does { Does V.disk inputs.now stage.old result stage.new (form.Repost sys.now doc) }
    ensures call { IsOneCall V.disk stage.old stage.new }
    ensures printable { IfOk result IsPrintable }
{
    match inputs.system(sys) {
        None => refused(Refusal::N1),
        Some(system) => repost_at(stage, inputs, system, doc),
    }
}

/// `repost` at a system that the model names.
fn repost_at<V: Volumes>(
    stage: &mut Stage<V>,
    inputs: &Inputs,
    system: SystemNo,
    doc: DocNum,
) -> Result<Answered, Halt>
    ensures does { Operates V.disk inputs.now stage.old result stage.new system (λ log. asked_repost log doc.0)
        (λ status. status ≡ status_at stage.new.landscape.world system doc.0) Posted }
    ensures call { IsOneCall V.disk stage.old stage.new }
    ensures printable { IfOk result IsPrintable }
{
    match stage.landscape.repost(system, doc) {
        Ok(status) => plain(Reply::Posted(status)),
        Err(why) => refused(why),
    }
}
