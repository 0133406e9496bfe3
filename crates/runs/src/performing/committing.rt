//! Commands that commit documents.

ghost use Rattle.std.specs.Prelude.{◌≡◌, IfOk};
ghost use Rattle.script_text.specs.declared.form.Form.TheVariants as form;
ghost use Rattle.trfc_protocol.specs.Worlds.{log_of};
ghost use Rattle.landscape.specs.Asked.{asked_gather, asked_dispatch};
ghost use Rattle.landscape.specs.Carried.{counts_asked, sent_counts};
ghost use Rattle.report_text.specs.declared.reply.Reply.TheVariants.{Units};
ghost use Rattle.runs.specs.Does.{Commits, Does, IsOneCall, asked_master, numbered, shown_gathered, shown_sent};
ghost use Rattle.runs.specs.Text.{IsPrintable};

use crate::answered::{plain, refused};
use crate::{Answered, Halt, Inputs, Stage};
use ale_base::SystemNo;
use ale_volumes::Volumes;
use application_rules::MOST_SEGMENTS;
use landscape::{Gathered, Sent};
use report_text::Reply;
use status_log::Refusal;

/// `send`: commits a document of the document file as a master.
pub(super) fn send<V: Volumes>(
    stage: &mut Stage<V>,
    inputs: &Inputs,
    sys: &[u8],
    number: u64,
) -> Result<Answered, Halt>
    ensures does { Does V.disk inputs.now stage.old result stage.new (form.Send sys.now number) }
    ensures call { IsOneCall V.disk stage.old stage.new }
    ensures printable { IfOk result IsPrintable }
{
    match inputs.system(sys) {
        None => refused(Refusal::N1),
        Some(system) => send_at(stage, inputs, system, number),
    }
}

/// `send` at a system that the model names.
fn send_at<V: Volumes>(
    stage: &mut Stage<V>,
    inputs: &Inputs,
    system: SystemNo,
    number: u64,
) -> Result<Answered, Halt>
    ensures does { Commits V.disk inputs.now stage.old result stage.new system (asked_master (numbered number inputs.now.masters))
        (λ asked sent. sent ≡ sent_counts (counts_asked (log_of stage.old.landscape.world system) asked)) shown_sent }
    ensures call { IsOneCall V.disk stage.old stage.new }
    ensures printable { IfOk result IsPrintable }
{
    if !stage.landscape.is_up(system) {
        return refused(Refusal::N2);
    }
    let Some(master) = inputs.master(number) else {
        return refused(Refusal::N3);
    };
    // No document file has such a document.
    if master.segments.len() > MOST_SEGMENTS {
        return Err(Halt::OutOfMemory);
    }
    match stage.landscape.send(system, master) {
        Ok(Sent { documents, units }) => plain(Reply::Sent { documents, units }),
        Err(why) => refused(why),
    }
}

/// `gather`: makes masters of the objects that wait.
pub(super) fn gather<V: Volumes>(
    stage: &mut Stage<V>,
    inputs: &Inputs,
    sys: &[u8],
    message: &[u8],
) -> Result<Answered, Halt>
    ensures does { Does V.disk inputs.now stage.old result stage.new (form.Gather sys.now message.now) }
    ensures call { IsOneCall V.disk stage.old stage.new }
    ensures printable { IfOk result IsPrintable }
{
    match inputs.system(sys) {
        None => refused(Refusal::N1),
        Some(system) => gather_at(stage, inputs, system, message),
    }
}

/// `gather` at a system that the model names.
fn gather_at<V: Volumes>(
    stage: &mut Stage<V>,
    inputs: &Inputs,
    system: SystemNo,
    message: &[u8],
) -> Result<Answered, Halt>
    ensures does { Commits V.disk inputs.now stage.old result stage.new system (λ log. asked_gather log message.now)
        (λ asked made. made ≡ counts_asked (log_of stage.old.landscape.world system) asked) shown_gathered }
    ensures call { IsOneCall V.disk stage.old stage.new }
    ensures printable { IfOk result IsPrintable }
{
    match stage.landscape.gather(system, message) {
        Ok(made) => plain(gathered(made)),
        Err(why) => refused(why),
    }
}

/// What is replied of masters that were gathered.
fn gathered(made: Gathered) -> Reply
    ensures reply { result ≡ shown_gathered made }
{
    Reply::Gathered {
        masters: made.masters,
        documents: made.documents,
        units: made.units,
    }
}

/// `dispatch`: makes units of the documents that wait.
pub(super) fn dispatch<V: Volumes>(
    stage: &mut Stage<V>,
    inputs: &Inputs,
    sys: &[u8],
) -> Result<Answered, Halt>
    ensures does { Does V.disk inputs.now stage.old result stage.new (form.Dispatch sys.now) }
    ensures call { IsOneCall V.disk stage.old stage.new }
    ensures printable { IfOk result IsPrintable }
{
    match inputs.system(sys) {
        None => refused(Refusal::N1),
        Some(system) => dispatch_at(stage, inputs, system),
    }
}

/// `dispatch` at a system that the model names.
fn dispatch_at<V: Volumes>(
    stage: &mut Stage<V>,
    inputs: &Inputs,
    system: SystemNo,
) -> Result<Answered, Halt>
    ensures does { Commits V.disk inputs.now stage.old result stage.new system asked_dispatch
        (λ asked units. units ≡ (counts_asked (log_of stage.old.landscape.world system) asked).units) Units }
    ensures call { IsOneCall V.disk stage.old stage.new }
    ensures printable { IfOk result IsPrintable }
{
    match stage.landscape.dispatch(system) {
        Ok(units) => plain(Reply::Units(units)),
        Err(why) => refused(why),
    }
}
