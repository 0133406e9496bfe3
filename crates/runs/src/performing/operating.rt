//! Commands of an operator.

ghost use Rattle.std.specs.Prelude.{◌≡◌, ⊤, IfOk};
ghost use Rattle.std.specs.Arc.{arc_value};
ghost use Rattle.script_text.specs.declared.form.Form.TheVariants as form;
ghost use Rattle.landscape.specs.Operator.{asked_retry, start_of, stop_of};
ghost use Rattle.report_text.specs.declared.reply.Reply.TheVariants.{Carried};
ghost use Rattle.runs.specs.Does.{Crashes, Does, IsOneCall, Lates, Leads, Opens, Operates, Queues, Wired, opened_as, shown_late};
ghost use Rattle.runs.specs.Text.{IsPrintable};

use crate::answered::{carried, plain, refused};
use crate::{Answered, Halt, Inputs, Stage};
use ale_base::{Items, SystemNo, Tid};
use ale_volumes::Volumes;
use landscape::ReopenEnd;
use report_text::Reply;
use status_log::Refusal;
use trfc_protocol::HeldKind;
use unit_landscape::Late;

/// `stop`: stops a queue.
pub(super) fn stop<V: Volumes>(
    stage: &mut Stage<V>,
    inputs: &Inputs,
    sys: &[u8],
    destination: &Option<Items<u8>>,
    queue: &[u8],
) -> Result<Answered, Halt>
    ensures does { Does V.disk inputs.now stage.old result stage.new (form.Stop sys.now destination.now queue.now) }
    ensures call { IsOneCall V.disk stage.old stage.new }
    ensures printable { IfOk result IsPrintable }
{
    let Some(system) = inputs.system(sys) else {
        return refused(Refusal::N1);
    };
    match destination {
        None => stop_at(stage, inputs, system, None, queue),
        Some(name) => match inputs.system(name.as_slice()) {
            None => refused(Refusal::N1),
            Some(to) => stop_at(stage, inputs, system, Some(to), queue),
        },
    }
}

/// `stop` at a system that the model names, of a queue to one or of an inbound one.
fn stop_at<V: Volumes>(
    stage: &mut Stage<V>,
    inputs: &Inputs,
    system: SystemNo,
    destination: Option<SystemNo>,
    queue: &[u8],
) -> Result<Answered, Halt>
    ensures does { Queues V.disk inputs.now stage.old result stage.new system destination queue.now stop_of }
    ensures call { IsOneCall V.disk stage.old stage.new }
    ensures printable { IfOk result IsPrintable }
{
    carried(stage.landscape.stop(system, destination, queue))
}

/// `start`: lets a queue go on.
pub(super) fn start<V: Volumes>(
    stage: &mut Stage<V>,
    inputs: &Inputs,
    sys: &[u8],
    destination: &Option<Items<u8>>,
    queue: &[u8],
) -> Result<Answered, Halt>
    ensures does { Does V.disk inputs.now stage.old result stage.new (form.Start sys.now destination.now queue.now) }
    ensures call { IsOneCall V.disk stage.old stage.new }
    ensures printable { IfOk result IsPrintable }
{
    let Some(system) = inputs.system(sys) else {
        return refused(Refusal::N1);
    };
    match destination {
        None => start_at(stage, inputs, system, None, queue),
        Some(name) => match inputs.system(name.as_slice()) {
            None => refused(Refusal::N1),
            Some(to) => start_at(stage, inputs, system, Some(to), queue),
        },
    }
}

/// `start` at a system that the model names, of a queue to one or of an inbound one.
fn start_at<V: Volumes>(
    stage: &mut Stage<V>,
    inputs: &Inputs,
    system: SystemNo,
    destination: Option<SystemNo>,
    queue: &[u8],
) -> Result<Answered, Halt>
    ensures does { Queues V.disk inputs.now stage.old result stage.new system destination queue.now start_of }
    ensures call { IsOneCall V.disk stage.old stage.new }
    ensures printable { IfOk result IsPrintable }
{
    carried(stage.landscape.start(system, destination, queue))
}

/// `retry`: takes a unit's mark away.
pub(super) fn retry<V: Volumes>(
    stage: &mut Stage<V>,
    inputs: &Inputs,
    sys: &[u8],
    tid: Tid,
) -> Result<Answered, Halt>
    ensures does { Does V.disk inputs.now stage.old result stage.new (form.Retry sys.now tid) }
    ensures call { IsOneCall V.disk stage.old stage.new }
    ensures printable { IfOk result IsPrintable }
{
    match inputs.system(sys) {
        None => refused(Refusal::N1),
        Some(system) => retry_at(stage, inputs, system, tid),
    }
}

/// `retry` at a system that the model names.
fn retry_at<V: Volumes>(
    stage: &mut Stage<V>,
    inputs: &Inputs,
    system: SystemNo,
    tid: Tid,
) -> Result<Answered, Halt>
    ensures does { Operates V.disk inputs.now stage.old result stage.new {T = Unit {0}} system (asked_retry stage.old.landscape.world.rules.systems system tid)
        (λ done. ⊤) (λ done. Carried) }
    ensures call { IsOneCall V.disk stage.old stage.new }
    ensures printable { IfOk result IsPrintable }
{
    carried(stage.landscape.retry(system, tid))
}

/// `crash`: a system falls.
pub(super) fn crash<V: Volumes>(
    stage: &mut Stage<V>,
    inputs: &Inputs,
    sys: &[u8],
) -> Result<Answered, Halt>
    ensures does { Does V.disk inputs.now stage.old result stage.new (form.Crash sys.now) }
    ensures call { IsOneCall V.disk stage.old stage.new }
    ensures printable { IfOk result IsPrintable }
{
    match inputs.system(sys) {
        None => refused(Refusal::N1),
        Some(system) => crash_at(stage, system),
    }
}

/// `crash` at a system that the model names.
fn crash_at<V: Volumes>(stage: &mut Stage<V>, system: SystemNo) -> Result<Answered, Halt>
    ensures does { Crashes V.disk stage.old result stage.new system }
    ensures call { IsOneCall V.disk stage.old stage.new }
    ensures printable { IfOk result IsPrintable }
{
    if stage.landscape.crash(system) {
        plain(Reply::Carried)
    } else {
        refused(Refusal::N2)
    }
}

/// `open`: opens a system that is down.
pub(super) fn open<V: Volumes>(
    stage: &mut Stage<V>,
    inputs: &Inputs,
    sys: &[u8],
) -> Result<Answered, Halt>
    ensures does { Does V.disk inputs.now stage.old result stage.new (form.Open sys.now) }
    ensures call { IsOneCall V.disk stage.old stage.new }
    ensures printable { IfOk result IsPrintable }
{
    match inputs.system(sys) {
        None => refused(Refusal::N1),
        Some(system) => open_at(stage, system),
    }
}

/// `open` at a system that the model names.
fn open_at<V: Volumes>(stage: &mut Stage<V>, system: SystemNo) -> Result<Answered, Halt>
    ensures does { Opens V.disk stage.old result stage.new system }
    ensures call { IsOneCall V.disk stage.old stage.new }
    ensures printable { IfOk result IsPrintable }
{
    if stage.landscape.world().rules.systems < system.get() {
        return refused(Refusal::N1);
    }
    opened(system, stage.landscape.open_system(system))
}

/// How the opening of a system is answered.
fn opened(system: SystemNo, end: Result<(), ReopenEnd>) -> Result<Answered, Halt>
    ensures answer { result ≡ opened_as system end }
    ensures printable { IfOk result IsPrintable }
{
    match end {
        Ok(()) => plain(Reply::Carried),
        Err(ReopenEnd::Refused) => refused(Refusal::N9),
        Err(ReopenEnd::Volume) => plain(Reply::Fault),
        Err(ReopenEnd::Changed(number)) => Err(Halt::Changed(system, number)),
        Err(ReopenEnd::OutOfMemory) => Err(Halt::OutOfMemory),
    }
}

/// `late`: an earlier request of a unit comes now.
pub(super) fn late<V: Volumes>(stage: &mut Stage<V>, tid: Tid) -> Result<Answered, Halt>
    ensures does { Lates V.disk stage.old result stage.new tid }
    ensures call { IsOneCall V.disk stage.old stage.new }
    ensures printable { IfOk result IsPrintable }
{
    // Between commands no unit is claimed, so this never comes.
    if stage.landscape.world().is_claimed(HeldKind::Direct, tid) {
        return Err(Halt::OutOfMemory);
    }
    match stage.landscape.late(tid) {
        Ok(came) => plain(shown_late(came)),
        Err(why) => refused(why),
    }
}

/// What is replied of a late request.
fn shown_late(came: Late) -> Reply
    ensures { result ≡ shown_late came }
{
    match came {
        Late::New => Reply::New,
        Late::Known => Reply::Known,
        Late::SysFail => Reply::SysFail,
        Late::Down => Reply::Down,
    }
}

/// `wire`: says what becomes of the next shipments of a unit.
pub(super) fn wire<V: Volumes>(
    stage: &mut Stage<V>,
    tid: Tid,
    letters: &[u8],
) -> Result<Answered, Halt>
    ensures does { Wired V.disk stage.old result stage.new tid letters.now result }
    ensures call { IsOneCall V.disk stage.old stage.new }
    ensures printable { IfOk result IsPrintable }
{
    stage.wires.add(tid, letters)?;
    plain(Reply::Carried)
}
