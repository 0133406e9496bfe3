//! Units of work.

ghost use Rattle.std.specs.Prelude.{◌≡◌, ◌≢◌, ◌≤◌, length, OnOk};
ghost use Rattle.unit_codec.specs.Reading.{Takes};
ghost use Rattle.unit_codec.specs.Kind.{Puts};
ghost use Rattle.unit_codec.specs.Condition.{AreQueues, IsUnit};
ghost use Rattle.unit_codec.specs.Fields.{sender, receiver, function, queue, queues, a_unit};

use crate::documents::put_documents;
use crate::fault::FieldFault;
use crate::limits::MOST_QUEUES;
use crate::lists::{Listed, put_listed, take_listed};
use crate::put::{put_byte, put_queue_name, put_short_text, put_tid};
use crate::rules::{fixed_of, has_name, is_function};
use crate::unread::Unread;
use ale_base::{Fixed, Items, OutOfMemory, QueueName, SystemNo, Tid};
use std::alloc::Global;
use unit_core::AleUnit;

impl Listed for QueueName {
    ghost use Rattle.std.specs.Prelude.{⊤};
    ghost use Rattle.unit_codec.specs.Fields.{queue, is_other};

    ghost kind = { queue };

    ghost follows = { is_other };

    ghost needs = { λ _. ⊤ };

    fn take(_: Global, from: &mut Unread<'_>) -> Result<QueueName, FieldFault> {
        from.queue_name()
    }

    fn follows(&self, front: &[QueueName]) -> bool {
        !has_name(self, front)
    }

    fn put(&self, into: &mut Vec<u8>) -> Result<(), OutOfMemory> {
        put_queue_name(into, self)
    }
}

impl Unread<'_> {
    /// The sender of a unit, which is the system of its id.
    #[tactic(auto, unfolding(crate::specs::Fields::sender))]
    fn sender(&mut self, tid: Tid) -> Result<SystemNo, FieldFault>
        ensures { Takes (λ x. x) result self.new ((sender tid).read self.old) }
    {
        let left = self.left();
        let number = self.byte()?;
        let sender = tid.system();
        if number != sender.get() {
            return Err(FieldFault::Bad(left));
        }
        Ok(sender)
    }

    /// The receiver of a unit, which is another system than its sender.
    #[tactic(auto, unfolding(crate::specs::Fields::receiver))]
    fn receiver(&mut self, sender: SystemNo) -> Result<SystemNo, FieldFault>
        ensures { Takes (λ x. x) result self.new ((receiver sender).read self.old) }
    {
        let left = self.left();
        let number = self.byte()?;
        match SystemNo::of(number) {
            Some(receiver) if receiver != sender => Ok(receiver),
            _ => Err(FieldFault::Bad(left)),
        }
    }

    /// The name of a function.
    #[tactic(auto, unfolding(crate::specs::Fields::function))]
    fn function(&mut self) -> Result<Fixed<30>, FieldFault>
        ensures { Takes (λ x. x) result self.new (function.read self.old) }
    {
        let left = self.left();
        let text = self.short_text()?;
        if !is_function(text) {
            return Err(FieldFault::Bad(left));
        }
        Ok(fixed_of(text))
    }

    /// The queues of a unit in one direction: at most 8, which differ.
    #[tactic(auto, unfolding(crate::specs::Fields::queues, crate::specs::Kind::listed))]
    fn queues(&mut self, alloc: Global) -> Result<Items<QueueName>, FieldFault>
        ensures { Takes (λ x. x) result self.new (queues.read self.old) }
    {
        let left = self.left();
        let count = self.byte()?;
        if count > MOST_QUEUES {
            return Err(FieldFault::Bad(left));
        }
        take_listed(alloc, self, u32::from(count))
    }

    /// A unit of work.
    #[tactic(auto, unfolding(crate::specs::Fields::a_unit))]
    pub(crate) fn unit(&mut self, alloc: Global) -> Result<AleUnit, FieldFault>
        ensures { Takes (λ x. x) result self.new (a_unit.read self.old) }
    {
        let tid = self.tid()?;
        let sender = self.sender(tid)?;
        let receiver = self.receiver(sender)?;
        let function = self.function()?;
        let outq = self.queues(alloc)?;
        let inq = self.queues(alloc)?;
        let docs = self.documents(alloc)?;
        Ok(AleUnit {
            tid,
            sender,
            receiver,
            function,
            outq,
            inq,
            docs,
        })
    }
}

/// Appends the sender of a unit.
#[tactic(auto, unfolding(crate::specs::Fields::sender))]
fn put_sender(into: &mut Vec<u8>, id: Tid, value: SystemNo) -> Result<(), OutOfMemory>
    requires { value ≡ id.system }
    ensures { OnOk result (Puts (sender id) value into.old.items into.new.items) }
{
    put_byte(into, value.get())
}

/// Appends the receiver of a unit.
#[tactic(auto, unfolding(crate::specs::Fields::receiver))]
fn put_receiver(into: &mut Vec<u8>, from: SystemNo, value: SystemNo) -> Result<(), OutOfMemory>
    requires { value ≢ from }
    ensures { OnOk result (Puts (receiver from) value into.old.items into.new.items) }
{
    put_byte(into, value.get())
}

/// Appends the name of a function.
#[tactic(auto, unfolding(crate::specs::Fields::function))]
fn put_function(into: &mut Vec<u8>, value: &Fixed<30>) -> Result<(), OutOfMemory>
    requires { 1 ≤ length value.now }
    ensures { OnOk result (Puts function value.now into.old.items into.new.items) }
{
    put_short_text(into, value.trimmed())
}

/// Appends the queues of a unit in one direction behind their count.
#[tactic(auto, unfolding(crate::specs::Fields::queues, crate::specs::Kind::listed))]
fn put_queues(into: &mut Vec<u8>, values: &Items<QueueName>) -> Result<(), OutOfMemory>
    requires { AreQueues values.now }
    ensures { OnOk result (Puts queues values.now into.old.items into.new.items) }
{
    put_byte(into, values.len() as u8)?;
    put_listed(into, values.as_slice())
}

/// Appends a unit of work.
#[tactic(auto, unfolding(crate::specs::Fields::a_unit))]
pub(crate) fn put_unit(into: &mut Vec<u8>, unit: &AleUnit) -> Result<(), OutOfMemory>
    requires { IsUnit unit.now }
    ensures { OnOk result (Puts a_unit unit.now into.old.items into.new.items) }
{
    put_tid(into, unit.tid)?;
    put_sender(into, unit.tid, unit.sender)?;
    put_receiver(into, unit.sender, unit.receiver)?;
    put_function(into, &unit.function)?;
    put_queues(into, &unit.outq)?;
    put_queues(into, &unit.inq)?;
    put_documents(into, &unit.docs)
}
