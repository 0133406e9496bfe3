//! The kinds of fields, each read once.

ghost use Rattle.std.specs.Prelude.{◌≡◌, length, IfOk};
ghost use Rattle.std.specs.Int.{w8, w16, w32, w64};
ghost use Rattle.unit_codec.specs.Reading.{Takes};
ghost use Rattle.unit_codec.specs.Kind.{byte, optional};
ghost use Rattle.unit_codec.specs.Fields.{name, text, way, cause, tid, queue, destination, doc_number};

use crate::fault::FieldFault;
use crate::rules::{is_name, queue_of, tid_of};
use crate::unread::Unread;
use ale_base::{DocNum, Items, Mark, QueueName, Tid, Way};
use std::alloc::Global;

impl Unread<'_> {
    /// The name of a message, a kind or a field.
    #[tactic(auto, unfolding(crate::specs::Fields::name))]
    pub(crate) fn name(&mut self, alloc: Global) -> Result<Items<u8>, FieldFault>
        ensures { Takes (λ x. x) result self.new (name.read self.old) }
    {
        let left = self.left();
        let text = self.short_text()?;
        if !is_name(text) {
            return Err(FieldFault::Bad(left));
        }
        Ok(Items::from_slice(alloc, text)?)
    }

    /// The origin of documents: 0, or 1 and the name of a message.
    #[tactic(auto, unfolding(crate::specs::Kind::optional))]
    pub(crate) fn origin(&mut self, alloc: Global) -> Result<Option<Items<u8>>, FieldFault>
        ensures { Takes (λ x. x) result self.new ((optional name).read self.old) }
    {
        let left = self.left();
        match self.byte()? {
            0 => Ok(None),
            1 => Ok(Some(self.name(alloc)?)),
            _ => Err(FieldFault::Bad(left)),
        }
    }

    /// A text of any bytes.
    #[tactic(auto, unfolding(crate::specs::Fields::text))]
    pub(crate) fn text(&mut self, alloc: Global) -> Result<Items<u8>, FieldFault>
        ensures { Takes (λ x. x) result self.new (text.read self.old) }
    {
        let text = self.long_text()?;
        Ok(Items::from_slice(alloc, text)?)
    }

    /// A direction: 0 out, 1 in.
    #[tactic(auto, unfolding(crate::specs::Fields::way))]
    pub(crate) fn way(&mut self) -> Result<Way, FieldFault>
        ensures { Takes (λ x. x) result self.new (way.read self.old) }
    {
        let left = self.left();
        match self.byte()? {
            0 => Ok(Way::Outgoing),
            1 => Ok(Way::Incoming),
            _ => Err(FieldFault::Bad(left)),
        }
    }

    /// Why a unit waits: 1 for no answer, 2 for a function that is not offered.
    #[tactic(auto, unfolding(crate::specs::Fields::cause))]
    pub(crate) fn cause(&mut self) -> Result<Mark, FieldFault>
        ensures { Takes (λ x. x) result self.new (cause.read self.old) }
    {
        let left = self.left();
        match self.byte()? {
            1 => Ok(Mark::Cpicerr),
            2 => Ok(Mark::Sysfail),
            _ => Err(FieldFault::Bad(left)),
        }
    }

    /// A transaction id, by its 24 bytes.
    #[tactic(auto, unfolding(crate::specs::Fields::tid))]
    pub(crate) fn tid(&mut self) -> Result<Tid, FieldFault>
        ensures { Takes (λ x. x) result self.new (tid.read self.old) }
    {
        let left = self.left();
        let bytes = self.plain::<24>()?;
        match tid_of(&bytes) {
            Some(tid) => Ok(tid),
            None => Err(FieldFault::Bad(left)),
        }
    }

    /// The name of a queue.
    #[tactic(auto, unfolding(crate::specs::Fields::queue))]
    pub(crate) fn queue_name(&mut self) -> Result<QueueName, FieldFault>
        ensures { Takes (λ x. x) result self.new (queue.read self.old) }
    {
        let left = self.left();
        let text = self.short_text()?;
        match queue_of(text) {
            Some(name) => Ok(name),
            None => Err(FieldFault::Bad(left)),
        }
    }

    /// The destination of a queue: any byte of an outbound one, and 0 of an inbound one.
    #[tactic(auto, unfolding(crate::specs::Fields::destination))]
    pub(crate) fn destination(&mut self, way: Way) -> Result<u8, FieldFault>
        ensures { Takes (λ x. x) result self.new ((destination way).read self.old) }
    {
        let left = self.left();
        let number = self.byte()?;
        if way == Way::Incoming && number != 0 {
            return Err(FieldFault::Bad(left));
        }
        Ok(number)
    }

    /// The number of a document.
    #[tactic(auto, unfolding(crate::specs::Fields::doc_number))]
    pub(crate) fn doc_number(&mut self) -> Result<DocNum, FieldFault>
        ensures { Takes (λ x. x) result self.new (doc_number.read self.old) }
    {
        Ok(DocNum(self.eight_bytes()?))
    }
}
