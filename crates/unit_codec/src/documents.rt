//! Documents of units, and changes of objects.

ghost use Rattle.std.specs.Prelude.{◌≡◌, ◌≤◌, length, OnOk, IfOk, IsTrue};
ghost use Rattle.std.specs.List.{AllByRecursion};
ghost use Rattle.unit_codec.specs.Reading.{Takes};
ghost use Rattle.unit_codec.specs.Kind.{Puts};
ghost use Rattle.unit_codec.specs.Condition.{AreCounted, AreDocuments, IsFieldValue};
ghost use Rattle.unit_codec.specs.Fields.{any, count, is_segment, is_segment_data, segment, segment_name, segment_data, control, segments, document, documents, field_value, field_values};

use crate::fault::FieldFault;
use crate::limits::MOST_SEGMENTS;
use crate::lists::{Listed, put_listed, take_listed};
use crate::put::{put_four_bytes, put_middle_text, put_name, put_short_text, put_text};
use crate::rules::{control_of, fixed_of, is_segment, is_segment_data};
use crate::unread::Unread;
use ale_base::{FieldValue, Fixed, Items, OutOfMemory};
use idoc_record::{Control, Data, write_control};
use std::alloc::Global;
use unit_core::{RawUnitDoc, Shared};

impl Listed for Data {
    ghost use Rattle.std.specs.Prelude.{⊤};
    ghost use Rattle.unit_codec.specs.Fields.{any, segment};

    ghost kind = { segment };

    ghost follows = { any };

    ghost needs = { λ _. ⊤ };

    #[tactic(auto, unfolding(crate::specs::Fields::segment))]
    fn take(alloc: Global, from: &mut Unread<'_>) -> Result<Data, FieldFault> {
        let segnam = from.segment_name()?;
        let sdata = from.segment_data(alloc)?;
        Ok(Data { segnam, sdata })
    }

    fn follows(&self, _: &[Data]) -> bool {
        true
    }

    #[tactic(auto, unfolding(crate::specs::Fields::segment))]
    fn put(&self, into: &mut Vec<u8>) -> Result<(), OutOfMemory> {
        put_segment_name(into, &self.segnam)?;
        put_segment_data(into, &self.sdata)
    }
}

impl Listed for RawUnitDoc {
    ghost use Rattle.unit_codec.specs.Condition.{IsDocument};
    ghost use Rattle.unit_codec.specs.Fields.{any, document};

    ghost kind = { document };

    ghost follows = { any };

    ghost needs = { IsDocument };

    #[tactic(auto, unfolding(crate::specs::Fields::document))]
    fn take(alloc: Global, from: &mut Unread<'_>) -> Result<RawUnitDoc, FieldFault> {
        let control = Shared::new(alloc, from.control()?)?;
        let segments = from.segments(alloc)?;
        Ok(RawUnitDoc { control, segments })
    }

    fn follows(&self, _: &[RawUnitDoc]) -> bool {
        true
    }

    #[tactic(auto, unfolding(crate::specs::Fields::document))]
    fn put(&self, into: &mut Vec<u8>) -> Result<(), OutOfMemory> {
        put_control(into, &self.control)?;
        put_segments(into, &self.segments)
    }
}

impl Listed for FieldValue {
    ghost use Rattle.unit_codec.specs.Condition.{IsFieldValue};
    ghost use Rattle.unit_codec.specs.Fields.{any, field_value};

    ghost kind = { field_value };

    ghost follows = { any };

    ghost needs = { IsFieldValue };

    #[tactic(auto, unfolding(crate::specs::Fields::field_value))]
    fn take(alloc: Global, from: &mut Unread<'_>) -> Result<FieldValue, FieldFault> {
        let field = from.name(alloc)?;
        let value = from.text(alloc)?;
        Ok(FieldValue { field, value })
    }

    fn follows(&self, _: &[FieldValue]) -> bool {
        true
    }

    #[tactic(auto, unfolding(crate::specs::Fields::field_value))]
    fn put(&self, into: &mut Vec<u8>) -> Result<(), OutOfMemory> {
        put_name(into, &self.field)?;
        put_text(into, &self.value)
    }
}

impl Unread<'_> {
    /// The bytes of a control record.
    #[tactic(auto, unfolding(crate::specs::Fields::control))]
    fn control(&mut self) -> Result<Control, FieldFault>
        ensures { Takes (λ x. x) result self.new (control.read self.old) }
    {
        let left = self.left();
        let bytes = self.plain::<{ Control::LEN }>()?;
        match control_of(&bytes) {
            Some(control) => Ok(control),
            None => Err(FieldFault::Bad(left)),
        }
    }

    /// The name of a segment.
    #[tactic(auto, unfolding(crate::specs::Fields::segment_name))]
    fn segment_name(&mut self) -> Result<Fixed<30>, FieldFault>
        ensures taken { Takes (λ x. x) result self.new (segment_name.read self.old) }
        ensures ruled { IfOk result (λ text. IsTrue (is_segment text)) }
    {
        let left = self.left();
        let text = self.short_text()?;
        if !is_segment(text) {
            return Err(FieldFault::Bad(left));
        }
        Ok(fixed_of(text))
    }

    /// The data of a segment.
    #[tactic(auto, unfolding(crate::specs::Fields::segment_data))]
    fn segment_data(&mut self, alloc: Global) -> Result<Items<u8>, FieldFault>
        ensures taken { Takes (λ x. x) result self.new (segment_data.read self.old) }
        ensures ruled { IfOk result (λ text. IsTrue (is_segment_data text)) }
    {
        let left = self.left();
        let text = self.middle_text()?;
        if !is_segment_data(text) {
            return Err(FieldFault::Bad(left));
        }
        Ok(Items::from_slice(alloc, text)?)
    }

    /// The segments of a document: at most 10,000.
    #[tactic(auto, unfolding(crate::specs::Fields::segments, crate::specs::Kind::listed))]
    fn segments(&mut self, alloc: Global) -> Result<Items<Data>, FieldFault>
        ensures { Takes (λ x. x) result self.new (segments.read self.old) }
    {
        let left = self.left();
        let count = self.four_bytes()?;
        if count > MOST_SEGMENTS {
            return Err(FieldFault::Bad(left));
        }
        take_listed(alloc, self, count)
    }

    /// A count of four bytes, from 1.
    fn count(&mut self) -> Result<u32, FieldFault>
        ensures { Takes (λ x. x) result self.new (count.read self.old) }
    {
        let left = self.left();
        let count = self.four_bytes()?;
        if count == 0 {
            return Err(FieldFault::Bad(left));
        }
        Ok(count)
    }

    /// Documents behind their count, which is from 1.
    #[tactic(auto, unfolding(crate::specs::Fields::documents, crate::specs::Kind::listed))]
    pub(crate) fn documents(&mut self, alloc: Global) -> Result<Items<RawUnitDoc>, FieldFault>
        ensures { Takes (λ x. x) result self.new (documents.read self.old) }
    {
        let count = self.count()?;
        take_listed(alloc, self, count)
    }

    /// Fields of an object with their new values, behind their count, which is from 1.
    #[tactic(auto, unfolding(crate::specs::Fields::field_values, crate::specs::Kind::listed))]
    pub(crate) fn field_values(&mut self, alloc: Global) -> Result<Items<FieldValue>, FieldFault>
        ensures { Takes (λ x. x) result self.new (field_values.read self.old) }
    {
        let count = self.count()?;
        take_listed(alloc, self, count)
    }
}

/// Appends the name of a segment.
#[tactic(auto, unfolding(crate::specs::Fields::segment_name))]
fn put_segment_name(into: &mut Vec<u8>, name: &Fixed<30>) -> Result<(), OutOfMemory>
    requires { IsTrue (is_segment name.now) }
    ensures { OnOk result (Puts segment_name name.now into.old.items into.new.items) }
{
    put_short_text(into, name.trimmed())
}

/// Appends the data of a segment.
#[tactic(auto, unfolding(crate::specs::Fields::segment_data))]
fn put_segment_data(into: &mut Vec<u8>, sdata: &Items<u8>) -> Result<(), OutOfMemory>
    requires { IsTrue (is_segment_data sdata.now) }
    ensures { OnOk result (Puts segment_data sdata.now into.old.items into.new.items) }
{
    put_middle_text(into, sdata.as_slice())
}

/// Appends the bytes of a control record.
#[tactic(auto, unfolding(crate::specs::Fields::control, crate::specs::Kind::plain), using(crate::proofs::RuleLemmas::is_control_kept))]
fn put_control(into: &mut Vec<u8>, value: &Control) -> Result<(), OutOfMemory>
    ensures { OnOk result (Puts control value.now into.old.items into.new.items) }
{
    write_control(value, into)
}

/// Appends the segments of a document.
#[tactic(auto, unfolding(crate::specs::Fields::segments, crate::specs::Kind::listed))]
fn put_segments(into: &mut Vec<u8>, values: &Items<Data>) -> Result<(), OutOfMemory>
    requires { length values.now ≤ MOST_SEGMENTS }
    ensures { OnOk result (Puts segments values.now into.old.items into.new.items) }
{
    put_four_bytes(into, values.len() as u32)?;
    put_listed(into, values.as_slice())
}

/// Appends documents behind their count.
#[tactic(auto, unfolding(crate::specs::Fields::documents, crate::specs::Kind::listed))]
pub(crate) fn put_documents(
    into: &mut Vec<u8>,
    values: &Items<RawUnitDoc>,
) -> Result<(), OutOfMemory>
    requires { AreDocuments values.now }
    ensures { OnOk result (Puts documents values.now into.old.items into.new.items) }
{
    put_four_bytes(into, values.len() as u32)?;
    put_listed(into, values.as_slice())
}

/// Appends fields with their values behind their count.
#[tactic(auto, unfolding(crate::specs::Fields::field_values, crate::specs::Kind::listed))]
pub(crate) fn put_field_values(
    into: &mut Vec<u8>,
    values: &Items<FieldValue>,
) -> Result<(), OutOfMemory>
    requires counted { AreCounted values.now }
    requires each { AllByRecursion IsFieldValue values.now }
    ensures { OnOk result (Puts field_values values.now into.old.items into.new.items) }
{
    put_four_bytes(into, values.len() as u32)?;
    put_listed(into, values.as_slice())
}
