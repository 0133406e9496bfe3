//! Values of fields that others replace.

ghost use Rattle.std.specs.Prelude.{◌≡◌, false, Contains, IfOk, List};
ghost use Rattle.segment_defs.specs.declared.idoc_type.TypePlace.{TypePlace};
ghost use Rattle.segment_defs.specs.Version.{AreFields, HaveRoom, data_of, text_in};
ghost use Rattle.dist_model.specs.Outbound.{removes};
ghost use Rattle.idoc_tree.specs.Forest.{AllNodes};
ghost use Rattle.idoc_tree.specs.Nodes.{forest_of};
ghost use Rattle.idoc_reading.specs.Document.{IsOfEntries};
ghost use Rattle.version_reduce.specs.Converted.{IsConvertedFrom, converted, converted_text, replaces};

use crate::head::Head;
use crate::texts::fields_of;
use crate::walk::{Step, walk};
use ale_base::{Items, OutOfMemory};
use dist_model::{Convert, Model, Outbound};
use idoc_tree::Node;
use segment_defs::{Definitions, Field, TypeNo, without_blanks};
use std::alloc::Global;

/// A forest with its values converted: for each field of a segment's definition the first `convert` row of the profile
/// with this segment type, field and value replaces the value. This project's own.
pub fn convert_fields(
    alloc: Global,
    model: &Model,
    profile: &Outbound,
    forest: Vec<Node>,
) -> Result<Vec<Node>, OutOfMemory>
    requires profile { Contains model.now.outbound profile.now }
    ensures map { IfOk result (λ sent. forest_of sent.items ≡ converted model.now profile.now (forest_of forest.items)) }
    ensures each { IfOk result (λ sent. IsConvertedFrom model.now profile.now (forest_of forest.items) (forest_of sent.items)) }
    ensures gone { AllNodes (λ segment. removes profile.now segment.type ≡ false) (forest_of forest.items)
        → IfOk result (λ sent. AllNodes (λ segment. removes profile.now segment.type ≡ false) (forest_of sent.items)) }
    // A document by the entries of an IDoc type stays one.
    ensures of_entries { (entries : List TypePlace) → IsOfEntries model.now.definitions entries (forest_of forest.items)
        → IfOk result (λ sent. IsOfEntries model.now.definitions entries (forest_of sent.items)) }
{
    let lists = model.as_lists();
    let step = Conversion {
        definitions: &lists.definitions,
        rows: profile.convert.as_slice(),
    };
    let sent = walk(alloc, &step, forest)?;
    Ok(sent)
}

/// Values are converted.
#[derive(Clone, Copy)]
struct Conversion<'m> {
    definitions: &'m Definitions,
    /// The rows, of which the first one that has a value replaces it.
    rows: &'m [Convert],
}

impl<'m> Step for Conversion<'m> {
    ghost use Rattle.std.specs.Prelude.{false};
    ghost use Rattle.std.specs.List.{AllByRecursion};
    ghost use Rattle.segment_defs.specs.Definitions.{AreDefinitions};
    ghost use Rattle.dist_model.specs.Outbound.{IsConvert};
    ghost use Rattle.version_reduce.specs.Converted.{converted_segment};

    ghost IsReady = { λ step. AreDefinitions step.definitions.now
        × AllByRecursion (IsConvert step.definitions.now) step.rows.now };

    ghost goes = { λ step segment. false };

    ghost change = { λ step segment. converted_segment step.definitions.now step.rows.now segment };

    fn apply(&self, alloc: Global, head: Head) -> Result<Option<Head>, OutOfMemory> {
        let segment = head.segment;
        let version = head.version;
        let fields = fields_of(self.definitions, &head);
        let sdata = converted_data(alloc, self.rows, segment, fields, head.sdata.as_slice())?;
        Ok(Some(Head {
            segment,
            version,
            sdata,
        }))
    }
}

/// Data with their values converted.
fn converted_data(
    alloc: Global,
    rows: &[Convert],
    segment: TypeNo,
    fields: &[Field],
    sdata: &[u8],
) -> Result<Items<u8>, OutOfMemory>
    requires kept { AreFields fields.now }
    requires room { HaveRoom fields.now
        (λ field. converted_text rows.now segment field (text_in fields.now sdata.now field)) }
    ensures { IfOk result (λ converted. converted ≡ data_of fields.now
        (λ field. converted_text rows.now segment field (text_in fields.now sdata.now field))) }
{
    let mut converted = Vec::new(alloc);
    for (place, field) in fields.iter().enumerate() {
        let text = converted_text(rows, segment, place, field.text(sdata));
        field.put_text(text, &mut converted)?;
    }
    Ok(without_blanks(converted))
}

/// The value in the place of a value: that of the first row that replaces it, or itself.
fn converted_text<'t>(
    rows: &'t [Convert],
    segment: TypeNo,
    field: usize,
    value: &'t [u8],
) -> &'t [u8]
    ensures { result.now ≡ converted_text rows.now segment field value.now }
{
    for row in rows {
        if replaces(row, segment, field, value) {
            return row.to.as_slice();
        }
    }
    value
}

/// Whether a row replaces this value of this field of this segment type.
fn replaces(row: &Convert, segment: TypeNo, field: usize, value: &[u8]) -> bool
    ensures { result ≡ replaces segment field value.now row.now }
{
    row.segment == segment && usize::from(row.field) == field && row.from.as_slice() == value
}
