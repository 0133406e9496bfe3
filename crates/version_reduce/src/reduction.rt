//! Reduced messages.

ghost use Rattle.std.specs.Prelude.{◌≡◌, false, IfOk, if◌then◌else◌, List};
ghost use Rattle.segment_defs.specs.declared.idoc_type.TypePlace.{TypePlace};
ghost use Rattle.segment_defs.specs.Version.{AreFields, data_of, field_text, text_in};
ghost use Rattle.dist_model.specs.Outbound.{removes};
ghost use Rattle.idoc_tree.specs.Forest.{AllNodes};
ghost use Rattle.idoc_tree.specs.Nodes.{forest_of};
ghost use Rattle.idoc_reading.specs.Document.{IsOfEntries};
ghost use Rattle.version_reduce.specs.Reduced.{IsReducedFrom, are_of, is_kept, kept_fields, no_data, reduced};

use crate::head::Head;
use crate::texts::fields_of;
use crate::walk::{Step, walk};
use ale_base::{Items, OutOfMemory};
use dist_model::{FieldPlace, Lists, Model, Outbound};
use idoc_tree::Node;
use segment_defs::{Definitions, Field, TypeNo, without_blanks};
use std::alloc::Global;

/// A forest as the reduced message type of a profile has it: in a segment whose type that names, each field of the
/// segment's definition that it does not keep becomes `/`, also where it was blank. A segment of a type that it does not
/// name is whole, and where the profile has no reduced message type all are. Source: SAP Library, ALE, reduction.
pub fn reduce_message(
    alloc: Global,
    model: &Model,
    profile: &Outbound,
    forest: Vec<Node>,
) -> Result<Vec<Node>, OutOfMemory>
    ensures map { IfOk result (λ sent. forest_of sent.items ≡ reduced model.now profile.now (forest_of forest.items)) }
    ensures each { IfOk result (λ sent. IsReducedFrom model.now profile.now (forest_of forest.items) (forest_of sent.items)) }
    ensures gone { AllNodes (λ segment. removes profile.now segment.type ≡ false) (forest_of forest.items)
        → IfOk result (λ sent. AllNodes (λ segment. removes profile.now segment.type ≡ false) (forest_of sent.items)) }
    // A document by the entries of an IDoc type stays one.
    ensures of_entries { (entries : List TypePlace) → IsOfEntries model.now.definitions entries (forest_of forest.items)
        → IfOk result (λ sent. IsOfEntries model.now.definitions entries (forest_of sent.items)) }
{
    let lists = model.as_lists();
    let step = Reduction {
        definitions: &lists.definitions,
        keep: kept_fields(lists, profile),
    };
    let sent = walk(alloc, &step, forest)?;
    Ok(sent)
}

/// The fields that the reduced message type of a profile keeps; none where the profile has none.
fn kept_fields<'m>(lists: &'m Lists, profile: &Outbound) -> &'m [FieldPlace]
    ensures { result.now ≡ kept_fields lists.now profile.now }
{
    let Some(place) = profile.reduced else {
        return &[];
    };
    match lists.reduced.get(usize::from(place)) {
        None => &[],
        Some(one) => one.keep.as_slice(),
    }
}

/// Fields that are not kept get no data.
#[derive(Clone, Copy)]
struct Reduction<'m> {
    definitions: &'m Definitions,
    /// The fields that are kept.
    keep: &'m [FieldPlace],
}

impl<'m> Step for Reduction<'m> {
    ghost use Rattle.std.specs.Prelude.{false};
    ghost use Rattle.segment_defs.specs.Definitions.{AreDefinitions};
    ghost use Rattle.version_reduce.specs.Reduced.{reduced_segment};

    ghost IsReady = { λ step. AreDefinitions step.definitions.now };

    ghost goes = { λ step segment. false };

    ghost change = { λ step segment. reduced_segment step.definitions.now step.keep.now segment };

    fn apply(&self, alloc: Global, head: Head) -> Result<Option<Head>, OutOfMemory> {
        let segment = head.segment;
        let version = head.version;
        if !are_of(self.keep, segment) {
            return Ok(Some(head));
        }
        let fields = fields_of(self.definitions, &head);
        let sdata = reduced_data(alloc, self.keep, segment, fields, head.sdata.as_slice())?;
        Ok(Some(Head {
            segment,
            version,
            sdata,
        }))
    }
}

/// Whether some fields that are kept name a segment type.
fn are_of(keep: &[FieldPlace], segment: TypeNo) -> bool
    ensures { result ≡ are_of keep.now segment }
{
    keep.iter().any(|place| place.segment == segment)
}

/// Whether a field of a segment type is kept.
fn is_kept(keep: &[FieldPlace], segment: TypeNo, field: usize) -> bool
    ensures { result ≡ is_kept keep.now segment field }
{
    keep.iter().any(|place| place.segment == segment && usize::from(place.field) == field)
}

/// Data with no data in the fields that are not kept.
fn reduced_data(
    alloc: Global,
    keep: &[FieldPlace],
    segment: TypeNo,
    fields: &[Field],
    sdata: &[u8],
) -> Result<Items<u8>, OutOfMemory>
    requires { AreFields fields.now }
    ensures { IfOk result (λ reduced. reduced ≡ data_of fields.now
        (λ field. if is_kept keep.now segment field then text_in fields.now sdata.now field else no_data)) }
{
    let mut reduced = Vec::new(alloc);
    for (place, field) in fields.iter().enumerate() {
        let text = reduced_text(keep, segment, place, field, sdata);
        field.put_text(text, &mut reduced)?;
    }
    Ok(without_blanks(reduced))
}

/// The text of a field, or no data where it is not kept.
fn reduced_text<'s>(
    keep: &[FieldPlace],
    segment: TypeNo,
    place: usize,
    field: &Field,
    sdata: &'s [u8],
) -> &'s [u8]
    ensures { result.now ≡ (if is_kept keep.now segment place then field_text sdata.now field.now else no_data) }
{
    if is_kept(keep, segment, place) {
        field.text(sdata)
    } else {
        b"/"
    }
}
