//! What a receiver makes of a unit.

ghost use Rattle.std.specs.Prelude.{◌≡◌, ◌≤◌, IfOk, length, map};
ghost use Rattle.std.specs.List.{AllZip};
ghost use Rattle.inbound_post.specs.Prepared.{IsByProfile, functions_of, offers, posting_from, prepared};

use crate::{DocPosting, Prepared, posting};
use ale_base::{Fixed, Items, OutOfMemory, SystemNo};
use dist_model::{InboundMode, Lists, Model};
use idoc_record::ControlField;
use std::alloc::Global;
use unit_core::{AleUnit, RawUnitDoc};

/// What a receiver makes of a unit: whether it offers the unit's function, and what becomes of each document. It is an error where
/// there is no inbound profile for the receiver, the sender and MESTYP, or the document is not read by its type; and else it is
/// posted, or waits where the profile says so. It depends on the unit and the model alone.
pub fn prepare(
    alloc: Global,
    model: &Model,
    receiver: SystemNo,
    unit: &AleUnit,
) -> Result<Prepared, OutOfMemory>
    ensures made { IfOk result (λ made. made ≡ prepared model.now receiver unit.now) }
    ensures profiles { IfOk result (λ made. AllZip (IsByProfile model.now receiver unit.now.sender) unit.now.docs made.postings) }
{
    let postings = postings_from(alloc, model, receiver, unit.sender, unit.docs.as_slice())?;
    Ok(Prepared {
        offered: offers(model.as_lists(), receiver, &unit.function),
        postings,
    })
}

/// What becomes of each document that a receiver gets from a sender.
fn postings_from(
    alloc: Global,
    model: &Model,
    receiver: SystemNo,
    sender: SystemNo,
    docs: &[RawUnitDoc],
) -> Result<Items<DocPosting>, OutOfMemory>
    ensures { IfOk result (λ postings. postings ≡ map (posting_from model.now receiver sender) docs.now) }
{
    let mut postings = Items::new(alloc);
    for doc in docs {
        postings.push(posting_from(alloc, model, receiver, sender, doc)?)?;
    }
    Ok(postings)
}

/// What becomes of a document that a receiver gets from a sender.
fn posting_from(
    alloc: Global,
    model: &Model,
    receiver: SystemNo,
    sender: SystemNo,
    doc: &RawUnitDoc,
) -> Result<DocPosting, OutOfMemory>
    ensures { IfOk result (λ becomes. becomes ≡ posting_from model.now receiver sender doc.now) }
{
    match model.inbound(receiver, sender, doc.text(ControlField::Mestyp)) {
        None => Ok(DocPosting::Errors),
        Some(profile) => match posting(alloc, model, doc)? {
            None => Ok(DocPosting::Errors),
            Some(posting) => match profile.mode {
                InboundMode::Immediate => Ok(DocPosting::Post(posting)),
                InboundMode::Background => Ok(DocPosting::Waits),
            },
        },
    }
}

/// Whether a system offers a function.
fn offers(model: &Lists, system: SystemNo, function: &Fixed<30>) -> bool
    ensures { result ≡ offers model.now system function.now }
{
    match model.systems.get(usize::from(system.get()) - 1) {
        None => false,
        Some(system) => system.functions.iter().any(|own| own == function),
    }
}
