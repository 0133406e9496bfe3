//! Which segment types leave a document, by which way, and what is missed then.

ghost use Rattle.std.specs.Prelude.{◌≡◌, ◌==◌, ℕ, IfOk, is_none, length, map, nat_eq};
ghost use Rattle.std.specs.List.{list_any};
ghost use Rattle.segment_defs.specs.Definitions.{versions_of, AreDefinitions};
ghost use Rattle.segment_defs.specs.SegmentType.{newest_by};
ghost use Rattle.dist_model.specs.Outbound.{goes_below, gone, is_missed, removes};
ghost use Rattle.model_text.specs.Whole.{leaves_by, missed, missed_with};

use ale_base::{Items, OutOfMemory};
use dist_model::{Numbers, Outbound};
use segment_defs::{Definitions, TypeNo, TypePlace};
use std::alloc::Global;

/// By which way segment types leave a document.
#[derive(Clone, Copy, PartialEq, Eq)]
pub(crate) enum By {
    /// The profile removes them.
    Removal,
    /// They have no definition by the release of the profile.
    Release,
    /// Either of these.
    Either,
}

/// The segment types of a list.
pub(crate) fn types_in(alloc: Global, segments: &[TypeNo]) -> Result<Numbers, OutOfMemory>
    ensures { IfOk result (λ types. (segment : ℕ) →
        list_any (nat_eq segment) types ≡ list_any (nat_eq segment) segments.now) }
{
    let mut types = Numbers::new(alloc);
    for segment in segments {
        types.add(usize::from(segment.0))?;
    }
    Ok(types)
}

/// Whether a segment type is among some.
pub(crate) fn has_type(types: &Numbers, segment: TypeNo) -> bool
    ensures { result ≡ list_any (nat_eq segment) types.now }
{
    has_number(types, usize::from(segment.0))
}

fn has_number(types: &Numbers, number: usize) -> bool
    ensures { result ≡ list_any (nat_eq number) types.now }
{
    types.place(number).is_some()
}

/// Whether a segment type has no definition by a release.
fn lacks_version(definitions: &Definitions, release: u8, segment: TypeNo) -> bool
    requires { AreDefinitions definitions.now }
    ensures { result ≡ is_none (newest_by release (versions_of definitions.now segment)) }
{
    let number = segment.0;
    if usize::from(number) >= definitions.types.len() {
        return true;
    }
    definitions.newest_by(segment, release).is_none()
}

/// Whether a segment type leaves a document by this way. The table has the segment types that the profile removes.
fn leaves(
    by: By,
    definitions: &Definitions,
    profile: &Outbound,
    removed: &Numbers,
    segment: TypeNo,
) -> bool
    requires definitions { AreDefinitions definitions.now }
    requires removed { (segment : ℕ) → list_any (nat_eq segment) removed.now ≡ removes profile.now segment }
    ensures { result ≡ leaves_by by definitions.now profile.now segment }
{
    match by {
        By::Removal => has_type(removed, segment),
        By::Release => lacks_version(definitions, profile.release, segment),
        By::Either => {
            has_type(removed, segment) || lacks_version(definitions, profile.release, segment)
        }
    }
}

/// Whether what stands below a parent leaves with it.
fn goes_below(gone: &[bool], parent: Option<u16>) -> bool
    ensures { result ≡ goes_below gone.now parent }
{
    let Some(parent) = parent else {
        // the document itself never leaves
        return false;
    };
    match gone.get(usize::from(parent)) {
        None => false,
        Some(goes) => *goes,
    }
}

/// Which entries leave a document: those whose segment type does, and all below one that does.
fn gone_of(
    alloc: Global,
    by: By,
    definitions: &Definitions,
    profile: &Outbound,
    removed: &Numbers,
    entries: &[TypePlace],
) -> Result<Items<bool>, OutOfMemory>
    requires definitions { AreDefinitions definitions.now }
    requires removed { (segment : ℕ) → list_any (nat_eq segment) removed.now ≡ removes profile.now segment }
    ensures { IfOk result (λ which. which ≡ gone (leaves_by by definitions.now profile.now) entries.now) }
{
    let mut gone = Items::new(alloc);
    for entry in entries {
        // a parent stands before what is below it
        let goes = leaves(by, definitions, profile, removed, entry.segment)
            || goes_below(gone.as_slice(), entry.parent);
        gone.push(goes)?;
    }
    Ok(gone)
}

/// Whether an entry is mandatory and goes by itself, though its parent stays.
fn is_missed(goes: bool, gone: &[bool], entry: &TypePlace) -> bool
    ensures { result ≡ is_missed (λ segment. goes) gone.now entry.now }
{
    entry.mandatory && goes && !goes_below(gone, entry.parent)
}

/// The segment types that are missed where they leave by one way, and more segment types by another.
pub(crate) fn missed_of(
    alloc: Global,
    by: By,
    more: By,
    definitions: &Definitions,
    profile: &Outbound,
    removed: &Numbers,
    entries: &[TypePlace],
) -> Result<Items<TypeNo>, OutOfMemory>
    requires definitions { AreDefinitions definitions.now }
    requires removed { (segment : ℕ) → list_any (nat_eq segment) removed.now ≡ removes profile.now segment }
    ensures { IfOk result (λ segments. segments ≡ missed (leaves_by by definitions.now profile.now)
        (leaves_by more definitions.now profile.now) entries.now) }
{
    let gone = gone_of(alloc, more, definitions, profile, removed, entries)?;
    missed_in(
        alloc,
        by,
        definitions,
        profile,
        removed,
        gone.as_slice(),
        entries,
    )
}

fn missed_in(
    alloc: Global,
    by: By,
    definitions: &Definitions,
    profile: &Outbound,
    removed: &Numbers,
    gone: &[bool],
    entries: &[TypePlace],
) -> Result<Items<TypeNo>, OutOfMemory>
    requires definitions { AreDefinitions definitions.now }
    requires removed { (segment : ℕ) → list_any (nat_eq segment) removed.now ≡ removes profile.now segment }
    ensures { IfOk result (λ segments. segments ≡ missed_with (leaves_by by definitions.now profile.now) gone.now entries.now) }
{
    let mut segments = Items::new(alloc);
    for entry in entries {
        let goes = leaves(by, definitions, profile, removed, entry.segment);
        if is_missed(goes, gone, entry) {
            segments.push(entry.segment)?;
        }
    }
    Ok(segments)
}
