//! What of a model another one does not keep.

ghost use Rattle.std.specs.Prelude.{◌≡◌, ◌↔◌, None, IfOk};
ghost use Rattle.std.specs.List.{starts_with};
ghost use Rattle.ale_base.specs.Text.{is_text};
ghost use Rattle.model_keys.specs.Finding.{element};
ghost use Rattle.model_growth.specs.Growth.{first_unkept, first_unkept_entry, IsGrown};
ghost use Rattle.model_growth.specs.Paths.{path_of};

use crate::entry::{first_lost, keep_all};
use ale_base::{Items, OutOfMemory};
use dist_model::Lists;
use model_keys::element;
use std::alloc::Global;

/// What of a model another one does not keep. Places are from 0, in the lists of the model that is to be replaced.
#[derive(Clone, Copy, PartialEq, Eq)]
pub enum Unkept {
    /// The releases: those of the new model do not begin with them.
    Releases,
    /// The systems: those of the new model have not the same names and clients in the same order.
    Systems,
    /// A segment type: none of the same name begins with its definitions.
    Segment(usize),
    /// An IDoc type: none of the same name has its entries.
    IdocType(usize),
    /// A kind: none of the same name has its segment type and its key.
    Kind(usize),
    /// A message type: none of the same name has its IDoc type, its kind, its posting and its lists of fields.
    Message(usize),
    /// A reduced message type: none of the same name has its message type and keeps its fields.
    Reduced(usize),
}

impl Unkept {
    /// The path to it in the text of the model that is to be replaced.
    pub fn path(&self, alloc: Global) -> Result<Items<u8>, OutOfMemory>
        ensures { IfOk result (λ path. path ≡ path_of self.now) }
    {
        match self {
            Unkept::Releases => Ok(Items::from_slice(alloc, b"releases")?),
            Unkept::Systems => Ok(Items::from_slice(alloc, b"system")?),
            Unkept::Segment(place) => entry_path(alloc, "segment", *place),
            Unkept::IdocType(place) => entry_path(alloc, "idoctype", *place),
            Unkept::Kind(place) => entry_path(alloc, "kind", *place),
            Unkept::Message(place) => entry_path(alloc, "message", *place),
            Unkept::Reduced(place) => entry_path(alloc, "reduced", *place),
        }
    }
}

/// The path to the entry at a place of a section.
fn entry_path(alloc: Global, section: &str, place: usize) -> Result<Items<u8>, OutOfMemory>
    ensures { IfOk result (λ path. path ≡ element section.now place) }
{
    Ok(Items::from_vec(element(alloc, section, place)?))
}

/// The first part of the old model that the new one does not keep, of what a replacement has to keep. None exactly where it keeps
/// all of it. That no document waits is looked at elsewhere. Both are the lists of models: in others a number may stand for
/// nothing, or a name twice. It takes no memory. By design, its time grows with the lists of the models where each entry is kept
/// by the one at its place, and else with the lists of the one times those of the other.
pub fn first_unkept(old: &Lists, new: &Lists) -> Option<Unkept>
    ensures first { result ≡ first_unkept old.now new.now }
    ensures none { (result ≡ None) ↔ IsGrown old.now new.now }
{
    if !begins_with(new.releases.as_slice(), old.releases.as_slice()) {
        return Some(Unkept::Releases);
    }
    if !keep_all(old, new, &old.systems, &new.systems) {
        return Some(Unkept::Systems);
    }
    first_unkept_entry(old, new)
}

fn begins_with(releases: &[Items<u8>], front: &[Items<u8>]) -> bool
    ensures { result ≡ starts_with is_text releases.now front.now }
{
    releases.starts_with(front)
}

/// The first entry of the lists of the old model that the new one does not keep.
fn first_unkept_entry(old: &Lists, new: &Lists) -> Option<Unkept>
    ensures { result ≡ first_unkept_entry old.now new.now }
{
    let types = &old.definitions.types;
    if let Some(place) = first_lost(old, new, types, &new.definitions.types) {
        return Some(Unkept::Segment(place));
    }
    if let Some(place) = first_lost(old, new, &old.types, &new.types) {
        return Some(Unkept::IdocType(place));
    }
    if let Some(place) = first_lost(old, new, &old.kinds, &new.kinds) {
        return Some(Unkept::Kind(place));
    }
    if let Some(place) = first_lost(old, new, &old.messages, &new.messages) {
        return Some(Unkept::Message(place));
    }
    if let Some(place) = first_lost(old, new, &old.reduced, &new.reduced) {
        return Some(Unkept::Reduced(place));
    }
    None
}
