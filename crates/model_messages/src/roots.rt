//! The roots of IDoc types.

ghost use Rattle.std.specs.Prelude.{◌≡◌, ◌&&◌, not};
ghost use Rattle.std.specs.List.{list_all};
ghost use Rattle.dist_model.specs.Message.{is_near_root, is_root_enough};
ghost use Rattle.model_messages.specs.Messages.{has_root};

use segment_defs::{TypeNo, TypePlace};

/// Whether the root of some entries is of a segment type.
pub(crate) fn has_root(entries: &[TypePlace], segment: TypeNo) -> bool
    ensures { result ≡ has_root entries.now segment }
{
    match entries.first() {
        None => false,
        Some(root) => root.segment == segment,
    }
}

/// Whether an object alone is a document: the root is the only mandatory entry at the root level and below itself.
pub(crate) fn is_root_enough(entries: &[TypePlace]) -> bool
    ensures { result ≡ is_root_enough entries.now }
{
    match entries.split_first() {
        None => true,
        Some((_, others)) => is_none_needed(others),
    }
}

/// Whether an object alone is a document as far as these entries behind the root are concerned.
fn is_none_needed(entries: &[TypePlace]) -> bool
    ensures { result ≡ list_all (λ entry. not (entry.mandatory && is_near_root entry.parent)) entries.now }
{
    entries.iter().all(|entry| !is_needed(entry))
}

/// Whether an entry is mandatory in each document, since it is at the root level or just below the first one.
fn is_needed(entry: &TypePlace) -> bool
    ensures { result ≡ (entry.now.mandatory && is_near_root entry.now.parent) }
{
    entry.mandatory && is_near_root(entry.parent)
}

/// Whether an entry with this parent is at the root level or just below the first one.
fn is_near_root(parent: Option<u16>) -> bool
    ensures { result ≡ is_near_root parent }
{
    match parent {
        None => true,
        Some(place) => place == 0,
    }
}
