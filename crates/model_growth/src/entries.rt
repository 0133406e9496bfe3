//! Whether an entry of a new model keeps one of an old model, kind by kind of entry.

ghost use Rattle.std.specs.Prelude.{◌≡◌};
ghost use Rattle.std.specs.List.{starts_with};
ghost use Rattle.model_growth.specs.Tests.{same_posting, same_version};

use crate::entry::{Entry, keep_all};
use dist_model::{
    FieldPlace, Kind, Lists, Message, PostingMode, Reduced, System, idoc_type_name, kind_name,
    message_name, segment_name,
};
use segment_defs::{IdocType, SegmentType, TypePlace, Version};

impl Entry for System {
    ghost use Rattle.model_growth.specs.Tests.{keeps_system};

    ghost keeps = { λ _ _. keeps_system };

    fn is_kept(&self, _: &Lists, other: &System, _: &Lists) -> bool {
        self.name == other.name && self.client == other.client
    }
}

impl Entry for SegmentType {
    ghost use Rattle.model_growth.specs.Tests.{keeps_type};

    ghost keeps = { λ _ _. keeps_type };

    fn is_kept(&self, _: &Lists, other: &SegmentType, _: &Lists) -> bool {
        self.name == other.name && begins_with(other.versions.as_slice(), self.versions.as_slice())
    }
}

fn begins_with(versions: &[Version], front: &[Version]) -> bool
    ensures { result ≡ starts_with same_version versions.now front.now }
{
    versions.starts_with(front)
}

impl Entry for IdocType {
    ghost use Rattle.model_growth.specs.Tests.{keeps_idoc_type};

    ghost keeps = { keeps_idoc_type };

    fn is_kept(&self, old: &Lists, other: &IdocType, new: &Lists) -> bool {
        self.name == other.name && keep_all(old, new, &self.segments, &other.segments)
    }
}

impl Entry for TypePlace {
    ghost use Rattle.model_growth.specs.Tests.{keeps_entry};

    ghost keeps = { keeps_entry };

    fn is_kept(&self, old: &Lists, other: &TypePlace, new: &Lists) -> bool {
        segment_name(old, self.segment) == segment_name(new, other.segment)
            && self.parent == other.parent
            && self.mandatory == other.mandatory
            && self.min == other.min
            && self.max == other.max
    }
}

impl Entry for Kind {
    ghost use Rattle.model_growth.specs.Tests.{keeps_kind};

    ghost keeps = { keeps_kind };

    fn is_kept(&self, old: &Lists, other: &Kind, new: &Lists) -> bool {
        self.name == other.name
            && segment_name(old, self.segment) == segment_name(new, other.segment)
            && self.key == other.key
    }
}

impl Entry for Message {
    ghost use Rattle.model_growth.specs.Tests.{keeps_message};

    ghost keeps = { keeps_message };

    fn is_kept(&self, old: &Lists, other: &Message, new: &Lists) -> bool {
        self.name == other.name
            && idoc_type_name(old, self.idoctype) == idoc_type_name(new, other.idoctype)
            && kind_name(old, self.kind) == kind_name(new, other.kind)
            && same_posting(self.posting, other.posting)
            && self.required == other.required
            && self.pointers == other.pointers
    }
}

fn same_posting(posting: PostingMode, other: PostingMode) -> bool
    ensures { result ≡ same_posting posting other }
{
    posting == other
}

impl Entry for Reduced {
    ghost use Rattle.model_growth.specs.Tests.{keeps_reduced};

    ghost keeps = { keeps_reduced };

    fn is_kept(&self, old: &Lists, other: &Reduced, new: &Lists) -> bool {
        self.name == other.name
            && message_name(old, self.message) == message_name(new, other.message)
            && keep_all(old, new, &self.keep, &other.keep)
    }
}

impl Entry for FieldPlace {
    ghost use Rattle.model_growth.specs.Tests.{keeps_field};

    ghost keeps = { keeps_field };

    fn is_kept(&self, old: &Lists, other: &FieldPlace, new: &Lists) -> bool {
        segment_name(old, self.segment) == segment_name(new, other.segment)
            && self.field == other.field
    }
}
