//! The keys of the sections on message types, and the words at them.

pub(crate) const KIND: &str = "kind";

pub(crate) const MESSAGE: &str = "message";

pub(crate) const REDUCED: &str = "reduced";

pub(crate) const FILTER: &str = "filter";

pub(crate) const NAME: &str = "name";

pub(crate) const SEGMENT: &str = "segment";

pub(crate) const KEY: &str = "key";

pub(crate) const IDOCTYPE: &str = "idoctype";

pub(crate) const POSTING: &str = "posting";

pub(crate) const REQUIRED: &str = "required";

pub(crate) const POINTERS: &str = "pointers";

pub(crate) const KEEP: &str = "keep";

pub(crate) const FIELD: &str = "field";

/// The keys of a kind.
pub(crate) const KIND_KEYS: [&str; 3] = [NAME, SEGMENT, KEY];

/// The keys of a message type.
pub(crate) const MESSAGE_KEYS: [&str; 6] = [NAME, IDOCTYPE, KIND, POSTING, REQUIRED, POINTERS];

/// The keys of a reduced message type.
pub(crate) const REDUCED_KEYS: [&str; 3] = [NAME, MESSAGE, KEEP];

/// The keys of a filter.
pub(crate) const FILTER_KEYS: [&str; 4] = [NAME, MESSAGE, SEGMENT, FIELD];

/// A posting that makes the object or changes it.
pub(crate) const UPSERT: &str = "upsert";

/// A posting that makes the object.
pub(crate) const INSERT: &str = "insert";
