//! The keys of the sections, and what stands for those that may be absent.

pub(crate) const ROW: &str = "row";

pub(crate) const OUTBOUND: &str = "outbound";

pub(crate) const INBOUND: &str = "inbound";

pub(crate) const SENDER: &str = "sender";

pub(crate) const RECEIVER: &str = "receiver";

pub(crate) const MESSAGE: &str = "message";

pub(crate) const GROUP: &str = "group";

pub(crate) const MODE: &str = "mode";

pub(crate) const OUTMOD: &str = "outmod";

pub(crate) const PACKET: &str = "packet";

pub(crate) const RELEASE: &str = "release";

pub(crate) const REDUCED: &str = "reduced";

pub(crate) const REMOVE: &str = "remove";

pub(crate) const CONVERT: &str = "convert";

pub(crate) const PORT: &str = "port";

pub(crate) const FUNCTION: &str = "function";

pub(crate) const OUTQ: &str = "outq";

pub(crate) const INQ: &str = "inq";

pub(crate) const SEGMENT: &str = "segment";

pub(crate) const FIELD: &str = "field";

pub(crate) const FROM: &str = "from";

pub(crate) const TO: &str = "to";

pub(crate) const TEXT: &str = "text";

/// The keys of a row.
pub(crate) const ROW_KEYS: [&str; 4] = [SENDER, RECEIVER, MESSAGE, GROUP];

/// The keys of a profile of what is sent.
pub(crate) const OUTBOUND_KEYS: [&str; 13] = [
    SENDER, RECEIVER, MESSAGE, OUTMOD, PACKET, RELEASE, REDUCED, REMOVE, CONVERT, PORT, FUNCTION,
    OUTQ, INQ,
];

/// The keys of a profile of what is received.
pub(crate) const INBOUND_KEYS: [&str; 4] = [RECEIVER, SENDER, MESSAGE, MODE];

/// The keys of a value that is replaced.
pub(crate) const CONVERT_KEYS: [&str; 4] = [SEGMENT, FIELD, FROM, TO];

/// The keys of a rule that names a queue.
pub(crate) const RULE_KEYS: [&str; 3] = [TEXT, SEGMENT, FIELD];

/// The mode of a profile that posts with the unit. It stands for an absent key too.
pub(crate) const IMMEDIATE: &str = "immediate";

/// The mode of a profile that posts later.
pub(crate) const BACKGROUND: &str = "background";

/// The function that receives where a profile names none.
pub(crate) const STANDARD_FUNCTION: &str = "IDOC_INBOUND_ASYNCHRONOUS";
