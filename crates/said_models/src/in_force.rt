//! The text in force behind a log.

ghost use Rattle.std.specs.Prelude.{◌≡◌};
ghost use Rattle.std.specs.Option.{option_copied};
ghost use Rattle.said_models.specs.OfLog.{differs, text_in_force, text_of};

use unit_core::Record;

/// The text in force behind a log: that of its last record with one. None exactly where no record has one. It goes through the log once.
pub fn text_in_force(log: &[Record]) -> Option<&[u8]>
    ensures { option_copied result ≡ text_in_force log.now }
{
    let mut found = None;
    for next in log {
        if let Some(text) = text_of(next) {
            found = Some(text);
        }
    }
    found
}

/// Whether another text than this one is in force behind a log, or none.
pub fn differs(text: &[u8], log: &[Record]) -> bool
    ensures { result ≡ differs text.now log.now }
{
    match text_in_force(log) {
        Some(here) => text != here,
        None => true,
    }
}

/// The text of the model that a record brings into force.
fn text_of(next: &Record) -> Option<&[u8]>
    ensures { option_copied result ≡ text_of next.now }
{
    match next {
        Record::Genesis { text, .. } | Record::Model { text } => Some(text.as_slice()),
        _ => None,
    }
}
