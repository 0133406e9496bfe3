//! The last status of a document.

ghost use Rattle.std.specs.Prelude.{◌≡◌};
ghost use Rattle.application_rules.specs.Last.{last_is};

use status_log::StatusAt;

/// Whether the last of these statuses has a code; false where there is none.
pub fn last_is(code: u8, statuses: &[StatusAt]) -> bool
    ensures { result ≡ last_is code statuses.now }
{
    match statuses.last() {
        None => false,
        Some(one) => one.status.code == code,
    }
}
