//! Blanks at the end of a text.

ghost use Rattle.std.specs.Prelude.{◌≡◌};
ghost use Rattle.ale_base.specs.Blanks.{trimmed};

/// The bytes without the blanks at their end. A blank is the space alone.
pub fn trimmed(bytes: &[u8]) -> &[u8]
    ensures { result.now ≡ trimmed bytes.now }
{
    let mut end = bytes.len();
    while end > 0 && bytes[end - 1] == b' ' {
        end -= 1;
    }
    &bytes[..end]
}
