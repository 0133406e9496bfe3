//! Parts of records.

ghost use Rattle.std.specs.Prelude.{◌≡◌, ◌≤◌, length};
ghost use Rattle.ale_base.specs.Blanks.{padded};

/// Writes a text, and blanks behind it.
pub(crate) fn put_padded(into: &mut [u8], text: &[u8])
    requires { length text.now ≤ length into.old }
    ensures { into.new ≡ padded (length into.old) text.now }
{
    let (front, back) = into.split_at_mut(text.len());
    front.copy_from_slice(text);
    back.fill(b' ');
}
