//! Where the lines of a file end.

ghost use Rattle.std.specs.Prelude.{◌≡◌, ◌<◌, ◌∷◌, ◌++◌, length, IfSome, IfNone};
ghost use Rattle.std.specs.List.{AllByRecursion};
ghost use Rattle.ale_base.specs.Lines.{without_return, IsNoEnd};

use memchr::memchr;

/// A line that an LF ends, without the CR before that.
pub fn without_return(line: &[u8]) -> &[u8]
    ensures { result.now ≡ without_return line.now }
{
    match line.strip_suffix(b"\r") {
        Some(front) => front,
        None => line,
    }
}

/// The bytes before the first LF, and those behind it. None exactly where there is no LF.
pub fn split_line(bytes: &[u8]) -> Option<(&[u8], &[u8])>
    ensures found { IfSome result (λ parts. (bytes.now ≡ parts.0.now ++ 10 ∷ parts.1.now) × AllByRecursion IsNoEnd parts.0.now
        × (length parts.1.now < length bytes.now)) }
    ensures none { IfNone result (AllByRecursion IsNoEnd bytes.now) }
{
    match memchr(b'\n', bytes) {
        Some(end) => Some((&bytes[..end], &bytes[end + 1..])),
        None => None,
    }
}
