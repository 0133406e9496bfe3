//! Bytes and numbers, appended to a text.

ghost use Rattle.std.specs.Prelude.{◌≡◌, ◌++◌, OnOk, OnErr};
ghost use Rattle.std.specs.Fmt.{decimal};
ghost use Rattle.report_text.specs.Reply.{counted};

use ale_base::OutOfMemory;
use std::alloc::Global;

/// Appends these bytes. After an `Err` nothing was appended.
pub(crate) fn put(text: &mut Vec<u8>, bytes: &[u8]) -> Result<(), OutOfMemory>
    ensures written { OnOk result (text.new.items ≡ text.old.items ++ bytes.now) }
    ensures err { OnErr result (text.new.items ≡ text.old.items) }
{
    text.extend_from_slice(bytes)?;
    Ok(())
}

/// Appends a number.
pub(crate) fn put_number(alloc: Global, text: &mut Vec<u8>, number: u64) -> Result<(), OutOfMemory>
    ensures { OnOk result (text.new.items ≡ text.old.items ++ decimal number) }
{
    put(text, number.to_string(alloc)?.as_bytes())
}

/// Appends a word, a blank and a number.
pub(crate) fn put_counted(
    alloc: Global,
    text: &mut Vec<u8>,
    word: &[u8],
    number: u64,
) -> Result<(), OutOfMemory>
    ensures { OnOk result (text.new.items ≡ text.old.items ++ counted word.now number) }
{
    put(text, word)?;
    put(text, b" ")?;
    put_number(alloc, text, number)
}
