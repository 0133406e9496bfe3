//! Bytes and digits behind a text.

ghost use Rattle.std.specs.Prelude.{◌≡◌, ◌≤◌, ◌+◌, ◌++◌, length, OnOk};
ghost use Rattle.std.specs.Fmt.{decimal};
ghost use Rattle.idoc_record.specs.Digits.{decimal_digits};

use ale_base::OutOfMemory;
use std::alloc::Global;

/// Appends bytes.
pub(crate) fn put(text: &mut Vec<u8>, bytes: &[u8]) -> Result<(), OutOfMemory>
    ensures { OnOk result (text.new.items ≡ text.old.items ++ bytes.now) }
{
    text.extend_from_slice(bytes)?;
    Ok(())
}

/// Appends the lowest six digits of a number.
pub(crate) fn put_six_digits(text: &mut Vec<u8>, number: u32) -> Result<(), OutOfMemory>
    ensures written { OnOk result (text.new.items ≡ text.old.items ++ decimal_digits 6 number) }
    ensures short { OnOk result (length text.new.items ≤ length text.old.items + 6) }
{
    let digits = six_digits(number);
    put(text, &digits)
}

/// The lowest six digits of a number.
#[tactic(auto, unfolding(idoc_record::specs::Digits::decimal_digits))]
fn six_digits(number: u32) -> [u8; 6]
    ensures { result ≡ decimal_digits 6 number }
{
    let mut digits = [b'0'; 6];
    put_digits(&mut digits, number);
    digits
}

/// Fills the slice with the lowest digits of the number, the highest of them first.
#[tactic(auto, unfolding(idoc_record::specs::Digits::decimal_digits))]
fn put_digits(into: &mut [u8], number: u32)
    ensures { into.new ≡ decimal_digits (length into.old) number }
{
    let mut number = number;
    let mut at = into.len();
    while at > 0 {
        at -= 1;
        into[at] = b'0' + (number % 10) as u8;
        number /= 10;
    }
}

/// Appends a number.
pub(crate) fn put_number(alloc: Global, text: &mut Vec<u8>, number: u32) -> Result<(), OutOfMemory>
    ensures { OnOk result (text.new.items ≡ text.old.items ++ decimal number) }
{
    put(text, number.to_string(alloc)?.as_bytes())
}
