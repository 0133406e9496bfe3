//! Numbers in upper case hexadecimal digits, of which ids are spelled.

ghost use Rattle.std.specs.Prelude.{◌≡◌, ◌<◌, ◌≤◌, length, MatchOption};
ghost use Rattle.ale_base.specs.Hexadecimal.{digit_of, digits_of, digit_value, number_of};

/// The digit of a number below 16, upper case.
fn digit_of(number: u32) -> u8
    requires { number < 16 }
    ensures { result ≡ digit_of number }
{
    let digit = number as u8;
    if digit < 10 {
        b'0' + digit
    } else {
        b'A' + (digit - 10)
    }
}

/// Fills the slice with the lowest digits of the number, the highest of them first.
#[tactic(auto, unfolding(crate::specs::Hexadecimal::digits_of))]
pub(crate) fn put_digits(into: &mut [u8], number: u32)
    ensures { into.new ≡ digits_of (length into.old) number }
{
    let mut number = number;
    let mut at = into.len();
    while at > 0 {
        at -= 1;
        into[at] = digit_of(number % 16);
        number /= 16;
    }
}

/// The value of a digit, and 0 for any other byte.
fn digit_value(digit: u8) -> u8
    ensures value { result ≡ digit_value digit }
    ensures small { result < 16 }
{
    match digit {
        b'0'..=b'9' => digit - b'0',
        b'A'..=b'F' => digit - b'A' + 10,
        _ => 0,
    }
}

/// The number that at most 12 digits spell.
pub(crate) fn number_of(digits: &[u8]) -> u64
    requires { length digits.now ≤ 12 }
    ensures { result ≡ number_of digits.now }
{
    let mut number = 0;
    for digit in digits {
        number = number * 16 + u64::from(digit_value(*digit));
    }
    number
}
