//! The digits of numbers.
ghost use Rattle.std.specs.Prelude.{◌≡◌, ◌<◌, ◌≤◌, ◌^◌, ◌↔◌, IsTrue, false};
ghost use Rattle.std.specs.Fmt.{digits, digit_glyph};

/// The digit of a number below 16, in lower case.
fn digit(n: u128) -> u8
    requires { n < 16 }
    ensures { result ≡ digit_glyph false n }
{
    if n < 10 {
        b'0' + n as u8
    } else {
        b'a' + (n - 10) as u8
    }
}

/// Whether these are the digits of the number in the base, in lower case and without leading zeros.
pub(crate) fn are_digits(text: &[u8], n: u128, base: u128) -> bool
    requires low { 2 ≤ base }
    requires high { base ≤ 16 }
    requires room { n < base ^ 64 }
    ensures { IsTrue result ↔ (text.now ≡ digits base false n) }
{
    let Some((last, front)) = text.split_last() else {
        return false;
    };
    if *last != digit(n % base) {
        false
    } else if n < base {
        front.is_empty()
    } else {
        are_digits(front, n / base, base)
    }
}
