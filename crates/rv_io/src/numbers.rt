//! Numbers as text, put into a buffer.
ghost use Rattle.std.specs.Prelude.{◌≡◌, ◌+◌, ◌<◌, ◌≤◌, ◌++◌, drop, decimal, OnOk, OnErr, false};
ghost use Rattle.std.specs.Fmt.{digits, digit_glyph, signed_decimal};
ghost use Rattle.rv_io.specs.Numbers.{hex_text};

use crate::buf::Buf;
use crate::memory::Memory;
use itoa::Buffer;

/// The length of `0x` and the digits of the largest `u64`.
const MAX_HEX_LEN: usize = 18;

impl Buf {
    /// Adds the number in decimal. Takes no memory but the buffer's own.
    pub fn put_decimal(&mut self, number: u128) -> Result<(), Memory>
        ensures appended { OnOk result (self.new ≡ self.old ++ decimal number) }
        ensures same { OnErr result (self.new ≡ self.old) }
    {
        let mut digits = Buffer::new();
        self.put(digits.format(number).as_bytes())
    }

    /// Adds the number in decimal, with `-` before it where it is negative. Takes no memory but the buffer's own.
    pub fn put_signed(&mut self, number: i128) -> Result<(), Memory>
        ensures appended { OnOk result (self.new ≡ self.old ++ signed_decimal number) }
        ensures same { OnErr result (self.new ≡ self.old) }
    {
        let mut text = Buffer::new();
        self.put(text.format(number).as_bytes())
    }

    /// Adds `0x` and the number's hexadecimal digits in lower case. Takes no memory but the buffer's own.
    pub fn put_hex(&mut self, number: u64) -> Result<(), Memory>
        ensures appended { OnOk result (self.new ≡ self.old ++ hex_text number) }
        ensures same { OnErr result (self.new ≡ self.old) }
    {
        let mut text = [b'0'; MAX_HEX_LEN];
        let start = write_hex_digits(number, &mut text) - 2;
        text[start] = b'0';
        text[start + 1] = b'x';
        self.put(&text[start..])
    }

    /// Adds the number's hexadecimal digits in lower case, without `0x`. Takes no memory but the buffer's own.
    pub fn put_hex_digits(&mut self, number: u64) -> Result<(), Memory>
        ensures appended { OnOk result (self.new ≡ self.old ++ digits 16 false number) }
        ensures same { OnErr result (self.new ≡ self.old) }
    {
        let mut text = [b'0'; MAX_HEX_LEN];
        let start = write_hex_digits(number, &mut text);
        self.put(&text[start..])
    }
}

/// The hexadecimal digit of a number below 16, in lower case.
fn hex_digit(number: u64) -> u8
    requires { number < 16 }
    ensures { result ≡ digit_glyph false number }
{
    if number < 10 {
        b'0' + number as u8
    } else {
        b'a' + (number - 10) as u8
    }
}

/// Writes the number's hexadecimal digits at the end of the text, and returns where they start.
fn write_hex_digits(number: u64, text: &mut [u8; MAX_HEX_LEN]) -> usize
    ensures room { 2 ≤ result }
    ensures within { result ≤ 18 }
    ensures written { drop result text.new ≡ digits 16 false number }
{
    let mut left = number;
    let mut at = MAX_HEX_LEN - 1;
    while left >= 16 {
        text[at] = hex_digit(left % 16);
        at -= 1;
        left /= 16;
    }
    text[at] = hex_digit(left);
    at
}
