// Encodes numbers as digits. The bytes that each function encodes are a definition of specs/Digits.antt.
#![tactic(auto)]

ghost use Rattle.std.specs.Prelude.{◌≡◌, ◌++◌};
ghost use Rattle.io.specs.Digits.{last_digits};
ghost use Rattle.encode.specs.Encode.{be};
ghost use Rattle.encode.specs.Writes.{Writes, HasCapacity};
ghost use Rattle.encode.specs.Wrote.{Wrote, HasRoom};
ghost use Rattle.digits.specs.Digits.{upper_digits, digit_count, decimal};

use encode::encoder::Encoder;

// Returns the number whose eight bytes are the characters of the last eight hexadecimal digits of a number, in upper case. The
// digits are spread to the two halves, the four quarters and the eight bytes of a word; then all bytes become characters at once.
fn hex8_characters(n: u64) -> u64
    ensures { be 8 result ≡ upper_digits 16 8 n }
{
    let halves = (n / 0x1_0000 % 0x1_0000) * 0x1_0000_0000 + n % 0x1_0000;
    let quarters = halves + 0xFF00 * ((halves / 0x100) & 0x0000_00FF_0000_00FF);
    let bytes = quarters + 0xF0 * ((quarters / 0x10) & 0x000F_000F_000F_000F);
    let letters = ((bytes + 0x0606_0606_0606_0606) / 0x10) & 0x0101_0101_0101_0101;
    bytes + 0x3030_3030_3030_3030 + 7 * letters
}

// Encodes the last eight hexadecimal digits of a number, in upper case.
pub fn encode_hex8(e: &mut Encoder, n: u64)
    requires { HasRoom e.old (upper_digits 16 8 n) }
    ensures { Wrote e.old e.new (upper_digits 16 8 n) }
{
    e.be(8, hex8_characters(n));
}

// Stores the last k digits of a number in base ten at an offset, and returns the offset after them.
#[tactic(auto, using(crate::specs::DigitLengths::length_digits))]
fn store_digits(out: &mut [u8], at: usize, k: usize, n: u64) -> usize
    requires { HasCapacity out.old at (last_digits 10 k n) }
    ensures { Writes out.old at (last_digits 10 k n) out.new result }
{
    let mut rest = n;
    for i in (0..k).rev() {
        out[at + i] = b'0' + (rest % 10) as u8;
        rest /= 10;
    }
    at + k
}

// Returns how many digits a number has in base ten.
pub fn digit_count(n: u64) -> usize
    ensures { result ≡ digit_count n }
{
    let mut rest = n;
    let mut k: usize = 1;
    while 10 <= rest {
        rest /= 10;
        k += 1;
    }
    k
}

// Encodes a number in base ten.
#[tactic(auto, using(crate::specs::DigitLengths::length_digits), unfolding(crate::specs::Digits::decimal))]
pub fn encode_decimal(e: &mut Encoder, n: u64)
    requires { HasRoom e.old (decimal n) }
    ensures { Wrote e.old e.new (decimal n) }
{
    let k = digit_count(n);
    e.at = store_digits(e.out, e.at, k, n);
}

// Encodes a text, then a number in base ten.
#[tactic(auto, using(encode::specs::Wrote::consecutive))]
pub fn encode_text_decimal(e: &mut Encoder, text: &[u8], n: u64)
    requires { HasRoom e.old (text.now ++ decimal n) }
    ensures { Wrote e.old e.new (text.now ++ decimal n) }
{
    e.bytes(text);
    encode_decimal(e, n);
}
