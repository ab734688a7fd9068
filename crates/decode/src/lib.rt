// Decodes the fields of a dump (`decoder`): big-endian numbers, signed gaps, addresses, references, counts and strings. Here are the
// numbers that they are made of, and why decoding stops.
// Each contract is an equation with a definition of specs/Numbers.antt or specs/Layout.antt.
#![tactic(auto)]

pub mod decoder;

ghost use Rattle.std.specs.Prelude.{◌≡◌, cond, ◌+◌, ◌-◌, ◌^◌, ◌≤◌, ◌<◌, length, take, drop};
ghost use Rattle.decode.specs.Numbers.{value, signed as signed_of, sign_case, add_gap, to_count, all_within};
ghost use Rattle.decode.specs.Layout.{reply_of, missing_of};

// Returns x if the test holds, else y.
pub fn choice(test: bool, x: u64, y: u64) -> u64
    ensures { result ≡ cond test x y }
{
    if test {
        return x;
    }
    y
}

// Why decoding stops: the dump is cut and a field lacks this many bytes, or a field is refused with this reply.
// "Cut", "missing bytes" and "reply" are the scope paper's terms.
#[derive(Clone, Copy, Debug, PartialEq, Eq)]
pub enum Stop {
    Cut(usize),
    Refused(u64),
}

// Returns the reply: 1 for a cut, else the number that the field is refused with.
pub fn reply_of(w: Stop) -> u64
    ensures { result ≡ reply_of w }
{
    match w {
        Stop::Cut(_) => 1,
        Stop::Refused(r) => r,
    }
}

// Returns the missing bytes: those that the cut field lacks, or 0 if a field is refused.
pub fn missing_of(w: Stop) -> usize
    ensures { result ≡ missing_of w }
{
    match w {
        Stop::Cut(n) => n,
        Stop::Refused(_) => 0,
    }
}

// A signed number, split by its sign: `NonNeg(n)` is n, `NegSuc(n)` is -1 - n.
#[derive(Clone, Copy)]
pub enum SignCase {
    NonNeg(u64),
    NegSuc(u64),
}

// A string of the dump, if `present`: the offset of its first byte, and its length.
#[derive(Clone, Copy, Debug, PartialEq, Eq)]
pub struct StringSpan {
    pub present: bool,
    pub place: usize,
    pub len: usize,
}

// Decodes bytes, of which there are at most 8, as a big-endian number.
fn be(bytes: &[u8]) -> u64
    requires { length bytes.now ≤ 8 }
    ensures is { result ≡ value bytes.now }
    ensures small { result < 256 ^ length bytes.now }
{
    let mut sum: u64 = 0;
    for b in bytes {
        sum = sum * 256 + u64::from(*b);
    }
    sum
}

// Returns half of 256^n, the least n-byte value that is negative in two's complement.
fn half_of(n: usize) -> u64
    requires { (1 ≤ n) × (n ≤ 8) }
    ensures { result + result ≡ 256 ^ n }
{
    1 << (8 * n - 1)
}

// Returns the n-byte value `raw` as a signed number, by two's complement.
pub fn signed(raw: u64, n: usize) -> i64
    requires { (n ≤ 8) × (raw < 256 ^ n) }
    ensures { result ≡ signed_of n raw }
{
    if n == 0 {
        return 0;
    }
    let half = half_of(n);
    if raw < half {
        raw as i64
    } else {
        let below = (half - 1) - (raw - half);
        -1 - (below as i64)
    }
}

// Splits a signed number by its sign.
fn sign_case_of(gap: i64) -> SignCase
    ensures { result ≡ sign_case gap }
{
    if gap < 0 {
        SignCase::NegSuc((-1 - gap) as u64)
    } else {
        SignCase::NonNeg(gap as u64)
    }
}

// Returns base + 4 * gap if the sum lies in 0 to `highest`. No operation wraps: a negative gap is subtracted.
pub fn add_gap(base: u64, gap: i64, highest: u64) -> Option<u64>
    ensures { result ≡ add_gap highest base gap }
{
    match sign_case_of(gap) {
        SignCase::NonNeg(n) => {
            if base <= highest {
                if n <= (highest - base) / 4 {
                    return Some(base + 4 * n);
                }
            }
            None
        }
        SignCase::NegSuc(n) => {
            if n < base / 4 {
                let to = base - 4 * (n + 1);
                if to <= highest {
                    return Some(to);
                }
            }
            None
        }
    }
}

// Returns a signed number as a count if it is a valid one, 0 to 2^31 - 1.
pub fn to_count(c: i64) -> Option<u64>
    ensures { result ≡ to_count c }
{
    match sign_case_of(c) {
        SignCase::NonNeg(n) => {
            if n < 0x8000_0000 {
                return Some(n);
            }
            None
        }
        SignCase::NegSuc(_) => None,
    }
}

// Checks whether each byte is from `low` to `high`.
pub fn bytes_within(text: &[u8], low: u8, high: u8) -> bool
    ensures { result ≡ all_within low high text.now }
{
    text.iter().all(|b| low <= *b && *b <= high)
}

// Checks whether each of the n bytes at offset `at` is from `low` to `high`.
pub fn all_within(s: &[u8], at: usize, n: usize, low: u8, high: u8) -> bool
    requires { at + n ≤ length s.now }
    ensures { result ≡ all_within low high (take n (drop at s.now)) }
{
    bytes_within(&s[at..at + n], low, high)
}
