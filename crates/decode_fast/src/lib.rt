// Decodes fields without checking how many bytes are left, where enough are known to follow; and references without a range
// check, where the address of their record is far enough from both ends of the address range.
// Each contract is an equation with a definition of decode's specs/Numbers.antt or of specs/RefsInRange.antt.
#![tactic(auto)]

ghost use Rattle.std.specs.Prelude.{◌≡◌, ◌+◌, ◌^◌, ◌≤◌, ◌<◌, length, take, drop};
ghost use Rattle.decode.specs.Numbers.{value};
ghost use Rattle.decode_fast.specs.RefsInRange.{gap_reach, refs_in_range, target};

fn wide(x: u8) -> u64
    ensures { result ≡ x }
{
    x as u64
}

// Decodes the four bytes at offset `at` as a big-endian number.
pub fn be_u32(s: &[u8], at: usize) -> u64
    requires { at + 4 ≤ length s.now }
    ensures is { result ≡ value (take 4 (drop at s.now)) }
    ensures small { result < 256 ^ 4 }
{
    let first = wide(s[at]) * 256 + wide(s[at + 1]);
    (first * 256 + wide(s[at + 2])) * 256 + wide(s[at + 3])
}

// Decodes the eight bytes at offset `at` as a big-endian number.
pub fn be_u64(s: &[u8], at: usize) -> u64
    requires { at + 8 ≤ length s.now }
    ensures { result ≡ value (take 8 (drop at s.now)) }
{
    let fifth = be_u32(s, at) * 256 + wide(s[at + 4]);
    ((fifth * 256 + wide(s[at + 5])) * 256 + wide(s[at + 6])) * 256 + wide(s[at + 7])
}

// Decodes the first n of the two bytes at offset `at` as a big-endian number.
pub fn be_upto2(s: &[u8], at: usize, n: usize) -> u64
    requires { (n ≤ 2) × (at + 2 ≤ length s.now) }
    ensures is { result ≡ value (take n (drop at s.now)) }
    ensures small { result < 256 ^ n }
{
    (wide(s[at]) * 256 + wide(s[at + 1])) >> (16 - 8 * n)
}

// Decodes the first n of the four bytes at offset `at` as a big-endian number.
pub fn be_upto4(s: &[u8], at: usize, n: usize) -> u64
    requires { (n ≤ 4) × (at + 4 ≤ length s.now) }
    ensures is { result ≡ value (take n (drop at s.now)) }
    ensures small { result < 256 ^ n }
{
    be_u32(s, at) >> (32 - 8 * n)
}

// Checks whether the address a is so far from 0 and from `top`, the highest address, that every value of w bytes is a valid
// reference of a record there. Returns false if w is above 4.
pub fn refs_in_range(w: usize, a: u64, top: u64) -> bool
    ensures { result ≡ refs_in_range w a top }
{
    if 4 < w {
        return false;
    }
    let reach = 0x2_0000_0000 >> (32 - 8 * w);
    if top < reach {
        return false;
    }
    (reach < a) & (a < top - reach)
}

// Decodes the reference of w bytes at offset `at`, of a record at an address a for which `refs_in_range` holds. It adds the
// value, biased to be unsigned, to the lowest address that w bytes reach; so the sign is not tested.
pub fn read_ref_unchecked(s: &[u8], at: usize, w: usize, a: u64) -> u64
    requires { (1 ≤ w) × (w ≤ 4) × (at + 4 ≤ length s.now) × (gap_reach w < a) × (a + gap_reach w < 2 ^ 64) }
    ensures { result ≡ target w a (value (take w (drop at s.now))) }
{
    let k = 32 - 8 * w;
    let reach = 0x2_0000_0000 >> k;
    let biased = (be_u32(s, at) + 0x8000_0000) % 0x1_0000_0000;
    (a - reach) + 4 * (biased >> k)
}
