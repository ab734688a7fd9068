// An encoder: an output and the offset of the next byte. Each method writes bytes at that offset, changes nothing else, and moves
// the offset past them.
ghost use Rattle.std.specs.Prelude.{◌≤◌, [], ◌∷◌};
ghost use Rattle.encode.specs.Writes.{Writes, HasCapacity};
ghost use Rattle.encode.specs.Wrote.{Wrote, HasRoom};
ghost use Rattle.encode.specs.Encode.{be, encode_ref_list};

use super::slices;

// An output, and the offset of the next byte to write.
#[derive(Drop)]
pub struct Encoder<'a> {
    pub out: &'a mut [u8],
    pub at: usize,
}

impl Encoder<'_> {
    // Writes one byte.
    pub fn byte(&mut self, b: u8)
        requires { HasRoom self.old (b ∷ []) }
        ensures { Wrote self.old self.new (b ∷ []) }
    {
        self.out[self.at] = b;
        self.at += 1;
    }

    // Writes the given bytes. It is always inlined, as `ref_list` is: an encoder that a call is given by reference lies in memory.
    #[inline(always)]
    pub fn bytes(&mut self, bytes: &[u8])
        requires { HasRoom self.old bytes.now }
        ensures { Wrote self.old self.new bytes.now }
    {
        self.at = slices::store_bytes(self.out, self.at, bytes);
    }

    // Writes the lowest n bytes of a number, the highest first.
    #[tactic(auto, using(crate::specs::NumberRoundTrip::length_be))]
    pub fn be(&mut self, n: usize, value: u64)
        requires { HasRoom self.old (be n value) }
        ensures { Wrote self.old self.new (be n value) }
    {
        store_number(self.out, self.at, n, value);
        self.at += n;
    }

    // Writes references, w bytes each, for a record at address a.
    #[inline(always)]
    pub fn ref_list(&mut self, w: usize, a: u64, refs: &[u64])
        requires { HasRoom self.old (encode_ref_list w a refs.now) }
        ensures { Wrote self.old self.new (encode_ref_list w a refs.now) }
    {
        self.at = write_refs(self.out, self.at, w, a, refs);
    }
}

// Writes references at an offset and returns the offset after them. The loop has an encoder of its own, which can stay in
// registers: a caller's encoder is read again after each byte written.
fn write_refs(out: &mut [u8], at: usize, w: usize, a: u64, refs: &[u64]) -> usize
    requires { HasCapacity out.old at (encode_ref_list w a refs.now) }
    ensures { Writes out.old at (encode_ref_list w a refs.now) out.new result }
{
    let mut e = Encoder { out, at };
    for to in refs {
        e.be(w, super::raw_gap(a, *to));
    }
    e.at
}

// Stores the lowest N bytes of a number, the highest first, and returns the offset after them, as the functions below do.
fn store_be<const N: usize>(out: &mut [u8], at: usize, value: u64) -> usize
    requires has_bytes { N ≤ 8 }
    requires has_capacity { HasCapacity out.old at (be N value) }
    ensures { Writes out.old at (be N value) out.new result }
{
    slices::store(out, at, &value.to_be_bytes()[8 - N..])
}

// Stores the lowest n bytes of a number for any n, byte by byte from the last to the first. It copies no slice: a call of memcpy
// here, on the path that no dump needs, keeps the registers of the fast paths from the loop around them.
#[tactic(auto, using(crate::specs::NumberRoundTrip::length_be))]
fn store_any_width(out: &mut [u8], at: usize, n: usize, value: u64) -> usize
    requires { HasCapacity out.old at (be n value) }
    ensures { Writes out.old at (be n value) out.new result }
{
    let mut rest = value;
    for i in (0..n).rev() {
        out[at + i] = (rest % 256) as u8;
        rest /= 256;
    }
    at + n
}

// Stores the lowest n bytes of a number, the highest first, with fast paths for 1, 2, 4 and 8 bytes. They are no `match`, which is
// compiled to a jump table: with it, writing a dump takes a third longer.
fn store_number(out: &mut [u8], at: usize, n: usize, value: u64) -> usize
    requires { HasCapacity out.old at (be n value) }
    ensures { Writes out.old at (be n value) out.new result }
{
    if n < 2 {
        if n == 1 {
            store_be::<1>(out, at, value)
        } else {
            at
        }
    } else if n == 2 {
        store_be::<2>(out, at, value)
    } else if n == 4 {
        store_be::<4>(out, at, value)
    } else if n == 8 {
        store_be::<8>(out, at, value)
    } else {
        store_any_width(out, at, n, value)
    }
}
