// Stores given bytes: byte by byte, or in blocks of 8 or 16 bytes. The last block ends where the bytes end, so it may begin among
// bytes that are stored already, and stores the same bytes there once more. Each function returns the offset after the bytes. A copy
// of any length would be compiled to a call of memcpy, which takes longer than a name does in blocks.
ghost use Rattle.std.specs.Prelude.{◌+◌, ◌≤◌, length, take, drop};
ghost use Rattle.encode.specs.Writes.{Writes, HasCapacity};

// Stores bytes by one copy. The callers' lengths are constants, for which it is compiled to a load and a store.
pub fn store(out: &mut [u8], at: usize, bytes: &[u8]) -> usize
    requires { HasCapacity out.old at bytes.now }
    ensures { Writes out.old at bytes.now out.new result }
{
    let next = at + bytes.len();
    out[at..next].copy_from_slice(bytes);
    next
}

// Stores the N bytes at offset `from`.
fn store_block<const N: usize>(out: &mut [u8], at: usize, bytes: &[u8], from: usize) -> usize
    requires from_in_bounds { from + N ≤ length bytes.now }
    requires at_in_bounds { at + N ≤ length out.old }
    ensures { Writes out.old at (take N (drop from bytes.now)) out.new result }
{
    store(out, at, &bytes[from..from + N])
}

// Stores bytes one by one.
fn store_bytewise(out: &mut [u8], at: usize, bytes: &[u8]) -> usize
    requires { HasCapacity out.old at bytes.now }
    ensures { Writes out.old at bytes.now out.new result }
{
    for (i, b) in bytes.iter().enumerate() {
        out[at + i] = *b;
    }
    at + bytes.len()
}

// Stores 8 to 16 bytes: the first 8 and the last 8.
fn store_ends(out: &mut [u8], at: usize, bytes: &[u8]) -> usize
    requires has_8 { 8 ≤ length bytes.now }
    requires at_most_16 { length bytes.now ≤ 16 }
    requires has_capacity { HasCapacity out.old at bytes.now }
    ensures { Writes out.old at bytes.now out.new result }
{
    let n = bytes.len();
    let last = n - 8;
    store_block::<8>(out, at, bytes, 0);
    store_block::<8>(out, at + last, bytes, last)
}

// Stores 16 or more bytes: blocks of 16 as long as more bytes are left, and the last 16.
#[inline(never)]
fn store_blocks(out: &mut [u8], at: usize, bytes: &[u8]) -> usize
    requires has_16 { 16 ≤ length bytes.now }
    requires has_capacity { HasCapacity out.old at bytes.now }
    ensures { Writes out.old at bytes.now out.new result }
{
    let last = bytes.len() - 16;
    let mut i = 0;
    while i < last {
        store_block::<16>(out, at + i, bytes, i);
        i += 16;
    }
    store_block::<16>(out, at + last, bytes, last)
}

// Stores bytes: 8 and more in blocks, of which the last ends where the bytes end. It is always inlined, so that up to 16 bytes of a
// constant are compiled to a few stores.
#[inline(always)]
pub fn store_bytes(out: &mut [u8], at: usize, bytes: &[u8]) -> usize
    requires { HasCapacity out.old at bytes.now }
    ensures { Writes out.old at bytes.now out.new result }
{
    let n = bytes.len();
    if n < 8 {
        return store_bytewise(out, at, bytes);
    }
    if n <= 16 {
        return store_ends(out, at, bytes);
    }
    store_blocks(out, at, bytes)
}
