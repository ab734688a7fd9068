// Encodes addresses and references of the classic text; the bytes are definitions of classic's specs/ClassicText.antt.
#![tactic(auto)]

ghost use Rattle.encode.specs.Writes.{Writes, HasCapacity};
ghost use Rattle.encode.specs.Wrote.{Wrote, HasRoom};
ghost use Rattle.phd.specs.Shapes.{ValidBits};
ghost use Rattle.classic.specs.ClassicText.{address, refs_text};
ghost use Rattle.classic_fields.specs.AddressParts.{high_digits};

use encode::encoder::Encoder;

// Encodes the digits of an address before its last eight: eight for W 64 and none for W 32; `bits` is W.
fn encode_high_digits(e: &mut Encoder, bits: u64, a: u64)
    requires valid_bits { ValidBits bits }
    requires has_room { HasRoom e.old (high_digits bits a) }
    ensures { Wrote e.old e.new (high_digits bits a) }
{
    if bits == 64 {
        digits::encode_hex8(e, a / 0x1_0000_0000);
    }
}

// Writes an address at an offset and returns the offset after it. The address has an encoder of its own, which can stay in
// registers: a caller's encoder is read again after each byte written.
#[tactic(auto, using(crate::proofs::AddressSteps::address_steps))]
fn write_address(out: &mut [u8], at: usize, bits: u64, a: u64) -> usize
    requires valid_bits { ValidBits bits }
    requires has_capacity { HasCapacity out.old at (address bits a) }
    ensures { Writes out.old at (address bits a) out.new result }
{
    let mut e = Encoder { out, at };
    e.bytes(b"0x");
    encode_high_digits(&mut e, bits, a);
    digits::encode_hex8(&mut e, a);
    e.at
}

// Encodes an address: `0x` and W / 4 upper-case hexadecimal digits; `bits` is W. The digits are encoded eight at a time.
pub fn encode_address(e: &mut Encoder, bits: u64, a: u64)
    requires valid_bits { ValidBits bits }
    requires has_room { HasRoom e.old (address bits a) }
    ensures { Wrote e.old e.new (address bits a) }
{
    e.at = write_address(e.out, e.at, bits, a);
}

// Writes references at an offset, each after a space, and returns the offset after them.
fn write_refs(out: &mut [u8], at: usize, bits: u64, refs: &[u64]) -> usize
    requires valid_bits { ValidBits bits }
    requires has_capacity { HasCapacity out.old at (refs_text bits refs.now) }
    ensures { Writes out.old at (refs_text bits refs.now) out.new result }
{
    let mut e = Encoder { out, at };
    for a in refs {
        e.byte(b' ');
        encode_address(&mut e, bits, *a);
    }
    e.at
}

// Encodes references, each after a space.
pub fn encode_refs(e: &mut Encoder, bits: u64, refs: &[u64])
    requires valid_bits { ValidBits bits }
    requires has_room { HasRoom e.old (refs_text bits refs.now) }
    ensures { Wrote e.old e.new (refs_text bits refs.now) }
{
    e.at = write_refs(e.out, e.at, bits, refs);
}
