// Tags, flag bytes and shapes of records.
ghost use Rattle.std.specs.Prelude.{◌≡◌, cond, ◌<◌, ◌≤◌, OnErr};
ghost use Rattle.decode.specs.Reads.{Reads};
ghost use Rattle.phd.specs.Phd.{bit as bit_of, width, max_address, tag_form, slot_class, moved_bit, hashed_bit, flags_allowed, flag_byte, hash_kind, hash_bytes, shape, field_or};
ghost use Rattle.phd.specs.Shapes.{ValidBits};

use super::{Cache, Form, Header, Shape};
use decode::Stop;
use decode::decoder::Decoder;

// Checks whether the bit of value m is set in x.
#[tactic(auto, unfolding(crate::specs::Phd::bit))]
pub fn bit(m: u64, x: u64) -> bool
    requires { 0 < m }
    ensures { result ≡ bit_of m x }
{
    x / m % 2 == 1
}

// Returns the number of bytes of a width code.
#[tactic(auto, unfolding(crate::specs::Phd::width))]
pub fn width_of(code: u64) -> usize
    requires { code < 4 }
    ensures { result ≡ width code }
{
    1 << code
}

// Returns the greatest address, 2^W - 1.
#[tactic(auto, unfolding(crate::specs::Phd::max_address))]
pub fn max_address_of(bits: u64) -> u64
    requires { ValidBits bits }
    ensures { result ≡ max_address bits }
{
    if bits == 64 { u64::MAX } else { 0xFFFF_FFFF }
}

// Returns the form that a tag begins.
#[tactic(auto, unfolding(crate::specs::Phd::tag_form))]
pub fn tag_form(tag: u64) -> Option<Form>
    ensures { result ≡ tag_form tag }
{
    match tag {
        0x80.. => Some(Form::Short),
        0x40.. => Some(Form::Medium),
        0x20.. => Some(Form::Primitive),
        4 => Some(Form::Long),
        6 => Some(Form::Class),
        7 => Some(Form::LongPrimitive),
        8 => Some(Form::ObjectArray),
        _ => None,
    }
}

// Returns the class word of a short object, from the slot that its tag names; 0 for other forms, which use no slot.
#[tactic(auto, unfolding(crate::specs::Phd::slot_class))]
pub fn slot_class_of(cache: Cache, tag: u64) -> Option<u64>
    ensures { result ≡ slot_class cache tag }
{
    if 0x80 <= tag {
        cache.slot((tag / 0x20 % 4) as usize)
    } else {
        Some(0)
    }
}

// Returns the moved bit of a flag byte.
#[tactic(auto, unfolding(crate::specs::Phd::moved_bit))]
fn is_moved(tag: u64, flags: u64) -> bool
    ensures { result ≡ moved_bit tag flags }
{
    if tag == 6 {
        bit(0x08, flags)
    } else {
        bit(0x02, flags)
    }
}

// Returns the hashed bit of a flag byte; a class record has none.
#[tactic(auto, unfolding(crate::specs::Phd::hashed_bit))]
fn is_hashed(tag: u64, flags: u64) -> bool
    ensures { result ≡ hashed_bit tag flags }
{
    tag != 6 && bit(0x01, flags)
}

// Checks whether the flag byte `flags` may follow a tag: in an all-hashed dump it has no moved and no hashed bit.
pub fn flags_allowed(header: Header, tag: u64, flags: u64) -> bool
    ensures { result ≡ flags_allowed header tag flags }
{
    !(header.hashed && (is_moved(tag, flags) || is_hashed(tag, flags)))
}

// Decodes the flag byte, or returns 0 if the form has none. In an all-hashed dump a moved or hashed bit is refused with 11. A refusal
// leaves the decoder's offset as it was.
pub fn read_flag_byte(d: &mut Decoder, header: Header, tag: u64) -> Result<u64, Stop>
    ensures reads { Reads (flag_byte header tag) d.old result d.new }
    ensures kept { OnErr result (d.new.at ≡ d.old.at) }
{
    let at = d.at;
    let flags = d.field(usize::from(tag < 0x20))?;
    if !flags_allowed(header, tag, flags) {
        d.at = at;
        return Err(Stop::Refused(11));
    }
    Ok(flags)
}

// Returns the hash kind of a record (docs/FORMAT.md 3.2).
#[tactic(auto, unfolding(crate::specs::Phd::hash_kind))]
pub fn hash_kind_of(header: Header, tag: u64, flags: u64) -> u64
    ensures { result ≡ hash_kind header tag flags }
{
    if header.hashed {
        3
    } else if is_moved(tag, flags) {
        2
    } else if is_hashed(tag, flags) {
        1
    } else {
        0
    }
}

// Returns the number of bytes of the hash field, by the hash kind.
#[tactic(auto, unfolding(crate::specs::Phd::hash_bytes))]
pub fn hash_bytes_of(kind: u64) -> usize
    ensures { result ≡ hash_bytes kind }
{
    match kind {
        2 => 4,
        3 => 2,
        _ => 0,
    }
}

// Returns the value v of a field of w bytes, or `other` if the record lacks the field (w is 0).
#[tactic(auto, unfolding(crate::specs::Phd::field_or))]
pub fn field_or(w: usize, v: u64, other: u64) -> u64
    ensures { result ≡ field_or w v other }
{
    if w == 0 { other } else { v }
}

// Returns the number of bytes of the gap and of the length in a long primitive array: W in bytes, or 1.
fn long_width(bytes: usize, flags: u64) -> usize
    ensures { result ≡ cond (bit_of 0x10 flags) bytes 1 }
{
    if bit(0x10, flags) { bytes } else { 1 }
}

// The shape without fields, over which the others are written.
const NO_FIELDS: Shape = Shape {
    kind: 0,
    gap: 0,
    class: 0,
    len: 0,
    inst: 0,
    superclass: 0,
    name: 0,
    countwidth: 0,
    count: 0,
    refwidth: 0,
    size: 0,
    truelen: 0,
    cached: false,
    prim: 0,
};

// Returns the shape of a record, from W in bytes, the form, the tag and the flag byte.
#[tactic(auto, unfolding(crate::specs::Phd::shape))]
pub fn shape_of(bytes: usize, form: Form, tag: u64, flags: u64) -> Shape
    ensures { result ≡ shape bytes form tag flags }
{
    let gap = width_of(flags / 0x40 % 4);
    let refwidth = width_of(flags / 0x10 % 4);
    let low = width_of(tag % 4);
    let near = width_of(tag / 4 % 2);
    match form {
        Form::Short => Shape {
            kind: 2,
            gap: near,
            count: tag / 8 % 4,
            refwidth: low,
            ..NO_FIELDS
        },
        Form::Medium => Shape {
            kind: 2,
            gap: near,
            class: bytes,
            count: tag / 8 % 8,
            refwidth: low,
            cached: true,
            ..NO_FIELDS
        },
        Form::Long => Shape {
            kind: 2,
            gap,
            class: bytes,
            countwidth: 4,
            refwidth,
            cached: true,
            ..NO_FIELDS
        },
        Form::Class => Shape {
            kind: 1,
            gap,
            inst: 4,
            superclass: bytes,
            name: 2,
            countwidth: 4,
            refwidth,
            ..NO_FIELDS
        },
        Form::ObjectArray => Shape {
            kind: 3,
            gap,
            class: bytes,
            countwidth: 4,
            refwidth,
            size: 4,
            truelen: 4,
            ..NO_FIELDS
        },
        Form::Primitive => Shape {
            kind: 4,
            gap: low,
            len: low,
            size: 4,
            prim: tag / 4 % 8,
            ..NO_FIELDS
        },
        Form::LongPrimitive => {
            let w = long_width(bytes, flags);
            Shape {
                kind: 4,
                gap: w,
                len: w,
                size: 4,
                prim: flags / 0x20 % 8,
                ..NO_FIELDS
            }
        }
    }
}
