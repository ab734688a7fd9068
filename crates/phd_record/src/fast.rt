// The fast path: reads objects and arrays of the common forms at once if enough bytes follow and all references are in range by
// the record's address alone. If it declines, the general path (`read_body`) reads the record field by field. The record of a
// hit is proved equal to the layout's; whether there is a hit affects speed only.
ghost use Rattle.std.specs.Prelude.{◌≡◌, true, ◌+◌, ◌≤◌, length, take, drop, Some};
ghost use Rattle.decode.specs.Numbers.{value, signed as signed_of, add_gap, to_count};
ghost use Rattle.decode.specs.Layout.{run};
ghost use Rattle.phd.specs.Phd.{tag_form, entry, record_body};
ghost use Rattle.phd.specs.Shapes.{ValidBits};
ghost use Rattle.phd.specs.declared.Form.TheVariants.{Primitive};
ghost use Rattle.decode_fast.specs.RefsInRange.{refs_in_range};
ghost use Rattle.phd_record.specs.Arrays.{ArrayShape, after_front};
ghost use Rattle.phd_record.specs.FastPath.{HitAgrees, FastRead, ClassWidth, ObjectForm};

use super::Record;
use super::head::{Head, Parts};
use decode::StringSpan;
use decode::decoder::Decoder;
use phd::{Form, Front, Header, Middle, Origin, RecordContext, Tail};

// A record that the fast path has read, and the offset after it.
#[derive(Clone, Copy)]
pub struct Hit {
    pub record: Record,
    pub next: usize,
}

// The name of a record that has none.
const NO_NAME: StringSpan = StringSpan {
    present: false,
    place: 0,
    len: 0,
};

// Returns the address by a gap of at most 2 bytes, if it is in range.
fn address_by_small_gap(s: &[u8], at: usize, n: usize, base: u64, top: u64) -> Option<u64>
    requires { (n ≤ 2) × (at + 2 ≤ length s.now) }
    ensures { result ≡ add_gap top base (signed_of n (value (take n (drop at s.now)))) }
{
    let raw = decode_fast::be_upto2(s, at, n);
    decode::add_gap(base, decode::signed(raw, n), top)
}

// Returns the address by a gap of at most 4 bytes, if it is in range.
fn address_by_gap(s: &[u8], at: usize, n: usize, base: u64, top: u64) -> Option<u64>
    requires { (n ≤ 4) × (at + 4 ≤ length s.now) }
    ensures { result ≡ add_gap top base (signed_of n (value (take n (drop at s.now)))) }
{
    let raw = decode_fast::be_upto4(s, at, n);
    decode::add_gap(base, decode::signed(raw, n), top)
}

// Returns a count of at most 4 bytes, if it is in range.
fn count_at(s: &[u8], at: usize, n: usize) -> Option<u64>
    requires { (n ≤ 4) × (at + 4 ≤ length s.now) }
    ensures { result ≡ to_count (signed_of n (value (take n (drop at s.now)))) }
{
    let raw = decode_fast::be_upto4(s, at, n);
    decode::to_count(decode::signed(raw, n))
}

// Returns a class word of w bytes (4 or 8), or 0 if there is none (w is 0).
fn class_word(s: &[u8], at: usize, w: usize) -> u64
    requires { (at + 8 ≤ length s.now) × ClassWidth w }
    ensures { result ≡ value (take w (drop at s.now)) }
{
    match w {
        0 => 0,
        8 => decode_fast::be_u64(s, at),
        _ => decode_fast::be_u32(s, at),
    }
}

// Returns a hash of n bytes, or 0 if there is none (n is 0).
fn hash_at(s: &[u8], at: usize, n: usize) -> u64
    requires { (n ≤ 4) × (at + 4 ≤ length s.now) }
    ensures { result ≡ value (take n (drop at s.now)) }
{
    match n {
        0 => 0,
        _ => decode_fast::be_upto4(s, at, n),
    }
}

// Returns the numbers of a record that has no instance size and no superclass word: its hash of n bytes, 0 if n is 0.
fn hash_alone(s: &[u8], at: usize, n: usize) -> Middle
    requires { (n ≤ 4) × (at + 4 ≤ length s.now) }
    ensures { result ≡ record { inst = 0; hash = value (take n (drop at s.now)); superclass = 0 } }
{
    Middle {
        inst: 0,
        hash: hash_at(s, at, n),
        superclass: 0,
    }
}

// Returns the form of an object without a flag byte, by its tag.
fn object_form(tag: u64) -> Form
    requires { 0x40 ≤ tag }
    ensures form { tag_form tag ≡ Some result }
    ensures object { ObjectForm result }
{
    if 0x80 <= tag {
        return Form::Short;
    }
    Form::Medium
}

// Decodes a short or medium object after its tag.
fn read_object(
    s: &[u8],
    at: usize,
    header: Header,
    before: RecordContext,
    origin: Origin,
    form: Form,
    tag: u64,
) -> Option<Hit>
    requires { (at + 90 ≤ length s.now) × ValidBits header.bits × (tag_form tag ≡ Some form) × ObjectForm form }
    ensures { HitAgrees (run (record_body header before.address before.cache origin tag) s.now at) result }
{
    let known = phd::forms::slot_class_of(before.cache, tag)?;
    let head = Head::new(header, before.cache, origin, known, form, tag, 0);
    let sh = head.shape;
    let address = address_by_small_gap(s, at, sh.gap, before.address, head.top)?;
    if !decode_fast::refs_in_range(sh.refwidth, address, head.top) {
        return None;
    }
    let class = class_word(s, at + sh.gap, sh.class);
    let from = at + sh.gap + sh.class;
    let hb = phd::forms::hash_bytes_of(head.hash_kind);
    let middle = hash_alone(s, from, hb);
    let place = from + hb;
    let parts = Parts {
        front: Front {
            address,
            class,
            len: 0,
        },
        middle,
        name: NO_NAME,
        count: sh.count,
        tail: Tail {
            size: 0,
            truelen: 0,
        },
    };
    Some(Hit {
        record: head.record(place, parts),
        next: place + sh.count as usize * sh.refwidth,
    })
}

// Decodes a primitive array after its tag.
fn read_primitive(
    s: &[u8],
    at: usize,
    header: Header,
    before: RecordContext,
    origin: Origin,
    tag: u64,
) -> Option<Hit>
    requires { (at + 90 ≤ length s.now) × ValidBits header.bits × (tag_form tag ≡ Some Primitive) }
    ensures { HitAgrees (run (record_body header before.address before.cache origin tag) s.now at) result }
{
    let head = Head::new(header, before.cache, origin, 0, Form::Primitive, tag, 0);
    let sh = head.shape;
    if 4 < sh.gap {
        return None;
    }
    let address = address_by_gap(s, at, sh.gap, before.address, head.top)?;
    let len = count_at(s, at + sh.gap, sh.len)?;
    let from = at + sh.gap + sh.len;
    let hb = phd::forms::hash_bytes_of(head.hash_kind);
    let middle = hash_alone(s, from, hb);
    let place = from + hb;
    let parts = Parts {
        front: Front {
            address,
            class: 0,
            len,
        },
        middle,
        name: NO_NAME,
        count: 0,
        tail: Tail {
            size: decode_fast::be_u32(s, place),
            truelen: 0,
        },
    };
    Some(Hit {
        record: head.record(place, parts),
        next: place + 4,
    })
}

// Decodes an object array after its tag.
fn read_array(
    s: &[u8],
    at: usize,
    header: Header,
    before: RecordContext,
    origin: Origin,
    tag: u64,
) -> Option<Hit>
    requires { (at + 90 ≤ length s.now) × ValidBits header.bits × (tag ≡ 8) }
    ensures { HitAgrees (run (record_body header before.address before.cache origin tag) s.now at) result }
{
    let flags = decode_fast::be_upto4(s, at, 1);
    if !phd::forms::flags_allowed(header, tag, flags) {
        return None;
    }
    let head = Head::new(
        header,
        before.cache,
        origin,
        0,
        Form::ObjectArray,
        tag,
        flags,
    );
    let sh = head.shape;
    if 4 < sh.gap {
        return None;
    }
    let gap = at + 1;
    let address = address_by_gap(s, gap, sh.gap, before.address, head.top)?;
    if !decode_fast::refs_in_range(sh.refwidth, address, head.top) {
        return None;
    }
    let front = Front {
        address,
        class: class_word(s, gap + sh.gap, sh.class),
        len: 0,
    };
    read_array_from_hash(s, gap + sh.gap + sh.class, head, front)
}

// Decodes the fields of an object array from the hash on.
fn read_array_from_hash(s: &[u8], at: usize, head: Head, front: Front) -> Option<Hit>
    requires { (at + 70 ≤ length s.now) × ArrayShape head.shape × (head.known ≡ 0) × (refs_in_range head.shape.refwidth front.address head.top ≡ true) }
    ensures { HitAgrees (run (after_front head.top head.cache head.origin head.hash_kind head.shape front) s.now at) result }
{
    let hb = phd::forms::hash_bytes_of(head.hash_kind);
    let middle = hash_alone(s, at, hb);
    let count = count_at(s, at + hb, 4)?;
    let place = at + hb + 4;
    let end = place + count as usize * head.shape.refwidth;
    if s.len() < end + 8 {
        return None;
    }
    let truelen = count_at(s, end + 4, 4)?;
    if truelen < count {
        return None;
    }
    let parts = Parts {
        front,
        middle,
        name: NO_NAME,
        count,
        tail: Tail {
            size: decode_fast::be_u32(s, end),
            truelen,
        },
    };
    Some(Hit {
        record: head.record(place, parts),
        next: end + 8,
    })
}

// Decodes a record of a common form after its tag.
fn read_after_tag(
    s: &[u8],
    at: usize,
    header: Header,
    before: RecordContext,
    origin: Origin,
    tag: u64,
) -> Option<Hit>
    requires { (at + 90 ≤ length s.now) × ValidBits header.bits }
    ensures { HitAgrees (run (record_body header before.address before.cache origin tag) s.now at) result }
{
    if 0x40 <= tag {
        let form = object_form(tag);
        return read_object(s, at, header, before, origin, form, tag);
    }
    if 0x20 <= tag {
        return read_primitive(s, at, header, before, origin, tag);
    }
    if tag == 8 {
        return read_array(s, at, header, before, origin, tag);
    }
    None
}

// Decodes a record of a common form, if at least 100 bytes are left. A hit moves the decoder to the end of the record, a miss leaves
// it where it is.
pub fn read_fast(
    d: &mut Decoder,
    header: Header,
    before: RecordContext,
    index: u64,
) -> Option<Record>
    requires { ValidBits header.bits }
    ensures { FastRead (entry header before.address before.cache index) d.old result d.new }
{
    let s = d.bytes;
    let at = d.at;
    if s.len() - at < 100 {
        return None;
    }
    let tag = decode_fast::be_upto4(s, at, 1);
    let origin = Origin { offset: at, index };
    match read_after_tag(s, at + 1, header, before, origin, tag) {
        Some(hit) => {
            d.at = hit.next;
            Some(hit.record)
        }
        None => None,
    }
}
