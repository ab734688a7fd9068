// The parts of a record: each function encodes one.
ghost use Rattle.encode.specs.Wrote.{Wrote, HasRoom};
ghost use Rattle.phd_encode.specs.EncodeRecord.{encode_tag, encode_front, encode_middle, encode_name, encode_refs, encode_tail};

use encode::encoder::Encoder;
use phd::Shape;
use phd_plan::Plan;
use table::Row;

// Encodes the tag, and the flag byte if the form has one.
#[tactic(auto, using(encode::specs::Wrote::consecutive), unfolding(crate::specs::EncodeRecord::encode_tag, encode::specs::Encode::be))]
pub fn encode_tag(e: &mut Encoder, p: Plan)
    requires { HasRoom e.old (encode_tag p) }
    ensures { Wrote e.old e.new (encode_tag p) }
{
    e.be(1, p.tag);
    if p.tag < 0x20 {
        e.be(1, p.flags);
    }
}

// Encodes the gap from the address `before`, the class word and the array length.
#[tactic(auto, using(encode::specs::Wrote::consecutive), unfolding(crate::specs::EncodeRecord::encode_front))]
pub fn encode_front(e: &mut Encoder, before: u64, sh: Shape, row: Row)
    requires { HasRoom e.old (encode_front before sh row) }
    ensures { Wrote e.old e.new (encode_front before sh row) }
{
    e.be(sh.gap, encode::raw_gap(before, row.address));
    e.be(sh.class, row.class);
    e.be(sh.len, row.len);
}

// Encodes the instance size of a class, the hash and the superclass word.
#[tactic(auto, using(encode::specs::Wrote::consecutive), unfolding(crate::specs::EncodeRecord::encode_middle))]
pub fn encode_middle(e: &mut Encoder, sh: Shape, row: Row)
    requires { HasRoom e.old (encode_middle sh row) }
    ensures { Wrote e.old e.new (encode_middle sh row) }
{
    e.be(sh.inst, row.size);
    e.be(phd::forms::hash_bytes_of(row.hashkind), row.hash);
    e.be(sh.superclass, row.class);
}

// Encodes the length and the bytes of a class name.
#[tactic(auto, using(encode::specs::Wrote::consecutive), unfolding(crate::specs::EncodeRecord::encode_name))]
pub fn encode_name(e: &mut Encoder, sh: Shape, row: Row, name: &[u8])
    requires { HasRoom e.old (encode_name sh row name.now) }
    ensures { Wrote e.old e.new (encode_name sh row name.now) }
{
    e.be(sh.name, row.namelen);
    e.bytes(name);
}

// Encodes the reference count, if it is not in the tag, and the references.
#[tactic(auto, using(encode::specs::Wrote::consecutive), unfolding(crate::specs::EncodeRecord::encode_refs))]
pub fn encode_refs(e: &mut Encoder, sh: Shape, row: Row, refs: &[u64])
    requires { HasRoom e.old (encode_refs sh row refs.now) }
    ensures { Wrote e.old e.new (encode_refs sh row refs.now) }
{
    e.be(sh.countwidth, row.count);
    e.ref_list(sh.refwidth, row.address, refs);
}

// Encodes the size of an array and the true length of an object array.
#[tactic(auto, using(encode::specs::Wrote::consecutive), unfolding(crate::specs::EncodeRecord::encode_tail))]
pub fn encode_tail(e: &mut Encoder, sh: Shape, row: Row)
    requires { HasRoom e.old (encode_tail sh row) }
    ensures { Wrote e.old e.new (encode_tail sh row) }
{
    e.be(sh.size, row.size);
    e.be(sh.truelen, row.len);
}
