// Reads the parts of a record before and after its references.
ghost use Rattle.std.specs.Prelude.{◌≡◌, ◌≤◌};
ghost use Rattle.decode.specs.Reads.{Reads};
ghost use Rattle.phd.specs.Phd.{hash_bytes, front, class_name as class_name_of, ref_count, true_length as true_length_of, tail, middle};

use super::head::Head;
use decode::decoder::Decoder;
use decode::{Stop, StringSpan};
use phd::{Front, Middle, Tail};

impl Head {
    // Decodes gap, class word and array length. `before` is the address of the record before.
    pub fn read_front(self, d: &mut Decoder, before: u64) -> Result<Front, Stop>
        ensures { Reads (front self.top before self.shape) d.old result d.new }
    {
        let address = d.address(self.shape.gap, before, self.top)?;
        let class = d.field(self.shape.class)?;
        let len = d.count(self.shape.len)?;
        Ok(Front {
            address,
            class,
            len,
        })
    }

    // Decodes the instance size of a class, the hash and the superclass word.
    pub fn read_middle(self, d: &mut Decoder) -> Result<Middle, Stop>
        ensures { Reads (middle self.shape (hash_bytes self.hash_kind)) d.old result d.new }
    {
        let inst = d.count(self.shape.inst)?;
        let hash = d.field(phd::forms::hash_bytes_of(self.hash_kind))?;
        let superclass = d.field(self.shape.superclass)?;
        Ok(Middle {
            inst,
            hash,
            superclass,
        })
    }
}

// Decodes the name of a class, if the record has one: n is the number of bytes of its length field.
pub fn class_name(d: &mut Decoder, n: usize) -> Result<StringSpan, Stop>
    ensures { Reads (class_name_of n) d.old result d.new }
{
    if n == 0 {
        return Ok(StringSpan {
            present: false,
            place: 0,
            len: 0,
        });
    }
    d.string(0x21, 1)
}

// Decodes the number of references from a field of n bytes, or returns the count in the tag if n is 0.
pub fn ref_count(d: &mut Decoder, n: usize, tagcount: u64) -> Result<u64, Stop>
    requires { n ≤ 8 }
    ensures { Reads (ref_count n tagcount) d.old result d.new }
{
    if n == 0 {
        return Ok(tagcount);
    }
    d.count(n)
}

// Decodes a true length of w bytes, which must be at least the reference count; returns 0 if w is 0.
fn true_length(d: &mut Decoder, w: usize, count: u64) -> Result<u64, Stop>
    requires { w ≤ 8 }
    ensures { Reads (true_length_of w count) d.old result d.new }
{
    if w == 0 {
        return Ok(0);
    }
    let len = d.count(w)?;
    if len < count {
        return Err(Stop::Refused(12));
    }
    Ok(len)
}

// Decodes the size and the true length of an array.
pub fn read_tail(d: &mut Decoder, size: usize, truelen: usize, count: u64) -> Result<Tail, Stop>
    requires { (size ≤ 8) × (truelen ≤ 8) }
    ensures { Reads (tail size truelen count) d.old result d.new }
{
    let size = d.field(size)?;
    let truelen = true_length(d, truelen, count)?;
    Ok(Tail { size, truelen })
}
