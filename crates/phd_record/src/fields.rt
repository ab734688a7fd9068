// Reads the fields of a record after its tag and flag byte, in file order.
ghost use Rattle.std.specs.Prelude.{◌≡◌};
ghost use Rattle.decode.specs.ReadsAs.{ReadsAs};
ghost use Rattle.phd.specs.Phd.{fields, from_ref_count};
ghost use Rattle.phd_record.specs.RecordReads.{record_of, some_record};

use super::Record;
use super::head::{Head, Parts};
use decode::decoder::Decoder;
use decode::{Stop, StringSpan};
use phd::{Front, Middle};

impl Head {
    // Decodes the fields from the reference count on and returns the whole record.
    fn read_from_ref_count(
        self,
        d: &mut Decoder,
        front: Front,
        middle: Middle,
        name: StringSpan,
    ) -> Result<Record, Stop>
        ensures { ReadsAs record_of (from_ref_count self.top self.cache self.origin self.known self.hash_kind self.shape front middle name) d.old (some_record result) d.new }
    {
        let sh = self.shape;
        let count = super::parts::ref_count(d, sh.countwidth, sh.count)?;
        let place = d.at;
        super::refs::check_refs(d, sh.refwidth, front.address, self.top, count)?;
        let tail = super::parts::read_tail(d, sh.size, sh.truelen, count)?;
        let parts = Parts {
            front,
            middle,
            name,
            count,
            tail,
        };
        Ok(self.record(place, parts))
    }

    // Decodes the fields after the tag and the flag byte. `before` is the address of the record before.
    pub fn read_fields(self, d: &mut Decoder, before: u64) -> Result<Record, Stop>
        ensures { ReadsAs record_of (fields self.top before self.cache self.origin self.known self.hash_kind self.shape) d.old (some_record result) d.new }
    {
        let front = self.read_front(d, before)?;
        let middle = self.read_middle(d)?;
        let name = super::parts::class_name(d, self.shape.name)?;
        self.read_from_ref_count(d, front, middle, name)
    }
}
