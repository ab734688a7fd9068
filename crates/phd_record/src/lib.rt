// Reads one record of a dump: checks its fields in file order and returns the row that they make. Nothing is stored here.
// Each function's contract is an equation with a layout of the format's definition (crates/phd/specs/Phd.antt); for the fast
// path the equation holds if there is a hit.
#![tactic(auto)]

ghost use Rattle.std.specs.Prelude.{◌≡◌, OnErr};
ghost use Rattle.decode.specs.ReadsAs.{ReadsAs};
ghost use Rattle.phd.specs.Phd.{entry, record_body};
ghost use Rattle.phd.specs.Shapes.{ValidBits};
ghost use Rattle.phd_record.specs.RecordReads.{record_of, some_record};

use decode::Stop;
use decode::decoder::Decoder;
use head::Head;
use phd::{Header, Origin, RecordContext, Span};

mod fast;
mod fields;
mod head;
mod parts;
mod refs;

// A record: its row, the span of its references, and the context of the next record.
#[derive(Clone, Copy)]
pub struct Record {
    pub row: [u64; table::ROW_WIDTH],
    pub span: Span,
    pub context: RecordContext,
}

// Decodes a record after its tag, on the general path.
fn read_body(
    d: &mut Decoder,
    header: Header,
    before: RecordContext,
    origin: Origin,
    tag: u64,
) -> Result<Record, Stop>
    requires { ValidBits header.bits }
    ensures { ReadsAs record_of (record_body header before.address before.cache origin tag) d.old (some_record result) d.new }
{
    let form = phd::forms::tag_form(tag).ok_or(Stop::Refused(6))?;
    let known = phd::forms::slot_class_of(before.cache, tag).ok_or(Stop::Refused(10))?;
    let flags = phd::forms::read_flag_byte(d, header, tag)?;
    let head = Head::new(header, before.cache, origin, known, form, tag, flags);
    head.read_fields(d, before.address)
}

// Decodes the end tag or a whole record, field by field.
fn read_entry(
    d: &mut Decoder,
    header: Header,
    before: RecordContext,
    index: u64,
) -> Result<Option<Record>, Stop>
    requires { ValidBits header.bits }
    ensures { ReadsAs record_of (entry header before.address before.cache index) d.old result d.new }
{
    let origin = Origin {
        offset: d.at,
        index,
    };
    let tag = d.field(1)?;
    if tag == 3 {
        return Ok(None);
    }
    let record = read_body(d, header, before, origin, tag)?;
    Ok(Some(record))
}

// Decodes the end tag or a whole record, on the general path. `before` is the context of the records before it, `index` the number
// of their references. A refusal leaves the decoder's offset as it was.
pub fn read_general(
    d: &mut Decoder,
    header: Header,
    before: RecordContext,
    index: u64,
) -> Result<Option<Record>, Stop>
    requires { ValidBits header.bits }
    ensures reads { ReadsAs record_of (entry header before.address before.cache index) d.old result d.new }
    ensures kept { OnErr result (d.new.at ≡ d.old.at) }
{
    // With a decoder of its own, whose offset can be kept in a register.
    let mut own = Decoder {
        bytes: d.bytes,
        at: d.at,
    };
    let found = read_entry(&mut own, header, before, index)?;
    d.at = own.at;
    Ok(found)
}

// Decodes the end tag or a whole record: on the fast path, or, if that declines, on the general path. A refusal leaves the
// decoder's offset as it was.
pub fn read_record(
    d: &mut Decoder,
    header: Header,
    before: RecordContext,
    index: u64,
) -> Result<Option<Record>, Stop>
    requires { ValidBits header.bits }
    ensures reads { ReadsAs record_of (entry header before.address before.cache index) d.old result d.new }
    ensures kept { OnErr result (d.new.at ≡ d.old.at) }
{
    if let Some(record) = fast::read_fast(d, header, before, index) {
        return Ok(Some(record));
    }
    // With a decoder of its own and field by field: passed on as they are, the decoder and the record of the fast path could not be kept
    // in registers.
    let mut general = Decoder {
        bytes: d.bytes,
        at: d.at,
    };
    let found = read_general(&mut general, header, before, index)?;
    d.at = general.at;
    let Some(record) = found else {
        return Ok(None);
    };
    let row = record.row;
    Ok(Some(Record {
        row,
        span: record.span,
        context: record.context,
    }))
}
