// Encodes a record: its tag, its flag byte and its fields in file order (docs/FORMAT.md 3.3). The widths come from `Shape`, as in
// the reader. The bytes that each function writes are a definition of specs/EncodeRecord.antt.
#![tactic(auto)]

ghost use Rattle.std.specs.Prelude.{◌≡◌, true, length};
ghost use Rattle.encode.specs.Wrote.{Wrote, HasRoom};
ghost use Rattle.phd_encode.specs.EncodeRecord.{encode_planned, Compact};

use encode::encoder::Encoder;
use phd_plan::Plan;
use table::Row;

mod parts;
pub mod sizes;

// Checks whether the plan has no flag byte and no fields but the gap, the class word, the hash and the references. The result
// false guarantees nothing; the general path can encode any record.
#[tactic(auto, using(crate::proofs::CompactRecord::compact_of_tests))]
fn is_compact(p: Plan, namelen: usize) -> bool
    ensures { result ≡ true → Compact p namelen }
{
    let sh = p.shape;
    (0x20 <= p.tag)
        & (sh.len == 0)
        & (sh.inst == 0)
        & (sh.superclass == 0)
        & (sh.name == 0)
        & (namelen == 0)
        & (sh.countwidth == 0)
        & (sh.size == 0)
        & (sh.truelen == 0)
}

// Encodes a compact record, after a record at the address `before`.
#[tactic(auto, using(crate::proofs::CompactRecord::compact_fields))]
fn encode_compact(e: &mut Encoder, before: u64, p: Plan, row: Row, refs: &[u64], name: &[u8])
    requires compact { Compact p (length name.now) }
    requires has_room { HasRoom e.old (encode_planned before p row refs.now name.now) }
    ensures { Wrote e.old e.new (encode_planned before p row refs.now name.now) }
{
    let sh = p.shape;
    e.be(1, p.tag);
    e.be(sh.gap, encode::raw_gap(before, row.address));
    e.be(sh.class, row.class);
    e.be(phd::forms::hash_bytes_of(row.hashkind), row.hash);
    e.ref_list(sh.refwidth, row.address, refs);
}

// Encodes the record of a row with its references and its name, after a record at the address `before`.
#[tactic(auto, using(encode::specs::Wrote::consecutive), unfolding(crate::specs::EncodeRecord::encode_planned, crate::specs::EncodeRecord::encode_fields))]
pub fn encode_record(e: &mut Encoder, before: u64, p: Plan, row: Row, refs: &[u64], name: &[u8])
    requires { HasRoom e.old (encode_planned before p row refs.now name.now) }
    ensures { Wrote e.old e.new (encode_planned before p row refs.now name.now) }
{
    if is_compact(p, name.len()) {
        encode_compact(e, before, p, row, refs, name);
    } else {
        let sh = p.shape;
        parts::encode_tag(e, p);
        parts::encode_front(e, before, sh, row);
        parts::encode_middle(e, sh, row);
        parts::encode_name(e, sh, row, name);
        parts::encode_refs(e, sh, row, refs);
        parts::encode_tail(e, sh, row);
    }
}
