// The encoded size of a record, computed from its row without making its plan, tag or flag byte.
ghost use Rattle.std.specs.Prelude.{◌≡◌, ◌^◌, ◌≤◌, ◌<◌, pos};
ghost use Rattle.encode.specs.Encode.{width_code, max};
ghost use Rattle.phd_plan.specs.FormChoice.{find_slot, plan_input, make_plan, Bounded};
ghost use Rattle.phd_encode.specs.EncodeRecord.{record_size};
ghost use Rattle.phd_encode.specs.SizeFromRow.{object_size, primitive_size};

use phd::Cache;
use table::Row;

// The size of a record in bytes, and whether its class word is pushed into the cache.
#[derive(Clone, Copy)]
pub struct EncodedSize {
    pub size: usize,
    pub cached: bool,
}

// Returns the size of an object: `w` is W / 8, `gap` the width code of its gap, and `payload` the bytes of its gap, hash, name
// and references.
#[tactic(auto, unfolding(crate::specs::SizeFromRow::object_size))]
fn object_size(w: usize, cache: Cache, row: Row, gap: u64, payload: usize) -> EncodedSize
    requires { (w ≤ 8) × (payload < 2 ^ 40) }
    ensures { result ≡ object_size w row.hashkind (find_slot cache row.class) row.count gap payload }
{
    if phd_plan::needs_flag_byte(row.hashkind) | (2 <= gap) | (7 < row.count) {
        EncodedSize {
            size: 6 + w + payload,
            cached: true,
        }
    } else if (row.count <= 3) & (phd_plan::find_slot(cache, row.class) < 4) {
        EncodedSize {
            size: 1 + payload,
            cached: false,
        }
    } else {
        EncodedSize {
            size: 1 + w + payload,
            cached: true,
        }
    }
}

// Returns the size of a primitive array: `w` is W / 8, `gap` the width code of its gap, and `payload` the bytes of its hash and
// name.
#[tactic(auto, using(crate::proofs::SizeBounds::size_bounds), unfolding(crate::specs::SizeFromRow::primitive_size))]
fn primitive_size(w: usize, row: Row, gap: u64, payload: usize) -> EncodedSize
    requires { (w ≤ 8) × (gap < 4) × (payload < 2 ^ 40) }
    ensures { result ≡ primitive_size w row.hashkind (max gap (width_code (pos row.len))) payload }
{
    let paircode = encode::number_code(row.len).max(gap);
    let fixed = if !phd_plan::needs_flag_byte(row.hashkind) {
        5 + 2 * phd::forms::width_of(paircode)
    } else if paircode == 0 {
        8
    } else {
        6 + 2 * w
    };
    EncodedSize {
        size: fixed + payload,
        cached: false,
    }
}

// Returns the size of the record of a row with its references, after one at the address `before`, with the cache; `w` is W / 8.
#[tactic(auto, using(crate::proofs::SizeBounds::plan_sizes), unfolding(phd_plan::specs::FormChoice::plan_input))]
pub fn record_size(w: usize, cache: Cache, before: u64, row: Row, refs: &[u64]) -> EncodedSize
    requires bounded { Bounded (plan_input cache before row refs.now) }
    requires w_bound { (w ≤ 8) × (row.namelen < 2 ^ 16) }
    ensures { result ≡ record_size (make_plan w (plan_input cache before row refs.now)) row }
{
    let gap = encode::gap_code(before, row.address);
    let fixed = phd::forms::hash_bytes_of(row.hashkind) + row.namelen as usize;
    // Kind 0, which is no valid kind, has the form of a primitive array, as in `form_of`.
    if row.kind == 0 || 3 < row.kind {
        return primitive_size(w, row, gap, fixed);
    }
    let refcode = encode::refs_code(refs, row.address);
    let payload = phd::forms::width_of(gap)
        + fixed
        + row.count as usize * phd::forms::width_of(refcode);
    match row.kind {
        1 => EncodedSize {
            size: 12 + w + payload,
            cached: false,
        },
        2 => object_size(w, cache, row, gap, payload),
        _ => EncodedSize {
            size: 14 + w + payload,
            cached: false,
        },
    }
}
