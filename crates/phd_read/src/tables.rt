// Stores the references of a record, within the table's capacity.
ghost use Rattle.std.specs.Prelude.{◌≡◌, true, ◌+◌, ◌*◌, ◌^◌, ◌≤◌, ◌<◌, length};
ghost use Rattle.decode.specs.Layout.{run};
ghost use Rattle.decode_fast.specs.RefsInRange.{refs_in_range};
ghost use Rattle.phd.specs.Phd.{ref_list};
ghost use Rattle.phd_read.specs.StoredRefs.{RefsAllRead, values_of};

use decode::decoder::Decoder;

// Stores as many references as `refs` has, without range checks: `base` is so far from 0 and from `top` that every value of w bytes
// gives a valid reference. Each read takes four bytes at once, so four more bytes are required after the last reference.
fn store_refs_in_range(s: &[u8], at: usize, w: usize, base: u64, top: u64, refs: &mut [u64])
    requires { (1 ≤ w) × (refs_in_range w base top ≡ true) × (top < 2 ^ 64) × (at + length refs.old * w + 4 ≤ length s.now) }
    ensures { refs.new ≡ values_of (run (ref_list w base top (length refs.old)) s.now at) }
{
    let mut here = at;
    for r in refs.iter_mut() {
        *r = decode_fast::read_ref_unchecked(s, here, w, base);
        here += w;
    }
}

// Stores as many references as `refs` has, of w bytes each, from offset `at` of the dump. All of them have been checked before.
pub fn store_refs(s: &[u8], at: usize, w: usize, base: u64, top: u64, refs: &mut [u64])
    requires at_in_bounds { (at ≤ length s.now) × (w ≤ 8) }
    requires refs_all_read { RefsAllRead (run (ref_list w base top (length refs.old)) s.now at) }
    ensures { refs.new ≡ values_of (run (ref_list w base top (length refs.old)) s.now at) }
{
    let count = refs.len();
    if (1 <= w) & (count < 0x1000_0000) & decode_fast::refs_in_range(w, base, top) {
        if count * w + 4 <= s.len() - at {
            store_refs_in_range(s, at, w, base, top, refs);
            return;
        }
    }
    let mut d = Decoder { bytes: s, at };
    for r in refs.iter_mut() {
        *r = d.ref_field(w, base, top).unwrap();
    }
}
