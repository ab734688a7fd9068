// Checks the references of a record, one at a time.
ghost use Rattle.std.specs.Prelude.{◌≡◌, ◌≤◌};
ghost use Rattle.decode.specs.ReadsAs.{ReadsAs};
ghost use Rattle.phd.specs.Phd.{ref_list};
ghost use Rattle.phd_record.specs.RecordReads.{dropped};

use decode::Stop;
use decode::decoder::Decoder;

// Checks `count` references of w bytes each, of a record at address `base`.
pub fn check_refs(d: &mut Decoder, w: usize, base: u64, top: u64, count: u64) -> Result<(), Stop>
    requires { w ≤ 8 }
    ensures { ReadsAs dropped (ref_list w base top count) d.old result d.new }
{
    for _ in 0..count {
        d.ref_field(w, base, top)?;
    }
    Ok(())
}
