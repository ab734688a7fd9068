// The rows of a dump: their size, and encoding them in order.
ghost use Rattle.std.specs.Prelude.{◌≡◌, ◌+◌, ◌/◌, ◌≤◌, ◌<◌, length};
ghost use Rattle.encode.specs.Wrote.{Wrote, HasRoom};
ghost use Rattle.phd.specs.Shapes.{ValidBits};
ghost use Rattle.table.specs.Rows.{refs_of, name_of};
ghost use Rattle.phd_plan.specs.FormChoice.{Bounded, plan_input, make_plan};
ghost use Rattle.phd_write.specs.WriteTerms.{tables_rows};

use encode::encoder::Encoder;
use phd::{Cache, Header};
use phd_check::{GoodTables, Tables};
use phd_plan::Plan;
use table::Row;

// Returns the references of a row.
#[tactic(auto, unfolding(table::specs::Rows::refs_of))]
fn refs_of(refs: &[u64], row: Row) -> &[u64]
    requires { row.first + row.count ≤ length refs.now }
    ensures { result.now ≡ refs_of refs.now row }
{
    &refs[row.first as usize..(row.first + row.count) as usize]
}

// Returns the name of a row.
#[tactic(auto, unfolding(table::specs::Rows::name_of))]
fn name_of(names: &[u8], row: Row) -> &[u8]
    requires { row.place + row.namelen ≤ length names.now }
    ensures { result.now ≡ name_of names.now row }
{
    &names[row.place as usize..(row.place + row.namelen) as usize]
}

// Returns the plan of a row with its references, after a record at the address `before`, with the cache.
fn plan_row(h: Header, cache: Cache, before: u64, row: Row, refs: &[u64]) -> Plan
    requires { Bounded (plan_input cache before row refs.now) }
    ensures { result ≡ make_plan (h.bits / 8) (plan_input cache before row refs.now) }
{
    phd_plan::make_plan(
        (h.bits / 8) as usize,
        phd_plan::plan_input_of(cache, before, row, refs),
    )
}

// Returns the size of a dump whose header has `first` bytes: the header, the rows and the end tag.
pub fn rows_size(good: GoodTables, first: usize) -> usize
    requires { first < 65570 }
    ensures { result ≡ first + length (tables_rows good.entry.tables) }
{
    let Tables {
        header,
        rows,
        refs,
        names: _,
    } = good.tables;
    let w = (header.bits / 8) as usize;
    let mut cache = Cache::new();
    let mut before = 0;
    let mut total = first;
    for i in 0..rows.len() / table::ROW_WIDTH {
        let row = table::row_at(rows, i);
        let list = refs_of(refs, row);
        let sized = phd_encode::sizes::record_size(w, cache, before, row, list);
        total += sized.size;
        cache = cache.push_if(sized.cached, row.class);
        before = row.address;
    }
    total + 1
}

// Encodes the rows and the end tag.
pub fn encode_rows(e: &mut Encoder, good: GoodTables)
    requires { HasRoom e.old (tables_rows good.tables) }
    ensures { Wrote e.old e.new (tables_rows good.entry.tables) }
{
    let Tables {
        header,
        rows,
        refs,
        names,
    } = good.tables;
    let mut cache = Cache::new();
    let mut before = 0;
    for i in 0..rows.len() / table::ROW_WIDTH {
        let row = table::row_at(rows, i);
        let list = refs_of(refs, row);
        let plan = plan_row(header, cache, before, row, list);
        let name = name_of(names, row);
        phd_encode::encode_record(e, before, plan, row, list, name);
        cache = cache.push_if(plan.shape.cached, row.class);
        before = row.address;
    }
    e.be(1, 3);
}
