// Reads the records of a dump: one step, and the loop over steps.
ghost use Rattle.std.specs.Prelude.{◌≡◌, suc, ◌+◌, ◌*◌, ◌^◌, ◌<◌, ◌≤◌, length};
ghost use Rattle.table.specs.Table.{row_width};
ghost use Rattle.phd.specs.Phd.{limit, records, initial_state};
ghost use Rattle.phd.specs.Shapes.{ValidBits};
ghost use Rattle.table.specs.Buffer.{overwrite};
ghost use Rattle.phd_read.specs.ReadContract.{read_answer};
ghost use Rattle.phd_read.specs.PhdSteps.{CursorInBounds, FoundAt, StepContinues, StepContract, UpToContract, advanced, initial_cursor};

use super::{ReadAnswer, tables};
use decode::decoder::Decoder;
use phd::{Cache, Header, RecordContext};
use phd_record::Record;
use reader::End;

// The state of a reading between two records: the offset of the next tag, the context of the record there, and how many rows and
// references are stored.
#[derive(Clone, Copy)]
pub struct Cursor {
    pub at: usize,
    pub context: RecordContext,
    pub rows: usize,
    pub refs: usize,
}

impl Cursor {
    // Returns the cursor before the first record, whose tag is at `at`.
    pub fn first(at: usize) -> Cursor
        ensures { result ≡ initial_cursor at }
    {
        Cursor {
            at,
            context: RecordContext {
                address: 0,
                cache: Cache::new(),
            },
            rows: 0,
            refs: 0,
        }
    }

    // Moves the cursor after the record `found`; the next tag is at `next`.
    fn advance(&mut self, next: usize, found: Record)
        requires { (self.old.rows + 1 < 2 ^ 64) × (self.old.refs + found.span.count < 2 ^ 64) }
        ensures { self.new ≡ advanced self.old next found }
    {
        self.at = next;
        self.context = found.context;
        self.rows += 1;
        self.refs += found.span.count as usize;
    }
}

// Stores the row and the references of a record, within the tables' capacity, and moves the cursor after it.
fn store(
    s: &[u8],
    header: Header,
    rows: &mut [u64],
    refs: &mut [u64],
    k: &mut Cursor,
    next: usize,
    found: Record,
)
    requires cursor_in_bounds { CursorInBounds s.now rows.old refs.old k.old × ValidBits header.bits }
    requires found_at { FoundAt header s.now k.old found next }
    requires row_width_in_bounds { (k.old.rows * row_width + row_width ≤ length rows.old) × (k.old.refs + found.span.count ≤ length refs.old) }
    ensures { StepContinues header s.now k.old rows.old refs.old rows.new refs.new k.new }
{
    table::store_row(rows, k.rows * table::ROW_WIDTH, found.row);
    let span = found.span;
    let top = phd::forms::max_address_of(header.bits);
    let to = k.refs;
    let count = span.count as usize;
    tables::store_refs(
        s,
        span.place,
        span.width,
        found.context.address,
        top,
        &mut refs[to..to + count],
    );
    k.advance(next, found);
}

// Checks capacity, for the row (13) and then for the references (14), and stores the record.
fn store_checked(
    s: &[u8],
    header: Header,
    rows: &mut [u64],
    refs: &mut [u64],
    k: &mut Cursor,
    next: usize,
    found: Record,
) -> Result<(), End>
    requires cursor_in_bounds { CursorInBounds s.now rows.old refs.old k.old × ValidBits header.bits }
    requires found_at { FoundAt header s.now k.old found next }
    ensures { StepContract header s.now k.old rows.old refs.old rows.new refs.new k.new result }
{
    if rows.len() - k.rows * table::ROW_WIDTH < table::ROW_WIDTH {
        return Err(End::at(k.at, 13));
    }
    let left = (refs.len() - k.refs) as u64;
    if left < found.span.count {
        return Err(End::at(k.at, 14));
    }
    store(s, header, rows, refs, k, next, found);
    Ok(())
}

// Reads one record and stores it, or ends the reading and leaves the cursor and the tables unchanged.
pub fn step(
    s: &[u8],
    header: Header,
    rows: &mut [u64],
    refs: &mut [u64],
    k: &mut Cursor,
) -> Result<(), End>
    requires { CursorInBounds s.now rows.old refs.old k.old × ValidBits header.bits }
    ensures { StepContract header s.now k.old rows.old refs.old rows.new refs.new k.new result }
{
    let mut d = Decoder { bytes: s, at: k.at };
    match phd_record::read_record(&mut d, header, k.context, k.refs as u64) {
        Ok(Some(found)) => store_checked(s, header, rows, refs, k, d.at, found),
        Ok(None) => Err(End::at(d.at, 0)),
        Err(w) => Err(End {
            reply: decode::reply_of(w),
            place: k.at,
            missing: decode::missing_of(w),
        }),
    }
}

// Reads and stores records until `upto` rows are stored, or the reading ends.
pub fn read_up_to(
    s: &[u8],
    header: Header,
    rows: &mut [u64],
    refs: &mut [u64],
    k: &mut Cursor,
    upto: usize,
) -> Result<(), End>
    requires { CursorInBounds s.now rows.old refs.old k.old × ValidBits header.bits × (length s.now ≤ limit) }
    ensures { UpToContract header s.now k.old rows.old refs.old upto rows.new refs.new k.new result }
{
    // Its own cursor: passed on as it is, the caller's could not be kept in registers.
    let mut cursor = *k;
    while cursor.rows < upto {
        if let Err(end) = step(s, header, rows, refs, &mut cursor) {
            *k = cursor;
            return Err(end);
        }
    }
    *k = cursor;
    Ok(())
}

// Reads the records of a dump; the first tag is at `at`.
pub fn read_records(
    s: &[u8],
    header: Header,
    at: usize,
    rows: &mut [u64],
    refs: &mut [u64],
) -> ReadAnswer
    requires { (at ≤ length s.now) × (length s.now ≤ limit) × ValidBits header.bits }
    ensures is { result ≡ read_answer (records (suc limit) header s.now (length rows.old) (length refs.old) (initial_state at)) }
    ensures rows { rows.new ≡ overwrite rows.old (records (suc limit) header s.now (length rows.old) (length refs.old) (initial_state at)).rows }
    ensures refs { refs.new ≡ overwrite refs.old (records (suc limit) header s.now (length rows.old) (length refs.old) (initial_state at)).refs }
{
    let mut k = Cursor::first(at);
    // No table has this many rows, so that the reading ends before.
    let upto = rows.len() / table::ROW_WIDTH + 1;
    let Err(end) = read_up_to(s, header, rows, refs, &mut k, upto) else {
        unreachable!()
    };
    ReadAnswer {
        reply: end.reply,
        place: end.place,
        missing: end.missing,
        rows: k.rows,
        refs: k.refs,
        header,
    }
}
