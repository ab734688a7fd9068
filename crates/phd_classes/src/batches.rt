// Reads the next batch of records of a reading with class summaries.
ghost use Rattle.std.specs.Prelude.{◌≡◌, ◌≤◌, ◌<◌, ltb, length};
ghost use Rattle.table.specs.Table.{row_count};
ghost use Rattle.table.specs.Rows.{row_at};
ghost use Rattle.summaries.specs.Summaries.{has};
ghost use Rattle.summaries.specs.EntrySteps.{numbers};
ghost use Rattle.phd.specs.Shapes.{ValidBits};
ghost use Rattle.summary_pass.specs.PassState.{TallyHolds, keys_counted, place_of};
ghost use Rattle.phd_read.specs.PhdSteps.{CursorInBounds};
ghost use Rattle.phd_classes.specs.ReadState.{AdvanceRequires, Advanced, EntryNeeded, key_among};

use decode::decoder::Decoder;
use phd::Header;
use phd_read::records;
use phd_read::records::Cursor;
use reader::End;
use summaries::Key;
use summary_index::Bucket;
use summary_pass::Tally;

// How many records a batch has, at most.
const BATCH: usize = 256;

// The state of a reading with class summaries between two batches of records. All rows stored have been counted.
#[derive(Clone, Copy)]
pub struct Progress {
    pub header: Header,
    pub cursor: Cursor,
    pub tally: Tally,
}

// Checks whether row i is counted under a key.
fn row_has_key(rows: &[u64], i: usize, key: Key) -> bool
    requires { i < row_count rows.now }
    ensures { result ≡ has (numbers key) (row_at rows.now i) }
{
    match Key::of_row(table::row_at(rows, i)) {
        Some(own) => own == key,
        None => false,
    }
}

// Checks whether one of the first n rows is counted under a key, row by row.
fn key_among_rows(rows: &[u64], n: usize, key: Key) -> bool
    requires { n ≤ row_count rows.now }
    ensures { result ≡ key_among rows.now n (numbers key) }
{
    for i in 0..n {
        if row_has_key(rows, i, key) {
            return true;
        }
    }
    false
}

// Checks whether an entry in use has a key.
fn has_entry(rows: &[u64], buckets: &[Bucket], tally: Tally, key: Key) -> bool
    requires { TallyHolds rows.now buckets.now tally }
    ensures { result ≡ ltb (place_of (numbers key) (keys_counted rows.now tally)) (length (keys_counted rows.now tally)) }
{
    match summary_index::find(buckets, key) {
        Some(_) => true,
        None if tally.complete => false,
        None => key_among_rows(rows, tally.counted, key),
    }
}

// Checks whether the next record fits both tables and needs a new entry.
fn needs_entry(dump: &[u8], rows: &[u64], refs: &[u64], buckets: &[Bucket], s: Progress) -> bool
    requires { CursorInBounds dump.now rows.now refs.now s.cursor × ValidBits s.header.bits × TallyHolds rows.now buckets.now s.tally }
    ensures { EntryNeeded dump.now rows.now refs.now s result }
{
    let k = s.cursor;
    let mut d = Decoder {
        bytes: dump,
        at: k.at,
    };
    let found = match phd_record::read_general(&mut d, s.header, k.context, k.refs as u64) {
        Ok(Some(found)) => found,
        Ok(None) => return false,
        Err(_) => return false,
    };
    if rows.len() - k.rows * table::ROW_WIDTH < table::ROW_WIDTH {
        return false;
    }
    let left = (refs.len() - k.refs) as u64;
    if left < found.span.count {
        return false;
    }
    match Key::of_row(table::row_at(&found.row, 0)) {
        Some(key) => !has_entry(rows, buckets, s.tally, key),
        None => false,
    }
}

// Reads the next batch into the tables, with a list of so many entries, or ends the reading with reply 20 if none is left for the next
// record.
pub fn advance(
    dump: &[u8],
    rows: &mut [u64],
    refs: &mut [u64],
    buckets: &[Bucket],
    entries: usize,
    s: &mut Progress,
) -> Result<(), End>
    requires { AdvanceRequires dump.now rows.old refs.old buckets.now entries s.old }
    ensures { Advanced dump.now rows.old refs.old entries s.old rows.new refs.new s.new result }
{
    let used = s.tally.used;
    if used < entries {
        let most = (entries - used).min(BATCH);
        let upto = s.cursor.rows + most;
        records::read_up_to(dump, s.header, rows, refs, &mut s.cursor, upto)
    } else if needs_entry(dump, rows, refs, buckets, *s) {
        Err(End::at(s.cursor.at, 20))
    } else {
        let upto = s.cursor.rows + 1;
        records::read_up_to(dump, s.header, rows, refs, &mut s.cursor, upto)
    }
}
