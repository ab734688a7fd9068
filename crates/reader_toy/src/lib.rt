// A second, small format: an example of how to add a format. A format consists of
// - its definition, a `Format` of crates/reader: header, context and records as layouts (`toy` in specs/Toy.antt);
// - its laws, `Lawful`: a record takes at least one byte, a row has the offset of its record, no refusal has reply 0 or 1. The
//   theorems of every reading then hold for it (`toy_cuts_prefix`, `toy_row_origins`, `toy_completed_end`);
// - its reader, as here: fields are read with crates/decode, rows are stored with crates/table. The laws of
//   crates/reader/specs/TableSteps.antt prove that a step is right, and that the loop over steps gives the result of the reading.
#![tactic(auto)]

ghost use Rattle.std.specs.Prelude.{◌≡◌, ◌+◌, ◌*◌, ◌≤◌, length};
ghost use Rattle.decode.specs.Layout.{reply_of, missing_of};
ghost use Rattle.std.proofs.lemmas.List.Edits.{sets};
ghost use Rattle.table.specs.Buffer.{overwrite};
ghost use Rattle.table.specs.Table.{row_width};
ghost use Rattle.reader.specs.Reader.{limit, capacity, no_records, read_result};
ghost use Rattle.reader_toy.specs.Toy.{row, toy};
ghost use Rattle.reader_toy.specs.ReaderSpecs.{answer, records_from, record_row_width, CursorValid, StepContract};

use decode::Stop;
use decode::decoder::Decoder;
use reader::End;

// The first byte of a dump, the letter T.
pub const LETTER: u64 = 0x54;

// The answer of a reading: reply and place, the missing bytes, how many rows and references were stored, and the header's letter,
// or 0 if the header was not read.
#[derive(Clone, Copy, Debug, PartialEq, Eq)]
pub struct ReadAnswer {
    pub reply: u64,
    pub place: usize,
    pub missing: usize,
    pub rows: usize,
    pub refs: usize,
    pub letter: u64,
}

// A cursor, between records: the offset of the next one, how many there were, and how many rows and references are stored.
#[derive(Clone, Copy)]
struct Cursor {
    at: usize,
    count: u64,
    rows: usize,
    refs: usize,
}

// Returns how many numbers the row of a record has if the record's first byte is b.
fn record_row_width(b: u8) -> usize
    ensures { result ≡ record_row_width b }
{
    if b % 2 == 0 { 0 } else { table::ROW_WIDTH }
}

// Stores the row of a record of n bytes, of which the first is b, if it has a row; returns how many rows are then stored.
fn store_row(rows: &mut [u64], letter: u64, k: Cursor, n: usize, b: u8) -> usize
    requires { k.rows * row_width + record_row_width b ≤ length rows.old }
    ensures is { rows.new ≡ sets rows.old (k.rows * row_width) (row letter k.count n b k.at) }
    ensures counts { result * row_width ≡ k.rows * row_width + record_row_width b }
{
    if b % 2 == 0 {
        return k.rows;
    }
    let row = [
        letter,
        k.count,
        n as u64,
        0,
        0,
        0,
        0,
        0,
        0,
        0,
        0,
        0,
        k.at as u64,
    ];
    table::store_row(rows, k.rows * table::ROW_WIDTH, row);
    k.rows + 1
}

// Stores the bytes as references, from index `to` of the table on.
fn store_refs(bytes: &[u8], refs: &mut [u64], to: usize)
    requires { to + length bytes.now ≤ length refs.old }
    ensures { refs.new ≡ sets refs.old to bytes.now }
{
    for (i, b) in bytes.iter().enumerate() {
        refs[to + i] = u64::from(*b);
    }
}

// Returns the end of a reading that stops in the record at offset `place`.
fn stop_at(place: usize, w: Stop) -> End
    ensures { result ≡ record { reply = reply_of w; place = place; missing = missing_of w } }
{
    End {
        reply: decode::reply_of(w),
        place,
        missing: decode::missing_of(w),
    }
}

// Reads one record and stores it, or ends the reading. If there is no capacity, it ends with reply 13 for the row of the record, if
// it has one, or else with reply 14 for its references.
fn step(
    s: &[u8],
    letter: u64,
    rows: &mut [u64],
    refs: &mut [u64],
    k: &mut Cursor,
) -> Result<(), End>
    requires { CursorValid s.now rows.old refs.old k.old }
    ensures { StepContract letter s.now k.old rows.old refs.old rows.new refs.new k.new result }
{
    let place = k.at;
    let mut d = Decoder {
        bytes: s,
        at: place,
    };
    let n = match d.field(1) {
        Ok(n) => n,
        Err(w) => return Err(stop_at(place, w)),
    };
    if n == 0 {
        return Err(End::at(d.at, 0));
    }
    let bytes = match d.raw(n as usize) {
        Ok(bytes) => bytes,
        Err(w) => return Err(stop_at(place, w)),
    };
    if rows.len() - k.rows * table::ROW_WIDTH < record_row_width(bytes[0]) {
        return Err(End::at(place, 13));
    }
    if refs.len() - k.refs < bytes.len() {
        return Err(End::at(place, 14));
    }
    k.rows = store_row(rows, letter, *k, bytes.len(), bytes[0]);
    store_refs(bytes, refs, k.refs);
    k.refs += bytes.len();
    k.count += 1;
    k.at = d.at;
    Ok(())
}

// Reads the records of a dump, the first of which is at offset `at`.
fn read_records(s: &[u8], letter: u64, at: usize, rows: &mut [u64], refs: &mut [u64]) -> ReadAnswer
    requires { (at ≤ length s.now) × (length s.now ≤ limit) }
    ensures is { result ≡ answer (records_from letter s.now at rows.old refs.old) }
    ensures rows { rows.new ≡ overwrite rows.old (records_from letter s.now at rows.old refs.old).rows }
    ensures refs { refs.new ≡ overwrite refs.old (records_from letter s.now at rows.old refs.old).refs }
{
    let mut k = Cursor {
        at,
        count: 0,
        rows: 0,
        refs: 0,
    };
    loop {
        if let Err(end) = step(s, letter, rows, refs, &mut k) {
            return ReadAnswer {
                reply: end.reply,
                place: end.place,
                missing: end.missing,
                rows: k.rows,
                refs: k.refs,
                letter,
            };
        }
    }
}

// Returns the answer of a reading that ends before the records.
fn no_records(reply: u64, missing: usize) -> ReadAnswer
    ensures { result ≡ answer (no_records toy reply missing) }
{
    ReadAnswer {
        reply,
        place: 0,
        missing,
        rows: 0,
        refs: 0,
        letter: 0,
    }
}

// Reads a dump: stores its rows at the start of `rows`, `table::ROW_WIDTH` numbers each, and its references at the start of
// `refs`. After them the tables are unchanged.
pub fn read(dump: &[u8], rows: &mut [u64], refs: &mut [u64]) -> ReadAnswer
    ensures is { result ≡ answer (read_result toy dump.now (capacity (length rows.old) (length refs.old))) }
    ensures rows { rows.new ≡ overwrite rows.old (read_result toy dump.now (capacity (length rows.old) (length refs.old))).rows }
    ensures refs { refs.new ≡ overwrite refs.old (read_result toy dump.now (capacity (length rows.old) (length refs.old))).refs }
{
    if reader::LIMIT < dump.len() {
        return no_records(2, 0);
    }
    let mut d = Decoder { bytes: dump, at: 0 };
    match d.exactly(1, LETTER, 3) {
        Ok(letter) => read_records(dump, letter, d.at, rows, refs),
        Err(w) => no_records(decode::reply_of(w), decode::missing_of(w)),
    }
}
