// Writes the sample dumps that its arguments name as classic text, after a size query, and prints it.
// samples/make_text.py makes the dumps, and derives the expected output from the records that it added to them. For each file:
//
//     NAME
//     reply R place P missing M rows N refs N bits W    the answer of reading the dump
//     size reply R place P                              the answer of the size query for the text of its records
//     text reply R place P                              the answer of writing the text
//     ..                                                the text, if it was written
//     rest unchanged|changed                            the output after the text; all of it, if refused
//     capacity N reply R place P same|other             the text written again, with a capacity of exactly its length
//     capacity N reply R place P unchanged|changed      with a byte less, or with 0 if it was refused: all of the output
//
// Bytes after a dump may change the tables before the text is written: changes.rt.
#![tactic(auto)]

mod changes;

use changes::{ChangedTable, Changes, HeaderIndex};
use phd_check::Tables;
use samples_print::{
    AnswerText, ReadAnswerText, Reading, is_unchanged, print_files, unchanged_text, written_bytes,
};
use std::io;
use table::Answer;

// The length of the row table: 128 rows, and one number too few for another.
const ROWS: usize = 129 * table::ROW_WIDTH - 1;

// The length of the reference table.
const REFS: usize = 160;

// The capacity for a file and for output.
const BYTES: usize = 0x4_0000;

// The value of every byte of the output before the text is written.
const UNTOUCHED: u8 = 0xEE;

// Writes the text again, to the first bytes of the untouched `out`, as many as `capacity`. Prints the answer and whether the text
// is the same as `text`, the first one.
fn print_with_capacity(
    rt: &impl Print,
    tables: Tables,
    text: &[u8],
    capacity: usize,
    out: &mut [u8],
) -> io::Result<()> {
    let n = capacity.min(out.len());
    let out = &mut out[..n];
    let written = classic_write::text(tables, out);
    let outcome = if written.is_err() {
        unchanged_text(is_unchanged(out, UNTOUCHED))
    } else if &out[..written_bytes(Answer::from(written), out)] == text {
        "same"
    } else {
        "other"
    };
    println!(rt; "capacity {n} {} {outcome}", AnswerText(written))
}

// Prints the answer of the size query and the text of tables, written to the untouched `out`; then the answers with a capacity of
// exactly the text's length, and with a byte less.
fn print_text_of(rt: &impl Print, tables: Tables, out: &mut [u8]) -> io::Result<()> {
    println!(rt; "size {}", AnswerText(classic_write::text_size(tables)))?;
    let written = classic_write::text(tables, out);
    println!(rt; "text {}", AnswerText(written))?;
    let (text, rest) = out.split_at(written_bytes(Answer::from(written), out));
    rt.write_all(text)?;
    println!(rt; "rest {}", unchanged_text(is_unchanged(rest, UNTOUCHED)))?;
    let n = text.len();
    // One output for both: two of them would take that much more stack.
    let mut again = [UNTOUCHED; BYTES];
    print_with_capacity(rt, tables, text, n, &mut again)?;
    if 0 < n {
        again.fill(UNTOUCHED);
        print_with_capacity(rt, tables, text, n - 1, &mut again)?;
    }
    Ok(())
}

// Reads a dump, applies the changes that the file has after it to the tables, and writes them as text.
fn print_sample(rt: &impl Print, dump: &[u8]) -> io::Result<()> {
    let mut rows = [0; ROWS];
    let mut refs = [0; REFS];
    let reading = Reading::of(dump, &mut rows, &mut refs);
    let r = reading.answer;
    println!(rt; "{}", ReadAnswerText(r))?;
    let changes = Changes::after(dump, r);
    let n = changes
        .size(HeaderIndex::PassedRows, reading.rows.len())
        .min(ROWS);
    let m = changes
        .size(HeaderIndex::PassedRefs, reading.refs.len())
        .min(REFS);
    changes.apply(ChangedTable::Rows, &mut rows);
    changes.apply(ChangedTable::Refs, &mut refs);
    let tables = Tables {
        header: changes.header(r.header),
        rows: &rows[..n],
        refs: &refs[..m],
        names: dump,
    };
    print_text_of(rt, tables, &mut [UNTOUCHED; BYTES])
}

fn main(rt: HostRuntime) -> io::Result<()> {
    print_files(&rt, &mut [0; BYTES], |dump| print_sample(&rt, dump))
}
