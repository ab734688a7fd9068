// The C boundary: reading, writing, the classic text, and the size queries of the last two, for callers in C or Rust. A slice is
// a pointer and a length, a number has 64 bits, and nothing is allocated. Each function has the contract of the operation that it
// calls, with the header and the answer as numbers (specs/Boundary.antt).
#![tactic(auto)]

ghost use Rattle.std.specs.Prelude.{◌≡◌, length};
ghost use Rattle.table.specs.Buffer.{overwrite};
ghost use Rattle.table.specs.Refusals.{answer_of};
ghost use Rattle.table.specs.Rows.{rows_of};
ghost use Rattle.summaries.specs.Summaries.{summaries};
ghost use Rattle.phd.specs.Phd.{read_result};
ghost use Rattle.phd_read.specs.ReadContract.{read_answer};
ghost use Rattle.classes_read.specs.ClassesRead.{classes_result, classes_answer};
ghost use Rattle.phd_write.specs.Write.{write_result, write_size_result};
ghost use Rattle.classic.specs.ClassicText.{text_result, text_size_result};
ghost use Rattle.phd_c.specs.Boundary.{header_from, read_answer_numbers, classes_answer_numbers, answer_numbers};

use classes_read::ClassesAnswer;
use decode::StringSpan;
use phd::Header;
use phd_check::Tables;
use phd_read::ReadAnswer;
use summaries::Summary;
use table::{Answer, Refusal};

// Returns the header that the caller passes as six numbers. It is no `From`: neither type is of this crate.
fn header_from(h: &[u64; 6]) -> Header
    ensures { result ≡ header_from h.now }
{
    let [bits, hashed, openj9, present, place, len] = *h;
    Header {
        bits,
        hashed: hashed != 0,
        openj9: openj9 != 0,
        vm: StringSpan {
            present: present != 0,
            place: place as usize,
            len: len as usize,
        },
    }
}

// Returns the answer of a reading as 16 numbers.
fn read_answer_numbers(r: ReadAnswer) -> [u64; 16]
    ensures { result ≡ read_answer_numbers r }
{
    let f = r.header;
    let vm = f.vm;
    [
        r.reply,
        r.place as u64,
        r.rows as u64,
        r.refs as u64,
        f.bits,
        u64::from(f.hashed),
        u64::from(f.openj9),
        u64::from(vm.present),
        vm.place as u64,
        vm.len as u64,
        r.missing as u64,
        0,
        0,
        0,
        0,
        0,
    ]
}

// Returns the answer of a write or of a size query as 16 numbers.
fn answer_numbers(w: Answer) -> [u64; 16]
    ensures { result ≡ answer_numbers w }
{
    let mut numbers = [0; 16];
    numbers[0] = w.reply;
    numbers[1] = w.place as u64;
    numbers
}

// Fills in the answer of a write or of a size query, and returns the reply.
fn store_answer(answer: &mut [u64; 16], written: Result<usize, Refusal>) -> u64
    ensures is { result ≡ (answer_of written).reply }
    ensures answer { answer.new ≡ answer_numbers (answer_of written) }
{
    let w = Answer::from(written);
    *answer = answer_numbers(w);
    w.reply
}

// Reads a dump into the caller's tables. Returns the reply, as do all functions below.
#[unsafe(no_mangle)]
pub extern "C" fn phd_read_tables(
    dump: &[u8],
    rows: &mut [u64],
    refs: &mut [u64],
    answer: &mut [u64; 16],
) -> u64
    ensures is { result ≡ (read_result dump.now (length rows.old) (length refs.old)).reply }
    ensures rows { rows.new ≡ overwrite rows.old (read_result dump.now (length rows.old) (length refs.old)).rows }
    ensures refs { refs.new ≡ overwrite refs.old (read_result dump.now (length rows.old) (length refs.old)).refs }
    ensures answer { answer.new ≡ read_answer_numbers (read_answer (read_result dump.now (length rows.old) (length refs.old))) }
{
    let r = phd_read::read_tables(dump, rows, refs);
    *answer = read_answer_numbers(r);
    r.reply
}

// Fills in the answer of a reading with class summaries, and returns the reply.
fn store_classes_answer(answer: &mut [u64; 16], r: ClassesAnswer) -> u64
    ensures { (result ≡ r.read.reply) × (answer.new ≡ classes_answer_numbers r) }
{
    let read = r.read;
    let mut numbers = read_answer_numbers(read);
    numbers[11] = r.entries as u64;
    *answer = numbers;
    read.reply
}

// Reads a dump into the caller's tables and list of class summaries.
#[unsafe(no_mangle)]
pub extern "C" fn phd_read(
    dump: &[u8],
    rows: &mut [u64],
    refs: &mut [u64],
    classes: &mut [Summary],
    answer: &mut [u64; 16],
) -> u64
    ensures { (result ≡ (classes_result dump.now (length rows.old) (length refs.old) (length classes.old)).reply)
        × (rows.new ≡ overwrite rows.old (classes_result dump.now (length rows.old) (length refs.old) (length classes.old)).rows)
        × (refs.new ≡ overwrite refs.old (classes_result dump.now (length rows.old) (length refs.old) (length classes.old)).refs)
        × (classes.new ≡ overwrite classes.old (summaries (rows_of (classes_result dump.now (length rows.old) (length refs.old) (length classes.old)).rows)))
        × (answer.new ≡ classes_answer_numbers (classes_answer (classes_result dump.now (length rows.old) (length refs.old) (length classes.old)))) }
{
    let r = phd_classes::read(dump, rows, refs, classes);
    store_classes_answer(answer, r)
}

// Computes how many bytes `phd_write` would write (size query).
#[unsafe(no_mangle)]
pub extern "C" fn phd_write_size(
    header: &[u64; 6],
    rows: &[u64],
    refs: &[u64],
    names: &[u8],
    answer: &mut [u64; 16],
) -> u64
    ensures is { result ≡ (write_size_result (header_from header.now) names.now refs.now rows.now).reply }
    ensures answer { answer.new ≡ answer_numbers (write_size_result (header_from header.now) names.now refs.now rows.now) }
{
    let header = header_from(header);
    store_answer(
        answer,
        phd_write::write_size(Tables {
            header,
            rows,
            refs,
            names,
        }),
    )
}

// Writes the caller's tables as a dump.
#[unsafe(no_mangle)]
pub extern "C" fn phd_write(
    header: &[u64; 6],
    rows: &[u64],
    refs: &[u64],
    names: &[u8],
    out: &mut [u8],
    answer: &mut [u64; 16],
) -> u64
    ensures is { result ≡ (write_result (header_from header.now) names.now refs.now rows.now (length out.old)).answer.reply }
    ensures out { out.new ≡ overwrite out.old (write_result (header_from header.now) names.now refs.now rows.now (length out.old)).bytes }
    ensures answer { answer.new ≡ answer_numbers (write_result (header_from header.now) names.now refs.now rows.now (length out.old)).answer }
{
    let header = header_from(header);
    store_answer(
        answer,
        phd_write::write(
            Tables {
                header,
                rows,
                refs,
                names,
            },
            out,
        ),
    )
}

// Computes how many bytes `phd_text` would write (size query).
#[unsafe(no_mangle)]
pub extern "C" fn phd_text_size(
    header: &[u64; 6],
    rows: &[u64],
    refs: &[u64],
    names: &[u8],
    answer: &mut [u64; 16],
) -> u64
    ensures is { result ≡ (text_size_result (header_from header.now) names.now refs.now rows.now).reply }
    ensures answer { answer.new ≡ answer_numbers (text_size_result (header_from header.now) names.now refs.now rows.now) }
{
    let header = header_from(header);
    store_answer(
        answer,
        classic_write::text_size(Tables {
            header,
            rows,
            refs,
            names,
        }),
    )
}

// Writes the caller's tables as classic text.
#[unsafe(no_mangle)]
pub extern "C" fn phd_text(
    header: &[u64; 6],
    rows: &[u64],
    refs: &[u64],
    names: &[u8],
    out: &mut [u8],
    answer: &mut [u64; 16],
) -> u64
    ensures is { result ≡ (text_result (header_from header.now) names.now refs.now rows.now (length out.old)).answer.reply }
    ensures out { out.new ≡ overwrite out.old (text_result (header_from header.now) names.now refs.now rows.now (length out.old)).bytes }
    ensures answer { answer.new ≡ answer_numbers (text_result (header_from header.now) names.now refs.now rows.now (length out.old)).answer }
{
    let header = header_from(header);
    store_answer(
        answer,
        classic_write::text(
            Tables {
                header,
                rows,
                refs,
                names,
            },
            out,
        ),
    )
}
