// Reads the sample dumps that its arguments name, and every cut of each, and prints the answers and the tables.
// samples/make.py makes the dumps, and derives the expected output from the records that it added to them. For each file:
//
//     NAME
//     reply R place P missing M rows N refs N bits W  the answer for the whole file
//     all-hashed 0|1 openj9 0|1 vm 0|1 place P len N  the header's flags and VM string
//     row N N N ..                                    the numbers of each stored row, in their order
//     refs N N ..                                     the references, up to eight in a line
//     cut N reply R place P missing M rows N ..       the answer for the first N bytes, if it differs from that for
//                                                     N - 1 bytes in more than the missing bytes
//     missing M M ..                                  the missing bytes of every cut, from 0 bytes on, 32 in a line
//     rest unchanged|changed                          the tables after what each of these readings stored
//
// For a file of 4,096 bytes or more, the size of the buffer, it prints `too large` instead.
#![tactic(auto)]

use samples_print::{ReadAnswerText, Reading, print_files, unchanged_text};
use std::io;

// The length of the row table: 48 rows and five numbers, too few for another row.
const ROWS: usize = 48 * table::ROW_WIDTH + 5;

// The length of the reference table.
const REFS: usize = 70;

// The capacity for a file.
const BYTES: usize = 4096;

// Reads every cut of a dump, from 0 bytes on, into the tables. Prints an answer if it differs from the one before in more than the
// missing bytes. Returns whether all of the readings left the rest of the tables unchanged.
fn print_cuts(
    rt: &impl Print,
    dump: &[u8],
    rows: &mut [u64],
    refs: &mut [u64],
) -> io::Result<bool> {
    let mut last = None;
    let mut unchanged = true;
    for n in 0..=dump.len() {
        let cut = Reading::of(&dump[..n], rows, refs);
        let r = cut.answer;
        let printed = Some((r.reply, r.place, r.rows, r.refs, r.header.bits));
        if printed != last {
            println!(rt; "cut {n} {}", ReadAnswerText(r))?;
        }
        last = printed;
        unchanged = unchanged && cut.unchanged;
    }
    Ok(unchanged)
}

// Reads every cut of a dump again, and prints the missing bytes of each.
fn print_missing(
    rt: &impl Print,
    dump: &[u8],
    rows: &mut [u64],
    refs: &mut [u64],
) -> io::Result<()> {
    for n in 0..=dump.len() {
        let cut = Reading::of(&dump[..n], rows, refs);
        if n % 32 == 0 {
            print!(rt; "missing")?;
        }
        print!(rt; " {}", cut.answer.missing)?;
        if n % 32 == 31 || n == dump.len() {
            println!(rt; "")?;
        }
    }
    Ok(())
}

// Prints everything for one dump. All readings have the same tables: the missing bytes of the cuts are not kept but read again, so
// that the stack holds no more than these.
fn print_sample(rt: &impl Print, dump: &[u8]) -> io::Result<()> {
    if BYTES <= dump.len() {
        return println!(rt; "too large");
    }
    let mut rows = [0; ROWS];
    let mut refs = [0; REFS];
    let whole = Reading::of(dump, &mut rows, &mut refs);
    print!(rt; "{whole}")?;
    let first_unchanged = whole.unchanged;
    let unchanged = print_cuts(rt, dump, &mut rows, &mut refs)? && first_unchanged;
    print_missing(rt, dump, &mut rows, &mut refs)?;
    println!(rt; "rest {}", unchanged_text(unchanged))
}

fn main(rt: HostRuntime) -> io::Result<()> {
    print_files(&rt, &mut [0; BYTES], |dump| print_sample(&rt, dump))
}
