// Writes the sample tables that its arguments name as dumps, after a size query, reads the dumps back, and prints it all.
// samples/make_write.py makes the tables, and derives the expected output from their rows. For each file:
//
//     NAME
//     size reply R place P                                 the answer of the size query
//     reply R place P                                      the answer of the writer
//     bytes HH HH ..                                       the bytes written, up to 32 in a line
//     repeated N                                           the number of lines left out that are equal to the last one
//     rest unchanged|changed                               the output after the dump; all of it, if refused
//     read reply R place P missing M rows N refs N bits W  the answer of reading the dump, if it was written
//     all-hashed 0|1 openj9 0|1 vm 0|1 place P len N       the header's flags and VM string
//     row N N N ..                                         the numbers of each stored row, in their order
//     refs N N ..                                          the references, up to eight in a line
//
// tables.rt describes how a file encodes its tables.
#![tactic(auto)]

mod tables;

use phd_check::Tables;
use samples_print::{
    AnswerText, Reading, UndecodedBytes, is_unchanged, print_files, unchanged_text, written_bytes,
};
use std::{fmt, io};
use table::Answer;
use tables::Head;

// The number of bytes in a line.
const LINE: usize = 32;

// The capacity for a file.
const FILE: usize = 0x1_0000;

// The capacity for name bytes and for output.
const BYTES: usize = 0x1_1000;

// The value of every byte of the output before a writing.
const UNTOUCHED: u8 = 0xA5;

// Writes each byte after a space, as two hexadecimal digits.
#[derive(Clone, Copy)]
struct HexBytes<'a>(&'a [u8]);

impl fmt::Display for HexBytes<'_> {
    fn fmt<W: fmt::Write>(&self, f: &mut fmt::Formatter<W>) -> fmt::Result {
        for x in self.0 {
            write!(f, " {x:02x}")?;
        }
        Ok(())
    }
}

// Prints how many lines are left out, if any.
fn print_repeated(rt: &impl Print, n: usize) -> io::Result<()> {
    if 0 < n {
        println!(rt; "repeated {n}")?;
    }
    Ok(())
}

// Prints all bytes, in lines. Leaves out each line that is equal to the one before it.
fn print_bytes(rt: &impl Print, bytes: &[u8]) -> io::Result<()> {
    let mut last: &[u8] = &[];
    let mut repeated = 0;
    for line in bytes.chunks(LINE) {
        if line == last {
            repeated += 1;
        } else {
            print_repeated(rt, repeated)?;
            repeated = 0;
            println!(rt; "bytes{}", HexBytes(line))?;
        }
        last = line;
    }
    print_repeated(rt, repeated)
}

// Reads a dump, and prints the answer and the tables.
fn print_read_back(rt: &impl Print, dump: &[u8]) -> io::Result<()> {
    let mut rows = [0; tables::ROWS];
    let mut refs = [0; tables::REFS];
    let reading = Reading::of(dump, &mut rows, &mut refs);
    print!(rt; "read {reading}")
}

// Prints the answer of a size query for tables, and the dump that is written to untouched output.
fn print_dump_of(rt: &impl Print, tables: Tables, out: &mut [u8]) -> io::Result<()> {
    println!(rt; "size {}", AnswerText(phd_write::write_size(tables)))?;
    let written = phd_write::write(tables, out);
    println!(rt; "{}", AnswerText(written))?;
    let (dump, rest) = out.split_at(written_bytes(Answer::from(written), out));
    print_bytes(rt, dump)?;
    println!(rt; "rest {}", unchanged_text(is_unchanged(rest, UNTOUCHED)))?;
    if written.is_ok() {
        print_read_back(rt, dump)?;
    }
    Ok(())
}

// Writes the tables of one file. The numbers and bytes after the references and the name bytes that are passed are valid, so a
// writer that read too far would not be refused there.
fn print_sample(rt: &impl Print, bytes: &[u8]) -> io::Result<()> {
    let mut file = UndecodedBytes(bytes);
    let head = Head::decode(&mut file);
    let mut rows = [0; tables::ROWS];
    let mut refs = [4; tables::REFS];
    let mut names = [b'x'; BYTES];
    let mut out = [UNTOUCHED; BYTES];
    let rows = tables::fill(&mut rows, head.rows, || file.number());
    let refs = tables::fill(&mut refs, head.refs, || file.number());
    let names = tables::fill(&mut names, head.names, || file.byte_or(b'x'));
    let capacity = head.capacity.min(BYTES);
    let tables = Tables {
        header: head.header,
        rows,
        refs,
        names,
    };
    print_dump_of(rt, tables, &mut out[..capacity])
}

fn main(rt: HostRuntime) -> io::Result<()> {
    print_files(&rt, &mut [0; FILE], |bytes| print_sample(&rt, bytes))
}
