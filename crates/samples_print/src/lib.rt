// What the programs over the sample dumps share: they read the files that their arguments name, read dumps into tables, and print
// answers, tables, and whether an output is unchanged.
#![tactic(auto)]

ghost use Rattle.std.specs.Prelude.{◌≡◌, ◌≢◌, ◌≤◌, ◌<◌, ◌↔◌, IsTrue, length, take, drop, slice_index_or, min, ◌*◌, Some, codes, decimal, ◌++◌};
ghost use Rattle.std.specs.Int.{from_be_bytes, w64};
ghost use Rattle.table.specs.Refusals.{answer_of};
ghost use Rattle.phd.specs.Phd.{read_result};
ghost use Rattle.phd_read.specs.ReadContract.{read_answer};
ghost use Rattle.samples_print.specs.Texts.{answer_text, read_answer_text, header_text};
ghost use Rattle.io.specs.Counts.{IsPrefixLen};

use phd::Header;
use phd_read::ReadAnswer;
use std::env::Env;
use std::fs::File;
use std::io::Read;
use std::rt::Files;
use std::{env, fmt, io};
use table::{Answer, Refusal};

// The value of every number of the tables before a reading.
const UNREAD: u64 = 0x5EED_5EED_5EED_5EED;

// The reading of a dump: its answer, the numbers of the stored rows, the stored references, and whether the tables after these
// are unchanged.
#[derive(Clone, Copy)]
pub struct Reading<'a> {
    pub answer: ReadAnswer,
    pub rows: &'a [u64],
    pub refs: &'a [u64],
    pub unchanged: bool,
}

impl<'a> Reading<'a> {
    // Fills both tables with `UNREAD`, and reads a dump into them.
    pub fn of(dump: &[u8], rows: &'a mut [u64], refs: &'a mut [u64]) -> Reading<'a>
        ensures answer { result.answer ≡ read_answer (read_result dump.now (length rows.old) (length refs.old)) }
        ensures rows { result.rows.now ≡ (read_result dump.now (length rows.old) (length refs.old)).rows }
        ensures refs { result.refs.now ≡ (read_result dump.now (length rows.old) (length refs.old)).refs }
    {
        rows.fill(UNREAD);
        refs.fill(UNREAD);
        let answer = phd_read::read_tables(dump, rows, refs);
        let (rows, rows_rest) = rows.split_at(used_numbers(rows, answer.rows, table::ROW_WIDTH));
        let (refs, refs_rest) = refs.split_at(used_numbers(refs, answer.refs, 1));
        Reading {
            answer,
            rows,
            refs,
            unchanged: is_unchanged(rows_rest, UNREAD) && is_unchanged(refs_rest, UNREAD),
        }
    }
}

// Writes the answer and the tables of a reading:
//
//     reply R place P missing M rows N refs N bits W
//     all-hashed 0|1 openj9 0|1 vm 0|1 place P len N  the header's flags and VM string
//     row N N N ..                                    the numbers of each stored row, in their order
//     refs N N ..                                     the references, up to eight in a line
impl fmt::Display for Reading<'_> {
    fn fmt<W: fmt::Write>(&self, f: &mut fmt::Formatter<W>) -> fmt::Result {
        writeln!(f, "{}", ReadAnswerText(self.answer))?;
        writeln!(f, "{}", HeaderText(self.answer.header))?;
        write_lines(f, "row", self.rows, table::ROW_WIDTH)?;
        write_lines(f, "refs", self.refs, 8)
    }
}

// Writes numbers in lines of `width` numbers, each line after a label.
fn write_lines<W: fmt::Write>(
    f: &mut fmt::Formatter<W>,
    label: &str,
    numbers: &[u64],
    width: usize,
) -> fmt::Result
    requires { 1 ≤ width }
{
    for line in numbers.chunks(width) {
        writeln!(f, "{label}{}", Numbers(line))?;
    }
    Ok(())
}

// The bytes of a file that are not decoded yet. Its numbers have eight bytes, big-endian.
#[derive(Drop)]
pub struct UndecodedBytes<'a>(pub &'a [u8]);

impl UndecodedBytes<'_> {
    // Returns the next number, or 0 if the bytes are too few for one.
    pub fn number(&mut self) -> u64
        ensures number { 8 ≤ length self.old.0.now → result ≡ from_be_bytes w64 (take 8 self.old.0.now) }
        ensures none { length self.old.0.now < 8 → result ≡ 0 }
        ensures rest { self.new.0.now ≡ drop 8 self.old.0.now }
    {
        match self.0.split_first_chunk::<8>() {
            Some((bytes, rest)) => {
                self.0 = rest;
                u64::from_be_bytes(*bytes)
            }
            None => {
                self.0 = &[];
                0
            }
        }
    }

    // Returns whether the next number is not 0.
    pub fn flag(&mut self) -> bool
        ensures flag { IsTrue result ↔ (8 ≤ length self.old.0.now × from_be_bytes w64 (take 8 self.old.0.now) ≢ 0) }
        ensures rest { self.new.0.now ≡ drop 8 self.old.0.now }
    {
        self.number() != 0
    }

    // Returns the next byte, or `default` if there is none.
    pub fn byte_or(&mut self, default: u8) -> u8
        ensures byte { result ≡ slice_index_or self.old.0.now 0 default }
        ensures rest { self.new.0.now ≡ drop 1 self.old.0.now }
    {
        match self.0.split_first() {
            Some((byte, rest)) => {
                self.0 = rest;
                *byte
            }
            None => default,
        }
    }
}

// Returns how many numbers n elements of `width` numbers take, at most the length of the table.
pub fn used_numbers(table: &[u64], n: usize, width: usize) -> usize
    ensures { result ≡ min (n * width) (length table.now) }
{
    n.saturating_mul(width).min(table.len())
}

// Checks whether all elements are x, as before a reading or a writing.
pub fn is_unchanged<T: PartialEq + Drop>(rest: &[T], x: T) -> bool {
    rest.iter().all(|y| *y == x)
}

// Returns `unchanged` or `changed`.
pub fn unchanged_text(unchanged: bool) -> &'static str {
    if unchanged { "unchanged" } else { "changed" }
}

// Writes each number after a space.
#[derive(Clone, Copy)]
pub struct Numbers<'a, T>(pub &'a [T]);

impl<T: fmt::Display> fmt::Display for Numbers<'_, T> {
    fn fmt<W: fmt::Write>(&self, f: &mut fmt::Formatter<W>) -> fmt::Result {
        for x in self.0 {
            write!(f, " {x}")?;
        }
        Ok(())
    }
}

// Writes the answer of a reading: `reply R place P missing M rows N refs N bits W`.
#[derive(Clone, Copy)]
pub struct ReadAnswerText(pub ReadAnswer);

impl fmt::Display for ReadAnswerText {
    ghost output = { λ a. Some (read_answer_text a.0) };

    fn fmt<W: fmt::Write>(&self, f: &mut fmt::Formatter<W>) -> fmt::Result {
        let r = self.0;
        write!(
            f,
            "reply {} place {} missing {} rows {} refs {} bits {}",
            r.reply, r.place, r.missing, r.rows, r.refs, r.header.bits
        )
    }
}

// Writes the header's flags and VM string: `all-hashed 0|1 openj9 0|1 vm 0|1 place P len N`.
#[derive(Clone, Copy)]
struct HeaderText(Header);

impl fmt::Display for HeaderText {
    ghost output = { λ a. Some (header_text a.0) };

    fn fmt<W: fmt::Write>(&self, f: &mut fmt::Formatter<W>) -> fmt::Result {
        let header = self.0;
        let vm = header.vm;
        write!(
            f,
            "all-hashed {} openj9 {} vm {} place {} len {}",
            u64::from(header.hashed),
            u64::from(header.openj9),
            u64::from(vm.present),
            vm.place,
            vm.len
        )
    }
}

// Writes the answer of a writer or of a size query: `reply R place P`.
#[derive(Clone, Copy)]
pub struct AnswerText(pub Result<usize, Refusal>);

impl fmt::Display for AnswerText {
    ghost output = { λ a. Some (answer_text (answer_of a.0)) };

    fn fmt<W: fmt::Write>(&self, f: &mut fmt::Formatter<W>) -> fmt::Result {
        let answer = Answer::from(self.0);
        write!(f, "reply {} place {}", answer.reply, answer.place)
    }
}

// Returns how many bytes a writer wrote: 0 if it refused, and at most the length of the output.
pub fn written_bytes(answer: Answer, out: &[u8]) -> usize
    ensures { IsPrefixLen result out.now }
{
    if answer.reply != 0 {
        return 0;
    }
    answer.place.min(out.len())
}

// Prints, for each file that the program's arguments name, its name, and then what `print` prints for its bytes, as many as the
// buffer holds. Tells why a file cannot be opened.
pub fn print_files<R: Env + Files + Print + Eprint + Alloc, F: Fn(&[u8]) -> io::Result<()>>(
    rt: &R,
    buffer: &mut [u8],
    print: F,
) -> io::Result<()>
    requires { F.IsAlwaysCallable print }
{
    for name in env::args(rt)?.skip(1) {
        match File::open(rt, name.as_str()) {
            Ok(mut file) => {
                let n = read_full(&mut file, buffer);
                println!(rt; "{name}")?;
                print(&buffer[..n])?;
            }
            Err(error) => print_failure(rt, name.as_str(), error)?,
        }
    }
    Ok(())
}

// Prints a line to standard error: the name of a file, a colon, and the system's text for why it cannot be opened.
pub fn print_failure(rt: &(impl Eprint + Alloc), name: &str, error: io::Error) -> io::Result<()> {
    let text = error.to_string(rt.alloc())?;
    let text = text.as_str();
    let reason = text
        .split_once(" (os error ")
        .map_or(text, |(reason, _)| reason);
    eprintln!(rt; "{name}: {reason}")
}

// Reads until the buffer is full, the file ends or a read fails, and returns how many bytes it put at the start of the buffer.
// The programs need this loop: `read_exact` and `read_to_end` of the library read again after a read that a signal interrupted.
pub fn read_full(file: &mut impl Read, buffer: &mut [u8]) -> usize
    ensures { IsPrefixLen result buffer.new }
{
    let mut done = 0;
    while done < buffer.len() {
        match file.read(&mut buffer[done..]) {
            Ok(n @ 1..) => done += n,
            Ok(0) | Err(_) => break,
        }
    }
    done
}
