// Decodes the tables of a file. It has numbers of eight bytes, big-endian, and then bytes:
//
//     W; all-hashed; from OpenJ9; VM string present; its place; its length; the capacity of the output
//     how many numbers of rows, references and name bytes are passed to the writer
//     the numbers of the rows
//     the references
//     the name bytes; those that the file lacks are `x`
//
// A flag is set if its number is not 0.
ghost use Rattle.std.specs.Prelude.{◌≤◌, length};

use decode::StringSpan;
use phd::Header;
use samples_print::UndecodedBytes;

// The length of the row table: 48 rows and five numbers, too few for another row.
pub const ROWS: usize = 48 * table::ROW_WIDTH + 5;

// The length of the reference table.
pub const REFS: usize = 70;

// The numbers that come before the tables: the header, the capacity of the output, and how many numbers of rows, references and
// name bytes are passed to the writer.
#[derive(Clone, Copy)]
pub struct Head {
    pub header: Header,
    pub capacity: usize,
    pub rows: usize,
    pub refs: usize,
    pub names: usize,
}

impl Head {
    // Decodes the numbers from the start of a file.
    pub fn decode(file: &mut UndecodedBytes) -> Head {
        Head {
            header: Header {
                bits: file.number(),
                hashed: file.flag(),
                openj9: file.flag(),
                vm: StringSpan {
                    present: file.flag(),
                    place: file.number() as usize,
                    len: file.number() as usize,
                },
            },
            capacity: file.number() as usize,
            rows: file.number() as usize,
            refs: file.number() as usize,
            names: file.number() as usize,
        }
    }
}

// Stores values at the start of a table, at most n, and returns them.
pub fn fill<'a, T: Drop, F: FnMut() -> T>(table: &'a mut [T], n: usize, next: F) -> &'a [T]
    requires { F.IsAlwaysCallable next }
{
    let n = n.min(table.len());
    let filled = &mut table[..n];
    filled.fill_with(next);
    filled
}
