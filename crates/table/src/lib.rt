// The table of records: rows of thirteen numbers, one after another in a slice. Reading fills it; writing, the text, counts and
// searches are functions of its rows.
// Defined in specs/Table.antt (how a slice is split into rows) and specs/Rows.antt (a row by its numbers).
#![tactic(auto)]

ghost use Rattle.std.specs.Prelude.{◌≡◌, ◌+◌, ◌≤◌, ◌<◌, length};
ghost use Rattle.std.proofs.lemmas.List.Edits.{sets};
ghost use Rattle.table.specs.Table.{row_width, row_count};
ghost use Rattle.table.specs.Kinds.{IsKind};
ghost use Rattle.table.specs.Rows.{row_at};
ghost use Rattle.table.specs.Refusals.{refusal_answer, answer_of};

// How many numbers a row has.
pub const ROW_WIDTH: usize = 13;

// The kinds of records (docs/FORMAT.md 4.1).
#[derive(Clone, Copy, Debug, PartialEq, Eq)]
pub enum Kind {
    Class,
    Object,
    ObjectArray,
    PrimitiveArray,
}

impl Kind {
    // Returns the kind that a row's number names: 1 to 4, in the order above; any other number names none.
    pub fn of(number: u64) -> Option<Kind>
        ensures { IsKind result number }
    {
        match number {
            1 => Some(Kind::Class),
            2 => Some(Kind::Object),
            3 => Some(Kind::ObjectArray),
            4 => Some(Kind::PrimitiveArray),
            _ => None,
        }
    }
}

// A row (the scope paper's term): the numbers that represent a record, docs/FORMAT.md 4.1, except the last one, the record's
// offset, which writing and the text ignore.
#[derive(Clone, Copy)]
pub struct Row {
    // 1 class, 2 object, 3 object array, 4 primitive array.
    pub kind: u64,
    pub address: u64,
    // The class word (the scope paper's term): the address of the record's class; of a class, that of its superclass.
    pub class: u64,
    // 0 not hashed, 1 hashed but no hash is stored, 2 a 32-bit hash, 3 a 16-bit hash.
    pub hashkind: u64,
    pub hash: u64,
    // The index of its first reference in the reference table, and how many it has.
    pub first: u64,
    pub count: u64,
    // Of a class, its instance size in bytes; of an array, its size in units of 4 bytes.
    pub size: u64,
    // The length of an array, nulls included.
    pub len: u64,
    // The offset and the length of a class's name.
    pub place: u64,
    pub namelen: u64,
    // The type of a primitive array, 0 to 7 (docs/FORMAT.md 3.1).
    pub prim: u64,
}

// The answer of a write, a check or a size query as numbers: the reply and its place, both the scope paper's terms
// (docs/FORMAT.md 8). With reply 0 the place is a number of bytes.
#[derive(Clone, Copy, Debug, PartialEq, Eq)]
pub struct Answer {
    pub reply: u64,
    pub place: usize,
}

// Why tables are not written, or not as text (docs/FORMAT.md 8).
#[derive(Clone, Copy, Debug, PartialEq, Eq)]
pub enum Refusal {
    // Reply 15: the header is bad, or there are too many rows or reference numbers.
    BadHeader,
    // Reply 16: the row at this index is the first bad one.
    BadRow(usize),
    // Reply 17: the output is too small, or the dump would be over the size limit.
    TooSmall,
    // Reply 18: the row at this index is the first one whose class is not among the rows.
    ClassMissing(usize),
}

impl From<Refusal> for Answer {
    ghost from_gives = { λ refusal answer. answer ≡ refusal_answer refusal };

    // Returns the reply of a refusal, and its place.
    fn from(refusal: Refusal) -> Answer {
        match refusal {
            Refusal::BadHeader => Answer {
                reply: 15,
                place: 0,
            },
            Refusal::BadRow(i) => Answer {
                reply: 16,
                place: i,
            },
            Refusal::TooSmall => Answer {
                reply: 17,
                place: 0,
            },
            Refusal::ClassMissing(i) => Answer {
                reply: 18,
                place: i,
            },
        }
    }
}

impl From<Result<usize, Refusal>> for Answer {
    ghost from_gives = { λ written answer. answer ≡ answer_of written };

    // Returns the answer of a write or of a size query: reply 0 with the number of bytes, or the refusal.
    fn from(written: Result<usize, Refusal>) -> Answer {
        match written {
            Ok(bytes) => Answer {
                reply: 0,
                place: bytes,
            },
            Err(refusal) => Answer::from(refusal),
        }
    }
}

// Returns row i.
#[tactic(auto, using(crate::proofs::TableLaws::number_at), unfolding(crate::specs::Rows::row_at, crate::specs::Table::row_count))]
pub fn row_at(rows: &[u64], i: usize) -> Row
    requires { i < row_count rows.now }
    ensures { result ≡ row_at rows.now i }
{
    let at = i * ROW_WIDTH;
    let row = &rows[at..at + ROW_WIDTH];
    Row {
        kind: row[0],
        address: row[1],
        class: row[2],
        hashkind: row[3],
        hash: row[4],
        first: row[5],
        count: row[6],
        size: row[7],
        len: row[8],
        place: row[9],
        namelen: row[10],
        prim: row[11],
    }
}

// Stores the numbers of a row at offset `at` of a table.
pub fn store_row(table: &mut [u64], at: usize, row: [u64; ROW_WIDTH])
    requires { (at + row_width ≤ length table.old) × (length row ≡ row_width) }
    ensures { table.new ≡ sets table.old at row }
{
    table[at..at + ROW_WIDTH].copy_from_slice(&row);
}
