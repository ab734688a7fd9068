// Reads a portable heap dump into the caller's tables: the public operation `read_tables`. The reading that makes class summaries too is
// in the crate phd_classes.
// Its contract is three equations with the definition: one for the answer and one for each table.
#![tactic(auto)]

ghost use Rattle.std.specs.Prelude.{◌≡◌, length};
ghost use Rattle.phd.specs.Phd.{read_result, no_records};
ghost use Rattle.table.specs.Buffer.{overwrite};
ghost use Rattle.phd_read.specs.ReadContract.{read_answer};

use decode::StringSpan;
use decode::decoder::Decoder;
use phd::Header;

pub mod records;
mod tables;

// The answer of a reading: the reply and its place, the missing bytes of a cut dump, how many rows and references were stored,
// and the header. Reply, place and missing bytes are the scope paper's terms (docs/FORMAT.md 8 and 5.2).
#[derive(Clone, Copy)]
pub struct ReadAnswer {
    pub reply: u64,
    pub place: usize,
    pub missing: usize,
    pub rows: usize,
    pub refs: usize,
    pub header: Header,
}

// Returns the answer of a reading that ends before the first record: place 0, nothing stored, an empty header.
fn no_records(reply: u64, missing: usize) -> ReadAnswer
    ensures { result ≡ read_answer (no_records reply missing) }
{
    ReadAnswer {
        reply,
        place: 0,
        missing,
        rows: 0,
        refs: 0,
        header: Header {
            bits: 0,
            hashed: false,
            openj9: false,
            vm: StringSpan {
                present: false,
                place: 0,
                len: 0,
            },
        },
    }
}

// Reads a dump. Stores its rows at the start of `rows`, `table::ROW_WIDTH` numbers each, and its references at the start of
// `refs`; the rest of both tables is unchanged.
pub fn read_tables(dump: &[u8], rows: &mut [u64], refs: &mut [u64]) -> ReadAnswer
    ensures is { result ≡ read_answer (read_result dump.now (length rows.old) (length refs.old)) }
    ensures rows { rows.new ≡ overwrite rows.old (read_result dump.now (length rows.old) (length refs.old)).rows }
    ensures refs { refs.new ≡ overwrite refs.old (read_result dump.now (length rows.old) (length refs.old)).refs }
{
    if reader::LIMIT < dump.len() {
        return no_records(2, 0);
    }
    let mut d = Decoder { bytes: dump, at: 0 };
    match phd_header::read_header(&mut d) {
        Ok(header) => records::read_records(dump, header, d.at, rows, refs),
        Err(w) => no_records(decode::reply_of(w), decode::missing_of(w)),
    }
}
