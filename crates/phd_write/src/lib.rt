// Writing tables as a portable heap dump (docs/FORMAT.md 6): the public operations `write_size`, the size query, and `write`.
// The contract of `write_size` is one equation with its definition; that of `write` is one for the answer and one for the output.
#![tactic(auto)]

ghost use Rattle.std.specs.Prelude.{◌≡◌, length};
ghost use Rattle.encode.specs.Writes.{Writes, HasCapacity};
ghost use Rattle.table.specs.Buffer.{overwrite};
ghost use Rattle.table.specs.Refusals.{answer_of};
ghost use Rattle.phd_write.specs.Write.{write_of, write_size_of};
ghost use Rattle.phd_write.specs.WriteTerms.{tables_dump};

use encode::encoder::Encoder;
use phd_check::{GoodTables, Tables};
use table::Refusal;

mod header;
mod rows;

// Returns the size of the dump of good tables, and refuses one over the size limit.
fn dump_size(good: GoodTables) -> Result<usize, Refusal>
    ensures { answer_of result ≡ write_size_of good.entry.tables }
{
    let first = header::header_size(good.tables.header, good.tables.names);
    let size = rows::rows_size(good, first);
    if reader::LIMIT < size {
        Err(Refusal::TooSmall)
    } else {
        Ok(size)
    }
}

// Returns the size in bytes of the dump of the whole rows of a table and their references. Makes the checks of `write`, except
// that of the output, and writes nothing.
pub fn write_size(tables: Tables) -> Result<usize, Refusal>
    ensures { answer_of result ≡ write_size_of tables.entry }
{
    dump_size(tables.check()?)
}

// Encodes the dump of good tables at the start of an output that can hold it, and returns its length.
#[tactic(auto, using(encode::specs::Wrote::consecutive), unfolding(crate::specs::Write::encode_dump))]
fn encode_dump(good: GoodTables, out: &mut [u8]) -> usize
    requires { HasCapacity out.old 0 (tables_dump good.tables) }
    ensures { Writes out.old 0 (tables_dump good.entry.tables) out.new result }
{
    let mut e = Encoder { out, at: 0 };
    header::encode_header(&mut e, good.tables.header, good.tables.names);
    rows::encode_rows(&mut e, good);
    e.at
}

// Writes the whole rows of a table and their references as a dump at the start of the output, and returns its length. Output
// bytes after the dump are unchanged; a refusal changes no byte.
#[tactic(auto, using(crate::proofs::CheckedFirst::checks_first))]
pub fn write(tables: Tables, out: &mut [u8]) -> Result<usize, Refusal>
    ensures is { answer_of result ≡ (write_of tables.entry (length out.old)).answer }
    ensures out { out.new ≡ overwrite out.old (write_of tables.entry (length out.old)).bytes }
{
    let good = tables.check()?;
    let size = dump_size(good)?;
    if out.len() < size {
        return Err(Refusal::TooSmall);
    }
    encode_dump(good, out);
    Ok(size)
}
