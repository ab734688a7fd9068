// Writing tables as classic text: the public operations `text_size`, the size query, and `text`.
// The contract of `text_size` is one equation with the definition; that of `text` is two, for the answer and for the output.
#![tactic(auto)]

ghost use Rattle.std.specs.Prelude.{◌≡◌, length};
ghost use Rattle.table.specs.Buffer.{overwrite};
ghost use Rattle.table.specs.Refusals.{answer_of};
ghost use Rattle.classic_write.specs.SizedText.{text_size_of, text_of_tables};

use class_index::{LARGE, SMALL};
use phd_check::{GoodTables, Tables};
use phd_counts::Tally;
use source::Source;
use table::Refusal;

mod rows;
mod source;
mod trailers;
mod version;

// Tables with at most so many rows are searched without a class index: it would take longer to make than it saves.
const FEW_ROWS: usize = 64;

// The size in bytes of a text, or of its version line and the lines of its rows; and the counts of the rows.
#[derive(Clone, Copy)]
struct TextSize {
    bytes: usize,
    tally: Tally,
}

// Returns the size of the text of good tables, or refuses it, by a large class index. Here and below the buckets are those of a function
// of their own: in a caller that makes others too, all of them would be cleared at each call.
fn text_size_by_large(good: GoodTables) -> Result<usize, Refusal>
    ensures { answer_of result ≡ text_size_of good.entry.tables }
{
    let mut large = [0; LARGE];
    Source::new(good, &mut large).text_size()
}

// Returns the size of the text of good tables, or refuses it: by a small class index if it is certified, else by a large one.
fn text_size_by_small(good: GoodTables) -> Result<usize, Refusal>
    ensures { answer_of result ≡ text_size_of good.entry.tables }
{
    let mut small = [0; SMALL];
    let source = Source::new(good, &mut small);
    if source.finder.is_certified() {
        source.text_size()
    } else {
        text_size_by_large(good)
    }
}

// Returns how many bytes the whole rows of a table and their references take as classic text. This size query makes the checks of
// `text` except that of the output, and writes nothing.
pub fn text_size(tables: Tables) -> Result<usize, Refusal>
    ensures { answer_of result ≡ text_size_of tables.entry }
{
    let good = tables.check()?;
    if good.tables.rows.len() <= FEW_ROWS * table::ROW_WIDTH {
        let mut none = [0; 0];
        Source::new(good, &mut none).text_size()
    } else {
        text_size_by_small(good)
    }
}

// Writes the text of good tables if the output has capacity for it, or refuses it, by a large class index.
fn text_by_large(good: GoodTables, out: &mut [u8]) -> Result<usize, Refusal>
    ensures is { answer_of result ≡ (text_of_tables good.entry.tables (length out.old)).answer }
    ensures out { out.new ≡ overwrite out.old (text_of_tables good.entry.tables (length out.old)).bytes }
{
    let mut large = [0; LARGE];
    Source::new(good, &mut large).text(out)
}

// Writes the text of good tables if the output has capacity for it, or refuses it: by a small class index if it is certified, else by a
// large one.
fn text_by_small(good: GoodTables, out: &mut [u8]) -> Result<usize, Refusal>
    ensures is { answer_of result ≡ (text_of_tables good.entry.tables (length out.old)).answer }
    ensures out { out.new ≡ overwrite out.old (text_of_tables good.entry.tables (length out.old)).bytes }
{
    let mut small = [0; SMALL];
    let source = Source::new(good, &mut small);
    if source.finder.is_certified() {
        source.text(out)
    } else {
        text_by_large(good, out)
    }
}

// Writes the whole rows of a table and their references as classic text to the start of the output, and returns its length. Bytes
// after the text do not change; if the text is refused, no byte of the output changes.
pub fn text(tables: Tables, out: &mut [u8]) -> Result<usize, Refusal>
    ensures is { answer_of result ≡ (text_of_tables tables.entry (length out.old)).answer }
    ensures out { out.new ≡ overwrite out.old (text_of_tables tables.entry (length out.old)).bytes }
{
    let good = tables.check()?;
    if good.tables.rows.len() <= FEW_ROWS * table::ROW_WIDTH {
        let mut none = [0; 0];
        Source::new(good, &mut none).text(out)
    } else {
        text_by_small(good, out)
    }
}
