// The lines of the rows: their size in bytes, and encoding them, row by row.
ghost use Rattle.std.specs.Prelude.{◌≡◌, ◌+◌, ◌^◌, ◌<◌, None};
ghost use Rattle.encode.specs.Wrote.{Wrote, HasRoom};
ghost use Rattle.table.specs.Rows.{rows_of};
ghost use Rattle.table.specs.Search.{first_row};
ghost use Rattle.phd.specs.Shapes.{ValidBits};
ghost use Rattle.phd_counts.specs.Counts.{tally_of};
ghost use Rattle.phd_counts.specs.CountLoop.{CountBounds};
ghost use Rattle.classic.specs.ClassicText.{class_missing};
ghost use Rattle.classic.specs.RowBounds.{AllRefsInBounds};
ghost use Rattle.classic_write.specs.TextParts.{rows_size, size_or_missing, rows_text};

use super::TextSize;
use class_index::finder::ClassFinder;
use encode::encoder::Encoder;
use phd_counts::Tally;
use table::Refusal;

// Returns the size of the lines of all rows plus `first`, the size of the version line, and the counts of the rows; or the refusal of
// the first object or object array whose class row is missing. `bits` is W.
pub fn rows_text_size(finder: &ClassFinder, bits: u64, first: usize) -> Result<TextSize, Refusal>
    requires valid_bits { ValidBits bits }
    requires rows_bound { first + rows_size bits finder.now.names.now (rows_of finder.now.rows.now) < 2 ^ 63 }
    requires count_bounds { CountBounds (rows_of finder.now.rows.now) }
    ensures { result ≡ size_or_missing (first_row (class_missing (rows_of finder.now.rows.now)) (rows_of finder.now.rows.now)) (first + rows_size bits finder.now.names.now (rows_of finder.now.rows.now)) (tally_of (rows_of finder.now.rows.now)) }
{
    let rows = finder.rows;
    let mut last = None;
    let mut tally = Tally::no_rows();
    let mut bytes = first;
    for i in 0..rows.len() / table::ROW_WIDTH {
        let row = table::row_at(rows, i);
        if row.kind == 2 || row.kind == 3 {
            last = finder.search(row.class, last);
        }
        let found = last.map(|search| search.row);
        let Some(size) = classic_row::row_text_size(bits, finder.names, rows, row, found) else {
            return Err(Refusal::ClassMissing(i));
        };
        bytes += size;
        tally = tally.add_row(row);
    }
    Ok(TextSize { bytes, tally })
}

// Encodes the lines of all rows. No row's class row may be missing. `bits` is W.
pub fn encode_rows_text(e: &mut Encoder, finder: &ClassFinder, bits: u64, refs: &[u64])
    requires valid_bits { ValidBits bits }
    requires rows_value { first_row (class_missing (rows_of finder.now.rows.now)) (rows_of finder.now.rows.now) ≡ None }
    requires all_refs_in_bounds { AllRefsInBounds refs.now (rows_of finder.now.rows.now) }
    requires has_room { HasRoom e.old (rows_text bits finder.now.names.now refs.now (rows_of finder.now.rows.now)) }
    ensures { Wrote e.old e.new (rows_text bits finder.now.names.now refs.now (rows_of finder.now.rows.now)) }
{
    let rows = finder.rows;
    let names = finder.names;
    let mut last = None;
    for i in 0..rows.len() / table::ROW_WIDTH {
        let row = table::row_at(rows, i);
        if row.kind == 2 || row.kind == 3 {
            last = finder.search(row.class, last);
        }
        let found = last.map(|search| search.row);
        let class = finder.class_of(row);
        e.at = classic_row::write_row_text(e.out, e.at, bits, names, refs, rows, row, found, class);
    }
}
