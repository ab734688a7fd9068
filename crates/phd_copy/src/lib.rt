// If a reading has read the header, its header and rows pass every check of the writer and of the text: specs/ReadThenWrite.antt.
// The function below only calls `read_tables`. Its contract states this for every call.
#![tactic(auto)]

ghost use Rattle.std.specs.Prelude.{◌≡◌, ◌*◌, take};
ghost use Rattle.table.specs.Table.{row_width};
ghost use Rattle.table.specs.Rows.{rows_of};
ghost use Rattle.phd_check.specs.GoodRows.{TablesGood};

use phd_read::ReadAnswer;

// Calls `phd_read::read_tables`. If the header was read, the header and the stored rows pass every check of the writer and of the text,
// with the dump as the name bytes.
pub fn read_passes_checks(dump: &[u8], rows: &mut [u64], refs: &mut [u64]) -> ReadAnswer
    ensures { (result.header.bits ≡ 0 → ⊥) → TablesGood result.header dump.now (take result.refs refs.new) (rows_of (take (result.rows * row_width) rows.new)) }
{
    phd_read::read_tables(dump, rows, refs)
}
