// Classic text: the definition of the text (specs/ClassicText.antt), and the functions that find class rows: by address here, by
// the name of a primitive array's type in primitives.rt. The contract of each function here is an equation with a definition.
#![tactic(auto)]

ghost use Rattle.std.specs.Prelude.{◌≡◌, ◌+◌, ◌≤◌, length};
ghost use Rattle.table.specs.Rows.{name_of, refs_of, rows_of};
ghost use Rattle.table.specs.RowBytes.{class_at};

use table::Row;

pub mod primitives;

// Returns a row's name.
pub fn name_of(names: &[u8], row: Row) -> &[u8]
    requires { row.place + row.namelen ≤ length names.now }
    ensures { result.now ≡ name_of names.now row }
{
    let place = row.place as usize;
    &names[place..place + row.namelen as usize]
}

// Returns a row's references.
pub fn refs_of(refs: &[u64], row: Row) -> &[u64]
    requires { row.first + row.count ≤ length refs.now }
    ensures { result.now ≡ refs_of refs.now row }
{
    let first = row.first as usize;
    &refs[first..first + row.count as usize]
}

// Finds the first class row with this address.
pub fn class_at(rows: &[u64], address: u64) -> Option<usize>
    ensures { result ≡ class_at (rows_of rows.now) address }
{
    let n = rows.len() / table::ROW_WIDTH;
    for i in 0..n {
        let row = table::row_at(rows, i);
        if row.kind == 1 && row.address == address {
            return Some(i);
        }
    }
    None
}
