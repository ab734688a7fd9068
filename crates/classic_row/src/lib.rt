// A row's two lines: their size in bytes, and writing them.
#![tactic(auto)]

ghost use Rattle.std.specs.Prelude.{◌≡◌, false, ◌<◌};
ghost use Rattle.encode.specs.Writes.{Writes, HasCapacity};
ghost use Rattle.table.specs.Rows.{rows_of};
ghost use Rattle.phd.specs.Shapes.{ValidBits};
ghost use Rattle.classic.specs.ClassicText.{class_missing, class_of};
ghost use Rattle.classic.specs.PrimitiveClasses.{class_from};
ghost use Rattle.classic.specs.RowBounds.{RowNumbersInBounds, KnownKind, AllNumbersInBounds, RefsInBounds};
ghost use Rattle.class_index.specs.LastSearch.{ClassFound};
ghost use Rattle.classic_row.specs.RowText.{row_size_or_none, row_text};

use encode::encoder::Encoder;
use label::Label;
use table::Row;

mod label;
mod parts;

// Returns the class word that the second line shows. `classes` are the class words of primitive arrays, by type.
pub fn class_of(classes: &[u64; 8], row: Row) -> u64
    requires { row.prim < 8 }
    ensures { result ≡ class_from classes.now row }
{
    classic::primitives::class_of(classes, row)
}

// Returns the size of a row's two lines in bytes, or `None` if its class row is missing. `bits` is W; `found` is the result of the
// search for the row's class word.
pub fn row_text_size(
    bits: u64,
    names: &[u8],
    rows: &[u64],
    row: Row,
    found: Option<usize>,
) -> Option<usize>
    requires valid_bits { ValidBits bits }
    requires all_numbers_in_bounds { AllNumbersInBounds names.now (rows_of rows.now) }
    requires row_numbers_in_bounds { RowNumbersInBounds names.now row }
    requires known_kind { KnownKind row }
    requires class_found { ClassFound (rows_of rows.now) row found }
    ensures { result ≡ row_size_or_none bits names.now (rows_of rows.now) row }
{
    let label = Label::of(names, rows, row, found)?;
    let digits = digits::digit_count(label.bytes);
    let type_len = label.type_name.len();
    let address = 2 + (bits / 4) as usize;
    let first = address + 8 + digits + type_len + 1;
    Some(first + address + row.count as usize * (1 + address) + 1)
}

// Writes a row's two lines at offset `at`, and returns the offset after them. The row's class row must not be missing; `found` is
// the result of the search for it. `class` is the class word to show. The encoder is a local one, so that a caller's loop has its
// offset in a register.
pub fn write_row_text(
    out: &mut [u8],
    at: usize,
    bits: u64,
    names: &[u8],
    refs: &[u64],
    rows: &[u64],
    row: Row,
    found: Option<usize>,
    class: u64,
) -> usize
    requires valid_bits { ValidBits bits }
    requires all_numbers_in_bounds { AllNumbersInBounds names.now (rows_of rows.now) }
    requires row_numbers_in_bounds { RowNumbersInBounds names.now row }
    requires known_kind { KnownKind row }
    requires class_found { ClassFound (rows_of rows.now) row found }
    requires class_value { class ≡ class_of names.now (rows_of rows.now) row }
    requires row_value { class_missing (rows_of rows.now) row ≡ false }
    requires refs_in_bounds { RefsInBounds refs.now row }
    requires has_capacity { HasCapacity out.old at (row_text bits names.now refs.now (rows_of rows.now) row) }
    ensures { Writes out.old at (row_text bits names.now refs.now (rows_of rows.now) row) out.new result }
{
    let label = Label::of(names, rows, row, found).unwrap();
    let mut e = Encoder { out, at };
    parts::encode_first_line(&mut e, bits, row, label);
    e.byte(b'\n');
    parts::encode_second_line(&mut e, bits, class, classic::refs_of(refs, row));
    e.byte(b'\n');
    e.at
}
