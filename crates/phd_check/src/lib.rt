// Checks of a header and of the rows of a table before they are written (docs/FORMAT.md 6.1).
// Each contract equates the result with a definition of specs/GoodRows.antt, that of `check` with `checked_input` of table.
#![tactic(auto)]

ghost use Rattle.std.specs.Prelude.{◌≡◌, IfOk};
ghost use Rattle.phd.specs.Shapes.{ValidBits};
ghost use Rattle.table.specs.Rows.{rows_of};
ghost use Rattle.phd_check.specs.GoodRows.{good_vm, good_header, good_refs, first_bad, TablesGood};
ghost use Rattle.table.specs.CheckOrder.{checked_input};
ghost use Rattle.table.specs.Refusals.{check_answer};

use decode::StringSpan;
use phd::Header;
use table::Refusal;

mod numbers;

// Checks whether the VM string may be written; an absent one may.
fn vm_good(names: &[u8], vm: StringSpan) -> bool
    ensures { result ≡ good_vm names.now vm }
{
    if !vm.present {
        return true;
    }
    if names.len() < vm.len {
        return false;
    }
    (vm.len < 0x1_0000) & (vm.place <= names.len() - vm.len)
        && decode::all_within(names, vm.place, vm.len, 0x20, 0x7E)
}

// Checks whether the header may be written and there are at most 2^30 rows and 2^30 reference numbers.
fn header_good(header: Header, names: &[u8], rows: &[u64], refs: &[u64]) -> bool
    ensures { result ≡ good_header header names.now (rows_of rows.now) refs.now }
{
    ((header.bits == 32) | (header.bits == 64))
        & (rows.len() / table::ROW_WIDTH <= 0x4000_0000)
        & (refs.len() <= 0x4000_0000)
        & vm_good(names, header.vm)
}

// Checks whether all references are good. The loop has no early exit, and so no branch that is hard to predict.
fn refs_good(top: u64, refs: &[u64]) -> bool
    ensures { result ≡ good_refs top refs.now }
{
    let mut good = true;
    for a in refs {
        good &= numbers::ref_good(top, *a);
    }
    good
}

// Returns the index of the first bad row, if there is one. If all references of the table are good, as they nearly always are,
// the loop over those of each row is left out. An outer loop over rows with inner ones over references and name bytes, left by a label
// at the first bad row, is the form that the scope paper names for this rule.
fn find_bad(header: Header, names: &[u8], refs: &[u64], rows: &[u64]) -> Option<usize>
    requires { ValidBits header.bits }
    ensures { result ≡ first_bad header names.now refs.now (rows_of rows.now) }
{
    let n = rows.len() / table::ROW_WIDTH;
    let top = phd::forms::max_address_of(header.bits);
    let clean = refs_good(top, refs);
    let mut index: u64 = 0;
    let mut i: usize = 0;
    'rows: while i < n {
        let row = table::row_at(rows, i);
        if !numbers::numbers_good(header, index, refs.len(), names.len(), row) {
            break 'rows;
        }
        if !clean {
            let last = (row.first + row.count) as usize;
            let mut j = row.first as usize;
            while j < last {
                if !numbers::ref_good(top, refs[j]) {
                    break 'rows;
                }
                j += 1;
            }
        }
        let end = (row.place + row.namelen) as usize;
        let mut k = row.place as usize;
        while k < end {
            if (names[k] < 0x21) | (0x7E < names[k]) {
                break 'rows;
            }
            k += 1;
        }
        index += row.count;
        i += 1;
    }
    if i < n {
        return Some(i);
    }
    None
}

// The tables that are to be written as a dump or as text: the header, the rows, the reference table and the name bytes.
#[derive(Clone, Copy)]
pub struct Tables<'a> {
    pub header: Header,
    pub rows: &'a [u64],
    pub refs: &'a [u64],
    pub names: &'a [u8],
}

// Tables whose header is good and that have no bad row. Only `Tables::check` makes them.
#[derive(Clone, Copy)]
pub struct GoodTables<'a> {
    pub tables: Tables<'a>,
    pub ghost good: { TablesGood tables.header tables.names.now tables.refs.now (rows_of tables.rows.now) },
}

impl<'a> Tables<'a> {
    // Checks the header, then the rows; writing and the text both begin with it. The refusals are `BadHeader` and `BadRow`.
    #[tactic(auto, using(crate::specs::WellFormed::header_bits_good), unfolding(table::specs::CheckOrder::checked_input, table::specs::CheckOrder::checked_write, table::specs::CheckOrder::refused, table::specs::CheckOrder::done))]
    pub fn check(self) -> Result<GoodTables<'a>, Refusal>
        ensures answer { check_answer result ≡ checked_input (good_header self.entry.header self.entry.names.now (rows_of self.entry.rows.now) self.entry.refs.now) (first_bad self.entry.header self.entry.names.now self.entry.refs.now (rows_of self.entry.rows.now)) }
        ensures same { IfOk result (λ good. good.tables ≡ self.entry) }
    {
        if !header_good(self.header, self.names, self.rows, self.refs) {
            return Err(Refusal::BadHeader);
        }
        match find_bad(self.header, self.names, self.refs, self.rows) {
            Some(i) => Err(Refusal::BadRow(i)),
            None => Ok(GoodTables { tables: self }),
        }
    }
}
