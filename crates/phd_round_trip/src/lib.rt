// Theorems about writing and then reading: a written dump is read back as the records passed in, and a cut of it as the records
// that lie whole within the cut (specs/).
// The two functions below only call the public operations. Their contracts are the premises of the theorems in
// specs/InMemory.antt and proofs/InMemory.antt, so those theorems hold for every call of `write` and `read_tables`.
#![tactic(auto)]

ghost use Rattle.phd_read.specs.ReadContract.{AfterRead};
ghost use Rattle.phd_write.specs.WriteTerms.{AfterWrite};
ghost use Rattle.table.specs.Refusals.{answer_of};

use phd_check::Tables;
use phd_read::ReadAnswer;
use table::Refusal;

// Calls `phd_write::write`.
pub fn call_write(tables: Tables, out: &mut [u8]) -> Result<usize, Refusal>
    ensures { AfterWrite tables.entry.header tables.entry.names.now tables.entry.refs.now tables.entry.rows.now out.old (answer_of result) out.new }
{
    phd_write::write(tables, out)
}

// Calls `phd_read::read_tables`.
pub fn call_read(dump: &[u8], rows: &mut [u64], refs: &mut [u64]) -> ReadAnswer
    ensures { AfterRead dump.now rows.old refs.old result rows.new refs.new }
{
    phd_read::read_tables(dump, rows, refs)
}
