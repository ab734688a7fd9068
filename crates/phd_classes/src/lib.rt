// Reads a portable heap dump into the caller's tables and list of class summaries: the public operation `read`.
// Its contract is four equations with the definition: one for the answer, one for each table and one for the list.
// The rows are read in batches; after each batch its rows are counted in their entries, while they are in the cache. A batch has at
// most as many rows as entries are left, so that no record is stored without its entry. At the end of the reading the class rows give
// the objects that wait their bytes.
#![tactic(auto)]

ghost use Rattle.std.specs.Prelude.{◌≡◌, length, replicate};
ghost use Rattle.table.specs.Buffer.{overwrite};
ghost use Rattle.table.specs.Rows.{rows_of};
ghost use Rattle.summaries.specs.Summaries.{summaries};
ghost use Rattle.summary_index.specs.SummaryIndex.{empty};
ghost use Rattle.classes_read.specs.ClassesRead.{classes_result, classes_answer};
ghost use Rattle.phd_classes.specs.ReadState.{Started, Finished};

use batches::Progress;
use classes_read::ClassesAnswer;
use phd_read::ReadAnswer;
use summaries::Summary;
use summary_index::Bucket;

pub mod batches;
pub mod begin;

// Reads a dump from its first record on, with a summary index that is empty.
pub fn read_from(
    dump: &[u8],
    rows: &mut [u64],
    refs: &mut [u64],
    buckets: &mut [Bucket],
    classes: &mut [Summary],
    start: Progress,
) -> ClassesAnswer
    requires { (buckets.old ≡ replicate 32832 empty) × Started dump.now start }
    ensures { Finished dump.now rows.old refs.old classes.old result rows.new refs.new classes.new }
{
    let mut s = start;
    loop {
        let read = batches::advance(dump, rows, refs, buckets, classes.len(), &mut s);
        s.tally = s.tally.count_rows(rows, buckets, classes, s.cursor.rows);
        if let Err(end) = read {
            s.tally.size_rows(rows, buckets, classes);
            return ClassesAnswer {
                read: ReadAnswer {
                    reply: end.reply,
                    place: end.place,
                    missing: end.missing,
                    rows: s.cursor.rows,
                    refs: s.cursor.refs,
                    header: s.header,
                },
                entries: s.tally.used,
            };
        }
    }
}

// Reads a dump, with a summary index that is empty.
pub fn read_with(
    dump: &[u8],
    rows: &mut [u64],
    refs: &mut [u64],
    buckets: &mut [Bucket],
    classes: &mut [Summary],
) -> ClassesAnswer
    requires { buckets.old ≡ replicate 32832 empty }
    ensures { Finished dump.now rows.old refs.old classes.old result rows.new refs.new classes.new }
{
    match begin::begin(dump) {
        Ok(start) => read_from(dump, rows, refs, buckets, classes, start),
        Err(answer) => answer,
    }
}

// Reads a dump. Stores its rows at the start of `rows`, `table::ROW_WIDTH` numbers each, its references at the start of `refs`, and the
// class summaries of the rows stored at the start of `classes`; the rest of all three is unchanged.
pub fn read(
    dump: &[u8],
    rows: &mut [u64],
    refs: &mut [u64],
    classes: &mut [Summary],
) -> ClassesAnswer
    ensures { (result ≡ classes_answer (classes_result dump.now (length rows.old) (length refs.old) (length classes.old)))
        × (rows.new ≡ overwrite rows.old (classes_result dump.now (length rows.old) (length refs.old) (length classes.old)).rows)
        × (refs.new ≡ overwrite refs.old (classes_result dump.now (length rows.old) (length refs.old) (length classes.old)).refs)
        × (classes.new ≡ overwrite classes.old (summaries (rows_of (classes_result dump.now (length rows.old) (length refs.old) (length classes.old)).rows))) }
{
    let mut buckets = [Bucket::EMPTY; summary_index::LEN];
    read_with(dump, rows, refs, &mut buckets, classes)
}
