// Passes over the rows of a table that make the list of class summaries: the first counts rows in their entries, and after it the second,
// over the class rows, gives the objects that wait their bytes. Together they make the class summaries of the rows, since class rows may
// be summed up last (`class_rows_last` in crates/summaries/specs/ClassRowsLast.antt).
#![tactic(auto)]

ghost use Rattle.std.specs.Prelude.{◌≡◌, ◌+◌, ◌≤◌};
ghost use Rattle.summaries.specs.EntrySteps.{numbers};
ghost use Rattle.summary_pass.specs.PassState.{first_tally, FromBefore, TallyHolds, ListHolds, CanCount, CanSize, Counted, Sized, SizedAll};

use summaries::{Key, Summary};
use summary_index::Bucket;

// What is known of the rows that have been counted.
#[derive(Clone, Copy)]
pub struct Tally {
    // How many rows have been counted.
    pub counted: usize,
    // How many entries are in use, and whether the summary index has the keys of all of them.
    pub used: usize,
    pub complete: bool,
    // The key of the last row that has one, and the index of its entry.
    pub last: Option<(Key, usize)>,
    // The class rows among the rows counted are not before the first of these two rows, and before the second.
    pub lowest: usize,
    pub above: usize,
}

impl Tally {
    // Returns the tally before the first row.
    pub fn new() -> Tally
        ensures { result ≡ first_tally }
    {
        Tally {
            counted: 0,
            used: 0,
            complete: true,
            last: None,
            lowest: 0,
            above: 0,
        }
    }

    // Returns an entry before which none has the key: that of the row before, that which the summary index leads to, or, if the index has no
    // such key, the end of the entries in use; the first entry if the index is not complete.
    fn seek_from(self, buckets: &[Bucket], key: Key) -> usize
        ensures { FromBefore buckets.now self (numbers key) result }
    {
        match self.last {
            Some((last, at)) if last == key => at,
            _ => match summary_index::find(buckets, key) {
                Some(at) => at,
                None if self.complete => self.used,
                None => 0,
            },
        }
    }

    // Counts the next row in its entry. If the entry is new, enters its key in the summary index.
    fn count_row(self, rows: &[u64], buckets: &mut [Bucket], classes: &mut [Summary]) -> Tally
        requires { TallyHolds rows.now buckets.old self × ListHolds rows.now classes.old self 0 × CanCount rows.now classes.old (self.counted + 1) }
        ensures { Counted rows.now classes.old self (self.counted + 1) buckets.new classes.new result }
    {
        let row = table::row_at(rows, self.counted);
        let counted = self.counted + 1;
        let Some(key) = Key::of_row(row) else {
            let lowest = if self.above == 0 {
                self.counted
            } else {
                self.lowest
            };
            return Tally {
                counted,
                lowest,
                above: counted,
                ..self
            };
        };
        let from = self.seek_from(buckets, key);
        let at = summary_list::find_entry(classes, key, from, self.used);
        summary_list::count_row(classes, at, self.used, key, row);
        let last = Some((key, at));
        if at < self.used {
            return Tally {
                counted,
                last,
                ..self
            };
        }
        let entered = summary_index::enter(buckets, key, at as u32);
        Tally {
            counted,
            used: self.used + 1,
            complete: self.complete && entered,
            last,
            ..self
        }
    }

    // Counts the rows up to `end`.
    pub fn count_rows(
        self,
        rows: &[u64],
        buckets: &mut [Bucket],
        classes: &mut [Summary],
        end: usize,
    ) -> Tally
        requires { TallyHolds rows.now buckets.old self × ListHolds rows.now classes.old self 0 × (self.counted ≤ end) × CanCount rows.now classes.old end }
        ensures { Counted rows.now classes.old self end buckets.new classes.new result }
    {
        let mut tally = self;
        for _row in self.counted..end {
            tally = tally.count_row(rows, buckets, classes);
        }
        tally
    }

    // Gives the objects that wait for row i their bytes, if it is a class row.
    fn size_row(self, rows: &[u64], buckets: &[Bucket], classes: &mut [Summary], i: usize)
        requires { TallyHolds rows.now buckets.now self × ListHolds rows.now classes.old self i × CanSize rows.now (i + 1) }
        ensures { Sized rows.now classes.old self (i + 1) classes.new }
    {
        let row = table::row_at(rows, i);
        if row.kind == 1 {
            let key = Key::Class(row.address);
            let from = self.seek_from(buckets, key);
            let at = summary_list::find_entry(classes, key, from, self.used);
            if at < self.used {
                summary_list::size_entry(classes, at, row.size);
            }
        }
    }

    // Gives the objects that wait their bytes, by the class rows from row `from` up to row `to`. The class rows before row `from` have been
    // gone over.
    pub fn size_rows_between(
        self,
        rows: &[u64],
        buckets: &[Bucket],
        classes: &mut [Summary],
        from: usize,
        to: usize,
    )
        requires { TallyHolds rows.now buckets.now self × ListHolds rows.now classes.old self from × (from ≤ to) × CanSize rows.now to }
        ensures { Sized rows.now classes.old self to classes.new }
    {
        for i in from..to {
            self.size_row(rows, buckets, classes, i);
        }
    }

    // Gives the objects that wait their bytes, by the class rows.
    pub fn size_rows(self, rows: &[u64], buckets: &[Bucket], classes: &mut [Summary])
        requires { TallyHolds rows.now buckets.now self × ListHolds rows.now classes.old self 0 }
        ensures { SizedAll rows.now classes.old self classes.new }
    {
        self.size_rows_between(rows, buckets, classes, self.lowest, self.above);
    }
}
