// The list of class summaries in the caller's memory: the search for the entry of a key, and what a row changes in an entry.
#![tactic(auto)]

ghost use Rattle.std.specs.Prelude.{◌≡◌, ◌-◌, ◌≤◌, cond, nat_lt, length, slice_index_or, slice_set};
ghost use Rattle.summaries.specs.Summaries.{fresh};
ghost use Rattle.summaries.specs.EntrySteps.{numbers, with_row, with_sizes};
ghost use Rattle.summary_list.specs.EntryList.{blank, find_entry};

use summaries::{Key, Summary};
use table::Row;

// Returns the index of the first entry from `from` on, of those in use, that has this class word or primitive type and this mark; `used` if
// none has.
pub fn find_numbers(classes: &[Summary], class: u64, mark: u64, from: usize, used: usize) -> usize
    requires { (from ≤ used) × (used ≤ length classes.now) }
    ensures { result ≡ find_entry classes.now (record { mark = mark; class = class }) from (used - from) }
{
    for at in from..used {
        if classes[at].has_numbers(class, mark) {
            return at;
        }
    }
    used
}

// Returns the index of the entry of a key: of the first entry from `from` on, of those in use, that has it; `used` if none has.
pub fn find_entry(classes: &[Summary], key: Key, from: usize, used: usize) -> usize
    requires { (from ≤ used) × (used ≤ length classes.now) }
    ensures { result ≡ find_entry classes.now (numbers key) from (used - from) }
{
    find_numbers(classes, key.class(), key.mark(), from, used)
}

// Counts a row in entry `at`, which is a new entry of the key if it is not in use. A list that has no entry `at` stays as it is.
pub fn count_row(classes: &mut [Summary], at: usize, used: usize, key: Key, row: Row)
    ensures { classes.new ≡ slice_set classes.old at (with_row (cond (nat_lt at used) (slice_index_or classes.old at blank) (fresh (numbers key))) row) }
{
    if at < classes.len() {
        if at < used {
            classes[at] = classes[at].with_row(row);
        } else {
            classes[at] = Summary::new(key).with_row(row);
        }
    }
}

// Gives the objects of entry `at` that wait for their class row their bytes, which are `size` each. A list that has no entry `at` stays as
// it is.
pub fn size_entry(classes: &mut [Summary], at: usize, size: u64)
    ensures { classes.new ≡ slice_set classes.old at (with_sizes (slice_index_or classes.old at blank) size) }
{
    if at < classes.len() {
        classes[at] = classes[at].with_sizes(size);
    }
}
