// The class index: a hash table of the class rows by address, in memory that the caller passes. A bucket of it holds 0 or one more than
// the index of a row. Nothing is believed of the hash: `enter_classes` enters each class row and then checks that the search for its
// address finds it. Only if every class row passes this test, which makes the class index certified, is it searched; otherwise a class
// is searched for row by row.
// Defined in specs/ClassIndex.antt; proofs/Certified.antt has the theorem that a search by a certified class index is the class search.
#![tactic(auto)]

ghost use Rattle.std.specs.Prelude.{◌≡◌, true, ◌+◌, ◌^◌, ◌<◌, length, take, drop};
ghost use Rattle.table.specs.Table.{row_count};
ghost use Rattle.table.specs.Rows.{rows_of};
ghost use Rattle.table.specs.RowBytes.{class_at};
ghost use Rattle.classic.specs.PrimitiveClasses.{PrimitiveClasses};
ghost use Rattle.classic.specs.RowBounds.{AllNumbersInBounds};
ghost use Rattle.class_index.specs.ClassIndex.{first_bucket, is_class_row, search_buckets, at_or_before, BucketsHold, IndexHolds};
ghost use Rattle.class_index.specs.Entering.{KeepsFound};
ghost use Rattle.class_index.specs.LastSearch.{LastSearchHolds, search_for};

use finder::LastSearch;

pub mod finder;

// How many buckets a search looks at, at most.
const PROBES: usize = 64;

// How many buckets a class index has: a small one, for some 9,000 classes, begins a search at one of 16,384 buckets, a large one,
// for 50,000 and more, at one of 131,072. After the last of them are those that a search from it looks at.
pub const SMALL: usize = 0x4000 + PROBES;

pub const LARGE: usize = 0x2_0000 + PROBES;

// What a pass that enters the class rows finds, beside the buckets: whether these are certified, and the class words of primitive
// arrays, by type.
#[derive(Clone, Copy)]
pub struct Classes {
    pub certified: bool,
    pub primitives: [u64; 8],
}

// Returns the bucket, of n, at which the search for an address begins.
#[tactic(auto, unfolding(crate::specs::ClassIndex::first_bucket))]
fn first_bucket(n: usize, address: u64) -> usize
    ensures is { result ≡ first_bucket n address }
    ensures bound { result < 0x2_0000 }
{
    let hash = address_hash::hash(address);
    let first = if n < LARGE {
        hash / 0x4_0000
    } else {
        hash / 0x8000
    };
    first as usize
}

// Returns the buckets that the search for an address looks at.
fn probed(buckets: &[u32], address: u64) -> &[u32]
    ensures { result.now ≡ take 64 (drop (first_bucket (length buckets.now) address) buckets.now) }
{
    let n = buckets.len();
    let first = first_bucket(n, address).min(n);
    &buckets[first..n.min(first + PROBES)]
}

// Checks whether there is a row i and it is a class row with this address.
fn is_class_row(rows: &[u64], i: usize, address: u64) -> bool
    ensures { result ≡ is_class_row (rows_of rows.now) address i }
{
    if i < rows.len() / table::ROW_WIDTH {
        let row = table::row_at(rows, i);
        row.kind == 1 && row.address == address
    } else {
        false
    }
}

// Searches the buckets for a class row with this address, whatever they hold.
fn search_buckets(rows: &[u64], buckets: &[u32], address: u64) -> Option<usize>
    ensures { result ≡ search_buckets (rows_of rows.now) buckets.now address }
{
    for entry in probed(buckets, address) {
        if *entry == 0 {
            return None;
        }
        let i = *entry as usize - 1;
        if is_class_row(rows, i, address) {
            return Some(i);
        }
    }
    None
}

// Enters row i, a class row with this address, in place of a row with it that was entered before, or in an empty bucket. If there is
// neither, the row is left out.
fn enter_class(rows: &[u64], buckets: &mut [u32], i: usize, address: u64)
    requires i_bound { i < 2 ^ 31 }
    requires class_row { is_class_row (rows_of rows.now) address i ≡ true }
    ensures { KeepsFound (rows_of rows.now) address i buckets.old buckets.new }
{
    let n = buckets.len();
    let first = first_bucket(n, address);
    for at in first..n.min(first + PROBES) {
        let entry = buckets[at];
        if entry == 0 || is_class_row(rows, entry as usize - 1, address) {
            buckets[at] = (i + 1) as u32;
            return;
        }
    }
}

// Enters row i, a class row with this address, and checks that the search for the address then finds it, or a row before it.
#[tactic(auto, unfolding(crate::specs::ClassIndex::at_or_before))]
fn enter_and_check(rows: &[u64], buckets: &mut [u32], i: usize, address: u64) -> bool
    requires i_bound { i < 2 ^ 31 }
    requires class_row { is_class_row (rows_of rows.now) address i ≡ true }
    ensures is { result ≡ at_or_before i (search_buckets (rows_of rows.now) buckets.new address) }
    ensures buckets { KeepsFound (rows_of rows.now) address i buckets.old buckets.new }
{
    enter_class(rows, buckets, i, address);
    search_buckets(rows, buckets, address).is_some_and(|j| j <= i)
}

// Enters all class rows into the buckets, and returns whether that made a certified class index, and the class words of primitive
// arrays, by type: the address of the first class row with the name of the type, 0 if there is none. One pass, from the last row to the
// first: of several class rows with one address or one name, the first is entered last.
pub fn enter_classes(names: &[u8], rows: &[u64], buckets: &mut [u32]) -> Classes
    requires rows_bound { row_count rows.now < 2 ^ 31 }
    requires all_numbers_in_bounds { AllNumbersInBounds names.now (rows_of rows.now) }
    ensures primitives { PrimitiveClasses names.now (rows_of rows.now) result.primitives }
    ensures buckets { BucketsHold (rows_of rows.now) buckets.new result.certified }
{
    let mut certified = true;
    let mut primitives = [0; 8];
    for i in (0..rows.len() / table::ROW_WIDTH).rev() {
        let row = table::row_at(rows, i);
        if certified && row.kind == 1 {
            certified = enter_and_check(rows, buckets, i, row.address);
        }
        classic::primitives::enter_row(names, row, &mut primitives);
    }
    Classes {
        certified,
        primitives,
    }
}

// Returns the first class row with this address: by the buckets if there are certified ones, else row by row.
fn find_class(rows: &[u64], certified: Option<&[u32]>, address: u64) -> Option<usize>
    requires { IndexHolds (rows_of rows.now) certified }
    ensures { result ≡ class_at (rows_of rows.now) address }
{
    match certified {
        Some(buckets) => search_buckets(rows, buckets, address),
        None => classic::class_at(rows, address),
    }
}

// Returns the search for a class word, or `None` if no class row has it. Looks at the last search first: if it was for the same class
// word, it is that search.
#[tactic(auto, using(crate::specs::LastSearch::same_class_same_row))]
pub fn search_class(
    rows: &[u64],
    certified: Option<&[u32]>,
    class: u64,
    last: Option<LastSearch>,
) -> Option<LastSearch>
    requires index_holds { IndexHolds (rows_of rows.now) certified }
    requires last_search_holds { LastSearchHolds (rows_of rows.now) last }
    ensures { result ≡ search_for (rows_of rows.now) class }
{
    if let Some(search) = last {
        if search.class == class {
            return last;
        }
    }
    let row = find_class(rows, certified, class)?;
    Some(LastSearch { class, row })
}
