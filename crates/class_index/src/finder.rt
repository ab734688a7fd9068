// Finds class rows: by the class index if it is certified, else row by row.
ghost use Rattle.std.specs.Prelude.{◌≡◌, ◌↔◌, ℕ, ◌^◌, ◌<◌, IsTrue, IsSome, Some, None};
ghost use Rattle.table.specs.Table.{row_count};
ghost use Rattle.table.specs.Rows.{rows_of};
ghost use Rattle.table.specs.RowBytes.{class_at};
ghost use Rattle.classic.specs.ClassicText.{class_of};
ghost use Rattle.classic.specs.PrimitiveClasses.{PrimitiveClasses};
ghost use Rattle.classic.specs.RowBounds.{AllNumbersInBounds, all_numbers_prop};
ghost use Rattle.class_index.specs.ClassIndex.{IndexHolds};
ghost use Rattle.class_index.specs.LastSearch.{LastSearchHolds, search_for};

use super::Classes;
use table::Row;

// A search that found a class row: the class word that was searched for, and the index of the row.
#[derive(Clone, Copy, Debug, PartialEq, Eq)]
pub struct LastSearch {
    pub class: u64,
    pub row: usize,
}

// Finds the class rows of a table. It has the name bytes and the rows, the buckets of the class index if it is certified, the class
// words of primitive arrays by type, and the last search that found a class row.
#[derive(Clone, Copy)]
pub struct ClassFinder<'a> {
    pub names: &'a [u8],
    pub rows: &'a [u64],
    buckets: Option<&'a [u32]>,
    primitives: [u64; 8],
    last: Option<LastSearch>,
    ghost numbers_in_bounds: { AllNumbersInBounds names.now (rows_of rows.now) } by { all_numbers_prop names.now (rows_of rows.now) },
    ghost index_holds: { IndexHolds (rows_of rows.now) buckets },
    ghost primitive_classes: { PrimitiveClasses names.now (rows_of rows.now) primitives },
    ghost last_search_holds: { LastSearchHolds (rows_of rows.now) last },
}

impl<'a> ClassFinder<'a> {
    ghost use Rattle.class_index.specs.Tables.{SameTables};

    // Enters all class rows into the buckets, whose index is searched only if that makes it certified, and finds the class words of
    // primitive arrays (`enter_classes`).
    pub fn new(names: &'a [u8], rows: &'a [u64], buckets: &'a mut [u32]) -> ClassFinder<'a>
        requires rows_bound { row_count rows.now < 2 ^ 31 }
        requires all_numbers_in_bounds { AllNumbersInBounds names.now (rows_of rows.now) }
        ensures names { result.names.now ≡ names.now }
        ensures rows { result.rows.now ≡ rows.now }
    {
        let Classes {
            certified,
            primitives,
        } = super::enter_classes(names, rows, buckets);
        let buckets: Option<&[u32]> = if certified { Some(buckets) } else { None };
        ClassFinder {
            names,
            rows,
            buckets,
            primitives,
            last: None,
        }
    }

    // Checks whether the class index is certified.
    pub fn is_certified(&self) -> bool
        ensures { IsTrue result ↔ IsSome self.now.buckets }
    {
        self.buckets.is_some()
    }

    // Returns the search for a class word, or `None` if no class row has it. Looks at a last search first.
    pub fn search(&self, class: u64, last: Option<LastSearch>) -> Option<LastSearch>
        requires { LastSearchHolds (rows_of self.now.rows.now) last }
        ensures { result ≡ search_for (rows_of self.now.rows.now) class }
    {
        super::search_class(self.rows, self.buckets, class, last)
    }

    // Returns the class row of a class word: the first class row with this address. Looks at the last search first: if it was for the
    // same class word, it found that row. A search that finds a row is kept for the next call.
    pub fn find(&mut self, class: u64) -> Option<usize>
        ensures found { result ≡ class_at (rows_of self.old.rows.now) class }
        ensures kept { (i : ℕ) → result ≡ Some i → self.new.last ≡ Some (record { class = class; row = i }) }
        ensures left { result ≡ None → self.new.last ≡ self.old.last }
        ensures tables { SameTables self.old self.new }
        ensures index { (self.new.buckets ≡ self.old.buckets) × (self.new.primitives ≡ self.old.primitives) }
    {
        let search = self.search(class, self.last)?;
        self.last = Some(search);
        Some(search.row)
    }

    // Returns the class word that a row's second line shows.
    pub fn class_of(&self, row: Row) -> u64
        requires { row.prim < 8 }
        ensures { result ≡ class_of self.now.names.now (rows_of self.now.rows.now) row }
    {
        classic::primitives::class_of(&self.primitives, row)
    }
}
