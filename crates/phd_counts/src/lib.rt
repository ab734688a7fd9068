// Counts the rows of a table by kind, their references, and the nulls of object arrays (docs/FORMAT.md 7.4).
// Each function's contract is an equation with a definition of specs/Counts.antt.
#![tactic(auto)]

ghost use Rattle.std.specs.Prelude.{◌≡◌};
ghost use Rattle.phd_counts.specs.Counts.{nulls_of, no_rows, add_row};
ghost use Rattle.phd_counts.specs.CountLoop.{NoOverflow};

use table::{Kind, Row};

// The numbers of rows of each kind, of all rows, and of their references and nulls.
#[derive(Clone, Copy)]
pub struct Tally {
    pub classes: u64,
    pub objects: u64,
    pub arrays: u64,
    pub primitives: u64,
    pub rows: u64,
    pub refs: u64,
    pub nulls: u64,
}

impl Tally {
    // Returns the tally of no rows.
    pub fn no_rows() -> Tally
        ensures { result ≡ no_rows }
    {
        Tally {
            classes: 0,
            objects: 0,
            arrays: 0,
            primitives: 0,
            rows: 0,
            refs: 0,
            nulls: 0,
        }
    }

    // Returns the tally with one more row.
    pub fn add_row(self, row: Row) -> Tally
        requires { NoOverflow self row }
        ensures { result ≡ add_row self row }
    {
        let unlisted = row_nulls(row);
        let t = Tally {
            rows: self.rows + 1,
            refs: self.refs + row.count,
            nulls: self.nulls + unlisted,
            ..self
        };
        match Kind::of(row.kind) {
            Some(Kind::Class) => Tally {
                classes: t.classes + 1,
                ..t
            },
            Some(Kind::Object) => Tally {
                objects: t.objects + 1,
                ..t
            },
            Some(Kind::ObjectArray) => Tally {
                arrays: t.arrays + 1,
                ..t
            },
            Some(Kind::PrimitiveArray) => Tally {
                primitives: t.primitives + 1,
                ..t
            },
            None => t,
        }
    }
}

// Returns the number of nulls of a row: an object array's true length minus its reference count; 0 for any other row.
// The test is of the number: a match on `Kind` needs four arms that give 0, since a default arm hides which kinds it takes.
pub fn row_nulls(row: Row) -> u64
    ensures { result ≡ nulls_of row }
{
    if row.kind == 3 {
        row.len.saturating_sub(row.count)
    } else {
        0
    }
}
