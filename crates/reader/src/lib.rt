// The reading of dumps of any format: its definition (specs/Reader.antt) and the theorems that hold for every format.
#![tactic(auto)]

ghost use Rattle.std.specs.Prelude.{◌≡◌};

// The size limit of a dump, in bytes: 2^30 (docs/FORMAT.md 2).
pub const LIMIT: usize = 0x4000_0000;

// The end of a reading: its reply, its place and the number of missing bytes, which is 0 unless the dump is cut. A step of a reading
// returns `Err` of it, or `Ok` if it stored a record.
#[derive(Clone, Copy, Debug, PartialEq, Eq)]
pub struct End {
    pub reply: u64,
    pub place: usize,
    pub missing: usize,
}

impl End {
    // Returns the end at a place with a reply other than 1, for which no bytes are missing.
    pub fn at(place: usize, reply: u64) -> End
        ensures { result ≡ record { reply = reply; place = place; missing = 0 } }
    {
        End {
            reply,
            place,
            missing: 0,
        }
    }
}
