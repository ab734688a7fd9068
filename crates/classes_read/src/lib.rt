// The reading of a dump with a list of class summaries: its definition (specs/ClassesRead.antt) and its theorems. The code is in the
// crate phd_classes.
#![tactic(auto)]

use phd_read::ReadAnswer;

// The answer of a reading with class summaries: that of the reading of the tables, and how many entries are in use.
#[derive(Clone, Copy)]
pub struct ClassesAnswer {
    pub read: ReadAnswer,
    pub entries: usize,
}
