// Applies the changes that a file has after the end tag of its dump; reading ignores them. A change is three numbers of eight
// bytes, big-endian: a table, an index in it, and the new number. Bytes at the end that are too few for a change are ignored.
//
//     0    the header: 0 W; 1 all-hashed; 2 from OpenJ9; 3 VM string present; 4 its place; 5 its length;
//          then 6 how many numbers of rows are passed to the text; 7 how many references
//     1    the numbers of the rows
//     2    the references
//
// A flag is set if its number is not 0. If a number is changed twice, the last change counts.
use decode::StringSpan;
use phd::Header;
use phd_read::ReadAnswer;
use samples_print::UndecodedBytes;

// The number of bytes of a change.
const CHANGE: usize = 24;

// The tables that a change may be for.
#[derive(Clone, Copy, Debug, PartialEq, Eq)]
pub enum ChangedTable {
    Header = 0,
    Rows = 1,
    Refs = 2,
}

// The indices in the header.
#[derive(Clone, Copy, Debug, PartialEq, Eq)]
pub enum HeaderIndex {
    Bits = 0,
    AllHashed = 1,
    OpenJ9 = 2,
    VmPresent = 3,
    VmPlace = 4,
    VmLen = 5,
    PassedRows = 6,
    PassedRefs = 7,
}

// A change: the table, the index in it, and the new number.
#[derive(Clone, Copy)]
struct Change {
    table: u64,
    index: u64,
    number: u64,
}

impl Change {
    // Decodes a change.
    fn decode(bytes: &[u8]) -> Change {
        let mut bytes = UndecodedBytes(bytes);
        Change {
            table: bytes.number(),
            index: bytes.number(),
            number: bytes.number(),
        }
    }
}

// The changes of a file, not decoded.
#[derive(Clone, Copy)]
pub struct Changes<'a>(&'a [u8]);

impl<'a> Changes<'a> {
    // Returns the changes that a file has after its dump: none, if the dump was not read to its end tag.
    pub fn after(file: &'a [u8], r: ReadAnswer) -> Changes<'a> {
        if r.reply == 0 {
            Changes(&file[r.place.min(file.len())..])
        } else {
            Changes(&[])
        }
    }

    // Returns a number after all changes.
    fn number(self, table: ChangedTable, index: u64, old: u64) -> u64 {
        self.0
            .chunks_exact(CHANGE)
            .map(Change::decode)
            .rfind(|c| c.table == table as u64 && c.index == index)
            .map_or(old, |c| c.number)
    }

    // Returns a flag of the header after all changes.
    fn flag(self, index: HeaderIndex, old: bool) -> bool {
        self.number(ChangedTable::Header, index as u64, u64::from(old)) != 0
    }

    // Returns an offset or a length of the header after all changes.
    pub fn size(self, index: HeaderIndex, old: usize) -> usize {
        self.number(ChangedTable::Header, index as u64, old as u64) as usize
    }

    // Returns the header after all changes.
    pub fn header(self, header: Header) -> Header {
        let vm = header.vm;
        Header {
            bits: self.number(ChangedTable::Header, HeaderIndex::Bits as u64, header.bits),
            hashed: self.flag(HeaderIndex::AllHashed, header.hashed),
            openj9: self.flag(HeaderIndex::OpenJ9, header.openj9),
            vm: StringSpan {
                present: self.flag(HeaderIndex::VmPresent, vm.present),
                place: self.size(HeaderIndex::VmPlace, vm.place),
                len: self.size(HeaderIndex::VmLen, vm.len),
            },
        }
    }

    // Applies all changes to a table.
    pub fn apply(self, table: ChangedTable, numbers: &mut [u64]) {
        for (i, x) in numbers.iter_mut().enumerate() {
            *x = self.number(table, i as u64, *x);
        }
    }
}
