// The portable heap dump: the types of its header and its records, the class cache, tags, flag bytes and shapes. The format is
// defined in specs/Phd.antt; the functions here are proved equal to parts of that definition.
#![tactic(auto)]

use decode::StringSpan;

pub mod cache;
pub mod forms;
pub mod magic;

pub use cache::Cache;

// The header: W (the scope paper's term: 32 or 64), whether all objects are hashed, whether the dump is from OpenJ9, and the
// VM string.
#[derive(Clone, Copy, Debug, PartialEq, Eq)]
pub struct Header {
    pub bits: u64,
    pub hashed: bool,
    pub openj9: bool,
    pub vm: StringSpan,
}

// The seven forms of a record (record: the scope paper's term; docs/FORMAT.md 3.1).
#[derive(Clone, Copy, Debug, PartialEq, Eq)]
pub enum Form {
    Short,
    Medium,
    Long,
    Class,
    ObjectArray,
    Primitive,
    LongPrimitive,
}

// The shape of a record: the bytes of each field, 0 for one that it lacks (docs/FORMAT.md 3.3).
#[derive(Clone, Copy, Debug, PartialEq, Eq)]
pub struct Shape {
    // 1 class, 2 object, 3 object array, 4 primitive array
    pub kind: u64,
    // bytes of the gap, the class word, the array length, the class's instance size, the superclass word
    pub gap: usize,
    pub class: usize,
    pub len: usize,
    pub inst: usize,
    pub superclass: usize,
    // bytes of the name's length and of the reference count; the count if it is in the tag; bytes of each reference
    pub name: usize,
    pub countwidth: usize,
    pub count: u64,
    pub refwidth: usize,
    // bytes of the array's size and of its true length
    pub size: usize,
    pub truelen: usize,
    // whether the class word is pushed into the cache; the primitive type
    pub cached: bool,
    pub prim: u64,
}

// The position of a record: the offset of its tag in the dump, and the number of references of all records before it.
#[derive(Clone, Copy, Debug, PartialEq, Eq)]
pub struct Origin {
    pub offset: usize,
    pub index: u64,
}

// The first numbers of a record: address, class word (the scope paper's term: the address of its class) and array length.
#[derive(Clone, Copy, Debug, PartialEq, Eq)]
pub struct Front {
    pub address: u64,
    pub class: u64,
    pub len: u64,
}

// The next numbers, up to the name: instance size of a class, hash and superclass word.
#[derive(Clone, Copy, Debug, PartialEq, Eq)]
pub struct Middle {
    pub inst: u64,
    pub hash: u64,
    pub superclass: u64,
}

// What reading a record needs from the records before it: the address of the previous one, and the class cache.
#[derive(Clone, Copy)]
pub struct RecordContext {
    pub address: u64,
    pub cache: Cache,
}

// The position of a record's references: the offset of the first, the bytes of each, and their number.
#[derive(Clone, Copy, Debug, PartialEq, Eq)]
pub struct Span {
    pub place: usize,
    pub width: usize,
    pub count: u64,
}

// The numbers of an array after its references: size and true length.
#[derive(Clone, Copy, Debug, PartialEq, Eq)]
pub struct Tail {
    pub size: u64,
    pub truelen: u64,
}
