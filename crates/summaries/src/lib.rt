// Class summaries: one entry for each class and each primitive type that has instances among the rows of a table.
// Defined in specs/Summaries.antt, as a function of the rows; specs/EntrySteps.antt has what the methods here do.
#![tactic(auto)]

ghost use Rattle.std.specs.Prelude.{◌≡◌};
ghost use Rattle.summaries.specs.Summaries.{same_key, its_key, fresh};
ghost use Rattle.summaries.specs.EntrySteps.{numbers, key_of_row, with_amounts, with_row, with_sizes, product};

use table::Row;

// What an entry is of: a class word (the scope paper's term), or a primitive type.
#[derive(Clone, Copy, Debug, PartialEq, Eq)]
pub enum Key {
    Class(u64),
    Primitive(u64),
}

impl Key {
    // Returns the key under which a row is counted. A class row has none.
    pub fn of_row(row: Row) -> Option<Key>
        ensures { result ≡ key_of_row row }
    {
        match row.kind {
            1 => None,
            4 => Some(Key::Primitive(row.prim)),
            _ => Some(Key::Class(row.class)),
        }
    }

    // Returns the number of a key in an entry: the class word, or the primitive type.
    pub fn class(self) -> u64
        ensures { result ≡ (numbers self).class }
    {
        match self {
            Key::Class(class) => class,
            Key::Primitive(prim) => prim,
        }
    }

    // Returns the mark of a key in an entry.
    pub fn mark(self) -> u64
        ensures { result ≡ (numbers self).mark }
    {
        match self {
            Key::Class(_) => 0,
            Key::Primitive(_) => 1,
        }
    }
}

// An entry: what the rows with one class word, or the arrays of one primitive type, amount to. In C it is `struct phd_class`.
#[repr(C)]
#[derive(Clone, Copy)]
pub struct Summary {
    // The class word, or the primitive type.
    pub class: u64,
    // 0: `class` is a class word; 1: it is a primitive type.
    pub mark: u64,
    pub instances: u64,
    pub bytes: u64,
    pub refs: u64,
    // How many of its objects have no class row among the rows, so that their bytes are not known.
    pub waiting: u64,
}

impl Summary {
    // Returns the entry of a key, without instances.
    pub fn new(key: Key) -> Summary
        ensures { result ≡ fresh (numbers key) }
    {
        Summary {
            class: key.class(),
            mark: key.mark(),
            instances: 0,
            bytes: 0,
            refs: 0,
            waiting: 0,
        }
    }

    // Checks whether the entry has this class word or primitive type, and this mark.
    #[tactic(auto, unfolding(crate::specs::Summaries::same_key))]
    pub fn has_numbers(self, class: u64, mark: u64) -> bool
        ensures { result ≡ same_key (record { mark = mark; class = class }) (its_key self) }
    {
        mark == self.mark && class == self.class
    }

    // Checks whether the entry is of a key.
    pub fn is_of(self, key: Key) -> bool
        ensures { result ≡ same_key (numbers key) (its_key self) }
    {
        self.has_numbers(key.class(), key.mark())
    }

    // Returns the entry with one more instance, which adds so many bytes, references and objects that wait. The sums wrap around.
    pub fn with_amounts(self, bytes: u64, refs: u64, waiting: u64) -> Summary
        ensures { result ≡ with_amounts self bytes refs waiting }
    {
        Summary {
            instances: self.instances.wrapping_add(1),
            bytes: self.bytes.wrapping_add(bytes),
            refs: self.refs.wrapping_add(refs),
            waiting: self.waiting.wrapping_add(waiting),
            ..self
        }
    }

    // Returns the entry with one more row, which is not a class row. An object waits for its class row; an array has its bytes.
    pub fn with_row(self, row: Row) -> Summary
        ensures { result ≡ with_row self row }
    {
        let waits = row.kind == 2;
        let bytes = if waits { 0 } else { row.size.wrapping_mul(4) };
        self.with_amounts(bytes, row.count, u64::from(waits))
    }

    // Returns the entry when the class row of its objects is found: each of those that wait has so many bytes.
    pub fn with_sizes(self, size: u64) -> Summary
        ensures { result ≡ with_sizes self size }
    {
        Summary {
            bytes: self.bytes.wrapping_add(product(self.waiting, size)),
            waiting: 0,
            ..self
        }
    }
}

// Returns the product of two numbers below 2^32, or 0 if one is not.
fn product(n: u64, size: u64) -> u64
    ensures { result ≡ product n size }
{
    if n < 0x1_0000_0000 && size < 0x1_0000_0000 {
        n * size
    } else {
        0
    }
}
