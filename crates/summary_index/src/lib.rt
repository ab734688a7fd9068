// The summary index: a hash table of the keys of class summaries, in memory that the caller passes, all of it empty at the start. It leads
// from a key to the index of its entry.
// Nothing is believed of the hash. A key that finds no empty bucket is left out; then the index is not complete, which is reported.
// Defined in specs/SummaryIndex.antt.
#![tactic(auto)]

ghost use Rattle.std.specs.Prelude.{◌≡◌, ◌^◌, ◌<◌};
ghost use Rattle.summaries.specs.EntrySteps.{numbers};
ghost use Rattle.summary_index.specs.SummaryIndex.{make_key, first_bucket, bucket_key, bucket_of, bucket_at, find};
ghost use Rattle.summary_index.specs.EnterKey.{EntersKey};

use summaries::Key;

// How many buckets a search looks at, at most.
const PROBES: usize = 64;

// How many buckets a summary index has: a search begins at one of 32,768, and after the last of them are those that a search from it
// looks at.
pub const LEN: usize = 0x8000 + PROBES;

// What a bucket is of: of nothing, it is empty; of a class word; of a primitive type.
#[derive(Clone, Copy, Debug, PartialEq, Eq)]
pub enum Of {
    Nothing,
    Class,
    Primitive,
}

// A bucket: a key, and the index of its entry. The key lies in two fields, so that a bucket has 16 bytes: as an `Option<Key>` it would
// take more stack than include/phd.h states for `phd_read`.
#[derive(Clone, Copy, Debug)]
pub struct Bucket {
    pub class: u64,
    pub entry: u32,
    pub of: Of,
}

impl Bucket {
    pub const EMPTY: Bucket = Bucket {
        class: 0,
        entry: 0,
        of: Of::Nothing,
    };

    // Returns the bucket of a key with its entry.
    fn new(key: Key, entry: u32) -> Bucket
        ensures { result ≡ bucket_of key entry }
    {
        match key {
            Key::Class(class) => Bucket {
                class,
                entry,
                of: Of::Class,
            },
            Key::Primitive(prim) => Bucket {
                class: prim,
                entry,
                of: Of::Primitive,
            },
        }
    }

    // Returns the key of a bucket, if it is not empty.
    fn key(self) -> Option<Key>
        ensures { result ≡ bucket_key self }
    {
        match self.of {
            Of::Nothing => None,
            Of::Class => Some(Key::Class(self.class)),
            Of::Primitive => Some(Key::Primitive(self.class)),
        }
    }

    // Returns the index of the entry.
    fn entry(self) -> usize
        ensures { result ≡ self.entry }
    {
        self.entry as usize
    }
}

// Returns the bucket at which the search for a key begins.
#[tactic(auto, unfolding(crate::specs::SummaryIndex::first_bucket))]
fn first_bucket(key: Key) -> usize
    ensures { (result ≡ first_bucket (numbers key)) × (result < 0x8000) }
{
    (address_hash::hash(key.class()) / 0x2_0000) as usize
}

// Returns the index of the entry of a key, whatever the buckets hold.
pub fn find(buckets: &[Bucket], key: Key) -> Option<usize>
    ensures { result ≡ find buckets.now (numbers key) }
{
    let first = first_bucket(key);
    for at in first..first + PROBES {
        let bucket = *buckets.get(at)?;
        if bucket.key()? == key {
            return Some(bucket.entry());
        }
    }
    None
}

// Returns the index of the entry of a key with this class word or primitive type and this mark, whatever the buckets hold. No bucket has a
// key whose mark is neither 0 nor 1.
pub fn find_numbers(buckets: &[Bucket], class: u64, mark: u64) -> Option<usize>
    ensures { result ≡ find buckets.now (make_key class mark) }
{
    match mark {
        0 => find(buckets, Key::Class(class)),
        1 => find(buckets, Key::Primitive(class)),
        _ => None,
    }
}

// Enters the key of an entry in the first empty bucket of those that its search looks at. Returns whether there was one.
pub fn enter(buckets: &mut [Bucket], key: Key, entry: u32) -> bool
    ensures { EntersKey (numbers key) entry buckets.old buckets.new result }
{
    let first = first_bucket(key);
    for at in first..first + PROBES {
        if buckets.len() <= at {
            return false;
        }
        if buckets[at].key().is_none() {
            buckets[at] = Bucket::new(key, entry);
            return true;
        }
    }
    false
}
