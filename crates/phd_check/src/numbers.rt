// Checks of the numbers of a row, in groups (docs/FORMAT.md 6.1).
ghost use Rattle.std.specs.Prelude.{◌≡◌};
ghost use Rattle.phd.specs.Shapes.{ValidBits};
ghost use Rattle.phd_check.specs.GoodRows.{good_hash, good_class, no_name, good_object, good_array, good_primitive, good_kind, good_addresses, good_span, good_numbers, good_ref};

use phd::Header;
use table::{Kind, Row};

// Checks the hash kind and the hash; `hashed` is whether the dump is all-hashed.
#[tactic(auto, using(crate::proofs::CheckLaws::hash_3, crate::proofs::CheckLaws::hash_2, crate::proofs::CheckLaws::hash_none), unfolding(crate::specs::GoodRows::good_hash))]
fn hash_good(hashed: bool, r: Row) -> bool
    ensures { result ≡ good_hash hashed r }
{
    if hashed {
        (r.hashkind == 3) & (r.hash < 0x1_0000)
    } else if r.hashkind == 2 {
        r.hash < 0x1_0000_0000
    } else {
        (r.hashkind < 2) & (r.hash == 0)
    }
}

// Checks the conditions specific to classes; `available` is the number of name bytes.
fn class_good(available: usize, r: Row) -> bool
    ensures { result ≡ good_class available r }
{
    let n = available as u64;
    // The guard stays in front: the difference below needs it.
    if n < r.namelen {
        return false;
    }
    (r.hashkind != 1)
        & (r.size < 0x8000_0000)
        & (r.len == 0)
        & (1 <= r.namelen)
        & (r.namelen < 0x1_0000)
        & (r.place <= n - r.namelen)
        & (r.prim == 0)
}

// Checks whether the row has no name: place and length are 0.
#[tactic(auto, unfolding(crate::specs::GoodRows::no_name))]
fn name_absent(r: Row) -> bool
    ensures { result ≡ no_name r }
{
    (r.place == 0) & (r.namelen == 0)
}

// Checks the conditions specific to objects.
fn object_good(r: Row) -> bool
    ensures { result ≡ good_object r }
{
    (r.size == 0) & (r.len == 0) & name_absent(r) & (r.prim == 0)
}

// Checks the conditions specific to object arrays; the length is at least the reference count.
fn array_good(r: Row) -> bool
    ensures { result ≡ good_array r }
{
    (r.size < 0x1_0000_0000)
        & (r.len < 0x8000_0000)
        & (r.count <= r.len)
        & name_absent(r)
        & (r.prim == 0)
}

// Checks the conditions specific to primitive arrays.
fn primitive_good(r: Row) -> bool
    ensures { result ≡ good_primitive r }
{
    (r.class == 0)
        & (r.count == 0)
        & (r.size < 0x1_0000_0000)
        & (r.len < 0x8000_0000)
        & name_absent(r)
        & (r.prim < 8)
}

// Checks the kind, which is 1 to 4, and the conditions specific to it; `available` is the number of name bytes.
fn kind_good(available: usize, r: Row) -> bool
    ensures { result ≡ good_kind available r }
{
    match Kind::of(r.kind) {
        Some(Kind::Class) => class_good(available, r),
        Some(Kind::Object) => object_good(r),
        Some(Kind::ObjectArray) => array_good(r),
        Some(Kind::PrimitiveArray) => primitive_good(r),
        None => false,
    }
}

// Checks the address and the class word; `top` is the highest address.
fn addresses_good(top: u64, r: Row) -> bool
    ensures { result ≡ good_addresses top r }
{
    (r.address % 4 == 0) & (r.address <= top) & (r.class <= top)
}

// Checks where the references lie; `index` is the sum of the counts before, `available` the number of reference numbers.
fn span_good(index: u64, available: usize, r: Row) -> bool
    ensures { result ≡ good_span index available r }
{
    let n = available as u64;
    // The guard stays in front: the difference below needs it.
    if n < r.count {
        return false;
    }
    (r.first == index) & (r.first <= n - r.count) & (r.count < 0x8000_0000)
}

// Checks all numbers of a row; `index` is the sum of the counts before, `refs` and `names` are the lengths of these tables.
pub fn numbers_good(header: Header, index: u64, refs: usize, names: usize, r: Row) -> bool
    requires { ValidBits header.bits }
    ensures { result ≡ good_numbers header index refs names r }
{
    let top = phd::forms::max_address_of(header.bits);
    addresses_good(top, r)
        & span_good(index, refs, r)
        & hash_good(header.hashed, r)
        & kind_good(names, r)
}

// Checks whether a reference is a multiple of 4 in 1 to `top`.
pub fn ref_good(top: u64, a: u64) -> bool
    ensures { result ≡ good_ref top a }
{
    (a % 4 == 0) & (1 <= a) & (a <= top)
}
