// Encodes byte strings, big-endian numbers, gaps and references (`encoder`), and computes the least width that holds a gap. The bytes
// are defined in specs/Encode.antt.
#![tactic(auto)]

ghost use Rattle.std.specs.Prelude.{◌≡◌, cond, pos, negsuc, leb};
ghost use Rattle.encode.specs.Encode.{gap, twos_complement, width_code, refs_code};

pub mod encoder;
mod slices;

// Returns the distance from one address to another, in units of 4 bytes: n for a gap of n, and for a gap of -1 - n.
#[tactic(auto, unfolding(crate::specs::Encode::gap))]
fn distance(from: u64, to: u64) -> u64
    ensures { gap from to ≡ cond (leb from to) (pos result) (negsuc result) }
{
    if from <= to {
        (to - from) / 4
    } else {
        (from - to - 1) / 4
    }
}

// Returns a gap in two's complement: the gap is `distance` if `up` is true, else -1 - `distance`.
#[tactic(auto, unfolding(crate::specs::Encode::twos_complement))]
fn complement_of(up: bool, distance: u64) -> u64
    ensures { result ≡ twos_complement (cond up (pos distance) (negsuc distance)) }
{
    if up { distance } else { !distance }
}

// Returns the gap from one address to another in two's complement, as a field contains it.
pub fn raw_gap(from: u64, to: u64) -> u64
    ensures { result ≡ twos_complement (gap from to) }
{
    complement_of(from <= to, distance(from, to))
}

// Returns the least width code that holds m as a signed number. It is also that of -1 - m.
pub fn number_code(m: u64) -> u64
    ensures { result ≡ width_code (pos m) }
{
    u64::from(0x80 <= m) + u64::from(0x8000 <= m) + u64::from(0x8000_0000 <= m)
}

// Returns the least width code that holds the gap from one address to another.
#[tactic(auto, using(crate::proofs::EncodeLaws::code_gap))]
pub fn gap_code(from: u64, to: u64) -> u64
    ensures { result ≡ width_code (gap from to) }
{
    number_code(distance(from, to))
}

// Returns the least width code that holds each reference of a record at address a.
pub fn refs_code(refs: &[u64], a: u64) -> u64
    ensures { result ≡ refs_code 0 a refs.now }
{
    let mut m = 0;
    for to in refs {
        m = distance(a, *to).max(m);
    }
    number_code(m)
}
