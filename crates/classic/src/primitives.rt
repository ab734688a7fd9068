// The class words of primitive arrays: for each type the address of the first class row that is named as the type, such as `[C`.
ghost use Rattle.std.specs.Prelude.{◌≡◌, ◌+◌, ◌≤◌, ◌<◌, ◌==◌, length, get_or, position};
ghost use Rattle.classic.specs.ClassicText.{letters};
ghost use Rattle.classic.specs.PrimitiveClasses.{NamesPrim, Entered, class_from};

use table::Row;

// The signature letters of the primitive types 0 to 7 (docs/FORMAT.md 3.1).
const LETTERS: [u8; 8] = *b"ZCFDBSIJ";

// Returns the signature letter of a primitive type.
#[tactic(auto, unfolding(crate::specs::ClassicText::letters))]
pub fn prim_letter(prim: u64) -> u8
    requires { prim < 8 }
    ensures { result ≡ get_or letters prim 0 }
{
    LETTERS[prim as usize]
}

// Returns the primitive type with this signature letter.
#[tactic(auto, unfolding(crate::specs::ClassicText::letters))]
fn prim_of(letter: u8) -> Option<usize>
    ensures { result ≡ position (λ l. l == letter) letters }
{
    LETTERS.iter().position(|l| *l == letter)
}

// Returns the primitive type of the arrays whose type has this name, such as 1 for `[C`.
fn prim_named(name: &[u8]) -> Option<usize>
    ensures { NamesPrim name.now result }
{
    match name {
        [b'[', letter] => prim_of(*letter),
        _ => None,
    }
}

// Enters a row into the class words by type: if it is a class row with the name of a type, such as `[C`, its address is the type's
// class word.
pub fn enter_row(names: &[u8], row: Row, classes: &mut [u64; 8])
    requires { row.place + row.namelen ≤ length names.now }
    ensures { Entered names.now row classes.old classes.new }
{
    if row.kind == 1 {
        if let Some(prim) = prim_named(super::name_of(names, row)) {
            classes[prim] = row.address;
        }
    }
}

// Returns the class word that a row's second line shows. `classes` are the class words of primitive arrays, by type.
pub fn class_of(classes: &[u64; 8], row: Row) -> u64
    requires { row.prim < 8 }
    ensures { result ≡ class_from classes.now row }
{
    if row.kind == 4 {
        classes[row.prim as usize]
    } else {
        row.class
    }
}
