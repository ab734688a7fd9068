// The label of a row, for its first line: what the text shows of its class row.
ghost use Rattle.std.specs.Prelude.{◌≡◌, ◌<◌, eqb, get_or, length};
ghost use Rattle.encode.specs.Wrote.{Wrote, HasRoom};
ghost use Rattle.table.specs.Rows.{rows_of};
ghost use Rattle.classic.specs.ClassicText.{primitive_array_type, object_array_type};
ghost use Rattle.classic.specs.RowBounds.{RowNumbersInBounds, KnownKind, AllNumbersInBounds};
ghost use Rattle.class_index.specs.LastSearch.{ClassFound};
ghost use Rattle.classic_row.specs.Label.{type_text, HasLetter, FoundLabel};

use encode::encoder::Encoder;
use table::Row;

// The type of a row: the name of its class, the array type of such a name, or the type of a primitive array, by number.
#[derive(Clone, Copy)]
pub enum TypeName<'a> {
    Name(&'a [u8]),
    ArrayOf(&'a [u8]),
    PrimitiveArray(u64),
}

// The bytes to show, and the type.
#[derive(Clone, Copy)]
pub struct Label<'a> {
    pub bytes: u64,
    pub type_name: TypeName<'a>,
}

// Checks whether a name begins with `[`.
pub fn is_array_name(name: &[u8]) -> bool
    ensures { result ≡ eqb (get_or name.now 0 0) 0x5B }
{
    !name.is_empty() && name[0] == b'['
}

// Encodes the type of the arrays whose elements have a type with this name.
#[tactic(auto, using(crate::proofs::TypeSteps::type_steps))]
fn encode_array_type(e: &mut Encoder, name: &[u8])
    requires { HasRoom e.old (object_array_type name.now) }
    ensures { Wrote e.old e.new (object_array_type name.now) }
{
    if is_array_name(name) {
        e.bytes(b"[");
        e.bytes(name);
    } else {
        e.bytes(b"[L");
        e.bytes(name);
        e.bytes(b";");
    }
}

// Encodes the type of a primitive array.
#[tactic(auto, using(crate::proofs::TypeSteps::type_steps))]
fn encode_primitive_type(e: &mut Encoder, prim: u64)
    requires prim_bound { prim < 8 }
    requires has_room { HasRoom e.old (primitive_array_type prim) }
    ensures { Wrote e.old e.new (primitive_array_type prim) }
{
    e.byte(b'[');
    e.byte(classic::primitives::prim_letter(prim));
}

impl<'a> TypeName<'a> {
    // Returns the size of the type in bytes.
    #[tactic(auto, using(crate::proofs::TypeSteps::type_steps))]
    pub fn len(self) -> usize
        ensures { result ≡ length (type_text self.entry) }
    {
        match self {
            TypeName::Name(name) => name.len(),
            TypeName::ArrayOf(name) if is_array_name(name) => 1 + name.len(),
            TypeName::ArrayOf(name) => 3 + name.len(),
            TypeName::PrimitiveArray(_) => 2,
        }
    }

    // Encodes the type.
    pub fn encode(self, e: &mut Encoder)
        requires has_letter { HasLetter self }
        requires has_room { HasRoom e.old (type_text self) }
        ensures { Wrote e.old e.new (type_text self.entry) }
    {
        match self {
            TypeName::Name(name) => e.bytes(name),
            TypeName::ArrayOf(name) => encode_array_type(e, name),
            TypeName::PrimitiveArray(prim) => encode_primitive_type(e, prim),
        }
    }
}

impl<'a> Label<'a> {
    // Returns the label of a row, or `None` for an object or object array whose class row is missing. `found` is the result of the
    // search for the row's class word.
    pub fn of(names: &'a [u8], rows: &[u64], row: Row, found: Option<usize>) -> Option<Label<'a>>
        requires all_numbers_in_bounds { AllNumbersInBounds names.now (rows_of rows.now) }
        requires row_numbers_in_bounds { RowNumbersInBounds names.now row }
        requires known_kind { KnownKind row }
        requires class_found { ClassFound (rows_of rows.now) row found }
        ensures { FoundLabel names.now (rows_of rows.now) row result }
    {
        if row.kind == 1 {
            return Some(Label {
                bytes: 0,
                type_name: TypeName::Name(classic::name_of(names, row)),
            });
        }
        let array_bytes = 4 * row.size;
        if row.kind == 4 {
            return Some(Label {
                bytes: array_bytes,
                type_name: TypeName::PrimitiveArray(row.prim),
            });
        }
        let Some(i) = found else {
            return None;
        };
        let class = table::row_at(rows, i);
        let name = classic::name_of(names, class);
        if row.kind == 2 {
            Some(Label {
                bytes: class.size,
                type_name: TypeName::Name(name),
            })
        } else {
            Some(Label {
                bytes: array_bytes,
                type_name: TypeName::ArrayOf(name),
            })
        }
    }
}
