// What is known of a record before its fields are read, and the record that its parts make.
ghost use Rattle.phd.specs.Shapes.{WidthsLe8};

use super::Record;
use decode::StringSpan;
use phd::{Cache, Form, Front, Header, Middle, Origin, RecordContext, Shape, Span, Tail};

// What is known of a record before its fields are read: the greatest address, the class cache before the record, its position, the
// class word of a short object from its slot, and, by its tag and its flag byte, its hash kind and its shape.
#[derive(Clone, Copy)]
pub struct Head {
    pub top: u64,
    pub cache: Cache,
    pub origin: Origin,
    pub known: u64,
    pub hash_kind: u64,
    pub shape: Shape,
    pub ghost widths: { WidthsLe8 shape },
}

// The parts of a record besides its references.
#[derive(Clone, Copy)]
pub struct Parts {
    pub front: Front,
    pub middle: Middle,
    pub name: StringSpan,
    pub count: u64,
    pub tail: Tail,
}

impl Head {
    ghost use Rattle.std.specs.Prelude.{◌≡◌};
    ghost use Rattle.phd.specs.Phd.{row};
    ghost use Rattle.phd.specs.Shapes.{ValidBits};
    ghost use Rattle.phd_record.specs.RecordReads.{IsHead, make_record};

    // Returns what is known of a record of this form, from its tag and its flag byte.
    pub fn new(
        header: Header,
        cache: Cache,
        origin: Origin,
        known: u64,
        form: Form,
        tag: u64,
        flags: u64,
    ) -> Self
        requires { ValidBits header.bits }
        ensures { IsHead header cache origin known form tag flags result }
    {
        Head {
            top: phd::forms::max_address_of(header.bits),
            cache,
            origin,
            known,
            hash_kind: phd::forms::hash_kind_of(header, tag, flags),
            shape: phd::forms::shape_of((header.bits / 8) as usize, form, tag, flags),
        }
    }

    // Returns the row of a record.
    pub fn row(self, parts: Parts) -> [u64; table::ROW_WIDTH]
        ensures { result ≡ row self.origin self.hash_kind self.known self.shape parts.front parts.middle parts.name parts.count parts.tail }
    {
        let Parts {
            front,
            middle,
            name,
            count,
            tail,
        } = parts;
        let sh = self.shape;
        let upper = phd::forms::field_or(sh.superclass, middle.superclass, self.known);
        [
            sh.kind,
            front.address,
            phd::forms::field_or(sh.class, front.class, upper),
            self.hash_kind,
            middle.hash,
            self.origin.index,
            count,
            phd::forms::field_or(sh.inst, middle.inst, tail.size),
            phd::forms::field_or(sh.truelen, tail.truelen, front.len),
            name.place as u64,
            name.len as u64,
            sh.prim,
            self.origin.offset as u64,
        ]
    }

    // Returns the record whose references begin at offset `place`.
    pub fn record(self, place: usize, parts: Parts) -> Record
        ensures { result ≡ make_record place parts.count parts.tail self.cache self.origin self.known self.hash_kind self.shape parts.front parts.middle parts.name }
    {
        let front = parts.front;
        Record {
            row: self.row(parts),
            span: Span {
                place,
                width: self.shape.refwidth,
                count: parts.count,
            },
            context: RecordContext {
                address: front.address,
                cache: self.cache.push_if(self.shape.cached, front.class),
            },
        }
    }
}
