// Chooses the form in which a record is written, with its tag and its flag byte (docs/FORMAT.md 6.2).
// Each function's contract is an equation with a definition of specs/FormChoice.antt.
#![tactic(auto)]

ghost use Rattle.std.specs.Prelude.{◌≡◌, ◌<◌};
ghost use Rattle.phd_plan.specs.FormChoice.{slot_holds, find_slot, plan_input, needs_flag_byte, object_form, form_of, tag_of, hash_flags, class_flags, flags_of, make_plan, Bounded};

use phd::{Cache, Form, Shape};
use table::Row;

// Everything that determines the form, the tag and the flag byte of a record.
#[derive(Clone, Copy)]
pub struct PlanInput {
    pub kind: u64,
    pub hashkind: u64,
    pub prim: u64,
    // The lowest filled slot of the cache that holds its class word, 4 if none does.
    pub slot: u64,
    // How many references it has.
    pub count: u64,
    // The width codes of its gap, of its references, and of its gap and length together.
    pub gap: u64,
    pub refcode: u64,
    pub paircode: u64,
}

// How a record is written: its tag, its flag byte (0 if it has none), and its shape, the widths of its fields.
#[derive(Clone, Copy)]
pub struct Plan {
    pub tag: u64,
    pub flags: u64,
    pub shape: Shape,
}

// Checks whether slot i of the cache is filled and holds the class word.
#[tactic(auto, unfolding(crate::specs::FormChoice::slot_holds))]
fn slot_holds(cache: Cache, class: u64, i: usize) -> bool
    requires { i < 4 }
    ensures { result ≡ slot_holds cache class i }
{
    (i < cache.pushes) & (cache.classes[i] == class)
}

// Returns the lowest filled slot that holds the class word, 4 if none does. All slots are tested, so that no branch is compiled.
#[tactic(auto, unfolding(crate::specs::FormChoice::find_slot))]
pub fn find_slot(cache: Cache, class: u64) -> u64
    ensures { result ≡ find_slot cache class }
{
    let three = if slot_holds(cache, class, 3) { 3 } else { 4 };
    let two = if slot_holds(cache, class, 2) {
        2
    } else {
        three
    };
    let one = if slot_holds(cache, class, 1) { 1 } else { two };
    if slot_holds(cache, class, 0) { 0 } else { one }
}

// Returns the plan input of a row with its references, after a record at the address `before`, with the cache before it.
#[tactic(auto, unfolding(crate::specs::FormChoice::plan_input))]
pub fn plan_input_of(cache: Cache, before: u64, row: Row, refs: &[u64]) -> PlanInput
    ensures { result ≡ plan_input cache before row refs.now }
{
    let gap = encode::gap_code(before, row.address);
    PlanInput {
        kind: row.kind,
        hashkind: row.hashkind,
        prim: row.prim,
        slot: find_slot(cache, row.class),
        count: row.count,
        gap,
        refcode: encode::refs_code(refs, row.address),
        paircode: encode::number_code(row.len).max(gap),
    }
}

// Checks whether the hash kind needs a flag byte.
#[tactic(auto, unfolding(crate::specs::FormChoice::needs_flag_byte))]
pub fn needs_flag_byte(kind: u64) -> bool
    ensures { result ≡ needs_flag_byte kind }
{
    matches!(kind, 1 | 2)
}

// Returns the form of an object.
#[tactic(auto, unfolding(crate::specs::FormChoice::object_form))]
fn object_form(m: PlanInput) -> Form
    ensures { result ≡ object_form m }
{
    if needs_flag_byte(m.hashkind) {
        Form::Long
    } else if m.count <= 3 && m.slot < 4 && m.gap < 2 {
        Form::Short
    } else if m.count <= 7 && m.gap < 2 {
        Form::Medium
    } else {
        Form::Long
    }
}

// Returns the form of a record.
#[tactic(auto, unfolding(crate::specs::FormChoice::form_of))]
fn form_of(m: PlanInput) -> Form
    ensures { result ≡ form_of m }
{
    match m.kind {
        1 => Form::Class,
        2 => object_form(m),
        3 => Form::ObjectArray,
        _ => {
            if needs_flag_byte(m.hashkind) {
                Form::LongPrimitive
            } else {
                Form::Primitive
            }
        }
    }
}

// Returns the tag of a record.
#[tactic(auto, unfolding(crate::specs::FormChoice::tag_of))]
fn tag_of(form: Form, m: PlanInput) -> u64
    requires { Bounded m }
    ensures { result ≡ tag_of form m }
{
    match form {
        Form::Short => 0x80 + 0x20 * m.slot + 0x08 * m.count + 0x04 * m.gap + m.refcode,
        Form::Medium => 0x40 + 0x08 * m.count + 0x04 * m.gap + m.refcode,
        Form::Primitive => 0x20 + 0x04 * m.prim + m.paircode,
        Form::Long => 4,
        Form::Class => 6,
        Form::LongPrimitive => 7,
        Form::ObjectArray => 8,
    }
}

// Returns the flag bits for the hash kind, of every record but a class.
#[tactic(auto, unfolding(crate::specs::FormChoice::hash_flags))]
fn hash_flags(kind: u64) -> u64
    ensures { result ≡ hash_flags kind }
{
    match kind {
        2 => 0x03,
        1 => 0x01,
        _ => 0,
    }
}

// Returns the flag bits for the hash kind, of a class.
#[tactic(auto, unfolding(crate::specs::FormChoice::class_flags))]
fn class_flags(kind: u64) -> u64
    ensures { result ≡ class_flags kind }
{
    if kind == 2 { 0x08 } else { 0 }
}

// Returns the flag byte of a record, 0 if its form has none.
#[tactic(auto, unfolding(crate::specs::FormChoice::flags_of, crate::specs::FormChoice::hash_flags, crate::specs::FormChoice::class_flags))]
fn flags_of(form: Form, m: PlanInput) -> u64
    requires { Bounded m }
    ensures { result ≡ flags_of form m }
{
    let hash = hash_flags(m.hashkind);
    let widths = 0x40 * m.gap + 0x10 * m.refcode;
    match form {
        Form::Long | Form::ObjectArray => widths + hash,
        Form::Class => widths + class_flags(m.hashkind),
        Form::LongPrimitive => 0x20 * m.prim + 0x10 * u64::from(m.paircode != 0) + hash,
        Form::Short | Form::Medium | Form::Primitive => 0,
    }
}

// Returns the tag, the flag byte and the shape of a record; w is W / 8.
#[tactic(auto, unfolding(crate::specs::FormChoice::make_plan))]
pub fn make_plan(w: usize, m: PlanInput) -> Plan
    requires { Bounded m }
    ensures { result ≡ make_plan w m }
{
    let form = form_of(m);
    let tag = tag_of(form, m);
    let flags = flags_of(form, m);
    Plan {
        tag,
        flags,
        shape: phd::forms::shape_of(w, form, tag, flags),
    }
}
