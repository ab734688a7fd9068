// The two lines of a row, without their line ends.
ghost use Rattle.std.specs.Prelude.{◌++◌};
ghost use Rattle.encode.specs.Wrote.{Wrote, HasRoom};
ghost use Rattle.phd.specs.Shapes.{ValidBits};
ghost use Rattle.classic.specs.ClassicText.{address, refs_text};
ghost use Rattle.classic_row.specs.Label.{type_text, HasLetter};
ghost use Rattle.classic_row.specs.RowText.{kind_mark, label_line};

use super::label::Label;
use encode::encoder::Encoder;
use table::Row;

// Encodes the bracket after the bytes, and `CLS` or `OBJ`.
#[tactic(auto, unfolding(crate::specs::RowText::kind_mark))]
fn encode_kind_mark(e: &mut Encoder, kind: u64)
    requires { HasRoom e.old (kind_mark kind) }
    ensures { Wrote e.old e.new (kind_mark kind) }
{
    if kind == 1 {
        e.bytes(b"] CLS ");
    } else {
        e.bytes(b"] OBJ ");
    }
}

// Encodes the first line.
#[tactic(auto, using(crate::proofs::TypeSteps::line_steps))]
pub fn encode_first_line(e: &mut Encoder, bits: u64, row: Row, label: Label)
    requires valid_bits { ValidBits bits }
    requires has_letter { HasLetter label.type_name }
    requires has_room { HasRoom e.old (label_line bits row label.bytes (type_text label.type_name)) }
    ensures { Wrote e.old e.new (label_line bits row label.entry.bytes (type_text label.entry.type_name)) }
{
    classic_fields::encode_address(e, bits, row.address);
    digits::encode_text_decimal(e, b" [", label.bytes);
    encode_kind_mark(e, row.kind);
    label.type_name.encode(e);
}

// Encodes the second line, the class word and the references.
#[tactic(auto, using(encode::specs::Wrote::consecutive))]
pub fn encode_second_line(e: &mut Encoder, bits: u64, class: u64, refs: &[u64])
    requires valid_bits { ValidBits bits }
    requires has_room { HasRoom e.old (address bits class ++ refs_text bits refs.now) }
    ensures { Wrote e.old e.new (address bits class ++ refs_text bits refs.now) }
{
    classic_fields::encode_address(e, bits, class);
    classic_fields::encode_refs(e, bits, refs);
}
