// The two trailers, from the counts of the rows: their size in bytes, line ends included, and encoding them.
ghost use Rattle.std.specs.Prelude.{◌≡◌, length};
ghost use Rattle.encode.specs.Wrote.{Wrote, HasRoom};
ghost use Rattle.classic_write.specs.TextParts.{TallyBound, tally_breakdown, tally_totals, tally_trailers};

use encode::encoder::Encoder;
use phd_counts::Tally;

// Returns the size of both trailers: 113 bytes that do not depend on the counts, and the digits of the counts.
pub fn trailers_size(t: Tally) -> usize
    requires { TallyBound t }
    ensures { result ≡ length (tally_trailers t) }
{
    let refs = t.refs + t.nulls;
    let kinds = digits::digit_count(t.classes)
        + digits::digit_count(t.objects)
        + digits::digit_count(t.arrays)
        + digits::digit_count(t.primitives);
    let all = digits::digit_count(t.rows)
        + digits::digit_count(refs)
        + digits::digit_count(t.nulls);
    113 + kinds + all
}

// Encodes the first trailer, the rows by kind, without its line end.
#[tactic(auto, using(crate::proofs::TextSteps::breakdown_steps))]
fn encode_breakdown(e: &mut Encoder, t: Tally)
    requires { HasRoom e.old (tally_breakdown t) }
    ensures { Wrote e.old e.new (tally_breakdown t) }
{
    digits::encode_text_decimal(e, b"// Breakdown - Classes: ", t.classes);
    digits::encode_text_decimal(e, b", Objects: ", t.objects);
    digits::encode_text_decimal(e, b", ObjectArrays: ", t.arrays);
    digits::encode_text_decimal(e, b", PrimitiveArrays: ", t.primitives);
}

// Encodes the second trailer, the totals, without its line end.
#[tactic(auto, using(crate::proofs::TextSteps::totals_steps))]
fn encode_totals(e: &mut Encoder, t: Tally)
    requires tally_bound { TallyBound t }
    requires has_room { HasRoom e.old (tally_totals t) }
    ensures { Wrote e.old e.new (tally_totals t) }
{
    let refs = t.refs + t.nulls;
    digits::encode_text_decimal(e, b"// EOF:  Total 'Objects',Refs(null) : ", t.rows);
    digits::encode_text_decimal(e, b",", refs);
    digits::encode_text_decimal(e, b"(", t.nulls);
    e.bytes(b")");
}

// Encodes both trailers with their line ends.
#[tactic(auto, using(crate::proofs::TextSteps::trailer_steps))]
pub fn encode_trailers(e: &mut Encoder, t: Tally)
    requires tally_bound { TallyBound t }
    requires has_room { HasRoom e.old (tally_trailers t) }
    ensures { Wrote e.old e.new (tally_trailers t) }
{
    encode_breakdown(e, t);
    e.byte(b'\n');
    encode_totals(e, t);
    e.byte(b'\n');
}
