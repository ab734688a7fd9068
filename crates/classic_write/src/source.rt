// The text of good tables, by one class index for all passes over the rows.
ghost use Rattle.std.specs.Prelude.{◌≡◌, length};
ghost use Rattle.encode.specs.Writes.{Writes, HasCapacity};
ghost use Rattle.encode.specs.Wrote.{Wrote, HasRoom};
ghost use Rattle.table.specs.Buffer.{overwrite};
ghost use Rattle.table.specs.Refusals.{answer_of};
ghost use Rattle.classic_write.specs.SizedText.{text_bytes, text_size_of, text_of_tables, CheckedText, SizedTextMeans};

use super::{TextSize, rows, trailers, version};
use class_index::finder::ClassFinder;
use encode::encoder::Encoder;
use phd_check::{GoodTables, Tables};
use table::Refusal;

// Good tables, and the finder of their class rows.
#[derive(Clone, Copy)]
pub struct Source<'a> {
    pub good: GoodTables<'a>,
    pub finder: ClassFinder<'a>,
    ghost names: { finder.names.now ≡ good.tables.names.now },
    ghost rows: { finder.rows.now ≡ good.tables.rows.now },
}

impl<'a> Source<'a> {
    // Makes a class index in the buckets.
    pub fn new(good: GoodTables<'a>, buckets: &'a mut [u32]) -> Source<'a>
        ensures { result.good ≡ good.entry }
    {
        let Tables { rows, names, .. } = good.tables;
        let finder = ClassFinder::new(names, rows, buckets);
        Source { good, finder }
    }

    // Computes the size of the text. The pass that sizes the lines of the rows also counts the rows, and checks that no row's class row
    // is missing.
    fn sized(&self) -> Result<TextSize, Refusal>
        ensures { SizedTextMeans self.now.good.tables result }
    {
        let Tables { header, names, .. } = self.good.tables;
        let first = version::version_size(names, header.vm);
        let TextSize { bytes, tally } = rows::rows_text_size(&self.finder, header.bits, first)?;
        Ok(TextSize {
            bytes: bytes + trailers::trailers_size(tally),
            tally,
        })
    }

    // Returns the size of the text, or refuses it.
    pub fn text_size(&self) -> Result<usize, Refusal>
        ensures { answer_of result ≡ text_size_of self.now.good.tables }
    {
        Ok(self.sized()?.bytes)
    }

    // Encodes the text, for which the encoder has room.
    fn encode(&self, e: &mut Encoder, size: TextSize)
        requires checked { CheckedText self.now.good.tables size }
        requires has_room { HasRoom e.old (text_bytes self.now.good.tables) }
        ensures { Wrote e.old e.new (text_bytes self.now.good.tables) }
    {
        let Tables {
            header,
            refs,
            names,
            ..
        } = self.good.tables;
        version::encode_version(e, names, header.vm);
        rows::encode_rows_text(e, &self.finder, header.bits, refs);
        trailers::encode_trailers(e, size.tally);
    }

    // Writes the text to the start of an output that has capacity for it, and returns the offset after it.
    fn write(&self, size: TextSize, out: &mut [u8]) -> usize
        requires checked { CheckedText self.now.good.tables size }
        requires has_capacity { HasCapacity out.old 0 (text_bytes self.now.good.tables) }
        ensures { Writes out.old 0 (text_bytes self.now.good.tables) out.new result }
    {
        let mut e = Encoder { out, at: 0 };
        self.encode(&mut e, size);
        e.at
    }

    // Writes the text if the output has capacity for it, and returns its size, or refuses it. The source is not passed by value: a copy
    // of it would be compiled to a call of memcpy.
    pub fn text(&self, out: &mut [u8]) -> Result<usize, Refusal>
        ensures is { answer_of result ≡ (text_of_tables self.now.good.tables (length out.old)).answer }
        ensures out { out.new ≡ overwrite out.old (text_of_tables self.now.good.tables (length out.old)).bytes }
    {
        let size = self.sized()?;
        if out.len() < size.bytes {
            return Err(Refusal::TooSmall);
        }
        Ok(self.write(size, out))
    }
}
