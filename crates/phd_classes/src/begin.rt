// Reads the header of a dump, for a reading with class summaries.
ghost use Rattle.std.specs.Prelude.{◌≡◌};
ghost use Rattle.phd.specs.Phd.{no_records};
ghost use Rattle.classes_read.specs.ClassesRead.{classes_answer};
ghost use Rattle.phd_classes.specs.ReadState.{OpenedOrRefused, Begun};

use super::batches::Progress;
use classes_read::ClassesAnswer;
use decode::StringSpan;
use decode::decoder::Decoder;
use phd::Header;
use phd_read::ReadAnswer;
use phd_read::records::Cursor;
use summary_pass::Tally;

// Returns the answer of a reading that ends before the first record: place 0, nothing stored, an empty header.
fn no_records(reply: u64, missing: usize) -> ClassesAnswer
    ensures { result ≡ classes_answer (no_records reply missing) }
{
    ClassesAnswer {
        read: ReadAnswer {
            reply,
            place: 0,
            missing,
            rows: 0,
            refs: 0,
            header: Header {
                bits: 0,
                hashed: false,
                openj9: false,
                vm: StringSpan {
                    present: false,
                    place: 0,
                    len: 0,
                },
            },
        },
        entries: 0,
    }
}

// Reads the header of a dump. Returns it with the offset of the first record, or the reply and the missing bytes of a reading that ends
// before it.
fn open(dump: &[u8]) -> Result<(Header, usize), (u64, usize)>
    ensures { OpenedOrRefused dump.now result }
{
    if reader::LIMIT < dump.len() {
        return Err((2, 0));
    }
    let mut d = Decoder { bytes: dump, at: 0 };
    match phd_header::read_header(&mut d) {
        Ok(header) => Ok((header, d.at)),
        Err(w) => Err((decode::reply_of(w), decode::missing_of(w))),
    }
}

// Reads the header of a dump. Returns the state before the first record, or the answer of a reading that ends before it.
#[tactic(auto, using(crate::proofs::Beginning::started))]
pub fn begin(dump: &[u8]) -> Result<Progress, ClassesAnswer>
    ensures { Begun dump.now result }
{
    match open(dump) {
        Ok((header, at)) => Ok(Progress {
            header,
            cursor: Cursor::first(at),
            tally: Tally::new(),
        }),
        Err((reply, missing)) => Err(no_records(reply, missing)),
    }
}
