// Decodes the header of a portable heap dump (docs/FORMAT.md 2).
// Each function reads the layout of its name in the definition of the format (crates/phd/specs/Phd.antt).
#![tactic(auto)]

ghost use Rattle.std.specs.Prelude.{◌≡◌, OnErr};
ghost use Rattle.decode.specs.Reads.{Reads};
ghost use Rattle.phd.specs.Phd.{magic_bytes, preamble as preamble_of, after_vm, header_records, make_header, header};

use decode::decoder::Decoder;
use decode::{Stop, StringSpan};
use phd::Header;
use phd::forms::bit;
use phd::magic::is_magic;

// Decodes the bytes of the opening string, after its length. A refusal leaves the decoder's offset as it was.
pub fn magic_bytes(d: &mut Decoder) -> Result<(), Stop>
    ensures reads { Reads magic_bytes d.old result d.new }
    ensures kept { OnErr result (d.new.at ≡ d.old.at) }
{
    let at = d.at;
    let text = d.raw(18)?;
    if !is_magic(text) {
        d.at = at;
        return Err(Stop::Refused(3));
    }
    Ok(())
}

// Decodes the opening string, the version, the flags and the start byte 1; returns the flags.
fn preamble(d: &mut Decoder) -> Result<u64, Stop>
    ensures { Reads preamble_of d.old result d.new }
{
    d.exactly(2, 18, 3)?;
    magic_bytes(d)?;
    d.exactly(4, 6, 4)?;
    let flags = d.below(4, 8, 5)?;
    d.exactly(1, 1, 6)?;
    Ok(flags)
}

// Decodes the tag after the VM string, which must be 2, the end of the header records.
fn after_vm(d: &mut Decoder) -> Result<(), Stop>
    ensures { Reads after_vm d.old result d.new }
{
    match d.field(1)? {
        2 => Ok(()),
        4 => Err(Stop::Refused(7)),
        _ => Err(Stop::Refused(6)),
    }
}

// Decodes the header records and the tag 2 that ends them; returns the VM string, if there is one.
fn header_records(d: &mut Decoder) -> Result<StringSpan, Stop>
    ensures { Reads header_records d.old result d.new }
{
    match d.field(1)? {
        2 => Ok(StringSpan {
            present: false,
            place: 0,
            len: 0,
        }),
        4 => {
            let vm = d.string(0x20, 0)?;
            after_vm(d)?;
            Ok(vm)
        }
        _ => Err(Stop::Refused(6)),
    }
}

// Returns the header for the flags and the VM string.
fn make_header(flags: u64, vm: StringSpan) -> Header
    ensures { result ≡ make_header flags vm }
{
    Header {
        bits: if bit(1, flags) { 64 } else { 32 },
        hashed: bit(2, flags),
        openj9: bit(4, flags),
        vm,
    }
}

// Decodes the preamble, the header records and the byte 2 that starts the body.
fn whole_header(d: &mut Decoder) -> Result<Header, Stop>
    ensures { Reads header d.old result d.new }
{
    let flags = preamble(d)?;
    let vm = header_records(d)?;
    d.exactly(1, 2, 6)?;
    Ok(make_header(flags, vm))
}

// Decodes the whole header, up to the byte 2 that starts the body. A refusal leaves the decoder's offset as it was.
pub fn read_header(d: &mut Decoder) -> Result<Header, Stop>
    ensures reads { Reads header d.old result d.new }
    ensures kept { OnErr result (d.new.at ≡ d.old.at) }
{
    let at = d.at;
    match whole_header(d) {
        Ok(header) => Ok(header),
        Err(stop) => {
            d.at = at;
            Err(stop)
        }
    }
}
