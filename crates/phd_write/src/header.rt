// The header of a dump (docs/FORMAT.md 2): its size, and encoding it.
ghost use Rattle.std.specs.Prelude.{◌≡◌, length};
ghost use Rattle.encode.specs.Wrote.{Wrote, HasRoom};
ghost use Rattle.phd_write.specs.Write.{header_flags, encode_preamble, encode_vm, encode_header};
ghost use Rattle.phd_check.specs.WellFormed.{VmInBounds};

use decode::StringSpan;
use encode::encoder::Encoder;
use phd::Header;

// Returns the size of the header in bytes.
#[tactic(auto, using(crate::specs::HeaderBytes::length_header), unfolding(crate::specs::HeaderBytes::header_size, crate::specs::HeaderBytes::vm_size))]
pub fn header_size(h: Header, names: &[u8]) -> usize
    requires { VmInBounds names.now h.vm }
    ensures { result ≡ length (encode_header names.now h) }
{
    if h.vm.present { 34 + h.vm.len } else { 31 }
}

// Returns the header flags: 1 if W is 64, plus 2 if all-hashed, plus 4 if from OpenJ9.
#[tactic(auto, unfolding(crate::specs::Write::header_flags))]
fn header_flags(h: Header) -> u64
    ensures { result ≡ header_flags h }
{
    u64::from(h.bits == 64) + 2 * u64::from(h.hashed) + 4 * u64::from(h.openj9)
}

// Encodes the opening string, the version, the flags and the byte 1.
#[tactic(auto, using(encode::specs::Wrote::consecutive), unfolding(crate::specs::Write::encode_preamble, phd::specs::Phd::magic))]
fn encode_preamble(e: &mut Encoder, flags: u64)
    requires { HasRoom e.old (encode_preamble flags) }
    ensures { Wrote e.old e.new (encode_preamble flags) }
{
    e.be(2, 18);
    e.bytes(&phd::magic::MAGIC);
    e.be(4, 6);
    e.be(4, flags);
    e.be(1, 1);
}

// Encodes the header record of the VM string, if there is one.
#[tactic(auto, using(encode::specs::Wrote::consecutive), unfolding(crate::specs::Write::encode_vm, phd_check::specs::GoodRows::vm_text))]
fn encode_vm(e: &mut Encoder, vm: StringSpan, names: &[u8])
    requires vm_in_bounds { VmInBounds names.now vm }
    requires has_room { HasRoom e.old (encode_vm names.now vm) }
    ensures { Wrote e.old e.new (encode_vm names.now vm) }
{
    if vm.present {
        e.be(1, 4);
        e.be(2, vm.len as u64);
        e.bytes(&names[vm.place..vm.place + vm.len]);
    }
}

// Encodes the header.
#[tactic(auto, using(encode::specs::Wrote::consecutive), unfolding(crate::specs::Write::encode_header))]
pub fn encode_header(e: &mut Encoder, h: Header, names: &[u8])
    requires vm_in_bounds { VmInBounds names.now h.vm }
    requires has_room { HasRoom e.old (encode_header names.now h) }
    ensures { Wrote e.old e.new (encode_header names.now h) }
{
    encode_preamble(e, header_flags(h));
    encode_vm(e, h.vm, names);
    e.be(1, 2);
    e.be(1, 2);
}
