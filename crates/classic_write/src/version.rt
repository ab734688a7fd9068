// The version line: its size in bytes, line end included, and encoding it.
ghost use Rattle.std.specs.Prelude.{◌≡◌, [], cond, length};
ghost use Rattle.encode.specs.Wrote.{Wrote, HasRoom};
ghost use Rattle.phd_check.specs.GoodRows.{vm_text};
ghost use Rattle.phd_check.specs.WellFormed.{VmInBounds};
ghost use Rattle.classic_write.specs.TextParts.{version_text};

use decode::StringSpan;
use encode::encoder::Encoder;

// Returns the size of the version line: 12 bytes of `// Version: `, those of the VM string, and one of the line end.
pub fn version_size(names: &[u8], vm: StringSpan) -> usize
    requires { VmInBounds names.now vm }
    ensures { result ≡ length (version_text names.now vm) }
{
    if vm.present { 13 + vm.len } else { 13 }
}

// Encodes the VM string, if there is one.
fn encode_vm(e: &mut Encoder, names: &[u8], vm: StringSpan)
    requires vm_in_bounds { VmInBounds names.now vm }
    requires has_room { HasRoom e.old (cond vm.present (vm_text names.now vm) []) }
    ensures { Wrote e.old e.new (cond vm.present (vm_text names.now vm) []) }
{
    if vm.present {
        e.bytes(&names[vm.place..vm.place + vm.len]);
    }
}

// Encodes the version line.
#[tactic(auto, using(crate::proofs::TextSteps::version_steps))]
pub fn encode_version(e: &mut Encoder, names: &[u8], vm: StringSpan)
    requires vm_in_bounds { VmInBounds names.now vm }
    requires has_room { HasRoom e.old (version_text names.now vm) }
    ensures { Wrote e.old e.new (version_text names.now vm) }
{
    e.bytes(b"// Version: ");
    encode_vm(e, names, vm);
    e.byte(b'\n');
}
