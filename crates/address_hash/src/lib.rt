// A hash of addresses, for the tables that find class rows and entries of class summaries. Nothing is believed of it: a hash that gave
// one number for all addresses would make them slow, and no contract would fail.
#![tactic(auto)]

ghost use Rattle.std.specs.Prelude.{◌≡◌, ◌<◌};
ghost use Rattle.address_hash.specs.AddressHash.{hash};

// Returns the hash of an address, a number of 32 bits.
#[tactic(auto, unfolding(crate::specs::AddressHash::hash))]
pub fn hash(address: u64) -> u64
    ensures { (result ≡ hash address) × (result < 0x1_0000_0000) }
{
    let folded = (address / 4 + address / 0x4_0000_0000) % 0x1_0000_0000;
    folded * 0x9E37_79B1 % 0x1_0000_0000
}
