// Decodes the fields of a dump one after another.
ghost use Rattle.std.specs.Prelude.{◌≡◌, ◌+◌, ◌^◌, ◌≤◌, ◌<◌, length, IfOk, OnErr};

use super::{Stop, StringSpan};

// The bytes of a dump, and the offset of the next field. A method that refuses leaves the offset as it was.
#[derive(Drop)]
pub struct Decoder<'a> {
    pub bytes: &'a [u8],
    pub at: usize,
    pub ghost inside: { at ≤ length bytes.now },
}

impl<'a> Decoder<'a> {
    ghost use Rattle.decode.specs.Layout.{raw as raw_of, field as field_of};
    ghost use Rattle.decode.specs.Fields.{exactly as exactly_of, below as below_of, address as address_of, ref_field, count as count_of, string as string_of};
    ghost use Rattle.decode.specs.Reads.{Reads, bytes_of};

    // Returns the next n bytes.
    pub fn raw(&mut self, n: usize) -> Result<&'a [u8], Stop>
        ensures reads { Reads (raw_of n) self.old (bytes_of result) self.new }
        ensures long { IfOk result (λ b. length b.now ≡ n) }
        ensures kept { OnErr result (self.new.at ≡ self.old.at) }
    {
        let left = self.bytes.len() - self.at;
        if left < n {
            return Err(Stop::Cut(n - left));
        }
        let next = self.at + n;
        let text = &self.bytes[self.at..next];
        self.at = next;
        Ok(text)
    }

    // Decodes a field of n bytes as an unsigned number.
    pub fn field(&mut self, n: usize) -> Result<u64, Stop>
        requires { n ≤ 8 }
        ensures reads { Reads (field_of n) self.old result self.new }
        ensures small { IfOk result (λ x. x < 256 ^ n) }
        ensures kept { OnErr result (self.new.at ≡ self.old.at) }
    {
        Ok(super::be(self.raw(n)?))
    }

    // Decodes a field of n bytes that must be v; otherwise refuses it with `reply`.
    pub fn exactly(&mut self, n: usize, v: u64, reply: u64) -> Result<u64, Stop>
        requires { n ≤ 8 }
        ensures reads { Reads (exactly_of n v reply) self.old result self.new }
        ensures kept { OnErr result (self.new.at ≡ self.old.at) }
    {
        let at = self.at;
        let x = self.field(n)?;
        if x != v {
            self.at = at;
            return Err(Stop::Refused(reply));
        }
        Ok(x)
    }

    // Decodes a field of n bytes that must be below `bound`; otherwise refuses it with `reply`.
    pub fn below(&mut self, n: usize, bound: u64, reply: u64) -> Result<u64, Stop>
        requires { n ≤ 8 }
        ensures reads { Reads (below_of n bound reply) self.old result self.new }
        ensures kept { OnErr result (self.new.at ≡ self.old.at) }
    {
        let at = self.at;
        let x = self.field(n)?;
        if bound <= x {
            self.at = at;
            return Err(Stop::Refused(reply));
        }
        Ok(x)
    }

    // Decodes an address: a signed gap of n bytes, relative to `base`. Refuses an address outside 0 to `highest` with 8.
    pub fn address(&mut self, n: usize, base: u64, highest: u64) -> Result<u64, Stop>
        requires { n ≤ 8 }
        ensures reads { Reads (address_of n base highest) self.old result self.new }
        ensures kept { OnErr result (self.new.at ≡ self.old.at) }
    {
        let at = self.at;
        let raw = self.field(n)?;
        match super::add_gap(base, super::signed(raw, n), highest) {
            Some(a) => Ok(a),
            None => {
                self.at = at;
                Err(Stop::Refused(8))
            }
        }
    }

    // Decodes a reference: a signed value of n bytes, relative to the address of its record. Refuses what `address` refuses,
    // and a reference to address 0 with 9.
    pub fn ref_field(&mut self, n: usize, base: u64, highest: u64) -> Result<u64, Stop>
        requires { n ≤ 8 }
        ensures reads { Reads (ref_field n base highest) self.old result self.new }
        ensures kept { OnErr result (self.new.at ≡ self.old.at) }
    {
        let at = self.at;
        let a = self.address(n, base, highest)?;
        if a == 0 {
            self.at = at;
            return Err(Stop::Refused(9));
        }
        Ok(a)
    }

    // Decodes a count, a length or the instance size of a class, of n bytes. Refuses a number outside 0 to 2^31 - 1 with 12.
    pub fn count(&mut self, n: usize) -> Result<u64, Stop>
        requires { n ≤ 8 }
        ensures reads { Reads (count_of n) self.old result self.new }
        ensures kept { OnErr result (self.new.at ≡ self.old.at) }
    {
        let at = self.at;
        let raw = self.field(n)?;
        match super::to_count(super::signed(raw, n)) {
            Some(c) => Ok(c),
            None => {
                self.at = at;
                Err(Stop::Refused(12))
            }
        }
    }

    // Decodes a string: a two-byte length, at least `least`, and its bytes, each from `low` to 0x7E. Refuses any other with 7.
    pub fn string(&mut self, low: u8, least: u64) -> Result<StringSpan, Stop>
        ensures reads { Reads (string_of low least) self.old result self.new }
        ensures kept { OnErr result (self.new.at ≡ self.old.at) }
    {
        let at = self.at;
        let len = self.field(2)?;
        if len < least {
            self.at = at;
            return Err(Stop::Refused(7));
        }
        let place = self.at;
        let text = match self.raw(len as usize) {
            Ok(text) => text,
            Err(stop) => {
                self.at = at;
                return Err(stop);
            }
        };
        if !super::bytes_within(text, low, 0x7E) {
            self.at = at;
            return Err(Stop::Refused(7));
        }
        Ok(StringSpan {
            present: true,
            place,
            len: text.len(),
        })
    }
}
