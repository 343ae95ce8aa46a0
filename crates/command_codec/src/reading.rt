//! Fields from the left of bytes: numbers are big-endian.

ghost use Rattle.std.specs.Prelude.{◌≡◌, ◌≤◌, ◌==◌, length, IfOk};
ghost use Rattle.std.specs.Int.{w16, w32, w64, from_be_bytes};
ghost use Rattle.command_codec.specs.Reader.{Reads, Says, WantsNone, start, byte_at, bytes_at, number_at, within, length_at, string_at, ended};

use crate::CodecFault;
use mrp_types::Octets;
use std::alloc::Global;
use std::marker::Model;

/// What is left of bytes, and the position where it begins; contracts see these two. A reader ends with its first
/// fault: after one nothing is said of what is left.
#[derive(Drop)]
pub struct Cursor<'a> {
    at: usize,
    rest: &'a [u8],
}

impl<'a> Model for Cursor<'a> {
    ghost use Rattle.std.specs.Prelude.{◌+◌, ◌<◌, ◌^◌, length};
    ghost use Rattle.command_codec.specs.Reader.{Spot};

    ghost Value = { Spot };

    ghost view = { λ c. record { at = c.at; rest = c.rest.now } };

    ghost invariant = { λ c. c.at + length c.rest.now < 2 ^ 64 };
}

impl<'a> Cursor<'a> {
    /// All of these bytes, from position 0 on.
    pub fn new(bytes: &'a [u8]) -> Self
        ensures { result ≡ start bytes.now }
    {
        Cursor { at: 0, rest: bytes }
    }

    /// The position of the next field.
    pub fn at(&self) -> usize
        ensures { result ≡ self.now.at }
    {
        self.at
    }

    /// The next so many bytes.
    #[tactic(auto, unfolding(crate::specs::Reader::bytes_at))]
    pub fn bytes(&mut self, count: usize) -> Result<&'a [u8], CodecFault>
        ensures exact { Reads (λ x. x.now) (bytes_at count self.old) result self.new }
        ensures sure { WantsNone result }
        ensures count { IfOk result (λ x. length x.now ≡ count) }
    {
        if self.rest.len() < count {
            return Err(CodecFault::Short(self.at));
        }
        let (bytes, rest) = self.rest.split_at(count);
        self.at += count;
        self.rest = rest;
        Ok(bytes)
    }

    /// The next byte.
    pub fn byte(&mut self) -> Result<u8, CodecFault>
        ensures exact { Reads (λ n. n) (byte_at self.old) result self.new }
        ensures sure { WantsNone result }
    {
        let [byte, rest @ ..] = self.rest else {
            return Err(CodecFault::Short(self.at));
        };
        let byte = *byte;
        self.at += 1;
        self.rest = rest;
        Ok(byte)
    }

    /// The next byte, which has to be in this range, both ends included.
    #[tactic(auto, unfolding(crate::specs::Reader::within))]
    pub fn byte_within(&mut self, least: u8, most: u8) -> Result<u8, CodecFault>
        ensures exact { Reads (λ n. n) (within least most byte_at self.old) result self.new }
        ensures sure { WantsNone result }
        ensures range { IfOk result (λ n. n ≤ most) }
        ensures least { IfOk result (λ n. least ≤ n) }
    {
        let at = self.at();
        let number = self.byte()?;
        if number < least {
            return Err(CodecFault::BadField(at));
        }
        if number > most {
            return Err(CodecFault::BadField(at));
        }
        Ok(number)
    }

    /// The next two bytes as a number.
    #[tactic(auto, unfolding(crate::specs::Reader::number_at))]
    pub fn u16(&mut self) -> Result<u16, CodecFault>
        ensures exact { Reads (λ n. n) (number_at w16 self.old) result self.new }
        ensures sure { WantsNone result }
    {
        Ok(number16(self.bytes(2)?))
    }

    /// The next two bytes as a number, which has to be in this range, both ends included.
    #[tactic(auto, unfolding(crate::specs::Reader::within))]
    pub fn u16_within(&mut self, least: u16, most: u16) -> Result<u16, CodecFault>
        ensures exact { Reads (λ n. n) (within least most (number_at w16) self.old) result self.new }
        ensures sure { WantsNone result }
    {
        let at = self.at();
        let number = self.u16()?;
        if number < least {
            return Err(CodecFault::BadField(at));
        }
        if number > most {
            return Err(CodecFault::BadField(at));
        }
        Ok(number)
    }

    /// The next four bytes as a number.
    #[tactic(auto, unfolding(crate::specs::Reader::number_at))]
    pub fn u32(&mut self) -> Result<u32, CodecFault>
        ensures exact { Reads (λ n. n) (number_at w32 self.old) result self.new }
        ensures sure { WantsNone result }
    {
        Ok(number32(self.bytes(4)?))
    }

    /// The next eight bytes as a number.
    #[tactic(auto, unfolding(crate::specs::Reader::number_at))]
    pub fn u64(&mut self) -> Result<u64, CodecFault>
        ensures exact { Reads (λ n. n) (number_at w64 self.old) result self.new }
        ensures sure { WantsNone result }
    {
        Ok(number64(self.bytes(8)?))
    }

    /// The next eight bytes as a number, which has to be in this range, both ends included.
    #[tactic(auto, unfolding(crate::specs::Reader::within))]
    pub fn u64_within(&mut self, least: u64, most: u64) -> Result<u64, CodecFault>
        ensures exact { Reads (λ n. n) (within least most (number_at w64) self.old) result self.new }
        ensures sure { WantsNone result }
        ensures range { IfOk result (λ n. n ≤ most) }
    {
        let at = self.at();
        let number = self.u64()?;
        if number < least {
            return Err(CodecFault::BadField(at));
        }
        if number > most {
            return Err(CodecFault::BadField(at));
        }
        Ok(number)
    }

    /// A length of two bytes: one below `least` is a bad field, one past `most` is too long.
    #[tactic(auto, unfolding(crate::specs::Reader::length_at))]
    pub fn length(&mut self, least: usize, most: usize) -> Result<usize, CodecFault>
        ensures exact { Reads (λ n. n) (length_at least most self.old) result self.new }
        ensures sure { WantsNone result }
    {
        let at = self.at();
        let number = usize::from(self.u16()?);
        if number < least {
            return Err(CodecFault::BadField(at));
        }
        if number > most {
            return Err(CodecFault::TooLong(at));
        }
        Ok(number)
    }

    /// A length of two bytes from `least` to `most`, and that many bytes.
    #[tactic(auto, unfolding(crate::specs::Reader::string_at))]
    pub fn string(&mut self, least: usize, most: usize) -> Result<&'a [u8], CodecFault>
        ensures exact { Reads (λ x. x.now) (string_at least most self.old) result self.new }
        ensures sure { WantsNone result }
    {
        let count = self.length(least, most)?;
        self.bytes(count)
    }

    /// A length of two bytes from `least` to `most`, and a copy of that many bytes.
    pub fn octets(&mut self, alloc: Global, least: usize, most: usize) -> Result<Octets, CodecFault>
        ensures { Reads (λ x. x) (string_at least most self.old) result self.new }
    {
        let bytes = self.string(least, most)?;
        Ok(Octets::from_slice(alloc, bytes)?)
    }

    /// Whether nothing is left.
    pub fn is_at_end(&self) -> bool
        ensures { result ≡ (length self.now.rest == 0) }
    {
        self.rest.is_empty()
    }

    /// Asks that nothing is left.
    pub fn end(&self) -> Result<(), CodecFault>
        ensures exact { Says (λ x. x) (ended tt self.now) result }
        ensures sure { WantsNone result }
    {
        if !self.rest.is_empty() {
            return Err(CodecFault::Left(self.at));
        }
        Ok(())
    }
}

fn number16(bytes: &[u8]) -> u16
    requires { length bytes.now ≡ 2 }
    ensures { result ≡ from_be_bytes w16 bytes.now }
{
    u16::from_be_bytes([bytes[0], bytes[1]])
}

fn number32(bytes: &[u8]) -> u32
    requires { length bytes.now ≡ 4 }
    ensures { result ≡ from_be_bytes w32 bytes.now }
{
    u32::from_be_bytes([bytes[0], bytes[1], bytes[2], bytes[3]])
}

fn number64(bytes: &[u8]) -> u64
    requires { length bytes.now ≡ 8 }
    ensures { result ≡ from_be_bytes w64 bytes.now }
{
    u64::from_be_bytes([
        bytes[0], bytes[1], bytes[2], bytes[3], bytes[4], bytes[5], bytes[6], bytes[7],
    ])
}
