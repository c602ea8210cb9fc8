//! A reader of bits.

ghost use Rattle.std.specs.Prelude.{◌≡◌, ◌+◌, ◌*◌, ◌<◌, ◌≤◌, ◌^◌, ◌∷◌, length, drop, slice_get, IfOk, OnErr};
ghost use Rattle.simplicity.specs.Spelling.{byte_bits};
ghost use Rattle.spelling.specs.Reading.{one_bit, number, read_natural, padding};
ghost use Rattle.spelling.specs.Parts.{ones, powers};
ghost use Rattle.cell_bits.specs.Places.{Reads, IsTail};

use crate::refusal::BitRefusal;
use std::marker::Model;

/// A place in the bits of bytes, which go from each byte's most significant bit to its least.
///
/// A contract sees all the bits, and the number of those before the place.
#[derive(Drop)]
pub struct BitReader<'a> {
    bytes: &'a [u8],
    at: u128,
}

impl<'a> Model for BitReader<'a> {
    ghost use Rattle.std.specs.Prelude.{◌≤◌, ◌*◌, length};
    ghost use Rattle.simplicity.specs.Spelling.{byte_bits};
    ghost use Rattle.cell_bits.specs.Places.{Place};

    ghost Value = { Place };

    ghost view = { λ reader. record { bits = byte_bits reader.bytes.now; at = reader.at } };

    ghost invariant = { λ reader. reader.at ≤ 8 * length reader.bytes.now };
}

impl<'a> BitReader<'a> {
    /// A reader before the first bit.
    pub fn new(bytes: &'a [u8]) -> BitReader<'a>
        ensures { result ≡ record { bits = byte_bits bytes.now; at = 0 } }
    {
        BitReader { bytes, at: 0 }
    }

    /// The number of bits before the reader's place.
    pub fn at(&self) -> u128
        ensures place { result ≡ self.now.at }
        ensures within { result ≤ length self.now.bits }
    {
        self.at
    }

    /// Goes back to a place before this one.
    pub fn back(&mut self, place: u128)
        requires { place ≤ self.old.at }
        ensures { self.new ≡ record { bits = self.old.bits; at = place } }
    {
        self.at = place;
    }

    /// Reads a bit.
    ///
    /// # Errors
    ///
    /// `EndOfBits` where none is left; the reader stays.
    pub fn bit(&mut self) -> Result<bool, BitRefusal>
        ensures reads { Reads one_bit result self.old self.new }
        ensures err { OnErr result (self.new ≡ self.old) }
    {
        match bit_at(self.bytes, self.at) {
            Some(bit) => {
                self.at += 1;
                Ok(bit)
            }
            None => Err(BitRefusal::EndOfBits { at: self.at }),
        }
    }

    /// Reads a number of `width` bits, the most significant first.
    ///
    /// # Errors
    ///
    /// `EndOfBits` where fewer bits are left; the reader stays.
    pub fn number(&mut self, width: u32) -> Result<u64, BitRefusal>
        requires { width ≤ 64 }
        ensures reads { Reads (number width) result self.old self.new }
        ensures fits { IfOk result (λ value. value < 2 ^ width) }
        ensures err { OnErr result (self.new ≡ self.old) }
    {
        let start = self.at;
        let answer = self.digits(width);
        if answer.is_err() {
            self.at = start;
        }
        answer
    }

    /// Reads a natural, by its code.
    ///
    /// # Errors
    ///
    /// `NaturalTooLarge` as soon as a length part of 32 or more was read, and `EndOfBits` where the bits end
    /// before that and before the natural does; the reader stays.
    pub fn natural(&mut self) -> Result<u64, BitRefusal>
        ensures reads { Reads read_natural result self.old self.new }
        ensures fits { IfOk result (λ value. (1 ≤ value) × (value < 2 ^ 32)) }
        ensures err { OnErr result (self.new ≡ self.old) }
    {
        let start = self.at;
        let answer = self.parts();
        if answer.is_err() {
            self.at = start;
        }
        answer
    }

    /// Tests that the rest is fewer than eight zeros.
    ///
    /// # Errors
    ///
    /// `BadPadding` where it isn't.
    pub fn tail(&self) -> Result<(), BitRefusal>
        ensures { IsTail result self.now }
    {
        let all = self.bytes.len() as u128 * 8;
        for place in self.at..all {
            if is_one(self.bytes, place) {
                return Err(BitRefusal::BadPadding { at: place });
            }
        }
        if all - self.at < 8 {
            Ok(())
        } else {
            Err(BitRefusal::BadPadding {
                at: self.at.div_ceil(8) * 8,
            })
        }
    }

    /// Reads a number's bits; after an error some of them may be read.
    fn digits(&mut self, width: u32) -> Result<u64, BitRefusal>
        requires { width ≤ 64 }
        ensures reads { Reads (number width) result self.old self.new }
        ensures fits { IfOk result (λ value. value < 2 ^ width) }
    {
        let mut value = 0;
        for _left in (0..width).rev() {
            value = value * 2 + u64::from(self.bit()?);
        }
        Ok(value)
    }

    /// Reads a natural; after an error some of its bits may be read.
    fn parts(&mut self) -> Result<u64, BitRefusal>
        ensures reads { Reads read_natural result self.old self.new }
        ensures fits { IfOk result (λ value. (1 ≤ value) × (value < 2 ^ 32)) }
    {
        let start = self.at;
        let count = self.ones()?;
        self.powers(start, count)
    }

    /// Reads ones and the zero after them, and counts the ones.
    fn ones(&mut self) -> Result<u128, BitRefusal>
        ensures reads { Reads ones result self.old self.new }
    {
        let start = self.at;
        while self.bit()? {}
        Ok(self.at - start - 1)
    }

    /// Reads the parts of a natural that begins at a place: each has as many bits as the value before says.
    fn powers(&mut self, start: u128, count: u128) -> Result<u64, BitRefusal>
        ensures reads { Reads (powers start count 1) result self.old self.new }
        ensures fits { IfOk result (λ value. (1 ≤ value) × (value < 2 ^ 32)) }
    {
        let mut value = 1;
        for _left in (0..count).rev() {
            if value >= 32 {
                return Err(BitRefusal::NaturalTooLarge { at: start });
            }
            value = (1 << value) + self.digits(value as u32)?;
        }
        Ok(value)
    }
}

/// The bit at a place of bytes. None behind the last.
fn bit_at(bytes: &[u8], place: u128) -> Option<bool>
    requires { place ≤ 8 * length bytes.now }
    ensures { result ≡ slice_get (byte_bits bytes.now) place }
{
    match bytes.get((place / 8) as usize) {
        Some(byte) => Some((*byte >> (7 - place % 8)) % 2 == 1),
        None => None,
    }
}

/// Whether the bit at a place of bytes is 1.
fn is_one(bytes: &[u8], place: u128) -> bool
    requires { place < 8 * length bytes.now }
    ensures { drop place (byte_bits bytes.now) ≡ result ∷ drop (place + 1) (byte_bits bytes.now) }
{
    match bit_at(bytes, place) {
        Some(bit) => bit,
        None => unreachable!(),
    }
}
