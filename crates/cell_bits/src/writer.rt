//! A writer of bits.

ghost use Rattle.std.specs.Prelude.{◌≡◌, ◌<◌, ◌≤◌, ◌^◌, ◌%◌, [], ◌∷◌, ◌++◌, length, take, ◌↔◌, IsTrue, IfOk, OnOk, OnErr};
ghost use Rattle.simplicity.specs.Spelling.{number_bits, natural, byte_bits, IsPadded};

use std::alloc::{AllocError, Global};
use std::marker::Model;

/// A list of bits that grows at its end.
#[derive(Drop)]
pub struct BitWriter {
    bits: Vec<bool>,
}

impl Model for BitWriter {
    ghost use Rattle.std.specs.Prelude.{List, Bool};

    ghost Value = { List Bool };

    ghost view = { λ w. w.bits.items };
}

impl BitWriter {
    /// A writer without bits. It takes no memory.
    pub fn new(alloc: Global) -> BitWriter
        ensures { result ≡ [] }
    {
        BitWriter {
            bits: Vec::new(alloc),
        }
    }

    /// Appends one bit. After an error the bits are as before.
    pub fn push(&mut self, bit: bool) -> Result<(), AllocError>
        ensures ok { OnOk result (self.new ≡ self.old ++ bit ∷ []) }
        ensures err { OnErr result (self.new ≡ self.old) }
    {
        self.bits.push(bit)?;
        Ok(())
    }

    /// Appends the last `width` bits of a number, the most significant first. After an error the bits are as before.
    pub fn push_number(&mut self, value: u64, width: u32) -> Result<(), AllocError>
        requires narrow { width ≤ 64 }
        requires fits { value < 2 ^ width }
        ensures ok { OnOk result (self.new ≡ self.old ++ number_bits width value) }
        ensures err { OnErr result (self.new ≡ self.old) }
    {
        let kept = self.bits.len();
        let answer = append_number(&mut self.bits, value, width);
        if answer.is_err() {
            self.bits.truncate(kept);
        }
        answer
    }

    /// Appends the code of a natural. After an error the bits are as before.
    pub fn push_natural(&mut self, value: u64) -> Result<(), AllocError>
        requires some { 1 ≤ value }
        requires fits { value < 2 ^ 32 }
        ensures ok { OnOk result (self.new ≡ self.old ++ natural value) }
        ensures err { OnErr result (self.new ≡ self.old) }
    {
        let kept = self.bits.len();
        let answer = append_natural(&mut self.bits, value);
        if answer.is_err() {
            self.bits.truncate(kept);
        }
        answer
    }

    /// The number of bits.
    pub fn len(&self) -> u128
        ensures { result ≡ length self.now }
    {
        self.bits.len() as u128
    }

    /// Whether there is no bit.
    pub fn is_empty(&self) -> bool
        ensures { IsTrue result ↔ (self.now ≡ []) }
    {
        self.bits.is_empty()
    }

    /// Keeps the first `count` bits.
    pub fn cut(&mut self, count: u128)
        requires { count ≤ length self.old }
        ensures { self.new ≡ take count self.old }
    {
        self.bits.truncate(count as usize);
    }

    /// The bits in whole bytes, the first bit the most significant, with fewer than eight zeros after the last.
    pub fn finish(self) -> Result<Vec<u8>, AllocError>
        ensures { IfOk result (λ bytes. IsPadded bytes.items self) }
    {
        let BitWriter { mut bits } = self;
        let zeros = (8 - bits.len() % 8) % 8;
        for _ in 0..zeros {
            bits.push(false)?;
        }
        packed(*bits.allocator(), bits.as_slice())
    }
}

/// Appends the last `width` bits of a number; after an error some of them may stand there.
fn append_number(bits: &mut Vec<bool>, value: u64, width: u32) -> Result<(), AllocError>
    requires { width ≤ 64 }
    ensures ok { OnOk result (bits.new.items ≡ bits.old.items ++ number_bits width value) }
    ensures err { OnErr result (take (length bits.old.items) bits.new.items ≡ bits.old.items) }
{
    for place in (0..width).rev() {
        bits.push((value >> place) % 2 == 1)?;
    }
    Ok(())
}

/// Appends the code of a natural; after an error some of it may stand there.
fn append_natural(bits: &mut Vec<bool>, value: u64) -> Result<(), AllocError>
    requires { 1 ≤ value }
    ensures ok { OnOk result (bits.new.items ≡ bits.old.items ++ natural value) }
    ensures err { OnErr result (take (length bits.old.items) bits.new.items ≡ bits.old.items) }
{
    if value == 1 {
        bits.push(false)?;
        return Ok(());
    }
    let exponent = value.ilog2();
    bits.push(true)?;
    append_natural(bits, u64::from(exponent))?;
    append_number(bits, value - (1 << exponent), exponent)?;
    Ok(())
}

/// The bytes that whole bytes of bits are.
fn packed(alloc: Global, bits: &[bool]) -> Result<Vec<u8>, AllocError>
    requires { length bits.now % 8 ≡ 0 }
    ensures { IfOk result (λ bytes. byte_bits bytes.items ≡ bits.now) }
{
    let mut bytes = Vec::new(alloc);
    let mut rest = bits;
    while !rest.is_empty() {
        let (head, tail) = rest.split_at(8);
        bytes.push(byte_of(head))?;
        rest = tail;
    }
    Ok(bytes)
}

/// The byte that eight bits are.
fn byte_of(bits: &[bool]) -> u8
    requires { length bits.now ≡ 8 }
    ensures { number_bits 8 result ≡ bits.now }
{
    let mut byte = 0u8;
    for bit in bits {
        byte = byte * 2 + u8::from(*bit);
    }
    byte
}
