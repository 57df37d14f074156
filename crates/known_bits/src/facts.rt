//! What is known of operands behind some instructions of a block.
ghost use Rattle.std.specs.Prelude.{◌≡◌, ◌≤◌, All, IfOk, length};
ghost use Rattle.known_bits.specs.KnownBits.{known_operand};
ghost use Rattle.known_bits.specs.Words.{known_of};

use crate::bits::{digits, unknown};
use crate::words::Known;
use circuits::{Bits, KnownBit};
use ir_core::{Operand, Register};
use lists::List;
use ops::Width;
use std::alloc::{AllocError, Global};

/// What is known of the results of a block, from its first instruction on.
#[derive(Debug, Drop)]
pub struct Facts {
    /// The block.
    pub block: u32,
    /// For each result in order its bits, the lowest first.
    pub results: List<Bits<KnownBit>>,
}

impl Facts {
    /// What is known of the bits of an operand of the width, the lowest first. The only error is want of memory.
    pub fn operand(
        &self,
        alloc: Global,
        width: Width,
        operand: Operand,
    ) -> Result<Bits<KnownBit>, AllocError>
        ensures bits { IfOk result (λ bits. bits ≡ known_operand self.now.block self.now.results width operand) }
        ensures few { All (λ bits. length bits ≤ 64) self.now.results → IfOk result (λ bits. length bits ≤ 64) }
    {
        match operand {
            Operand::Number(number) => digits(alloc, number),
            Operand::Register(register) => self.register(alloc, width, register),
            Operand::Undef | Operand::Poison => unknown(alloc, width.bits() as usize),
        }
    }

    /// What is known of the bits of a register of the width.
    fn register(
        &self,
        alloc: Global,
        width: Width,
        register: Register,
    ) -> Result<Bits<KnownBit>, AllocError>
        ensures bits { IfOk result (λ bits. bits
            ≡ known_operand self.now.block self.now.results width (Operand.Register register)) }
        ensures few { All (λ bits. length bits ≤ 64) self.now.results → IfOk result (λ bits. length bits ≤ 64) }
    {
        let Register::Result(block, place) = register else {
            return unknown(alloc, width.bits() as usize);
        };
        if block != self.block {
            return unknown(alloc, width.bits() as usize);
        }
        match self.results.as_slice().get(place as usize) {
            Some(bits) => Ok(List::from_vec(Vec::from_slice(alloc, bits.as_slice())?)),
            None => unknown(alloc, width.bits() as usize),
        }
    }

    /// What is known of the bits of an operand, in two numbers. Where nothing is known the width makes no difference to
    /// these. It takes no memory.
    pub fn known(&self, operand: Operand) -> Known
        requires { All (λ bits. length bits ≤ 64) self.now.results }
        ensures { result ≡ known_of (known_operand self.now.block self.now.results 0 operand) }
    {
        match operand {
            Operand::Number(number) => Known::of_number(number),
            Operand::Register(register) => self.known_register(register),
            Operand::Undef | Operand::Poison => Known::nothing(),
        }
    }

    /// The same of a register.
    fn known_register(&self, register: Register) -> Known
        requires { All (λ bits. length bits ≤ 64) self.now.results }
        ensures { result ≡ known_of (known_operand self.now.block self.now.results 0 (Operand.Register register)) }
    {
        let Register::Result(block, place) = register else {
            return Known::nothing();
        };
        if self.block != block {
            return Known::nothing();
        }
        match self.results.as_slice().get(place as usize) {
            Some(bits) => Known::of_bits(bits.as_slice()),
            None => Known::nothing(),
        }
    }
}
