//! The register file of a run, as one list.

ghost use Rattle.std.specs.Prelude.{◌≡◌, ◌+◌, ◌<◌, ◌++◌, ℕ, Some, IsSome, length, replicate, IfOk, OnOk};
ghost use Rattle.ops.specs.Value.{IsValueOf};
ghost use Rattle.ir_core.specs.Blocks.{HasInst};
ghost use Rattle.ir_core.specs.Names.{width_of};
ghost use Rattle.ir_core.specs.Refines.{AreArguments};
ghost use Rattle.ir_core.specs.Run.{arguments, holding};
ghost use Rattle.ir_meaning.specs.Table.{Fits, IsTable, first_of, held_of};

use ir_core::{Function, Register};
use ops::Value;
use std::alloc::{AllocError, Global};

/// A value for each register of a function: the parameters first, and then the results block by block. A register that
/// holds nothing yet has poison here.
#[derive(Drop)]
pub(crate) struct Table {
    /// The index in `values` of the first result of each block.
    pub(crate) firsts: Vec<usize>,
    pub(crate) values: Vec<Value>,
}

impl Table {
    /// The table at the start, where the parameters hold the arguments. The only error is want of memory.
    pub(crate) fn new(alloc: Global, f: &Function, args: &[Value]) -> Result<Table, AllocError>
        requires { AreArguments f.now.parameters args.now }
        ensures table { IfOk result (λ t. IsTable f.now t.firsts.items t.values.items) }
        ensures arguments { IfOk result (λ t. (r : Register) (v : Value) → arguments args.now r ≡ Some v → held_of f.now t.values.items r ≡ Some v) }
    {
        let mut values = Vec::new(alloc);
        for value in args {
            values.push(*value)?;
        }
        let mut firsts = Vec::new(alloc);
        for block in f.blocks.as_slice() {
            firsts.push(values.len())?;
            push_poison(&mut values, block.insts.len())?;
        }
        Ok(Table { firsts, values })
    }

    /// What the register of the function holds.
    pub(crate) fn get(&self, f: &Function, r: Register) -> Value
        requires table { IsTable f.now self.now.firsts.items self.now.values.items }
        requires register { IsSome (width_of f.now r) }
        ensures held { held_of f.now self.now.values.items r ≡ Some result }
        ensures width { (width : ℕ) → width_of f.now r ≡ Some width → IsValueOf width result }
    {
        match r {
            Register::Parameter(k) => self.values[k as usize],
            Register::Result(b, k) => self.values[self.place(f, b, k as usize)],
        }
    }

    /// The index in `values` of the result of an instruction of the function.
    fn place(&self, f: &Function, b: u32, k: usize) -> usize
        requires table { IsTable f.now self.now.firsts.items self.now.values.items }
        requires inst { HasInst f.now b k }
        ensures place { result ≡ first_of f.now b + k }
        ensures within { result < length self.now.values.items }
    {
        self.firsts[b as usize] + k
    }

    /// Stores a value as the result of an instruction of the function.
    pub(crate) fn set(&mut self, f: &Function, b: u32, k: usize, v: Value)
        requires table { IsTable f.now self.old.firsts.items self.old.values.items }
        requires fits { Fits f.now (Register.Result b k) v }
        ensures table { IsTable f.now self.new.firsts.items self.new.values.items }
        ensures held { held_of f.now self.new.values.items ≡ holding (held_of f.now self.old.values.items) b k v }
    {
        let place = self.place(f, b, k);
        self.values[place] = v;
    }
}

/// Appends poison so many times.
fn push_poison(values: &mut Vec<Value>, count: usize) -> Result<(), AllocError>
    ensures { OnOk result (values.new.items ≡ values.old.items ++ replicate count Value.Poison) }
{
    for _ in 0..count {
        values.push(Value::Poison)?;
    }
    Ok(())
}
