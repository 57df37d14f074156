//! Which blocks of functions are reached, and which registers are assigned at their heads.

ghost use Rattle.std.specs.Prelude.{◌<◌, ◌^◌, length, All, IsTrue};
ghost use Rattle.ir_core.specs.Checks.{ModuleMeetsChecks};
ghost use Rattle.assigned_flow.specs.FewEntries.{HasFewEntries};

use assigned_flow::{Assigned, check_assigned};
use ir_core::{Entry, Function, Module, Op, Register};
use ir_reader::read_module;
use std::alloc::Global;
use std::test::Fail;

/// A function, which of its blocks are reached, and whether a register is assigned at the head of a block.
struct Row {
    text: &'static str,
    reached: &'static [bool],
    heads: &'static [(u32, Register, bool)],
}

/// Registers: the parameter of each function, and results by block and place.
const A: Register = Register::Parameter(0);

const X00: Register = Register::Result(0, 0);

const X10: Register = Register::Result(1, 0);

const X11: Register = Register::Result(1, 1);

const X20: Register = Register::Result(2, 0);

const X30: Register = Register::Result(3, 0);

const ROWS: [Row; 5] = [
    // A diamond, behind which a phi takes what one arm defines.
    Row {
        text: "define i8 @f(i1 %c) { %x = freeze i8 0 br i1 %c, label %a, label %b a: %y = freeze i8 1 br label %j
b: br label %j j: %z = phi i8 [ %y, %a ], [ %x, %b ] ret i8 %z }",
        reached: &[true, true, true, true],
        heads: &[(3, X00, true), (3, X10, false), (3, X30, false)],
    },

    // A loop, whose phi takes what it defines.
    Row {
        text: "define i1 @f(i1 %c) { br label %l l: %x = phi i1 [ %c, %0 ], [ %y, %l ] %y = freeze i1 %x
br i1 %c, label %l, label %out out: ret i1 %y }",
        reached: &[true, true, true],
        heads: &[
            (1, X10, false),
            (1, A, true),
            (2, X10, true),
            (2, X11, true),
        ],
    },

    // A ring that isn't reached, where all is assigned.
    Row {
        text: "define i8 @f(i8 %c) { ret i8 %c a: %x = add i8 %y, %x br label %b b: %y = freeze i8 %x br label %a }",
        reached: &[true, false, false],
        heads: &[(0, X20, false), (1, X20, true), (1, X10, true)],
    },

    // An edge from a block that isn't reached makes no difference.
    Row {
        text: "define i8 @f() { %x = freeze i8 0 br label %b a: br label %b b: %y = phi i8 [ %x, %0 ], [ %y, %a ]
ret i8 %x }",
        reached: &[true, false, true],
        heads: &[(2, X00, true), (2, X20, false)],
    },

    // A switch that goes past a definition, and twice to one block.
    Row {
        text: "define i8 @f(i8 %c) { %x = freeze i8 %c switch i8 %x, label %a [ i8 1, label %b ]
a: %y = freeze i8 %x switch i8 %y, label %b [ i8 1, label %b ] b: ret i8 %x }",
        reached: &[true, true, true],
        heads: &[(2, X00, true), (2, X10, false)],
    },
];

/// Whether each phi of the function has fewer than 2^32 entries, and each block fewer instructions.
fn has_few(f: &Function) -> bool
    ensures insts { IsTrue result → All (λ b. length b.insts < 2 ^ 32) f.now.blocks }
    ensures entries { IsTrue result → All (λ b. All (λ i. HasFewEntries i.op) b.insts) f.now.blocks }
{
    f.blocks.as_slice().iter().all(|b| b.insts.len() < 1 << 32)
        && f.blocks.as_slice().iter().all(|b| b
            .insts
            .as_slice()
            .iter()
            .all(|i| has_few_entries(&i.op)))
}

/// Whether an instruction has fewer than 2^32 entries.
fn has_few_entries(op: &Op) -> bool
    ensures { IsTrue result → HasFewEntries op.now }
{
    match op {
        Op::Phi(entries) => entries.len() < 1 << 32,
        _ => true,
    }
}

/// What is assigned in the first entry of the module, if it is a function.
fn first_assigned(alloc: Global, module: &Module) -> Option<Assigned>
    requires { ModuleMeetsChecks «module».now }
{
    match module.entries.as_slice().first() {
        Some(Entry::Function(f)) => {
            if f.blocks.len() < 1 << 32 && has_few(f) {
                check_assigned(alloc, f).ok()
            } else {
                None
            }
        }
        _ => None,
    }
}

/// What is assigned in the first function of a text, if it is a module that begins with one.
fn assigned(alloc: Global, text: &str) -> Option<Assigned> {
    match read_module(alloc, text.as_bytes()) {
        Ok(module) => first_assigned(alloc, &module),
        Err(_) => None,
    }
}

#[test]
fn registers_are_assigned_at_heads(rt: HostRuntime) -> Result<(), Fail> {
    for row in &ROWS {
        let assigned = assigned(rt.alloc(), row.text).ok_or(row.text)?;
        for (block, reached) in row.reached.iter().enumerate() {
            assert_eq!(rt; assigned.reached(block as u32), *reached, "{}", row.text);
        }
        for (block, register, is) in row.heads {
            assert_eq!(rt; assigned.at_head(*block, *register), *is, "{}", row.text);
        }
    }
    Ok(())
}
