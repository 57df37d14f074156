//! How often the registers of a function are used.

use super::reading::function_of;
use crate::unfit::Unfit;
use ir_core::Register;
use std::alloc::Global;
use std::test::Fail;
use use_counts::{Uses, count_uses, uses_of};

/// A loop, with a phi that uses a parameter and a later result, an instruction that uses one result twice, and
/// terminators that use results.
const LOOP: &str =
    "define i8 @f(i8 %n, i8 %z) { entry: br label %l l: %i = phi i8 [ %n, %entry ], [ %k, %l ] %k = mul i8 %i, %i
%d = add i8 %k, %n %c = icmp ult i8 %k, %n br i1 %c, label %l, label %out out: ret i8 %k }";

/// Registers, three of which the function does not have, and how often each is used.
const COUNTS: [(Register, usize); 9] = [
    (Register::Parameter(0), 3),
    (Register::Parameter(1), 0),
    (Register::Result(1, 0), 2),
    (Register::Result(1, 1), 4),
    (Register::Result(1, 2), 0),
    (Register::Result(1, 3), 1),
    (Register::Result(1, 4), 0),
    (Register::Result(3, 0), 0),
    (Register::Parameter(2), 0),
];

/// How often the registers of a text's function are used.
fn uses(alloc: Global, text: &str) -> Result<Uses, Unfit> {
    let f = function_of(alloc, text)?;
    Ok(count_uses(alloc, &f)?)
}

#[test]
fn uses_are_counted(rt: HostRuntime) -> Result<(), Fail> {
    let uses = uses(rt.alloc(), LOOP)?;
    for (register, count) in &COUNTS {
        assert!(rt; uses_of(&uses, *register) == *count, "{register:?}");
    }
    Ok(())
}
