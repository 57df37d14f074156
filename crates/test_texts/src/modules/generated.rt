//! The module that a number generates, against what a separate program worked out from the table of draws.

use ir_printer::print_module;
use load_gen::generate;
use std::alloc::{AllocError, Global};
use std::test::Fail;

const SEVEN: &str = "define i5 @f0(i5 %a, i5 %b) {
entry:
  br label %loop

loop:
  %i = phi i5 [ 0, %entry ], [ %next, %loop ]
  %p = phi i5 [ %a, %entry ], [ %v16, %loop ]
  %v1 = shl i5 %b, 1
  %v2 = add i5 %v1, %v1
  %v3 = add i5 %b, 0
  %v4 = and i5 %v1, %v1
  %v5 = sub i5 %v2, %i
  %v6 = add i5 %p, 0
  %v7 = sub i5 %v3, %p
  %v8 = add i5 %v5, 3
  %v9 = mul i5 %v5, 2
  %v10 = udiv i5 %a, 1
  %v11 = and i5 %a, %a
  %v12 = shl i5 %v11, 1
  %v13 = and i5 %v1, %v1
  %v14 = and i5 %p, %p
  %v15 = xor i5 %v5, -1
  %v16 = udiv i5 %v6, 1
  %next = add i5 %i, 1
  %c = icmp ult i5 %i, %b
  br i1 %c, label %loop, label %exit

exit:
  ret i5 %v16
}

define i3 @f1(i3 %a, i3 %b) {
entry:
  br label %loop

loop:
  %i = phi i3 [ 0, %entry ], [ %next, %loop ]
  %p = phi i3 [ %a, %entry ], [ %v16, %loop ]
  %v1 = shl i3 %i, 1
  %v2 = sub i3 %v1, %b
  %v3 = and i3 %a, %a
  %v4 = add i3 %v2, 3
  %v5 = shl i3 %v1, 1
  %v6 = shl i3 %a, 1
  %v7 = xor i3 %v5, -1
  %v8 = sub i3 %v1, %a
  %v9 = and i3 %v6, %v6
  %v10 = add i3 %b, %v5
  %v11 = mul i3 %v4, 2
  %v12 = add i3 %v4, 0
  %v13 = sub i3 %p, %v12
  %v14 = and i3 %v12, %v12
  %v15 = add i3 %v7, %v7
  %v16 = and i3 %b, %b
  %next = add i3 %i, 1
  %c = icmp ult i3 %i, %b
  br i1 %c, label %loop, label %exit

exit:
  ret i3 %v16
}
";

/// The text of the module that a number generates.
fn generated(alloc: Global, number: u32, functions: u32) -> Result<Vec<u8>, AllocError> {
    let module = generate(alloc, number, functions)?;
    print_module(alloc, &module)
}

#[test]
fn numbers_stand_for_their_modules(rt: HostRuntime) -> Result<(), Fail> {
    let text = generated(rt.alloc(), 7, 2)?;
    assert_eq!(rt; std::str::from_utf8(text.as_slice())?, SEVEN);
    Ok(())
}
