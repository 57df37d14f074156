//! `load`, and what it writes. The numbers are those of a separately written model.

use super::*;
use alive_top::BUILT_IN;

const ROWS: [Row; 2] = [
    Row {
        words: "alive load 0",
        rules: "",
        source: "",
        status: 0,
        out: "functions 200\ninstructions before 4000\ninstructions after 1049\nrewrites 272\nlimit 0\n",
        err: "",
    },
    Row {
        words: "alive load 4294967295",
        rules: "",
        source: "",
        status: 0,
        out: "functions 200\ninstructions before 4000\ninstructions after 989\nrewrites 272\nlimit 0\n",
        err: "",
    },
];

#[test]
fn loads_leave_what_they_say(rt: HostRuntime) -> Result<(), Fail> {
    all_leave(&rt, rt.alloc(), &ROWS)
}

/// The status of `verify` over the built-in rules, and how many lines it writes.
fn verified(alloc: Global, world: &mut World) -> Result<(u8, usize), AllocError> {
    let status = run(alloc, "alive verify r --widths 3-5", world)?;
    let written = world.sinks.out.contents();
    let lines = written.iter().filter(|byte| **byte == b'\n').count();
    Ok((status, lines))
}

#[test]
fn built_in_rules_are_admitted(rt: HostRuntime) -> Result<(), Fail> {
    let mut world = world_of(rt.alloc(), BUILT_IN.as_bytes(), b"")?;
    assert_eq!(rt; verified(rt.alloc(), &mut world)?, (0, 21));
    Ok(())
}
