//! Files at their limits.

use super::*;
use std::fmt::Write;

/// The status of `optimise` with a rule file and a module.
fn status_over(alloc: Global, rules: &[u8], source: &[u8]) -> Result<u8, AllocError> {
    let mut world = world_of(alloc, rules, source)?;
    run(alloc, OPTIMISE, &mut world)
}

/// Line feeds as the rule file and as the module: how many, and the statuses.
const LIMITS: [(usize, u8, u8); 4] = [
    (1_048_576, 0, 0),
    (1_048_577, 3, 0),
    (16_777_216, 3, 0),
    (16_777_217, 3, 4),
];

/// The statuses with so many line feeds as the rule file, and as the module.
fn statuses_over(alloc: Global, bytes: usize) -> Result<(u8, u8), AllocError> {
    let blanks = vec![in alloc; b'\n'; bytes]?;
    let as_rules = status_over(alloc, blanks.as_slice(), b"")?;
    let as_source = status_over(alloc, b"", blanks.as_slice())?;
    Ok((as_rules, as_source))
}

#[test]
fn limits_are_exact(rt: HostRuntime) -> Result<(), Fail> {
    for (bytes, as_rules, as_source) in &LIMITS {
        assert_eq!(rt;
            statuses_over(rt.alloc(), *bytes)?,
            (*as_rules, *as_source),
            "{bytes} bytes"
        );
    }
    Ok(())
}

/// How many rules the file has: more than a byte counts.
const MANY: u32 = 300;

/// A file of that many rules.
fn many_rules(alloc: Global) -> Result<String, AllocError> {
    let mut text = String::new(alloc);
    for number in 0..MANY {
        write!(text, "Name: rule-{number}\n%r = add %x, 0\n=>\n%r = %x\n")?;
    }
    Ok(text)
}

#[test]
fn many_rules_are_read(rt: HostRuntime) -> Result<(), Fail> {
    let rules = many_rules(rt.alloc())?;
    assert_eq!(rt;
        status_over(rt.alloc(), rules.as_bytes(), IDENTITY.as_bytes())?,
        0
    );
    Ok(())
}
