//! Proofs that `verify --logs` writes, and what `recheck` and `optimise --logs` make of these and of others.

use super::modules::CUT_SHORT;
use super::rules::{ADD_SELF, MUL_ADD, MUL_TWO};
use super::*;
use std::fmt::Write;

const NOT_ADD_LINES: &str =
    "not-add [1]: admitted\nnot-add [2]: admitted\nnot-add [3]: admitted\nnot-add [4]: admitted\nnot-add [5]: admitted\n";

const ADD_SELF_LINES: &str = "add-self [1]: refuted\n  %x = 0\n  source 0\n  target poison\n";

const NOT_ADD_BYTES: &str =
    "define i8 @f(i8 %a) {\n  %1 = xor i8 %a, -1\n  %2 = add i8 %1, 5\n  ret i8 %2\n}\n";

const NOT_ADD_BYTES_WRITTEN: &str = "define i8 @f(i8 %a) {\n  %1 = sub i8 4, %a\n  ret i8 %1\n}\n";

/// The file `m` has the module and the proofs.
const OPTIMISE_BY_MODULE: &str = "alive optimise r m --logs m";

const ROWS: [Row; 23] = [
    Row {
        words: OPTIMISE_BY_MODULE,
        rules: NOT_ADD,
        source: "",
        status: 0,
        out: "",
        err: "",
    },
    Row {
        words: OPTIMISE_BY_MODULE,
        rules: NOT_ADD,
        source: NOT_ADD_SOURCE,
        status: 9,
        out: "",
        err: "logs: line 1: Syntax\n",
    },
    // faults of the rules and of the module come before those of the proofs
    Row {
        words: OPTIMISE_BY_MODULE,
        rules: NOT_ADD,
        source: CUT_SHORT,
        status: 4,
        out: "",
        err: "module: line 6: Syntax\n",
    },
    Row {
        words: OPTIMISE_BY_MODULE,
        rules: "Name: none\n",
        source: NOT_ADD_SOURCE,
        status: 3,
        out: "",
        err: "rules: line 1: Syntax\n",
    },
    Row {
        words: "alive optimise r m --logs n",
        rules: NOT_ADD,
        source: CUT_SHORT,
        status: 4,
        out: "",
        err: "module: line 6: Syntax\n",
    },
    Row {
        words: "alive optimise r m --logs n",
        rules: NOT_ADD,
        source: NOT_ADD_SOURCE,
        status: 5,
        out: "",
        err: "read fault: n\n",
    },
    Row {
        words: RECHECK,
        rules: OR_ZERO,
        source: "proof or-zero [1]\nlog 0\n",
        status: 1,
        out: "or-zero [1]: refuted\n  %x = 1\n  source 1\n  target 0\n",
        err: "",
    },
    Row {
        words: RECHECK,
        rules: OR_ZERO,
        source: "",
        status: 0,
        out: "",
        err: "",
    },
    Row {
        words: RECHECK,
        rules: OR_ZERO,
        source: "proof zzz [1]\nlog 0\n",
        status: 9,
        out: "",
        err: "logs: line 1: UnknownRule\n",
    },
    Row {
        words: RECHECK,
        rules: OR_ZERO,
        source: "proof or-zero [1]\nlog 2\n1 : 0\n",
        status: 9,
        out: "",
        err: "logs: line 3: Syntax\n",
    },
    Row {
        words: RECHECK,
        rules: OR_ZERO,
        source: "proof or-zero [1]\nlog 1\n1 : 0\nproof or-zero [1]\nlog 0\n",
        status: 9,
        out: "",
        err: "logs: line 4: Repeated\n",
    },
    Row {
        words: RECHECK,
        rules: OR_ZERO,
        source: "proof or-zero [2]\nlog 0\n",
        status: 9,
        out: "",
        err: "logs: line 1: BadTyping\n",
    },
    Row {
        words: RECHECK,
        rules: OR_ZERO,
        source: "proof or-zero [1 1]\nlog 0\n",
        status: 9,
        out: "",
        err: "logs: line 1: BadTyping\n",
    },
    Row {
        words: RECHECK,
        rules: NOT_ADD,
        source: "proof not-add [0]\nlog 0\n",
        status: 9,
        out: "",
        err: "logs: line 1: BadTyping\n",
    },
    Row {
        words: RECHECK,
        rules: NOT_ADD,
        source: "proof not-add [4294967295]\nlog 0\n",
        status: 9,
        out: "",
        err: "logs: line 1: BadTyping\n",
    },
    // faults of the text come before those of a proof
    Row {
        words: RECHECK,
        rules: OR_ZERO,
        source: "proof zzz [1]\nlog 0\n\n",
        status: 9,
        out: "",
        err: "logs: line 3: Syntax\n",
    },
    Row {
        words: RECHECK,
        rules: OR_ZERO,
        source: "proof or-zero [1]\nlog 0\nproof or-zero [2]\nlog 0\nproof zzz [1]\nlog 0\n",
        status: 9,
        out: "",
        err: "logs: line 3: BadTyping\n",
    },
    // faults of the rules come before those of the proofs
    Row {
        words: RECHECK,
        rules: "Name: none\n",
        source: "proof zzz [1]\nlog 0\n",
        status: 3,
        out: "",
        err: "rules: line 1: Syntax\n",
    },
    // literals of unknown variables, and hints that name no clause
    Row {
        words: RECHECK,
        rules: NOT_ADD,
        source: "proof not-add [1]\nlog 2\n2147483647 -2147483647 : 4294967295\n: 4294967294 0\n",
        status: 0,
        out: "not-add [1]: admitted\n",
        err: "",
    },
    // a proof of a rule that is refuted
    Row {
        words: RECHECK,
        rules: ADD_SELF,
        source: "proof add-self [1]\nlog 1\n:\n",
        status: 1,
        out: ADD_SELF_LINES,
        err: "",
    },
    // a rule of more than 12 input bits, and a log that refutes nothing
    Row {
        words: "alive recheck r m --conflicts 1",
        rules: MUL_ADD,
        source: "proof mul-add [16]\nlog 1\n:\n",
        status: 1,
        out: "mul-add [16]: budget\n",
        err: "",
    },
    // there is no proof of what is refuted, nor of a rule that has no typing
    Row {
        words: "alive verify r --widths 1 --logs",
        rules: ADD_SELF,
        source: "",
        status: 1,
        out: "",
        err: "",
    },
    Row {
        words: "alive verify --logs r --widths 1",
        rules: MUL_TWO,
        source: "",
        status: 0,
        out: "",
        err: "",
    },
];

#[test]
fn proofs_have_their_lines(rt: HostRuntime) -> Result<(), Fail> {
    all_leave(&rt, rt.alloc(), &ROWS)
}

/// What a command writes to the output.
fn written(alloc: Global, words: &str, rules: &str, proofs: &[u8]) -> Result<Vec<u8>, AllocError> {
    let mut world = world_of(alloc, rules.as_bytes(), proofs)?;
    written_in(alloc, words, &mut world)
}

/// The same in this world.
fn written_in(alloc: Global, words: &str, world: &mut World) -> Result<Vec<u8>, AllocError> {
    let _ = run(alloc, words, world)?;
    world.sinks.out.contents().to_vec(alloc)
}

/// Whether `recheck` writes these lines for the proofs that `verify` writes.
fn is_rechecked(
    alloc: Global,
    verify: &str,
    recheck: &str,
    lines: &[u8],
) -> Result<bool, AllocError> {
    let proofs = written(alloc, verify, NOT_ADD, b"")?;
    let rechecked = written(alloc, recheck, NOT_ADD, proofs.as_slice())?;
    Ok(rechecked.as_slice() == lines)
}

#[test]
fn what_was_proved_is_admitted_without_a_search(rt: HostRuntime) -> Result<(), Fail> {
    let alloc = rt.alloc();
    assert!(rt;
        is_rechecked(
            alloc,
            "alive verify r --widths 1-5 --logs",
            RECHECK,
            NOT_ADD_LINES.as_bytes()
        )?
    );
    let found = written(alloc, "alive verify r --widths 1-8", NOT_ADD, b"")?;
    assert!(rt;
        is_rechecked(
            alloc,
            "alive verify r --widths 1-8 --logs",
            "alive recheck r m --conflicts 0",
            found.as_slice()
        )?
    );
    Ok(())
}

/// A rule is decided by a search, which reads no proof.
const BY_SEARCH: Row = Row {
    words: "alive optimise r m --steps 10",
    rules: NOT_ADD,
    source: NOT_ADD_BYTES,
    status: 0,
    out: NOT_ADD_BYTES_WRITTEN,
    err: "not-add [8]: admitted\n@f: 1 rewrites\n",
};

/// It is decided by a proof, or else by a search.
const BY_EITHER: Row = Row {
    words: "alive optimise r m --steps 10 --logs l",
    rules: NOT_ADD,
    source: NOT_ADD_BYTES,
    status: 0,
    out: NOT_ADD_BYTES_WRITTEN,
    err: "not-add [8]: admitted\n@f: 1 rewrites\n",
};

/// It is decided by a proof, or not at all.
const BY_PROOF: Row = Row {
    words: "alive optimise r m --steps 10 --conflicts 0 --logs l",
    rules: NOT_ADD,
    source: NOT_ADD_BYTES,
    status: 0,
    out: NOT_ADD_BYTES_WRITTEN,
    err: "not-add [8]: admitted\n@f: 1 rewrites\n",
};

/// The proofs are refused at their first line, and nothing is written.
const REFUSED: Row = Row {
    words: "alive optimise r m --steps 10 --conflicts 0 --logs l",
    rules: NOT_ADD,
    source: NOT_ADD_BYTES,
    status: 9,
    out: "",
    err: "logs: line 1: Syntax\n",
};

/// Whether the status and texts of the row's command are the row's, where the file `l` has these proofs.
fn leaves_by(alloc: Global, row: &Row, proofs: &[u8]) -> Result<bool, AllocError> {
    let mut world = world_of(alloc, row.rules.as_bytes(), row.source.as_bytes())?;
    world.files.add(alloc, "l", proofs)?;
    leaves_in(alloc, row, &mut world)
}

#[test]
fn modules_are_rewritten_by_stored_proofs(rt: HostRuntime) -> Result<(), Fail> {
    let alloc = rt.alloc();
    let proof = written(alloc, "alive verify r --widths 8 --logs", NOT_ADD, b"")?;
    assert!(rt; leaves_by(alloc, &BY_PROOF, proof.as_slice())?);
    Ok(())
}

/// Without a proof of the pair, or with a log that proves nothing, a search is needed.
#[test]
fn other_proofs_cost_a_search(rt: HostRuntime) -> Result<(), Fail> {
    let alloc = rt.alloc();
    let other = written(alloc, "alive verify r --widths 4 --logs", NOT_ADD, b"")?;
    for proofs in [other.as_slice(), b"proof not-add [8]\nlog 0\n".as_slice()] {
        assert!(rt; leaves_by(alloc, &BY_EITHER, proofs)?);
        assert!(rt; !leaves_by(alloc, &BY_PROOF, proofs)?);
    }
    Ok(())
}

/// A file of proofs is read where it is named.
#[test]
fn proofs_are_read_where_they_are_named(rt: HostRuntime) -> Result<(), Fail> {
    let alloc = rt.alloc();
    for proofs in ["", "proof"] {
        assert!(rt; leaves_by(alloc, &BY_SEARCH, proofs.as_bytes())?);
    }
    assert!(rt; leaves_by(alloc, &REFUSED, b"proof")?);
    Ok(())
}

/// A corruption of the first step of a log.
#[derive(Clone, Copy)]
enum Lie {
    LeftOut,
    Twice,
    HintAhead,
    Negated,
    EmptyBefore,
}

const LIES: [Lie; 5] = [
    Lie::LeftOut,
    Lie::Twice,
    Lie::HintAhead,
    Lie::Negated,
    Lie::EmptyBefore,
];

/// The parts of the text of one proof whose log has a step.
#[derive(Clone, Copy)]
struct Parts<'a> {
    head: &'a str,
    step: &'a str,
    rest: &'a str,
}

/// The parts of a text, if it is that of a proof whose log has a step.
fn parts_of(proof: &str) -> Option<Parts<'_>> {
    let (head, log) = proof.split_once('\n')?;
    let (_, steps) = log.split_once('\n')?;
    let (step, rest) = steps.split_once('\n')?;
    Some(Parts { head, step, rest })
}

/// The text of a proof with a corrupted log.
fn lying(alloc: Global, proof: &Parts<'_>, lie: Lie) -> Result<String, AllocError> {
    let Parts { head, step, rest } = proof;
    let none = rest.lines().count();
    let one = none.saturating_add(1);
    let two = none.saturating_add(2);
    match lie {
        Lie::LeftOut => format!(in alloc; "{head}\nlog {none}\n{rest}"),
        Lie::Twice => format!(in alloc; "{head}\nlog {two}\n{step}\n{step}\n{rest}"),
        Lie::HintAhead => format!(in alloc; "{head}\nlog {one}\n{step} 4294967295\n{rest}"),
        Lie::Negated => format!(in alloc; "{head}\nlog {one}\n-{step}\n{rest}"),
        Lie::EmptyBefore => format!(in alloc; "{head}\nlog {two}\n:\n{step}\n{rest}"),
    }
}

/// Whether `recheck` admits the rule by a search, or refuses the text, where a proof is corrupted.
fn costs_a_search(alloc: Global, proof: &Parts<'_>, lie: Lie) -> Result<bool, AllocError> {
    let text = lying(alloc, proof, lie)?;
    let out = written(alloc, RECHECK, NOT_ADD, text.as_bytes())?;
    Ok(out.as_slice() == b"not-add [4]: admitted\n".as_slice() || out.is_empty())
}

#[test]
fn a_log_that_lies_costs_a_search(rt: HostRuntime) -> Result<(), Fail> {
    let alloc = rt.alloc();
    let proof = written(alloc, "alive verify r --widths 4 --logs", NOT_ADD, b"")?;
    let proof = parts_of(std::str::from_utf8(proof.as_slice())?).ok_or("no step")?;
    for lie in &LIES {
        assert!(rt; costs_a_search(alloc, &proof, *lie)?);
    }
    Ok(())
}

/// So many proofs of a rule of three operands, each at other widths, and then the first one again.
fn many_proofs(alloc: Global, count: u32) -> Result<String, AllocError> {
    let mut text = String::new(alloc);
    for n in 0..count {
        let (x, y, z) = (n % 28 + 1, n / 28 % 28 + 1, n / 784 + 1);
        write!(text, "proof three [1 {x} {y} {z}]\nlog 0\n")?;
    }
    text.push_str("proof three [1 1 1 1]\nlog 0\n")?;
    Ok(text)
}

const THREE: &str =
    "Name: three\n%a = icmp eq %x, 0\n%b = icmp eq %y, 0\n%c = icmp eq %z, 0\n%d = and %a, %b\n%r = and %d, %c\n=>\n%r = and %c, %d\n";

/// A world with that rule and so many proofs of it.
fn world_of_many(alloc: Global, count: u32) -> Result<World, AllocError> {
    let proofs = many_proofs(alloc, count)?;
    world_of(alloc, THREE.as_bytes(), proofs.as_bytes())
}

#[test]
fn many_proofs_are_told_apart(rt: HostRuntime) -> Result<(), Fail> {
    let mut world = world_of_many(rt.alloc(), 20_000)?;
    let status = run(rt.alloc(), RECHECK, &mut world)?;
    assert_eq!(rt; status, 9);
    assert_eq!(rt;
        world.sinks.err.contents(),
        b"logs: line 40001: Repeated\n".as_slice()
    );
    Ok(())
}
