//! Commands whose reads and puts fail, and what they write.

use super::*;
use outside::FailingPut;

/// Which read and which puts fail, a command, and what it writes.
struct FaultyRow {
    read: Option<u64>,
    out: Option<FailingPut>,
    err: Option<FailingPut>,
    row: Row,
}

static ROWS: [FaultyRow; 20] = [
    FaultyRow {
        read: None,
        out: Some(FailingPut { number: 0, most: 3 }),
        err: None,
        row: Row {
            words: VERIFY,
            rules: XOR_SELF,
            source: "",
            status: 6,
            out: "xor",
            err: "",
        },
    },
    FaultyRow {
        read: Some(0),
        out: None,
        err: Some(FailingPut { number: 0, most: 3 }),
        row: Row {
            words: OPTIMISE,
            rules: "",
            source: IDENTITY,
            status: 5,
            out: "",
            err: "rea",
        },
    },
    FaultyRow {
        read: None,
        out: Some(FailingPut { number: 0, most: 7 }),
        err: None,
        row: Row {
            words: OPTIMISE,
            rules: "",
            source: IDENTITY,
            status: 6,
            out: "define ",
            err: "",
        },
    },
    FaultyRow {
        read: None,
        out: None,
        err: Some(FailingPut { number: 0, most: 4 }),
        row: Row {
            words: OPTIMISE,
            rules: "",
            source: IDENTITY,
            status: 6,
            out: IDENTITY,
            err: "@f: ",
        },
    },
    FaultyRow {
        read: None,
        out: None,
        err: Some(FailingPut { number: 0, most: 4 }),
        row: Row {
            words: OPTIMISE,
            rules: NOT_ADD,
            source: NOT_ADD_SOURCE,
            status: 6,
            out: NOT_ADD_WRITTEN,
            err: "not-",
        },
    },
    // a rule rewrites the module: each read fails in turn, and then each put, after various numbers of bytes
    FaultyRow {
        read: Some(0),
        out: None,
        err: None,
        row: Row {
            words: OPTIMISE,
            rules: NOT_ADD,
            source: NOT_ADD_SOURCE,
            status: 5,
            out: "",
            err: "read fault: r\n",
        },
    },
    FaultyRow {
        read: Some(1),
        out: None,
        err: None,
        row: Row {
            words: OPTIMISE,
            rules: NOT_ADD,
            source: NOT_ADD_SOURCE,
            status: 5,
            out: "",
            err: "read fault: m\n",
        },
    },
    FaultyRow {
        read: Some(0),
        out: None,
        err: Some(FailingPut { number: 0, most: 3 }),
        row: Row {
            words: OPTIMISE,
            rules: NOT_ADD,
            source: NOT_ADD_SOURCE,
            status: 5,
            out: "",
            err: "rea",
        },
    },
    FaultyRow {
        read: None,
        out: Some(FailingPut { number: 0, most: 0 }),
        err: None,
        row: Row {
            words: OPTIMISE,
            rules: NOT_ADD,
            source: NOT_ADD_SOURCE,
            status: 6,
            out: "",
            err: "",
        },
    },
    FaultyRow {
        read: None,
        out: Some(FailingPut { number: 0, most: 7 }),
        err: None,
        row: Row {
            words: OPTIMISE,
            rules: NOT_ADD,
            source: NOT_ADD_SOURCE,
            status: 6,
            out: "define ",
            err: "",
        },
    },
    FaultyRow {
        read: None,
        out: Some(FailingPut { number: 0, most: 5 }),
        err: None,
        row: Row {
            words: "alive verify r --widths 1-5",
            rules: NOT_ADD,
            source: NOT_ADD_SOURCE,
            status: 6,
            out: "not-a",
            err: "",
        },
    },
    // there is one put to each sink
    FaultyRow {
        read: None,
        out: Some(FailingPut { number: 1, most: 0 }),
        err: None,
        row: Row {
            words: OPTIMISE,
            rules: "",
            source: IDENTITY,
            status: 0,
            out: IDENTITY,
            err: "@f: 0 rewrites\n",
        },
    },
    FaultyRow {
        read: None,
        out: None,
        err: Some(FailingPut { number: 1, most: 0 }),
        row: Row {
            words: OPTIMISE,
            rules: "",
            source: IDENTITY,
            status: 0,
            out: IDENTITY,
            err: "@f: 0 rewrites\n",
        },
    },
    FaultyRow {
        read: Some(2),
        out: None,
        err: None,
        row: Row {
            words: OPTIMISE,
            rules: "",
            source: "",
            status: 0,
            out: "",
            err: "",
        },
    },
    // empty texts and reports are put, too; a command without a report puts none
    FaultyRow {
        read: None,
        out: None,
        err: Some(FailingPut { number: 0, most: 0 }),
        row: Row {
            words: OPTIMISE,
            rules: "",
            source: "",
            status: 6,
            out: "",
            err: "",
        },
    },
    FaultyRow {
        read: None,
        out: Some(FailingPut { number: 0, most: 0 }),
        err: None,
        row: Row {
            words: VERIFY,
            rules: "",
            source: "",
            status: 6,
            out: "",
            err: "",
        },
    },
    FaultyRow {
        read: None,
        out: None,
        err: Some(FailingPut { number: 0, most: 0 }),
        row: Row {
            words: VERIFY,
            rules: "",
            source: "",
            status: 0,
            out: "",
            err: "",
        },
    },
    // the third read is that of the proofs
    FaultyRow {
        read: Some(2),
        out: None,
        err: None,
        row: Row {
            words: "alive optimise r m --logs m",
            rules: NOT_ADD,
            source: NOT_ADD_SOURCE,
            status: 5,
            out: "",
            err: "read fault: m\n",
        },
    },
    // no file is read, and nothing is put to the error stream
    FaultyRow {
        read: Some(0),
        out: None,
        err: Some(FailingPut { number: 0, most: 0 }),
        row: Row {
            words: "alive load 7",
            rules: "",
            source: "",
            status: 0,
            out: "functions 200\ninstructions before 4000\ninstructions after 1046\nrewrites 254\nlimit 0\n",
            err: "",
        },
    },
    FaultyRow {
        read: None,
        out: Some(FailingPut { number: 0, most: 9 }),
        err: None,
        row: Row {
            words: "alive load 7",
            rules: "",
            source: "",
            status: 6,
            out: "functions",
            err: "",
        },
    },
];

/// Sets the read and the puts that fail.
fn fail_there(world: &mut World, faults: &FaultyRow) -> Result<(), AllocError> {
    if let Some(read) = faults.read {
        world.files.fail_at(read)?;
    }
    if let Some(put) = faults.out {
        world.sinks.out.fail_at(put)?;
    }
    if let Some(put) = faults.err {
        world.sinks.err.fail_at(put)?;
    }
    Ok(())
}

/// Runs a row's command with these faults, and says whether status and texts are the row's.
fn faults_leave(alloc: Global, faults: &FaultyRow) -> Result<bool, AllocError> {
    let row = &faults.row;
    let mut world = world_of(alloc, row.rules.as_bytes(), row.source.as_bytes())?;
    fail_there(&mut world, faults)?;
    leaves_in(alloc, row, &mut world)
}

#[test]
fn faults_leave_what_they_say(rt: HostRuntime) -> Result<(), Fail> {
    for (row, faults) in ROWS.iter().enumerate() {
        assert!(rt; faults_leave(rt.alloc(), faults)?, "row {row}");
    }
    Ok(())
}
