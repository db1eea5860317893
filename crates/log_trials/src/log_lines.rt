//! Upgrades and cores, over a folder in memory.

use crate::given::Looked;
use abt_input::CommandError;
use dcsp_outside::{MemoryFolder, MemorySink};
use dcsp_script::{Outside, Status};
use line_rewrite::{CoreLine, run_core, run_upgrade};
use std::alloc::Global;
use std::process::Abort;

/// Two variables that differ and are equal.
const PAIR: &[u8] = b"ngd 1\n1 v2 [v1=0] <- c1 c2\n2 v2 [v1=1] <- c2 c1\n3 v1 [] <- n1 n2\nend\n";

/// A triangle of two colours.
const TRIANGLE: &[u8] =
    b"ngd 1\n1 v3 [v1=0,v2=1] <- c2 c3\n2 v2 [v1=0] <- c1 n1\n3 v3 [v1=1,v2=0] <- c3 c2\n4 v2 [v1=1] <- n3 c1\n5 v1 [] <- n2 n4\nend\n";

/// A log, which call of the folder and of `out` fails, and what comes of upgrading it.
#[derive(Drop)]
struct Case {
    log: &'static [u8],
    folder: u64,
    out: u64,
    came: Result<Status, CommandError>,
    new: Option<&'static [u8]>,
    told: &'static [u8],
}

const CASES: [Case; 8] = [
    Case {
        log: PAIR,
        folder: 99,
        out: 9,
        came: Ok(Status::Good),
        new: Some(b"ngd 2\n1 v2 [v1=0] <- c1 c2\n2 v2 [v1=1] <- c2 c1\n3 v1 [] <- n1 n2\nend\n"),
        told: b"upgraded steps 3 deleted 0\n",
    },
    Case {
        log: TRIANGLE,
        folder: 99,
        out: 9,
        came: Ok(Status::Good),
        new: Some(
            b"ngd 2\n1 v3 [v1=0,v2=1] <- c2 c3\n2 v2 [v1=0] <- c1 n1\nd 1\n3 v3 [v1=1,v2=0] <- c3 c2\n4 v2 [v1=1] <- n3 c1\nd 3\n5 v1 [] <- n2 n4\nend\n",
        ),
        told: b"upgraded steps 5 deleted 2\n",
    },
    Case {
        log: b"ngd 1\nend\n",
        folder: 99,
        out: 9,
        came: Ok(Status::Good),
        new: Some(b"ngd 2\nend\n"),
        told: b"upgraded steps 0 deleted 0\n",
    },
    Case {
        log: b"ngd 2\nend\n",
        folder: 99,
        out: 9,
        came: Err(CommandError::LogLine { number: 1 }),
        new: None,
        told: b"",
    },
    Case {
        log: PAIR,
        folder: 1,
        out: 9,
        came: Err(CommandError::Fault),
        new: None,
        told: b"",
    },
    Case {
        log: PAIR,
        folder: 2,
        out: 9,
        came: Err(CommandError::Fault),
        new: None,
        told: b"",
    },
    Case {
        log: PAIR,
        folder: 5,
        out: 9,
        came: Err(CommandError::Fault),
        new: Some(b"ngd 2\n1 v2 [v1=0] <- c1 c2\n"),
        told: b"",
    },
    Case {
        log: PAIR,
        folder: 99,
        out: 1,
        came: Err(CommandError::Fault),
        new: Some(b"ngd 2\n1 v2 [v1=0] <- c1 c2\n2 v2 [v1=1] <- c2 c1\n3 v1 [] <- n1 n2\nend\n"),
        told: b"",
    },
];

/// What comes of upgrading a log.
fn upgraded(
    alloc: Global,
    outside: &mut Outside<MemoryFolder, MemorySink>,
) -> Result<Status, CommandError> {
    run_upgrade(alloc, outside, "old.ngd", "new.ngd")
}

impl Case {
    /// The upgrade comes to this.
    fn expect(&self, rt: &impl Abort, alloc: Global) {
        let failing = (self.folder, self.out);
        let mut outside = Looked::with_file(rt, alloc, ("old.ngd", self.log), failing);
        let came = upgraded(alloc, &mut outside.at);
        assert!(rt; came == self.came);
        outside.expect_file(rt, "new.ngd", self.new);
        outside.expect_told(rt, self.told);
        outside.end();
    }
}

#[test]
fn upgrades_logs(rt: HostRuntime) {
    for case in &CASES {
        case.expect(&rt, rt.alloc());
    }
}

/// Two variables that differ and are equal, as a model.
const PAIR_MODEL: &[u8] =
    b"var 0..1: x;\nvar 0..1: y;\nconstraint int_ne(x,y);\nconstraint int_eq(x,y);\nsolve satisfy;\n";

/// Three variables, of which the last two can not differ.
const CHAIN_MODEL: &[u8] =
    b"var 0..1: x;\nvar 0..0: y;\nvar 0..0: z;\nconstraint int_ne(x,y);\nconstraint int_ne(y,z);\nsolve satisfy;\n";

/// Two variables of which the first, the greater one, is to be least: it is 1.
const LEAST_MODEL: &[u8] =
    b"var 0..2: x;\nvar 1..2: y;\nconstraint int_le(y,x);\nsolve minimize x;\n";

/// What comes of trimming a log, of the model with only better values than this where one is given.
fn trimmed(
    alloc: Global,
    better: Option<i64>,
    outside: &mut Outside<MemoryFolder, MemorySink>,
) -> Result<Status, CommandError> {
    let line = CoreLine {
        model: "a.fzn",
        log: "old.ngd",
        trimmed: "new.ngd",
        better,
    };
    run_core(alloc, outside, line)
}

/// Trimming a log of the model comes to this, with this new log and this on `out`.
fn expect_trimmed(
    rt: &impl Abort,
    alloc: Global,
    (model, better, log): (&[u8], Option<i64>, &[u8]),
    expected: Result<Status, CommandError>,
    new: Option<&[u8]>,
    told: &[u8],
) {
    let mut outside = Looked::with_file(rt, alloc, ("a.fzn", model), (0, 0));
    outside.at.folder.place("old.ngd", log).expect(rt, "memory");
    let came = trimmed(alloc, better, &mut outside.at);
    assert!(rt; came == expected);
    outside.expect_file(rt, "new.ngd", new);
    outside.expect_told(rt, told);
    outside.end();
}

#[test]
fn trims_logs(rt: HostRuntime) {
    let log = b"ngd 1\n1 v2 [v1=0] <- c1\n2 v3 [v2=0] <- c2\n3 v2 [] <- n2\nend\n";
    let new = b"ngd 1\n1 v3 [v2=0] <- c2\n2 v2 [] <- n1\nend\n";
    let told = b"c2\n% rules 1 of 2\n% steps 2 of 3\n";
    let given: (&[u8], Option<i64>, &[u8]) = (CHAIN_MODEL, None, log);
    expect_trimmed(&rt, rt.alloc(), given, Ok(Status::Good), Some(new), told);
}

#[test]
fn trims_nothing_from_one_step(rt: HostRuntime) {
    let model = b"var 5..3: x;\nsolve satisfy;\n";
    let log = b"ngd 1\n1 v1 [] <-\nend\n";
    let told = b"% rules 0 of 0\n% steps 1 of 1\n";
    let given: (&[u8], Option<i64>, &[u8]) = (model, None, log);
    expect_trimmed(&rt, rt.alloc(), given, Ok(Status::Good), Some(log), told);
}

#[test]
fn trims_logs_with_deletions(rt: HostRuntime) {
    let log =
        b"ngd 2\n1 v2 [v1=0] <- c1 c2\n2 v2 [v1=0] <- c1 c2\nd 1\n3 v2 [v1=1] <- c2 c1\n4 v1 [] <- n2 n3\nend\n";
    let told = b"c1\nc2\n% rules 2 of 2\n% steps 3 of 4\n";
    let given: (&[u8], Option<i64>, &[u8]) = (PAIR_MODEL, None, log);
    expect_trimmed(&rt, rt.alloc(), given, Ok(Status::Good), Some(PAIR), told);
}

#[test]
fn rejects_logs(rt: HostRuntime) {
    let log = b"ngd 1\n1 v2 [v1=0] <- c1 c2\n2 v2 [v1=1] <- c2 c1\nend\n";
    let given: (&[u8], Option<i64>, &[u8]) = (PAIR_MODEL, None, log);
    let told = b"rejected not empty\n";
    expect_trimmed(&rt, rt.alloc(), given, Ok(Status::No), None, told);
}

#[test]
fn trims_logs_of_better_values(rt: HostRuntime) {
    let log = b"ngd 1\n1 v2 [v1=0] <- c1 c1\n2 v1 [] <- n1\nend\n";
    let told = b"c1\n% rules 1 of 1\n% steps 2 of 2\n";
    let given: (&[u8], Option<i64>, &[u8]) = (LEAST_MODEL, Some(1), log);
    expect_trimmed(&rt, rt.alloc(), given, Ok(Status::Good), Some(log), told);
    let given: (&[u8], Option<i64>, &[u8]) = (LEAST_MODEL, Some(2), log);
    let told = b"rejected step 2\n";
    expect_trimmed(&rt, rt.alloc(), given, Ok(Status::No), None, told);
    let given: (&[u8], Option<i64>, &[u8]) = (PAIR_MODEL, Some(1), PAIR);
    expect_trimmed(&rt, rt.alloc(), given, Err(CommandError::NoAim), None, b"");
}
