//! Whole runs over a folder in memory.

ghost use Rattle.std.specs.Prelude.{◌≤◌};

use crate::given::{THIRD, apart, let_go, torn};
use abt_schedule::{ChoiceList, Choices, Seeded, read_schedule};
use abt_session::{
    End, Ordered, Outcome, RunTask, SessionError, Starved, StarvingRun, Telling, run, starve,
};
use dcsp_outside::{MemoryFolder, MemorySink};
use dcsp_problem::Problem;
use dcsp_script::Outside;
use std::alloc::Global;
use std::process::Abort;

/// What a run is given and leaves, which a trial looks at: the folder with its log, and what it tells.
#[derive(Drop)]
struct Looked {
    at: Outside<MemoryFolder, MemorySink>,
}

impl Looked {
    /// A folder with a log from before. Calls of the folder and of `out` with these numbers fail, where they
    /// are not 0.
    fn new(rt: &impl Abort, alloc: Global, folder: u64, out: u64) -> Looked {
        Looked {
            at: Outside {
                folder: folder_before(rt, alloc, folder),
                out: sink_failing_at(rt, alloc, out),
            },
        }
    }

    /// Runs the problem over these, under the choices.
    fn run<C: Choices + Drop>(
        &mut self,
        rt: &impl Abort,
        alloc: Global,
        problem: &Problem,
        mut choices: C,
        most: u64,
        trace: bool,
    ) -> Result<Outcome, SessionError> {
        assert!(rt; most <= 1000);
        self.run_under(alloc, problem, &mut choices, most, trace)
    }

    fn run_under<C: Choices>(
        &mut self,
        alloc: Global,
        problem: &Problem,
        choices: &mut C,
        most: u64,
        trace: bool,
    ) -> Result<Outcome, SessionError>
        requires { most ≤ 1000 }
    {
        let model = Ordered {
            problem,
            order: None,
        };
        let task = RunTask {
            model,
            log: "log",
            most,
            telling: Telling::traced(trace),
            keep: true,
        };
        run(alloc, task, choices, &mut self.at)
    }

    /// Lets these go.
    fn end(self) {}

    fn expect_log(&self, rt: &impl Abort, log: &[u8]) {
        assert!(rt; self.at.folder.file("log").unwrap_or(&[]) == log);
    }
}

/// A folder with a log from before, of which this call fails.
fn folder_before(rt: &impl Abort, alloc: Global, failing: u64) -> MemoryFolder {
    let mut folder = MemoryFolder::new(alloc);
    folder.place("log", b"before").expect(rt, "memory");
    folder.fail_at(failing).expect(rt, "memory");
    folder
}

/// A sink of which this call fails.
fn sink_failing_at(rt: &impl Abort, alloc: Global, failing: u64) -> MemorySink {
    let mut sink = MemorySink::new(alloc);
    sink.fail_at(failing).expect(rt, "memory");
    sink
}

/// The run refuted the problem, with these numbers.
fn expect_refuted(rt: &impl Abort, outcome: Outcome, deliveries: u64, steps: u64) {
    assert!(rt; matches!(&outcome.end, End::Refuted));
    assert_eq!(rt; outcome.deliveries, deliveries);
    assert_eq!(rt; outcome.steps, steps);
    assert!(rt; outcome.numbers.choices() == [0u32, 0, 0, 0].as_slice());
}

/// The run was stopped with these numbers, one delivery before its problem is refuted.
fn expect_capped(rt: &impl Abort, outcome: Outcome, deliveries: u64, steps: u64) {
    assert!(rt; matches!(&outcome.end, End::Capped));
    assert_eq!(rt; outcome.deliveries, deliveries);
    assert_eq!(rt; outcome.steps, steps);
    assert!(rt; outcome.numbers.choices() == [0u32, 0, 0].as_slice());
}

#[test]
fn a_refuted_run(rt: HostRuntime) {
    let alloc = rt.alloc();
    let problem = torn(&rt, alloc);
    let mut outside = Looked::new(&rt, alloc, 0, 0);
    let ended = outside.run(&rt, alloc, &problem, Seeded::new(1), 4, false);
    expect_refuted(&rt, ended.expect(&rt, "no write fails"), 4, 3);
    let log = b"ngd 1\n1 v2 [v1=0] <- c1 c2\n2 v2 [v1=1] <- c2 c1\n3 v1 [] <- n1 n2\nend\n";
    outside.expect_log(&rt, log);
    assert!(rt; outside.at.out.bytes().is_empty());
    outside.end();
    let_go(problem);
}

#[test]
fn a_capped_run(rt: HostRuntime) {
    let alloc = rt.alloc();
    let problem = torn(&rt, alloc);
    let mut outside = Looked::new(&rt, alloc, 0, 0);
    let ended = outside.run(&rt, alloc, &problem, Seeded::new(1), 3, false);
    expect_capped(&rt, ended.expect(&rt, "no write fails"), 3, 2);
    let log = b"ngd 1\n1 v2 [v1=0] <- c1 c2\n2 v2 [v1=1] <- c2 c1\nend\n";
    outside.expect_log(&rt, log);
    outside.end();
    let_go(problem);
}

/// A run in which the link from the first agent to the third is starved, of at most so many deliveries.
fn starved(
    rt: &impl Abort,
    alloc: Global,
    problem: &Problem,
    most: u64,
    taken: &mut ChoiceList,
) -> Starved {
    assert!(rt; most <= 1000);
    let run = StarvingRun {
        problem,
        from: 0,
        to: 2,
        most,
    };
    starve(alloc, run, taken).expect(rt, "memory")
}

/// The run ended so.
fn expect_starved(rt: &impl Abort, told: &Starved, end: End<()>, deliveries: u64) {
    assert!(rt; told.end == end);
    assert_eq!(rt; told.deliveries, deliveries);
}

#[test]
fn a_starved_run(rt: HostRuntime) {
    let alloc = rt.alloc();
    let problem = apart(&rt, alloc, [0, 1, 0], [1, 1, 1], THIRD);
    let mut taken = ChoiceList::new(alloc);
    let told = starved(&rt, alloc, &problem, 10, &mut taken);
    expect_starved(&rt, &told, End::Solved(()), 10);
    let choices = [1u32, 0, 0, 0, 0, 0, 0, 1, 1, 0];
    assert!(rt; taken.choices() == choices.as_slice());
    let told = starved(&rt, alloc, &problem, 1, &mut taken);
    expect_starved(&rt, &told, End::Capped, 1);
    let_go(problem);
}

/// Choices that are all 0.
const NAUGHTS: &[u8] = b"schedule 1\n0\n0\n0\n0\n0\n0\n0\n0\n0\nend\n";

/// The lines of the trace.
const TRACE: &[u8] = b"% 1 v1>v3 ok 0
% 2 v2>v3 ok 1
% 3 v3>v2 nogood 1
% 4 v2>v1 link
% 5 v1>v2 ok 0
% 6 v2>v1 nogood 2
% 7 v1>v2 ok 1
% 8 v1>v3 ok 1
% 9 v2>v3 ok 1
";

/// A run under choices that are all 0: the greatest number of deliveries, which calls of the folder and
/// of `out` fail, what it tells, and what it leaves.
#[derive(Drop)]
struct Case {
    most: u64,
    folder: u64,
    out: u64,
    /// How many deliveries it tells of, or none where it is stopped.
    made: Option<u64>,
    log: &'static [u8],
    /// How many bytes of the trace are put.
    told: usize,
}

const CASES: [Case; 6] = [
    Case {
        most: 1000,
        folder: 9,
        out: 99,
        made: Some(9),
        told: 143,
        log: b"ngd 1\n1 v3 [v1=0,v2=1] <- c1 c2\n2 v2 [v1=0] <- n1\nend\n",
    },
    Case {
        most: 4,
        folder: 9,
        out: 99,
        made: Some(4),
        told: 64,
        log: b"ngd 1\n1 v3 [v1=0,v2=1] <- c1 c2\n2 v2 [v1=0] <- n1\nend\n",
    },
    Case {
        most: 1000,
        folder: 1,
        out: 99,
        made: None,
        told: 0,
        log: b"before",
    },
    Case {
        most: 1000,
        folder: 3,
        out: 99,
        made: None,
        told: 15,
        log: b"ngd 1\n",
    },
    Case {
        most: 1000,
        folder: 5,
        out: 99,
        made: None,
        told: 143,
        log: b"ngd 1\n1 v3 [v1=0,v2=1] <- c1 c2\n2 v2 [v1=0] <- n1\n",
    },
    Case {
        most: 1000,
        folder: 9,
        out: 3,
        made: None,
        told: 30,
        log: b"ngd 1\n1 v3 [v1=0,v2=1] <- c1 c2\n2 v2 [v1=0] <- n1\n",
    },
];

impl Case {
    /// What the run tells is what the case says.
    fn expect_end(&self, rt: &impl Abort, ended: Result<Outcome, SessionError>) {
        match ended {
            Ok(outcome) => {
                assert!(rt; Some(outcome.deliveries) == self.made);
                assert!(rt; Some(outcome.numbers.choices().len() as u64) == self.made);
            }
            Err(stop) => assert!(rt; stop == SessionError::Fault && self.made.is_none()),
        }
    }

    /// What the run leaves is what the case says.
    fn expect_left(&self, rt: &impl Abort, outside: &Looked) {
        outside.expect_log(rt, self.log);
        assert!(rt; outside.at.out.bytes() == TRACE.get(..self.told).expect(rt, "a part"));
    }

    /// The run does what the case says.
    fn expect(&self, rt: &impl Abort, alloc: Global, problem: &Problem) {
        let mut outside = Looked::new(rt, alloc, self.folder, self.out);
        let choices = read_schedule(alloc, NAUGHTS).expect(rt, "a schedule");
        let ended = outside.run(rt, alloc, problem, choices, self.most, true);
        self.expect_end(rt, ended);
        self.expect_left(rt, &outside);
        outside.end();
    }
}

#[test]
fn a_run_that_is_traced_and_stopped(rt: HostRuntime) {
    let problem = apart(&rt, rt.alloc(), [0, 1, 0], [1, 1, 1], THIRD);
    for case in &CASES {
        case.expect(&rt, rt.alloc(), &problem);
    }
    let_go(problem);
}
