//! The lines of one word, and words that are no line.

use crate::given::{PAIR, PAIR_LOG, expect_line, folder_failing, run_with, sink_failing};
use abt_command::VERSION;
use dcsp_outside::MemorySink;
use std::alloc::Global;
use std::process::Abort;

/// What `--help` prints.
const HELP: &[u8] = b"abt: asynchronous backtracking over FlatZinc, with certified answers

  abt solve MODEL LOG [--seed N] [--choices N] [--record FILE] [--order FILE] [--trace] [--progress] [--each] [--halves]
                        runs the agents of the model, with deliveries chosen from a seed:
                        prints a solution, `=====UNSATISFIABLE=====` or `=====UNKNOWN=====`,
                        and writes the log of its derivations; FILE holds the choices. Where
                        the model asks for the least or the greatest value, prints the best
                        solution and `==========`, and LOG refutes every better value. With
                        --choices the run, or each round of a search, has N choices; with
                        --each a search prints all it finds, with --halves in few rounds;
                        --progress tells each million deliveries how far the run is;
                        with --order the agents have the priorities that `order` wrote
  abt replay MODEL SCHEDULE LOG [--trace] [--order FILE]
                        runs them under the choices of a schedule, as a record is; reads at
                        most 67,108,864 bytes of one, or 33,554,424 choices of one digit
  abt check MODEL LOG [--better N]
                        checks whether the log refutes the model: prints `verified`,
                        `rejected step K`, `rejected deletion after step K` or
                        `rejected not empty`; with --better, whether it refutes that a
                        solution has a better value than N at what the model aims at
  abt upgrade LOG NEW   writes the log to NEW with deletions of the steps that nothing cites
                        any more, so that a check keeps less
  abt core MODEL LOG TRIMMED [--better N]
                        prints which constraints the refutation uses, as `c1`, and writes
                        the steps that it needs to TRIMMED; with --better, of the model
                        with only the better values than N at what it aims at
  abt export MODEL LOG CNF PROOF [--atoms] [--better N]
                        writes the refutation as a formula in DIMACS, CNF, and a PROOF that
                        SAT checkers read; with --atoms, comments tell what each variable of
                        the formula says; with --better, the log is that of a best value
  abt starve MODEL FROM TO FILE [--order FILE]
                        writes to FILE the choices of a run that delivers from the agent of
                        variable FROM to that of TO only where nothing else is in transit
  abt lossy MODEL LOG EVENTS SEED [--record FILE] [--order FILE]
                        runs the agents over a medium that loses, repeats and reorders in
                        EVENTS events, 0 to 1000000, drawn from SEED, and then calms down
  abt measure MODEL SCHEDULE [--order FILE]
                        prints the measures of a run under the choices of a schedule, as a
                        record is: messages, checks, nogoods, and what each agent learned
  abt survey MODEL COUNT [--from SEED] [--order FILE]
                        prints a table of the measures of the runs of COUNT seeds from SEED
                        on, 0 if not given: names of columns, and a line for each seed
  abt story MODEL SCHEDULE FILE [--order FILE]
                        writes to FILE what happens in a run under the choices of a schedule,
                        as a record is: what each agent receives, learns, rules out and sends
  abt bound MODEL [--order FILE]
                        prints how many messages a run delivers at most
  abt order MODEL RULE FILE
                        writes to FILE an order of the variables by RULE: `degree`, more
                        neighbours first; `links`, each time most neighbours among those
                        placed; or `reverse`, the model's order backwards
  abt gen queens N      prints the problem of N queens, 1 to 200
  abt gen colouring N K SEED
                        prints a colouring of N nodes, 1 to 200, with K colours, 1 to 16
  abt gen sparse N SEED
                        prints a colouring of N nodes, 1 to 4,096, with few edges
  abt gen pigeons N     prints the problem of N pigeons, 2 to 200, in one hole less
  abt gen binary N D EDGES PAIRS SEED
                        prints a random problem of N variables, 1 to 200, with D values, 1
                        to 100, and EDGES constraints of two variables, each of which forbids
                        PAIRS pairs of values
  abt gen meetings PEOPLE MEETINGS EACH HOURS BUSY SEED
                        prints a problem of MEETINGS, 1 to 64, of EACH of the PEOPLE, 1 to 64,
                        who have HOURS, 1 to 100, and are not free in BUSY of them
  abt gen sensors SIDE TARGETS SEES SEED
                        prints a problem of TARGETS, 1 to 32, for each of which three of SEES
                        sensors are wanted that hear each other, in SIDE rows, 2 to 16
  abt drill SEED        runs three generated models, and checks the log of the last
  abt cnf CNF PROOF [--seed N]
                        runs the agents of a formula in DIMACS: prints `s SATISFIABLE` and its
                        values, or `s UNSATISFIABLE`, with PROOF written, or `s UNKNOWN`
  abt rup CNF PROOF     checks such a proof by unit propagation: prints `verified`,
                        `rejected clause K` or `rejected not empty`
  abt --help            prints this text
  abt --version         prints the program's version and its toolchain
  abt --usage           prints the lines above for scripts: their files, numbers and options

MODEL is a FlatZinc file, LOG a log of derivations, SCHEDULE a list of choices. A file
name is not empty, does not begin with `-`, and differs from the others. With --trace
each delivery prints a line. A seed is 0 to 2^64 - 1, and 0 where none is given.

Status  0 done, and the answer is good     4 the log, schedule or proof was refused
        1 done, and the answer is no       5 a run was stopped before its verdict
        2 the words are no line above      6 a file or a stream failed
        3 the model or formula was refused 7 memory ran out

With 2, 3, 4, 6 and 7 a line on standard error says why. docs/CLAIMS.md tells what
is proved, docs/FORMATS.md the formats and the lines that refuse a file.
";

/// What `--usage` prints; tests/usage.sh reads it here.
const USAGE: &[u8] =
    b"solve file:MODEL:model:read file:LOG:log:written --seed=number:N:0:18446744073709551615 --choices=number:N:0:1099511627776 --record=file:FILE:schedule:written --order=file:FILE:order:read --trace --progress --each --halves
replay file:MODEL:model:read file:SCHEDULE:schedule:read file:LOG:log:written --trace --order=file:FILE:order:read
check file:MODEL:model:read file:LOG:log:read --better=signed:N:-9223372036854775808:9223372036854775807
upgrade file:LOG:log:read file:NEW:log:written
core file:MODEL:model:read file:LOG:log:read file:TRIMMED:log:written --better=signed:N:-9223372036854775808:9223372036854775807
export file:MODEL:model:read file:LOG:log:read file:CNF:formula:written file:PROOF:proof:written --atoms --better=signed:N:-9223372036854775808:9223372036854775807
starve file:MODEL:model:read number:FROM:1:4096 number:TO:1:4096 file:FILE:schedule:written --order=file:FILE:order:read
lossy file:MODEL:model:read file:LOG:log:written number:EVENTS:0:1000000 number:SEED:0:18446744073709551615 --record=file:FILE:schedule:written --order=file:FILE:order:read
measure file:MODEL:model:read file:SCHEDULE:schedule:read --order=file:FILE:order:read
survey file:MODEL:model:read number:COUNT:1:1000000 --from=number:SEED:0:18446744073709551615 --order=file:FILE:order:read
story file:MODEL:model:read file:SCHEDULE:schedule:read file:FILE:story:written --order=file:FILE:order:read
bound file:MODEL:model:read --order=file:FILE:order:read
order file:MODEL:model:read word:RULE:degree:links:reverse file:FILE:order:written
gen queens number:N:1:200
gen colouring number:N:1:200 number:K:1:16 number:SEED:0:18446744073709551615
gen sparse number:N:1:4096 number:SEED:0:18446744073709551615
gen pigeons number:N:2:200
gen binary number:N:1:200 number:D:1:100 number:EDGES:0:19900 number:PAIRS:0:10000 number:SEED:0:18446744073709551615
gen meetings number:PEOPLE:1:64 number:MEETINGS:1:64 number:EACH:1:64 number:HOURS:1:100 number:BUSY:0:99 number:SEED:0:18446744073709551615
gen sensors number:SIDE:2:16 number:TARGETS:1:32 number:SEES:3:256 number:SEED:0:18446744073709551615
drill number:SEED:0:18446744073709551615
cnf file:CNF:formula:read file:PROOF:proof:written --seed=number:N:0:18446744073709551615
rup file:CNF:formula:read file:PROOF:proof:read
--help
--version
--usage
";

/// A word, which piece that is put on `out` fails, and what comes of the line of this word.
#[derive(Drop)]
struct Case {
    word: &'static str,
    failing: u64,
    code: u8,
    out: &'static [u8],
    err: &'static [u8],
}

const CASES: [Case; 6] = [
    Case {
        word: "--help",
        failing: 2,
        code: 0,
        out: HELP,
        err: b"",
    },
    Case {
        word: "--version",
        failing: 2,
        code: 0,
        out: VERSION,
        err: b"",
    },
    Case {
        word: "--usage",
        failing: 2,
        code: 0,
        out: USAGE,
        err: b"",
    },
    Case {
        word: "--help",
        failing: 1,
        code: 6,
        out: b"",
        err: b"abt: fault\n",
    },
    Case {
        word: "--hel",
        failing: 2,
        code: 2,
        out: b"",
        err: b"abt: bad words\n",
    },
    Case {
        word: "check",
        failing: 2,
        code: 2,
        out: b"",
        err: b"abt: bad words\n",
    },
];

impl Case {
    /// The line of the one word ends so, and calls nothing of the folder.
    fn expect(&self, rt: &impl Abort, alloc: Global) {
        let folder = folder_failing(rt, alloc, &[], 1, 0);
        let out = sink_failing(rt, alloc, self.failing, 0);
        let left = run_with(rt, alloc, folder, out, MemorySink::new(alloc), &[self.word]);
        left.expect(rt, self.code, self.out, self.err);
        assert_eq!(rt; left.folder.faults(), 0);
        left.end();
    }
}

#[test]
fn one_word_prints_a_text(rt: HostRuntime) {
    for case in &CASES {
        case.expect(&rt, rt.alloc());
    }
    let version = b"abt 0.1.0\nrattle-kit-13f logic dac8208d650f15bf\n".as_slice();
    assert_eq!(rt; VERSION, version);
}

#[test]
fn a_further_word_is_refused(rt: HostRuntime) {
    for first in ["--help", "--version", "--usage"] {
        let told: (u8, &[u8], &[u8]) = (2, b"", b"abt: bad words\n");
        expect_line(&rt, rt.alloc(), &[], &[first, "check"], told);
    }
}

#[test]
fn equal_names_are_refused(rt: HostRuntime) {
    let files = [("m.fzn", PAIR), ("m.ngd", PAIR_LOG)];
    let told: (u8, &[u8], &[u8]) = (2, b"", b"abt: bad words\n");
    expect_line(&rt, rt.alloc(), &files, &["check", "m.fzn", "m.fzn"], told);
}
