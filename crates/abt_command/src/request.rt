//! What the words ask for, and how it is run.

ghost use Rattle.std.specs.Prelude.{◌≡◌, ◌≤◌, ℕ, List, false, option_copied, IfSome, IsNone};
ghost use Rattle.dcsp_outside.specs.Outside.{Place};
ghost use Rattle.dcsp_script.specs.Outsides.{world};
ghost use Rattle.dcsp_script.specs.Runs.{CameIn};
ghost use Rattle.abt_input.specs.Errors.{way_of};
ghost use Rattle.abt_words.specs.declared.rows.LineName.TheVariants as names;
ghost use Rattle.abt_words.specs.Rows.{the_rows};
ghost use Rattle.abt_words.specs.Saying.{IsSaidBy};
ghost use Rattle.abt_words.specs.Values.{said_in, texts};
ghost use Rattle.line_model.specs.OrderPromise.{rule_named};
ghost use Rattle.line_replay.specs.Settings.{settings_of};
ghost use Rattle.abt_command.specs.Lines.{CameMeans, IsLine, IsNoLine, IsSomeLine, line_by, line_named, line_of, number_at, order_at, promise_of, settings_at, value_of, IsRequest};

use crate::plain::{VERSION, print_help, print_usage};
use abt_input::CommandError;
use abt_session::MOST_DELIVERIES;
use abt_words::{LineName, Said, said_of};
use dcsp_gen::{BinarySizes, MeetingSizes, SensorSizes};
use dcsp_order::OrderRule;
use dcsp_outside::{Folder, Sink};
use dcsp_script::{Outside, Status};
use line_check::{Check, run_check};
use line_cnf::{Cnf, run_cnf, run_rup};
use line_drill::run_drill;
use line_export::{ExportLine, run_export};
use line_lossy::{Losses, run_lossy};
use line_measure::{Measure, Survey, run_measure, run_survey};
use line_model::{
    Bound, OrderLine, print, run_binary, run_bound, run_colouring, run_meetings, run_order,
    run_pigeons, run_queens, run_sensors, run_sparse,
};
use line_replay::{Options, Replay, Solve, run_replay};
use line_rewrite::{CoreLine, run_core, run_upgrade};
use line_solve::run_solve;
use line_starve::{Starve, run_starve};
use line_story::{Story, run_story};
use std::alloc::Global;

/// What the words ask for.
pub enum Request<'w> {
    /// `--help`: what the program takes.
    Help,
    /// `--version`: the program's version and its toolchain.
    Version,
    /// `--usage`: the rows, for scripts.
    Usage,
    /// `check MODEL LOG [--better N]`: whether the log refutes the model; or where a bound is given, that a solution has
    /// a better value at the model's aim.
    Check(Check<'w>),
    /// `replay MODEL SCHEDULE LOG [--trace] [--order FILE]`: a run under the choices of the schedule.
    Replay(Replay<'w>),
    /// `solve MODEL LOG [--seed N] [--choices N] [--record FILE] [--order FILE] [--trace] [--progress] [--each] [--halves]`: a run under the choices of a seed,
    /// which is 0 where none is given; they are at most 2^40, which is their number where none is given. Where the model
    /// asks for the best value, a search of such runs, which may put each solution.
    Solve(Solve<'w>),
    /// `measure MODEL SCHEDULE [--order FILE]`: the measures of the run under the choices of the schedule.
    Measure(Measure<'w>),
    /// `survey MODEL COUNT [--from SEED] [--order FILE]`: the measures of the runs of so many seeds, from 1 to 1,000,000,
    /// the first of which is 0 where none is given, and the last of which has 64 bits.
    Survey(Survey<'w>),
    /// `story MODEL SCHEDULE FILE [--order FILE]`: FILE takes what happens in the run under the choices of the schedule.
    Story(Story<'w>),
    /// `bound MODEL [--order FILE]`: how many messages a run delivers at most.
    Bound(Bound<'w>),
    /// `order MODEL RULE FILE`: FILE takes the order of the model's variables by the rule.
    Order(OrderLine<'w>),
    /// `gen queens N`: the problem of so many queens, from 1 to 200.
    GenQueens { n: u32 },
    /// `gen colouring N K SEED`: the colouring of `n` nodes, from 1 to 200, with `k` colours, from 1 to 16.
    GenColouring { n: u32, k: u32, seed: u64 },
    /// `gen sparse N SEED`: the colouring of `n` nodes, from 1 to 4,096, with few edges.
    GenSparse { n: u32, seed: u64 },
    /// `gen binary N D EDGES PAIRS SEED`: a random binary problem, of 1 to 200 variables and 1 to 100 values, of sizes that fit.
    GenBinary { sizes: BinarySizes, seed: u64 },
    /// `gen meetings PEOPLE MEETINGS EACH HOURS BUSY SEED`: a random problem of meetings, of 1 to 64 people, 1 to 64 meetings
    /// and 1 to 100 hours, of sizes that fit.
    GenMeetings { sizes: MeetingSizes, seed: u64 },
    /// `gen sensors SIDE TARGETS SEES SEED`: a random problem of sensors, of 2 to 16 rows and 1 to 32 targets, of sizes that fit.
    GenSensors { sizes: SensorSizes, seed: u64 },
    /// `gen pigeons N`: the problem of so many pigeons, from 2 to 200, in one hole less.
    GenPigeons { n: u32 },
    /// `drill SEED`: runs of three generated models under the choices of a seed.
    Drill { seed: u64 },
    /// `upgrade LOG NEW`: NEW takes the log with the deletions that it allows.
    Upgrade { log: &'w str, new: &'w str },
    /// `core MODEL LOG TRIMMED [--better N]`: which constraints the refutation uses; TRIMMED takes the steps that it needs.
    Core(CoreLine<'w>),
    /// `export MODEL LOG CNF PROOF [--atoms] [--better N]`: CNF and PROOF take the refutation as a formula and a proof
    /// about it, with comments that tell what its variables say where they are asked for; or where a bound is given,
    /// the refutation of a better value at the model's aim.
    Export(ExportLine<'w>),
    /// `starve MODEL FROM TO FILE [--order FILE]`: FILE takes the choices of the run that delivers from the agent of one
    /// variable to that of another, both counted from 1 and at most 4,096, only where nothing else is in transit.
    Starve(Starve<'w>),
    /// `lossy MODEL LOG EVENTS SEED [--record FILE] [--order FILE]`: a run over a medium that loses, repeats and reorders in so many
    /// events, at most 1,000,000, which are drawn from a seed.
    Lossy(Losses<'w>),
    /// `rup CNF PROOF`: whether the proof shows that the formula cannot be satisfied.
    Rup { cnf: &'w str, proof: &'w str },
    /// `cnf CNF PROOF [--seed N]`: a run of the formula's agents under the choices of a seed, which is 0 where
    /// none is given. A proof is written where the formula cannot be satisfied.
    Cnf(Cnf<'w>),
}

impl Request<'_> {
    /// Runs the line, up to what is said of it on `err`.
    pub fn run<F: Folder, S: Sink>(
        self,
        alloc: Global,
        outside: &mut Outside<F, S>,
    ) -> Result<Status, CommandError>
        requires { IsSomeLine (line_of self) }
        ensures came { CameIn (promise_of (line_of self.entry))
            (world F.place S.stream outside.old) (world F.place S.stream outside.new) (way_of result) }
        ensures means { CameMeans (value_of (line_of self.entry)).meaning
            (world F.place S.stream outside.old) (world F.place S.stream outside.new) result }
    {
        match self {
            Self::Help => print_help(alloc, &mut outside.out),
            Self::Version => print(&mut outside.out, VERSION),
            Self::Usage => print_usage(alloc, &mut outside.out),
            Self::Check(line) => run_check(alloc, outside, line),
            Self::Replay(line) => run_replay(alloc, outside, line),
            Self::Solve(line) => run_solve(alloc, outside, line),
            Self::Measure(line) => run_measure(alloc, outside, line),
            Self::Survey(line) => run_survey(alloc, outside, line),
            Self::Story(line) => run_story(alloc, outside, line),
            Self::Bound(line) => run_bound(alloc, outside, line),
            Self::Order(line) => run_order(alloc, outside, line),
            Self::GenQueens { n } => run_queens(alloc, n, &mut outside.out),
            Self::GenColouring { n, k, seed } => run_colouring(alloc, n, k, seed, &mut outside.out),
            Self::GenSparse { n, seed } => run_sparse(alloc, n, seed, &mut outside.out),
            Self::GenBinary { sizes, seed } => run_binary(alloc, sizes, seed, &mut outside.out),
            Self::GenMeetings { sizes, seed } => run_meetings(alloc, sizes, seed, &mut outside.out),
            Self::GenSensors { sizes, seed } => run_sensors(alloc, sizes, seed, &mut outside.out),
            Self::GenPigeons { n } => run_pigeons(alloc, n, &mut outside.out),
            Self::Drill { seed } => run_drill(alloc, seed, &mut outside.out),
            Self::Upgrade { log, new } => run_upgrade(alloc, outside, log, new),
            Self::Core(line) => run_core(alloc, outside, line),
            Self::Export(line) => run_export(alloc, outside, line),
            Self::Starve(line) => run_starve(alloc, outside, line),
            Self::Lossy(line) => run_lossy(alloc, outside, line),
            Self::Rup { cnf, proof } => run_rup(alloc, outside, cnf, proof),
            Self::Cnf(line) => run_cnf(alloc, outside, line),
        }
    }
}

/// The request that the words are, after the program's own name. `None` comes exactly where the words are no
/// line of the program, which the rows of `abt_words` list.
pub fn words_of(words: &[String]) -> Option<Request<'_>>
    ensures some { IfSome result (λ request. IsLine (texts words.now) (line_of request)) }
    ensures none { IsNone result → IsNoLine (texts words.now) }
{
    let said = said_of(words)?;
    request_of(&said)
}

/// The request that this says. `None` comes exactly where its numbers do not go together.
fn request_of<'w>(said: &Said<'w>) -> Option<Request<'w>>
    requires { (words : List (List ℕ)) × IsSaidBy the_rows words (said_in said.now) }
    ensures some { IfSome result (λ request. IsRequest request (line_by (said_in said.now))) }
    ensures none { IsNone result → (value_of (line_by (said_in said.now))).within ≡ false }
{
    match said.row.line {
        LineName::Solve => Some(solve_of(said)),
        LineName::Replay => Some(replay_of(said)),
        LineName::Check => Some(check_of(said)),
        LineName::Upgrade => Some(upgrade_of(said)),
        LineName::Core => Some(core_of(said)),
        LineName::Export => Some(export_of(said)),
        LineName::Starve => Some(starve_of(said)),
        LineName::Lossy => Some(lossy_of(said)),
        LineName::Measure => Some(measure_of(said)),
        LineName::Survey => survey_of(said),
        LineName::Story => Some(story_of(said)),
        LineName::Bound => Some(bound_of(said)),
        LineName::Order => Some(order_of(said)),
        LineName::Queens => Some(queens_of(said)),
        LineName::Colouring => Some(colouring_of(said)),
        LineName::Sparse => Some(sparse_of(said)),
        LineName::Pigeons => Some(pigeons_of(said)),
        LineName::Binary => binary_of(said),
        LineName::Meetings => meetings_of(said),
        LineName::Sensors => sensors_of(said),
        LineName::Drill => Some(drill_of(said)),
        LineName::Cnf => Some(cnf_of(said)),
        LineName::Rup => Some(rup_of(said)),
        LineName::Help => Some(Request::Help),
        LineName::Version => Some(Request::Version),
        LineName::Usage => Some(Request::Usage),
    }
}

fn solve_of<'w>(said: &Said<'w>) -> Request<'w>
    ensures { line_of result ≡ line_named names.Solve (said_in said.now) }
{
    Request::Solve(Solve {
        model: said.value(0).name(),
        log: said.value(1).name(),
        options: options_of(said),
    })
}

/// The name of the order, where one is given.
fn order_given<'w>(said: &Said<'w>) -> Option<&'w str>
    ensures { option_copied result ≡ order_at (said_in said.now) }
{
    said.setting("--order").given_name()
}

/// How the run of `solve` is made.
fn options_of<'w>(said: &Said<'w>) -> Options<'w>
    ensures { settings_of result ≡ settings_at (said_in said.now) }
{
    let choices = said.setting("--choices").given_number();
    Options {
        seed: said.setting("--seed").given_number().unwrap_or(0),
        choices: choices.unwrap_or(MOST_DELIVERIES),
        record_file: said.setting("--record").given_name(),
        order_file: order_given(said),
        trace: said.setting("--trace").is_given(),
        progress: said.setting("--progress").is_given(),
        each: said.setting("--each").is_given(),
        halves: said.setting("--halves").is_given(),
    }
}

fn replay_of<'w>(said: &Said<'w>) -> Request<'w>
    ensures { line_of result ≡ line_named names.Replay (said_in said.now) }
{
    Request::Replay(Replay {
        model: said.value(0).name(),
        schedule: said.value(1).name(),
        log: said.value(2).name(),
        trace: said.setting("--trace").is_given(),
        order_file: order_given(said),
    })
}

fn check_of<'w>(said: &Said<'w>) -> Request<'w>
    ensures { line_of result ≡ line_named names.Check (said_in said.now) }
{
    Request::Check(Check {
        model: said.value(0).name(),
        log: said.value(1).name(),
        better: said.setting("--better").given_signed(),
    })
}

fn upgrade_of<'w>(said: &Said<'w>) -> Request<'w>
    ensures { line_of result ≡ line_named names.Upgrade (said_in said.now) }
{
    Request::Upgrade {
        log: said.value(0).name(),
        new: said.value(1).name(),
    }
}

fn core_of<'w>(said: &Said<'w>) -> Request<'w>
    ensures { line_of result ≡ line_named names.Core (said_in said.now) }
{
    let better = said.setting("--better").given_signed();
    Request::Core(CoreLine {
        model: said.value(0).name(),
        log: said.value(1).name(),
        trimmed: said.value(2).name(),
        better,
    })
}

fn export_of<'w>(said: &Said<'w>) -> Request<'w>
    ensures { line_of result ≡ line_named names.Export (said_in said.now) }
{
    let better = said.setting("--better").given_signed();
    Request::Export(ExportLine {
        model: said.value(0).name(),
        log: said.value(1).name(),
        cnf: said.value(2).name(),
        proof: said.value(3).name(),
        atoms: said.setting("--atoms").is_given(),
        better,
    })
}

fn starve_of<'w>(said: &Said<'w>) -> Request<'w>
    requires from { number_at (said_in said.now) 1 ≤ 4096 }
    requires to { number_at (said_in said.now) 2 ≤ 4096 }
    ensures { line_of result ≡ line_named names.Starve (said_in said.now) }
{
    Request::Starve(Starve {
        model: said.value(0).name(),
        from: said.value(1).number() as u32,
        to: said.value(2).number() as u32,
        file: said.value(3).name(),
        order_file: order_given(said),
    })
}

fn lossy_of<'w>(said: &Said<'w>) -> Request<'w>
    requires { number_at (said_in said.now) 2 ≤ 1000000 }
    ensures { line_of result ≡ line_named names.Lossy (said_in said.now) }
{
    Request::Lossy(Losses {
        model: said.value(0).name(),
        log: said.value(1).name(),
        events: said.value(2).number() as u32,
        seed: said.value(3).number(),
        record_file: said.setting("--record").given_name(),
        order_file: said.setting("--order").given_name(),
    })
}

fn measure_of<'w>(said: &Said<'w>) -> Request<'w>
    ensures { line_of result ≡ line_named names.Measure (said_in said.now) }
{
    Request::Measure(Measure {
        model: said.value(0).name(),
        schedule: said.value(1).name(),
        order_file: order_given(said),
    })
}

fn survey_of<'w>(said: &Said<'w>) -> Option<Request<'w>>
    requires { 1 ≤ number_at (said_in said.now) 1 }
    ensures some { IfSome result (λ request. IsRequest request (line_named names.Survey (said_in said.now))) }
    ensures none { IsNone result → (value_of (line_named names.Survey (said_in said.now))).within ≡ false }
{
    let model = said.value(0).name();
    let count = said.value(1).number();
    let from = said.setting("--from").given_number().unwrap_or(0);
    let _last = from.checked_add(count - 1)?;
    Some(Request::Survey(Survey {
        model,
        count,
        from,
        order_file: order_given(said),
    }))
}

fn story_of<'w>(said: &Said<'w>) -> Request<'w>
    ensures { line_of result ≡ line_named names.Story (said_in said.now) }
{
    Request::Story(Story {
        model: said.value(0).name(),
        schedule: said.value(1).name(),
        file: said.value(2).name(),
        order_file: said.setting("--order").given_name(),
    })
}

fn bound_of<'w>(said: &Said<'w>) -> Request<'w>
    ensures { line_of result ≡ line_named names.Bound (said_in said.now) }
{
    Request::Bound(Bound {
        model: said.value(0).name(),
        order_file: order_given(said),
    })
}

fn order_of<'w>(said: &Said<'w>) -> Request<'w>
    ensures { line_of result ≡ line_named names.Order (said_in said.now) }
{
    Request::Order(OrderLine {
        model: said.value(0).name(),
        rule: rule_named(said.value(1).word()),
        file: said.value(2).name(),
    })
}

/// The rule of a word.
fn rule_named(word: &str) -> OrderRule
    ensures { result ≡ rule_named word.now }
{
    match word {
        "degree" => OrderRule::Degree,
        "links" => OrderRule::Links,
        _ => OrderRule::Reverse,
    }
}

fn queens_of<'w>(said: &Said<'w>) -> Request<'w>
    requires { number_at (said_in said.now) 0 ≤ 200 }
    ensures { line_of result ≡ line_named names.Queens (said_in said.now) }
{
    Request::GenQueens {
        n: said.value(0).number() as u32,
    }
}

fn colouring_of<'w>(said: &Said<'w>) -> Request<'w>
    requires nodes { number_at (said_in said.now) 0 ≤ 200 }
    requires colours { number_at (said_in said.now) 1 ≤ 16 }
    ensures { line_of result ≡ line_named names.Colouring (said_in said.now) }
{
    Request::GenColouring {
        n: said.value(0).number() as u32,
        k: said.value(1).number() as u32,
        seed: said.value(2).number(),
    }
}

fn sparse_of<'w>(said: &Said<'w>) -> Request<'w>
    requires { number_at (said_in said.now) 0 ≤ 4096 }
    ensures { line_of result ≡ line_named names.Sparse (said_in said.now) }
{
    Request::GenSparse {
        n: said.value(0).number() as u32,
        seed: said.value(1).number(),
    }
}

fn pigeons_of<'w>(said: &Said<'w>) -> Request<'w>
    requires { number_at (said_in said.now) 0 ≤ 200 }
    ensures { line_of result ≡ line_named names.Pigeons (said_in said.now) }
{
    Request::GenPigeons {
        n: said.value(0).number() as u32,
    }
}

fn binary_of<'w>(said: &Said<'w>) -> Option<Request<'w>>
    requires variables { (1 ≤ number_at (said_in said.now) 0) × (number_at (said_in said.now) 0 ≤ 200) }
    requires values { number_at (said_in said.now) 1 ≤ 100 }
    requires edges { number_at (said_in said.now) 2 ≤ 19900 }
    requires forbidden { number_at (said_in said.now) 3 ≤ 10000 }
    ensures some { IfSome result (λ request. IsRequest request (line_named names.Binary (said_in said.now))) }
    ensures none { IsNone result → (value_of (line_named names.Binary (said_in said.now))).within ≡ false }
{
    let sizes = BinarySizes {
        variables: said.value(0).number() as u32,
        values: said.value(1).number() as u32,
        edges: said.value(2).number() as u32,
        forbidden: said.value(3).number() as u32,
    };
    if !sizes.fit() {
        return None;
    }
    let seed = said.value(4).number();
    Some(Request::GenBinary { sizes, seed })
}

fn meetings_of<'w>(said: &Said<'w>) -> Option<Request<'w>>
    requires people { number_at (said_in said.now) 0 ≤ 64 }
    requires meetings { number_at (said_in said.now) 1 ≤ 64 }
    requires each { number_at (said_in said.now) 2 ≤ 64 }
    requires hours { number_at (said_in said.now) 3 ≤ 100 }
    requires busy { number_at (said_in said.now) 4 ≤ 99 }
    ensures some { IfSome result (λ request. IsRequest request (line_named names.Meetings (said_in said.now))) }
    ensures none { IsNone result → (value_of (line_named names.Meetings (said_in said.now))).within ≡ false }
{
    let sizes = MeetingSizes {
        people: said.value(0).number() as u32,
        meetings: said.value(1).number() as u32,
        each: said.value(2).number() as u32,
        hours: said.value(3).number() as u32,
        busy: said.value(4).number() as u32,
    };
    if !sizes.fit() {
        return None;
    }
    let seed = said.value(5).number();
    Some(Request::GenMeetings { sizes, seed })
}

fn sensors_of<'w>(said: &Said<'w>) -> Option<Request<'w>>
    requires side { number_at (said_in said.now) 0 ≤ 16 }
    requires targets { number_at (said_in said.now) 1 ≤ 32 }
    requires sees { number_at (said_in said.now) 2 ≤ 256 }
    ensures some { IfSome result (λ request. IsRequest request (line_named names.Sensors (said_in said.now))) }
    ensures none { IsNone result → (value_of (line_named names.Sensors (said_in said.now))).within ≡ false }
{
    let sizes = SensorSizes {
        side: said.value(0).number() as u32,
        targets: said.value(1).number() as u32,
        sees: said.value(2).number() as u32,
    };
    if !sizes.fit() {
        return None;
    }
    let seed = said.value(3).number();
    Some(Request::GenSensors { sizes, seed })
}

fn drill_of<'w>(said: &Said<'w>) -> Request<'w>
    ensures { line_of result ≡ line_named names.Drill (said_in said.now) }
{
    Request::Drill {
        seed: said.value(0).number(),
    }
}

fn cnf_of<'w>(said: &Said<'w>) -> Request<'w>
    ensures { line_of result ≡ line_named names.Cnf (said_in said.now) }
{
    Request::Cnf(Cnf {
        cnf: said.value(0).name(),
        proof: said.value(1).name(),
        seed: said.setting("--seed").given_number().unwrap_or(0),
    })
}

fn rup_of<'w>(said: &Said<'w>) -> Request<'w>
    ensures { line_of result ≡ line_named names.Rup (said_in said.now) }
{
    Request::Rup {
        cnf: said.value(0).name(),
        proof: said.value(1).name(),
    }
}
