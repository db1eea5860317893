//! The rows of the program.

ghost use Rattle.std.specs.Prelude.{◌≡◌, map, IsTrue};
ghost use Rattle.abt_words.specs.Rows.{row_in, run_rows, other_rows};
ghost use Rattle.abt_words.specs.Values.{have_room};

use crate::row::{
    Access, Content, LineOption, OptionOf, Place, PlaceOf, Row, RowOf, WordKind, WordKindOf,
};

/// A word that is a number within bounds.
macro_rules! number {
    ($shown:literal, $least:literal, $most:expr) => {
        PlaceOf {
            shown: $shown,
            kind: WordKindOf::Number {
                least: $least,
                most: $most,
            },
        }
    };
}

/// The lines of the program, in the order in which help shows them.
#[derive(Clone, Copy, Debug, PartialEq, Eq)]
pub enum LineName {
    Solve,
    Replay,
    Check,
    Upgrade,
    Core,
    Export,
    Starve,
    Lossy,
    Measure,
    Survey,
    Story,
    Bound,
    Order,
    Queens,
    Colouring,
    Sparse,
    Pigeons,
    Binary,
    Meetings,
    Sensors,
    Drill,
    Cnf,
    Rup,
    Help,
    Version,
    Usage,
}

/// A model that is read.
const MODEL: Place = PlaceOf {
    shown: "MODEL",
    kind: WordKindOf::File {
        content: Content::Model,
        access: Access::Read,
    },
};

/// A log that is read.
const LOG: Place = PlaceOf {
    shown: "LOG",
    kind: WordKindOf::File {
        content: Content::Log,
        access: Access::Read,
    },
};

/// A log that is written.
const NEW_LOG: Place = PlaceOf {
    shown: "LOG",
    kind: WordKindOf::File {
        content: Content::Log,
        access: Access::Written,
    },
};

/// A schedule that is read.
const SCHEDULE: Place = PlaceOf {
    shown: "SCHEDULE",
    kind: WordKindOf::File {
        content: Content::Schedule,
        access: Access::Read,
    },
};

/// A schedule that is written.
const RECORD: Place = PlaceOf {
    shown: "FILE",
    kind: WordKindOf::File {
        content: Content::Schedule,
        access: Access::Written,
    },
};

/// A formula that is read.
const FORMULA: Place = PlaceOf {
    shown: "CNF",
    kind: WordKindOf::File {
        content: Content::Formula,
        access: Access::Read,
    },
};

/// A proof that is written.
const NEW_PROOF: Place = PlaceOf {
    shown: "PROOF",
    kind: WordKindOf::File {
        content: Content::Proof,
        access: Access::Written,
    },
};

/// The number of a variable, or how many there are.
const VARIABLES: WordKind = WordKindOf::Number {
    least: 1,
    most: 4096,
};

/// How many queens, nodes or variables a generated model has.
const SIZE: Place = number!("N", 1, 200);

/// The number from which the choices of a run are drawn.
const SEED: Place = number!("SEED", 0, u64::MAX);

/// The option that gives a seed.
const SEED_OPTION: LineOption = OptionOf {
    word: "--seed",
    value: Some(number!("N", 0, u64::MAX)),
};

/// The option that gives a value than which a better one is refuted.
const BETTER_OPTION: LineOption = OptionOf {
    word: "--better",
    value: Some(PlaceOf {
        shown: "N",
        kind: WordKindOf::Signed,
    }),
};

/// The option that gives how many choices a run has, which are at most as many as a run may have deliveries.
const CHOICES_OPTION: LineOption = OptionOf {
    word: "--choices",
    value: Some(number!("N", 0, 1 << 40)),
};

/// The option that names an order.
const ORDER_OPTION: LineOption = OptionOf {
    word: "--order",
    value: Some(PlaceOf {
        shown: "FILE",
        kind: WordKindOf::File {
            content: Content::Order,
            access: Access::Read,
        },
    }),
};

/// The option that asks for a record.
const RECORD_OPTION: LineOption = OptionOf {
    word: "--record",
    value: Some(RECORD),
};

/// The option that asks for a trace.
const TRACE_OPTION: LineOption = OptionOf {
    word: "--trace",
    value: None,
};

/// The option that asks to be told how far a run is.
const PROGRESS_OPTION: LineOption = OptionOf {
    word: "--progress",
    value: None,
};

/// The option that asks for each solution of a search.
const EACH_OPTION: LineOption = OptionOf {
    word: "--each",
    value: None,
};

/// The option that asks for a search by halves.
const HALVES_OPTION: LineOption = OptionOf {
    word: "--halves",
    value: None,
};

/// `solve MODEL LOG [--seed N] [--choices N] [--record FILE] [--order FILE] [--trace] [--progress] [--each] [--halves]`: a run
/// under the choices of a seed.
pub const SOLVE: Row = RowOf {
    line: LineName::Solve,
    keyword: &["solve"],
    places: &[MODEL, NEW_LOG],
    options: &[
        SEED_OPTION,
        CHOICES_OPTION,
        RECORD_OPTION,
        ORDER_OPTION,
        TRACE_OPTION,
        PROGRESS_OPTION,
        EACH_OPTION,
        HALVES_OPTION,
    ],
    tells: &[
        "runs the agents of the model, with deliveries chosen from a seed:",
        "prints a solution, `=====UNSATISFIABLE=====` or `=====UNKNOWN=====`,",
        "and writes the log of its derivations; FILE holds the choices. Where",
        "the model asks for the least or the greatest value, prints the best",
        "solution and `==========`, and LOG refutes every better value. With",
        "--choices the run, or each round of a search, has N choices; with",
        "--each a search prints all it finds, with --halves in few rounds;",
        "--progress tells each million deliveries how far the run is;",
        "with --order the agents have the priorities that `order` wrote",
    ],
};

/// `replay MODEL SCHEDULE LOG [--trace] [--order FILE]`: a run under the choices of a schedule.
pub const REPLAY: Row = RowOf {
    line: LineName::Replay,
    keyword: &["replay"],
    places: &[MODEL, SCHEDULE, NEW_LOG],
    options: &[TRACE_OPTION, ORDER_OPTION],
    tells: &[
        "runs them under the choices of a schedule, as a record is; reads at",
        "most 67,108,864 bytes of one, or 33,554,424 choices of one digit",
    ],
};

/// `check MODEL LOG [--better N]`: whether a log refutes a model, or a better value.
pub const CHECK: Row = RowOf {
    line: LineName::Check,
    keyword: &["check"],
    places: &[MODEL, LOG],
    options: &[BETTER_OPTION],
    tells: &[
        "checks whether the log refutes the model: prints `verified`,",
        "`rejected step K`, `rejected deletion after step K` or",
        "`rejected not empty`; with --better, whether it refutes that a",
        "solution has a better value than N at what the model aims at",
    ],
};

/// `upgrade LOG NEW`: a log with the deletions that it allows.
pub const UPGRADE: Row = RowOf {
    line: LineName::Upgrade,
    keyword: &["upgrade"],
    places: &[
        LOG,
        PlaceOf {
            shown: "NEW",
            kind: WordKindOf::File {
                content: Content::Log,
                access: Access::Written,
            },
        },
    ],
    options: &[],
    tells: &[
        "writes the log to NEW with deletions of the steps that nothing cites",
        "any more, so that a check keeps less",
    ],
};

/// `core MODEL LOG TRIMMED [--better N]`: which constraints a refutation uses.
pub const CORE: Row = RowOf {
    line: LineName::Core,
    keyword: &["core"],
    places: &[
        MODEL,
        LOG,
        PlaceOf {
            shown: "TRIMMED",
            kind: WordKindOf::File {
                content: Content::Log,
                access: Access::Written,
            },
        },
    ],
    options: &[BETTER_OPTION],
    tells: &[
        "prints which constraints the refutation uses, as `c1`, and writes",
        "the steps that it needs to TRIMMED; with --better, of the model",
        "with only the better values than N at what it aims at",
    ],
};

/// `export MODEL LOG CNF PROOF`: a refutation as a formula, and a proof that checkers of clauses read.
pub const EXPORT: Row = RowOf {
    line: LineName::Export,
    keyword: &["export"],
    places: &[
        MODEL,
        LOG,
        PlaceOf {
            shown: "CNF",
            kind: WordKindOf::File {
                content: Content::Formula,
                access: Access::Written,
            },
        },
        NEW_PROOF,
    ],
    options: &[
        OptionOf {
            word: "--atoms",
            value: None,
        },
        BETTER_OPTION,
    ],
    tells: &[
        "writes the refutation as a formula in DIMACS, CNF, and a PROOF that",
        "SAT checkers read; with --atoms, comments tell what each variable of",
        "the formula says; with --better, the log is that of a best value",
    ],
};

/// `starve MODEL FROM TO FILE [--order FILE]`: a run that delivers from one agent to another only where nothing else is in transit.
pub const STARVE: Row = RowOf {
    line: LineName::Starve,
    keyword: &["starve"],
    places: &[
        MODEL,
        PlaceOf {
            shown: "FROM",
            kind: VARIABLES,
        },
        PlaceOf {
            shown: "TO",
            kind: VARIABLES,
        },
        RECORD,
    ],
    options: &[ORDER_OPTION],
    tells: &[
        "writes to FILE the choices of a run that delivers from the agent of",
        "variable FROM to that of TO only where nothing else is in transit",
    ],
};

/// `lossy MODEL LOG EVENTS SEED [--record FILE] [--order FILE]`: a run over a medium that loses, repeats and reorders.
pub const LOSSY: Row = RowOf {
    line: LineName::Lossy,
    keyword: &["lossy"],
    places: &[MODEL, NEW_LOG, number!("EVENTS", 0, 1_000_000), SEED],
    options: &[RECORD_OPTION, ORDER_OPTION],
    tells: &[
        "runs the agents over a medium that loses, repeats and reorders in",
        "EVENTS events, 0 to 1000000, drawn from SEED, and then calms down",
    ],
};

/// `measure MODEL SCHEDULE [--order FILE]`: what a run under the choices of a schedule comes to, in numbers.
pub const MEASURE: Row = RowOf {
    line: LineName::Measure,
    keyword: &["measure"],
    places: &[MODEL, SCHEDULE],
    options: &[ORDER_OPTION],
    tells: &[
        "prints the measures of a run under the choices of a schedule, as a",
        "record is: messages, checks, nogoods, and what each agent learned",
    ],
};

/// `survey MODEL COUNT [--from SEED] [--order FILE]`: the numbers of the runs of many seeds.
pub const SURVEY: Row = RowOf {
    line: LineName::Survey,
    keyword: &["survey"],
    places: &[MODEL, number!("COUNT", 1, 1_000_000)],
    options: &[
        OptionOf {
            word: "--from",
            value: Some(SEED),
        },
        ORDER_OPTION,
    ],
    tells: &[
        "prints a table of the measures of the runs of COUNT seeds from SEED",
        "on, 0 if not given: names of columns, and a line for each seed",
    ],
};

/// `story MODEL SCHEDULE FILE [--order FILE]`: what happens in a run under the choices of a schedule, event by event.
pub const STORY: Row = RowOf {
    line: LineName::Story,
    keyword: &["story"],
    places: &[
        MODEL,
        SCHEDULE,
        PlaceOf {
            shown: "FILE",
            kind: WordKindOf::File {
                content: Content::Story,
                access: Access::Written,
            },
        },
    ],
    options: &[ORDER_OPTION],
    tells: &[
        "writes to FILE what happens in a run under the choices of a schedule,",
        "as a record is: what each agent receives, learns, rules out and sends",
    ],
};

/// `bound MODEL [--order FILE]`: how many messages a run delivers at most.
pub const BOUND: Row = RowOf {
    line: LineName::Bound,
    keyword: &["bound"],
    places: &[MODEL],
    options: &[ORDER_OPTION],
    tells: &["prints how many messages a run delivers at most"],
};

/// `order MODEL RULE FILE`: an order of the model's variables.
pub const ORDER: Row = RowOf {
    line: LineName::Order,
    keyword: &["order"],
    places: &[
        MODEL,
        PlaceOf {
            shown: "RULE",
            kind: WordKindOf::OneOf {
                words: &["degree", "links", "reverse"],
            },
        },
        PlaceOf {
            shown: "FILE",
            kind: WordKindOf::File {
                content: Content::Order,
                access: Access::Written,
            },
        },
    ],
    options: &[],
    tells: &[
        "writes to FILE an order of the variables by RULE: `degree`, more",
        "neighbours first; `links`, each time most neighbours among those",
        "placed; or `reverse`, the model's order backwards",
    ],
};

/// `gen queens N`: the problem of so many queens.
pub const QUEENS: Row = RowOf {
    line: LineName::Queens,
    keyword: &["gen", "queens"],
    places: &[SIZE],
    options: &[],
    tells: &["prints the problem of N queens, 1 to 200"],
};

/// `gen colouring N K SEED`: a colouring of so many nodes with so many colours.
pub const COLOURING: Row = RowOf {
    line: LineName::Colouring,
    keyword: &["gen", "colouring"],
    places: &[SIZE, number!("K", 1, 16), SEED],
    options: &[],
    tells: &["prints a colouring of N nodes, 1 to 200, with K colours, 1 to 16"],
};

/// `gen sparse N SEED`: a sparse colouring of so many nodes.
pub const SPARSE: Row = RowOf {
    line: LineName::Sparse,
    keyword: &["gen", "sparse"],
    places: &[
        PlaceOf {
            shown: "N",
            kind: VARIABLES,
        },
        SEED,
    ],
    options: &[],
    tells: &["prints a colouring of N nodes, 1 to 4,096, with few edges"],
};

/// `gen pigeons N`: so many pigeons in one hole less.
pub const PIGEONS: Row = RowOf {
    line: LineName::Pigeons,
    keyword: &["gen", "pigeons"],
    places: &[number!("N", 2, 200)],
    options: &[],
    tells: &["prints the problem of N pigeons, 2 to 200, in one hole less"],
};

/// `gen binary N D EDGES PAIRS SEED`: a random binary problem.
pub const BINARY: Row = RowOf {
    line: LineName::Binary,
    keyword: &["gen", "binary"],
    places: &[
        SIZE,
        number!("D", 1, 100),
        number!("EDGES", 0, 19_900),
        number!("PAIRS", 0, 10_000),
        SEED,
    ],
    options: &[],
    tells: &[
        "prints a random problem of N variables, 1 to 200, with D values, 1",
        "to 100, and EDGES constraints of two variables, each of which forbids",
        "PAIRS pairs of values",
    ],
};

/// `gen meetings PEOPLE MEETINGS EACH HOURS BUSY SEED`: a random problem of meetings.
pub const MEETINGS: Row = RowOf {
    line: LineName::Meetings,
    keyword: &["gen", "meetings"],
    places: &[
        number!("PEOPLE", 1, 64),
        number!("MEETINGS", 1, 64),
        number!("EACH", 1, 64),
        number!("HOURS", 1, 100),
        number!("BUSY", 0, 99),
        SEED,
    ],
    options: &[],
    tells: &[
        "prints a problem of MEETINGS, 1 to 64, of EACH of the PEOPLE, 1 to 64,",
        "who have HOURS, 1 to 100, and are not free in BUSY of them",
    ],
};

/// `gen sensors SIDE TARGETS SEES SEED`: a random problem of sensors.
pub const SENSORS: Row = RowOf {
    line: LineName::Sensors,
    keyword: &["gen", "sensors"],
    places: &[
        number!("SIDE", 2, 16),
        number!("TARGETS", 1, 32),
        number!("SEES", 3, 256),
        SEED,
    ],
    options: &[],
    tells: &[
        "prints a problem of TARGETS, 1 to 32, for each of which three of SEES",
        "sensors are wanted that hear each other, in SIDE rows, 2 to 16",
    ],
};

/// `drill SEED`: runs of three generated models.
pub const DRILL: Row = RowOf {
    line: LineName::Drill,
    keyword: &["drill"],
    places: &[SEED],
    options: &[],
    tells: &["runs three generated models, and checks the log of the last"],
};

/// `cnf CNF PROOF [--seed N]`: a run of a formula's agents.
pub const CNF: Row = RowOf {
    line: LineName::Cnf,
    keyword: &["cnf"],
    places: &[FORMULA, NEW_PROOF],
    options: &[SEED_OPTION],
    tells: &[
        "runs the agents of a formula in DIMACS: prints `s SATISFIABLE` and its",
        "values, or `s UNSATISFIABLE`, with PROOF written, or `s UNKNOWN`",
    ],
};

/// `rup CNF PROOF`: whether a proof shows that a formula cannot be satisfied.
pub const RUP: Row = RowOf {
    line: LineName::Rup,
    keyword: &["rup"],
    places: &[
        FORMULA,
        PlaceOf {
            shown: "PROOF",
            kind: WordKindOf::File {
                content: Content::Proof,
                access: Access::Read,
            },
        },
    ],
    options: &[],
    tells: &[
        "checks such a proof by unit propagation: prints `verified`,",
        "`rejected clause K` or `rejected not empty`",
    ],
};

/// `--help`: what the program takes.
pub const HELP: Row = RowOf {
    line: LineName::Help,
    keyword: &["--help"],
    places: &[],
    options: &[],
    tells: &["prints this text"],
};

/// `--version`: the program's version and its toolchain.
pub const VERSION: Row = RowOf {
    line: LineName::Version,
    keyword: &["--version"],
    places: &[],
    options: &[],
    tells: &["prints the program's version and its toolchain"],
};

/// `--usage`: the rows, for scripts.
pub const USAGE: Row = RowOf {
    line: LineName::Usage,
    keyword: &["--usage"],
    places: &[],
    options: &[],
    tells: &["prints the lines above for scripts: their files, numbers and options"],
};

/// The lines that make, measure or check runs, in the order in which help and usage show them.
const RUN_ROWS: &[Row] = &[
    SOLVE, REPLAY, CHECK, UPGRADE, CORE, EXPORT, STARVE, LOSSY, MEASURE, SURVEY, STORY,
];

/// The lines behind those, likewise.
const OTHER_ROWS: &[Row] = &[
    BOUND, ORDER, QUEENS, COLOURING, SPARSE, PIGEONS, BINARY, MEETINGS, SENSORS, DRILL, CNF, RUP,
    HELP, VERSION, USAGE,
];

// Where a table is named, it is written out, and the prover's steps are limited; so the two are named here alone.
/// The lines that make, measure or check runs.
pub fn run_rows() -> &'static [Row]
    ensures rows { map row_in result.now ≡ run_rows }
    ensures room { IsTrue (have_room run_rows) }
{
    RUN_ROWS
}

/// The others.
pub fn other_rows() -> &'static [Row]
    ensures rows { map row_in result.now ≡ other_rows }
    ensures room { IsTrue (have_room other_rows) }
{
    OTHER_ROWS
}
