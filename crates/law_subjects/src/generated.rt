//! Generated problems as lines: their texts are the texts of these lines, each line is read as its item, and the
//! texts have the problems that their lines say.
ghost use Rattle.dcsp_gen.specs.Problems.{pigeons_text, queens_text, sparse_text};
ghost use Rattle.law_subjects.specs.MeetingLines.{MeetingTextsAreLines, MeetingsAreShort, MeetingsHaveProblem};
ghost use Rattle.law_subjects.specs.Generated.{AreShort, ColouringHasProblem, GeneratedLinesResolve, HasProblem, PigeonsHaveProblem, QueensHaveProblem, BinaryHasProblem, SparseHasProblem};
ghost use Rattle.law_subjects.specs.RandomBinary.{BinaryIsRandom};
ghost use Rattle.law_subjects.specs.Laws.{LinesAreRead, NumbersAreSmall, TextsAreLines};
ghost use Rattle.law_subjects.specs.Named.{NamedLinesAreRead, NamedLinesHaveProblem, NamedLinesSayProblem};
ghost use Rattle.law_subjects.specs.Problems.{LinesHaveProblem, LinesSayProblem};
ghost use Rattle.law_subjects.specs.SensorLines.{SensorTextsAreLines, SensorsAreShort, SensorsHaveProblem};
ghost use Rattle.std.specs.Prelude.{ℕ};

/// The text of lines whose numbers are small has tokens, and these are items, one for each line, that say what
/// the line says.
pub fn lines_are_read()
    ensures letters { LinesAreRead }
    ensures names { NamedLinesAreRead }
{}

/// The texts of the generators are those of their lines.
pub fn texts_are_lines()
    ensures letters { TextsAreLines }
    ensures meetings { MeetingTextsAreLines }
    ensures sensors { SensorTextsAreLines }
{}

/// The numbers of the generators' lines are small, up to the generators' limits.
pub fn numbers_are_small()
    ensures { NumbersAreSmall }
{}

/// Lines that declare variables, perhaps print them, state constraints on them and ask for any solution say a
/// problem, and items that say these lines have it, within the limits of a problem. So do lines whose variables have
/// sets of values and names of their own, and are printed one by one.
pub fn lines_have_problem()
    ensures problem { LinesSayProblem }
    ensures items { LinesHaveProblem }
    ensures named_problem { NamedLinesSayProblem }
    ensures named_items { NamedLinesHaveProblem }
{}

/// Items that say the lines of a generator have the problem of these lines.
pub fn generated_lines_resolve()
    ensures { GeneratedLinesResolve }
{}

/// Each text that a generator makes is accepted, whatever the words: it is short enough, and has the problem
/// of its lines.
pub fn generated_texts_have_problems()
    ensures queens { QueensHaveProblem }
    ensures colouring { ColouringHasProblem }
    ensures sparse { SparseHasProblem }
    ensures pigeons { PigeonsHaveProblem }
    ensures binary { BinaryHasProblem }
    ensures short { AreShort }
    ensures meetings { MeetingsHaveProblem }
    ensures meetings_short { MeetingsAreShort }
    ensures sensors { SensorsHaveProblem }
    ensures sensors_short { SensorsAreShort }
{}

/// The problem of a random binary text has as many rules as there are edges, each about two variables, no two about the
/// same two, and each false at exactly so many pairs of values.
pub fn random_binary_problems()
    ensures { BinaryIsRandom }
{}

/// Six queens, five pigeons, and a sparse graph of 500 nodes with any words.
pub fn small_texts_have_problems()
    ensures queens { HasProblem (queens_text 6) }
    ensures pigeons { HasProblem (pigeons_text 5) }
    ensures sparse { (words : ℕ → ℕ) → HasProblem (sparse_text 500 words) }
{}
