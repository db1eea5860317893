//! What an accepted file means: its problem's solutions are the assignments that satisfy its items, read one by one,
//! and the best of them are those that its goal asks for.

ghost use Rattle.law_subjects.specs.Best.{BoundsAgree, BestAgree};
ghost use Rattle.law_subjects.specs.Meaning.{MeansItsItems, AimsAtItsGoal, MeansItsText, SolutionsSatisfy, VariablesDetermine};

/// An assignment solves the problem of some items exactly where some values of the names satisfy each item and
/// give the variables the assignment's values. The items state one goal, and the problem's aim is what it asks for:
/// any solution, or the least or the greatest value of a term that has the value of the goal's expression.
pub fn means_its_items()
    ensures solutions { MeansItsItems }
    ensures aim { AimsAtItsGoal }
{}

/// A text that has a problem has items, an assignment solves the problem exactly where it satisfies these, and the
/// problem's aim is what their one goal asks for.
pub fn means_its_text()
    ensures { MeansItsText }
{}

/// An assignment solves the problem of a text exactly where it satisfies the text.
pub fn solutions_satisfy()
    ensures { SolutionsSatisfy }
{}

/// The best assignments of a text, as its goal asks, are the best solutions of its problem: no assignment that
/// satisfies the text gives the goal's expression a better value than a bound exactly where no solution has one.
pub fn optima_agree()
    ensures bounds { BoundsAgree }
    ensures best { BestAgree }
{}

/// The values of the variables determine those of all declared names.
pub fn variables_determine()
    ensures { VariablesDetermine }
{}
