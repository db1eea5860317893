//! What the promise of `story` keeps.

ghost use Rattle.std.specs.Prelude.{ℕ, List, Option};
ghost use Rattle.dcsp_script.specs.Clauses.{IsLawful};
ghost use Rattle.line_story.specs.StoryPromise.{story_promise};

/// The promise keeps what every line of words keeps.
pub fn story_is_lawful()
    ensures { (model schedule file : List ℕ) (order_file : Option (List ℕ)) → IsLawful (story_promise model order_file schedule file) }
{}
