//! What holds of the rows.

ghost use Rattle.std.specs.Prelude.{◌≡◌, ℕ, List, IsTrue};
ghost use Rattle.abt_words.specs.Rows.{Row, the_rows};
ghost use Rattle.abt_words.specs.Saying.{Said, IsSaidBy, are_apart};

/// Of any rows with different keywords, a list of words says at most one thing. The rows of the program have such.
pub fn words_say_one_thing()
    ensures one { (rows : List Row) → IsTrue (are_apart rows) → (words : List (List ℕ)) (said other : Said)
        → IsSaidBy rows words said → IsSaidBy rows words other → said ≡ other }
    ensures apart { IsTrue (are_apart the_rows) }
{}
