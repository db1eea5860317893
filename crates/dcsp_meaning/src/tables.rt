//! Whether a table has a row: the first list of a constraint is the row, the second one the table, row after row.

ghost use Rattle.std.specs.Prelude.{◌≡◌, ◌+◌, ◌*◌, ◌<◌, ◌≤◌, length};
ghost use Rattle.dcsp_meaning.specs.Words.{equal_as};
ghost use Rattle.dcsp_meaning.specs.Rows.{has_row, stands_at};

use crate::ground::Ground;

/// Whether some row of the table is the first list, as numbers or as Booleans.
///
/// It stops at the first such row, and in each row at the first entry that differs.
pub(crate) fn has_row<G: Ground>(ground: &G, boolean: bool) -> bool
    requires { 0 < length (G.first_values ground.now) }
    ensures { result ≡ has_row (equal_as boolean) (G.first_values ground.now) (G.second_values ground.now) }
{
    let width = ground.first_len();
    for row in 0..ground.second_len() / width {
        if stands_at(ground, boolean, row * width) {
            return true;
        }
    }
    false
}

/// Whether the first list stands in the table from this entry on.
fn stands_at<G: Ground>(ground: &G, boolean: bool, entry: usize) -> bool
    requires { entry + length (G.first_values ground.now) ≤ length (G.second_values ground.now) }
    ensures { result ≡ stands_at (equal_as boolean) (G.first_values ground.now) (G.second_values ground.now) entry }
{
    let _entries = ground.second_len();
    for place in 0..ground.first_len() {
        if !are_equal(boolean, ground.first(place), ground.second(entry + place)) {
            return false;
        }
    }
    true
}

/// Whether two numbers are equal, or, as Booleans, the same truth.
pub fn are_equal(boolean: bool, x: i64, y: i64) -> bool
    ensures { result ≡ equal_as boolean x y }
{
    if boolean {
        (x == 1) == (y == 1)
    } else {
        x == y
    }
}
