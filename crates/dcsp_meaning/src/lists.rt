//! Questions about the lists of a constraint, each answered in one pass without memory.

ghost use Rattle.std.specs.Prelude.{◌≡◌, ◌+◌, ◌<◌, ℕ, ℤ, List, length, not, drop};
ghost use Rattle.std.specs.List.{list_any, list_all};
ghost use Rattle.std.specs.Ordering.{int_eq};
ghost use Rattle.dcsp_meaning.specs.Words.{argument, is_one, has_odd_ones, element_at, are_different};

use crate::ground::Ground;

/// Whether all elements of the first list are true; so it is where there is none.
pub(crate) fn all_true<G: Ground>(ground: &G) -> bool
    ensures { result ≡ list_all is_one (G.first_values ground.now) }
{
    for place in 0..ground.first_len() {
        if ground.first(place) != 1 {
            return false;
        }
    }
    true
}

/// Whether some element of the first list is true; not so where there is none.
pub(crate) fn some_true<G: Ground>(ground: &G) -> bool
    ensures { result ≡ list_any is_one (G.first_values ground.now) }
{
    for place in 0..ground.first_len() {
        if ground.first(place) == 1 {
            return true;
        }
    }
    false
}

/// Whether some element of the second list is false; not so where there is none.
pub(crate) fn some_false<G: Ground>(ground: &G) -> bool
    ensures { result ≡ list_any (λ y. not (is_one y)) (G.second_values ground.now) }
{
    for place in 0..ground.second_len() {
        if ground.second(place) != 1 {
            return true;
        }
    }
    false
}

/// Whether an odd number of elements of the first list is true.
pub(crate) fn odd_true<G: Ground>(ground: &G) -> bool
    ensures { result ≡ has_odd_ones (G.first_values ground.now) }
{
    let mut many: usize = 0;
    for place in 0..ground.first_len() {
        if ground.first(place) == 1 {
            many += 1;
        }
    }
    many % 2 == 1
}

/// The element of the first list at an index that counts from 1; `None` out of range.
pub(crate) fn element<G: Ground>(ground: &G, index: i64) -> Option<i64>
    ensures { result ≡ element_at (G.first_values ground.now) index }
{
    if index < 1 {
        return None;
    }
    let place = (index - 1) as usize;
    if place < ground.first_len() {
        Some(ground.first(place))
    } else {
        None
    }
}

/// Whether the elements of the first list are pairwise different.
///
/// It looks at each pair once at the most, and stops at the first equal one.
pub(crate) fn all_different<G: Ground>(ground: &G) -> bool
    ensures { result ≡ are_different (G.first_values ground.now) }
{
    for place in 0..ground.first_len() {
        if comes_again(ground, place) {
            return false;
        }
    }
    true
}

/// Whether a later element of the first list is equal to the one at the place.
fn comes_again<G: Ground>(ground: &G, place: usize) -> bool
    requires { place < length (G.first_values ground.now) }
    ensures { result ≡ list_any (int_eq (argument (G.first_values ground.now) place)) (drop (place + 1) (G.first_values ground.now)) }
{
    let value = ground.first(place);
    let end = ground.first_len();
    for later in place + 1..end {
        if value == ground.first(later) {
            return true;
        }
    }
    false
}
