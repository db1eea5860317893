//! What words say, of the rows of a table.

ghost use Rattle.std.specs.Prelude.{◌≡◌, ◌↔◌, ℕ, ◌+◌, ◌<◌, ◌≤◌, List, [], ◌++◌, map, flat_map, length, replicate, option_map, IfSome, IsNone, IsTrue};
ghost use Rattle.abt_words.specs.Rows.{place_in, option_in, row_in, the_rows};
ghost use Rattle.abt_words.specs.Saying as saying;
ghost use Rattle.abt_words.specs.Saying.{Absent, Fill, FitsOption, Gives, IsSaidBy, Says, differs_from, has_name, is_new_name, names_differ, place_of, setting_at, value_at, value_words};
ghost use Rattle.abt_words.specs.Values.{Fills, texts, value_in, values_in, said_in, have_room, HasRoom};

use crate::row::{LineOption, Place, Row};
use crate::rows::{other_rows, run_rows};
use crate::value::{Value, value_of};

/// The most places that a row has, and the most options.
pub const MOST: usize = 12;

/// A value for each place or for each option of a row, and nothing behind them.
#[derive(Clone, Copy, Debug)]
pub struct Values<'w> {
    list: [Value<'w>; MOST],
}

impl<'w> Values<'w> {
    /// Nothing for each.
    fn none() -> Values<'w>
        ensures { values_in result ≡ replicate MOST Absent }
    {
        Values {
            list: [Value::Absent; MOST],
        }
    }
}

/// What words say: a row, the values of its places, and what its options are given.
#[derive(Clone, Copy, Debug)]
pub struct Said<'w> {
    /// The row.
    pub row: Row,
    values: Values<'w>,
    settings: Values<'w>,
}

impl<'w> Said<'w> {
    /// The value of a place, counted from 0.
    pub fn value(&self, place: usize) -> Value<'w>
        ensures { value_in result ≡ value_at (said_in self.now) place }
    {
        if self.row.places.len() <= place {
            return Value::Absent;
        }
        match self.values.list.get(place) {
            Some(value) => *value,
            None => Value::Absent,
        }
    }

    /// What the option of this word is given.
    pub fn setting(&self, word: &str) -> Value<'w>
        ensures { value_in result ≡ setting_at (said_in self.now) word.now }
    {
        let Some(place) = place_of(self.row.options, word) else {
            return Value::Absent;
        };
        match self.settings.list.get(place) {
            Some(value) => *value,
            None => Value::Absent,
        }
    }
}

/// The words behind the keyword, where it stands first.
fn behind_keyword<'w>(keyword: &[&str], words: &'w [String]) -> Option<&'w [String]>
    ensures some { IfSome result (λ rest. texts words.now ≡ map (λ text. text.now) keyword.now ++ texts rest.now) }
    ensures none { IsNone result → (rest : List (List ℕ)) → texts words.now ≡ map (λ text. text.now) keyword.now ++ rest → ⊥ }
{
    let [first, more @ ..] = keyword else {
        return Some(words);
    };
    let [word, others @ ..] = words else {
        return None;
    };
    if *first == word.as_str() {
        behind_keyword(more, others)
    } else {
        None
    }
}

/// The values of the places, which the words begin with, and the words behind these. They are written from `at` on.
fn values_of<'w>(
    places: &[Place],
    words: &'w [String],
    at: usize,
    before: Values<'w>,
) -> Option<(Values<'w>, &'w [String])>
    requires { at + length places.now ≤ MOST }
    ensures some { IfSome result (λ filled. Fills (map place_in places.now) (texts words.now)
        (texts filled.1.now) (values_in before.entry) at (values_in filled.0)) }
    ensures none { IsNone result → (values : List saying.Value) (rest : List (List ℕ)) → Fill (map place_in places.now) values
        → texts words.now ≡ flat_map value_words values ++ rest → ⊥ }
{
    let [place, more @ ..] = places else {
        return Some((before, words));
    };
    let [word, others @ ..] = words else {
        return None;
    };
    let value = value_of(place.kind, word.as_str())?;
    let mut after = before;
    after.list[at] = value;
    values_of(more, others, at + 1, after)
}

/// The place of the first option of this word.
fn place_of(options: &[LineOption], word: &str) -> Option<usize>
    ensures place { result ≡ place_of (map option_in options.now) word.now }
    ensures within { IfSome result (λ place. place < length options.now) }
{
    let [first, others @ ..] = options else {
        return None;
    };
    if first.word == word {
        return Some(0);
    }
    let place = place_of(others, word)?;
    Some(place + 1)
}

/// The value that the words begin with, for an option that takes this, and the words behind it.
fn option_value<'w>(taken: Option<Place>, words: &'w [String]) -> Option<(Value<'w>, &'w [String])>
    ensures some { IfSome result (λ found. texts words.now ≡ value_words (value_in found.0) ++ texts found.1.now) }
    ensures fits { IfSome result (λ found. FitsOption (option_map place_in taken.entry) (value_in found.0)) }
    ensures shorter { IfSome result (λ found. length found.1.now ≤ length words.now) }
    ensures none { IsNone result → (value : saying.Value) (rest : List (List ℕ)) → FitsOption (option_map place_in taken.entry) value
        → texts words.now ≡ value_words value ++ rest → ⊥ }
{
    let Some(place) = taken else {
        return Some((Value::Given, words));
    };
    let [word, others @ ..] = words else {
        return None;
    };
    let value = value_of(place.kind, word.as_str())?;
    Some((value, others))
}

/// The settings that the words add to those before. `None` comes exactly where the words are no options,
/// or one is given that was.
fn settings_of<'w>(
    options: &[LineOption],
    words: &'w [String],
    before: Values<'w>,
) -> Option<Values<'w>>
    requires { length options.now ≤ MOST }
    ensures some { IfSome result (λ after. Gives (map option_in options.now) (texts words.now)
        (values_in before.entry) (values_in after)) }
    ensures none { IsNone result → (after : List saying.Value) → Gives (map option_in options.now) (texts words.now)
        (values_in before.entry) after → ⊥ }
{
    let [word, others @ ..] = words else {
        return Some(before);
    };
    let place = place_of(options, word.as_str())?;
    let Value::Absent = before.list[place] else {
        return None;
    };
    let (value, more) = option_value(options[place].value, others)?;
    let mut after = before;
    after.list[place] = value;
    settings_of(options, more, after)
}

fn has_name(name: &str, value: Value<'_>) -> bool
    ensures { result ≡ has_name name.now (value_in value.entry) }
{
    match value {
        Value::Name(other) => other == name,
        _ => false,
    }
}

/// Whether none of the values is this name.
fn is_new_name(name: &str, values: &[Value<'_>]) -> bool
    ensures { result ≡ is_new_name name.now (map value_in values.now) }
{
    let [first, others @ ..] = values else {
        return true;
    };
    if has_name(name, *first) {
        return false;
    }
    is_new_name(name, others)
}

/// Whether none of the others is the same name as the value.
fn differs_from(value: Value<'_>, others: &[Value<'_>]) -> bool
    ensures { result ≡ differs_from (value_in value.entry) (map value_in others.now) }
{
    match value {
        Value::Name(name) => is_new_name(name, others),
        _ => true,
    }
}

/// Whether no two names among all these values are the same.
fn names_differ(values: &[Value<'_>], more: &[Value<'_>]) -> bool
    ensures { result ≡ names_differ (map value_in values.now ++ map value_in more.now) }
{
    if let [first, others @ ..] = values {
        if !differs_from(*first, others) {
            return false;
        }
        if !differs_from(*first, more) {
            return false;
        }
        return names_differ(others, more);
    }
    let [first, others @ ..] = more else {
        return true;
    };
    if !differs_from(*first, others) {
        return false;
    }
    names_differ(others, &[])
}

/// What the words say, of this row.
fn row_said<'w>(row: Row, words: &'w [String]) -> Option<Said<'w>>
    requires { HasRoom (row_in row) }
    ensures row { IfSome result (λ said. (said_in said).row ≡ row_in row.entry) }
    ensures some { IfSome result (λ said. Says (row_in row.entry) (texts words.now) (said_in said).values (said_in said).settings) }
    ensures none { IsNone result → (values settings : List saying.Value) → Says (row_in row.entry) (texts words.now) values settings → ⊥ }
{
    let rest = behind_keyword(row.keyword, words)?;
    let (values, options) = values_of(row.places, rest, 0, Values::none())?;
    let settings = settings_of(row.options, options, Values::none())?;
    if !names_differ(
        &values.list[..row.places.len()],
        &settings.list[..row.options.len()],
    ) {
        return None;
    }
    Some(Said {
        row,
        values,
        settings,
    })
}

/// What the words say, of these rows. `None` comes exactly where they say nothing.
pub fn said_by<'w>(rows: &[Row], words: &'w [String]) -> Option<Said<'w>>
    requires { IsTrue (have_room (map row_in rows.now)) }
    ensures some { IfSome result (λ said. IsSaidBy (map row_in rows.now) (texts words.now) (said_in said)) }
    ensures none { IsNone result → (said : saying.Said) → IsSaidBy (map row_in rows.now) (texts words.now) said → ⊥ }
{
    for row in rows {
        if let Some(said) = row_said(*row, words) {
            return Some(said);
        }
    }
    None
}

/// What the words say, of the rows of the program. `None` comes exactly where they say nothing.
pub fn said_of(words: &[String]) -> Option<Said<'_>>
    ensures some { IfSome result (λ said. IsSaidBy the_rows (texts words.now) (said_in said)) }
    ensures none { IsNone result → (said : saying.Said) → IsSaidBy the_rows (texts words.now) said → ⊥ }
{
    match said_by(run_rows(), words) {
        Some(said) => Some(said),
        None => said_by(other_rows(), words),
    }
}
