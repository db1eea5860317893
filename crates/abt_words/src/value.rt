//! Words as values.

ghost use Rattle.std.specs.Prelude.{◌≡◌, ◌↔◌, ◌∷◌, [], map, option_copied, IfSome, IsNone, IsTrue};
ghost use Rattle.abt_words.specs.Rows.{kind_in};
ghost use Rattle.abt_words.specs.Saying as saying;
ghost use Rattle.abt_words.specs.Saying.{IsFileName, IsAmong, Fits, value_words, name_in, word_in, number_in, given_name, given_number, given_signed, is_given};
ghost use Rattle.abt_words.specs.Values.{value_in};

use crate::number::{number_within, signed_number_of};
use crate::row::{WordKind, WordKindOf};

/// What stands in a place of a line, or is given to an option.
#[derive(Clone, Copy, Debug)]
pub enum Value<'w> {
    /// Nothing.
    Absent,
    /// An option that takes no value is given.
    Given,
    /// The name of a file.
    Name(&'w str),
    /// A number.
    Number(u64),
    /// A number with or without a sign.
    Signed(i64),
    /// One of some words.
    Word(&'w str),
}

impl<'w> Value<'w> {
    /// The name, and no text where it is none.
    pub fn name(self) -> &'w str
        ensures { result.now ≡ name_in (value_in self.entry) }
    {
        match self {
            Value::Name(name) => name,
            _ => "",
        }
    }

    /// The one of some words, and no text where it is none.
    pub fn word(self) -> &'w str
        ensures { result.now ≡ word_in (value_in self.entry) }
    {
        match self {
            Value::Word(word) => word,
            _ => "",
        }
    }

    /// The number, and 0 where it is none.
    pub fn number(self) -> u64
        ensures { result ≡ number_in (value_in self.entry) }
    {
        match self {
            Value::Number(number) => number,
            _ => 0,
        }
    }

    /// The name, where it is one.
    pub fn given_name(self) -> Option<&'w str>
        ensures { option_copied result ≡ given_name (value_in self.entry) }
    {
        match self {
            Value::Name(name) => Some(name),
            _ => None,
        }
    }

    /// The number, where it is one.
    pub fn given_number(self) -> Option<u64>
        ensures { result ≡ given_number (value_in self.entry) }
    {
        match self {
            Value::Number(number) => Some(number),
            _ => None,
        }
    }

    /// The number with or without a sign, where it is one.
    pub fn given_signed(self) -> Option<i64>
        ensures { result ≡ given_signed (value_in self.entry) }
    {
        match self {
            Value::Signed(number) => Some(number),
            _ => None,
        }
    }

    /// Whether an option without a value is given.
    pub fn is_given(self) -> bool
        ensures { result ≡ is_given (value_in self.entry) }
    {
        match self {
            Value::Given => true,
            _ => false,
        }
    }
}

/// The value of this kind that the word is.
pub fn value_of<'w>(kind: WordKind, word: &'w str) -> Option<Value<'w>>
    ensures some { IfSome result (λ value. value_words (value_in value) ≡ word.now ∷ []) }
    ensures fits { IfSome result (λ value. Fits (kind_in kind.entry) (value_in value)) }
    ensures none { IsNone result → (value : saying.Value) → Fits (kind_in kind.entry) value → value_words value ≡ word.now ∷ [] → ⊥ }
{
    match kind {
        WordKindOf::File { .. } => is_file_name(word).then_some(Value::Name(word)),
        WordKindOf::Number { least, most } => Some(Value::Number(number_within(
            word, least, most,
        )?)),
        WordKindOf::Signed => Some(Value::Signed(signed_number_of(word)?)),
        WordKindOf::OneOf { words } => is_one_of(word, words).then_some(Value::Word(word)),
    }
}

fn is_file_name(word: &str) -> bool
    ensures { IsTrue result ↔ IsFileName word.now }
{
    match word.as_bytes() {
        [] => false,
        [first, ..] => *first != b'-',
    }
}

fn is_one_of(word: &str, words: &[&str]) -> bool
    ensures { IsTrue result ↔ IsAmong word.now (map (λ text. text.now) words.now) }
{
    let [first, others @ ..] = words else {
        return false;
    };
    if *first == word {
        return true;
    }
    is_one_of(word, others)
}
