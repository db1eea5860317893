//! What a row is made of.
//!
//! The texts and lists that the types refer to are arguments of the types, since a contract can speak of a
//! constant only where no field's own type is a reference.

use crate::rows::LineName;

/// What a file holds.
#[derive(Clone, Copy, Debug)]
pub enum Content {
    Model,
    Log,
    Schedule,
    Order,
    Formula,
    Proof,
    Story,
}

/// What a line does with a file.
#[derive(Clone, Copy, Debug)]
pub enum Access {
    Read,
    Written,
}

/// What a word may be.
#[derive(Clone, Copy, Debug)]
pub enum WordKindOf<Texts> {
    /// The name of a file: it is not empty, and does not begin with `-`.
    File { content: Content, access: Access },
    /// A number of 64 bits within bounds, in decimal digits without sign or leading zeros.
    Number { least: u64, most: u64 },
    /// A number of 64 bits with or without a sign, without leading zeros, `+` or `-0`.
    Signed,
    /// One of these words.
    OneOf { words: Texts },
}

/// One word of a line.
#[derive(Clone, Copy, Debug)]
pub struct PlaceOf<Text, Texts> {
    /// How usage and help call the word.
    pub shown: Text,
    /// What it may be.
    pub kind: WordKindOf<Texts>,
}

/// An option of a line.
#[derive(Clone, Copy, Debug)]
pub struct OptionOf<Text, Texts> {
    /// The word that gives it.
    pub word: Text,
    /// What the next word is, where the option takes a value.
    pub value: Option<PlaceOf<Text, Texts>>,
}

/// A line of words.
#[derive(Clone, Copy, Debug)]
pub struct RowOf<Texts, Places, Options> {
    /// Which line it is.
    pub line: LineName,
    /// The words that it begins with, one or two.
    pub keyword: Texts,
    /// The words that follow.
    pub places: Places,
    /// The options that may stand behind these, in any order and each at most once.
    pub options: Options,
    /// The lines of its sentence in the help.
    pub tells: Texts,
}

/// What a word may be.
pub type WordKind = WordKindOf<&'static [&'static str]>;

/// One word of a line.
pub type Place = PlaceOf<&'static str, &'static [&'static str]>;

/// An option of a line.
pub type LineOption = OptionOf<&'static str, &'static [&'static str]>;

/// A line of words.
pub type Row = RowOf<&'static [&'static str], &'static [Place], &'static [LineOption]>;
