//! What is told of a solution.

use crate::rule::TermList;
use dcsp_common::ItemList;
use dcsp_domain::RangeList;

/// The bytes of a name.
pub type NameText = ItemList<u8>;

/// How an output's terms are laid out.
#[derive(Debug, Drop)]
pub enum Shape {
    /// One term.
    One,
    /// An array with these ranges of indices, the last index running fastest.
    Ranges(RangeList),
}

/// A variable or an array whose values are told of a solution.
#[derive(Debug, Drop)]
pub struct Output {
    pub name: NameText,
    /// Whether its values are told as truths.
    pub boolean: bool,
    pub shape: Shape,
    pub terms: TermList,
}
