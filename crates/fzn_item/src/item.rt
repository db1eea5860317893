//! What items are.

use dcsp_domain::{IntList, RangeList};

/// A constant, a name, a range or a listed set. `at` is the place of its first byte.
#[derive(Debug, Drop)]
pub enum Atom {
    /// `true` or `false`.
    Truth { at: u32, value: bool },
    /// An integer.
    Whole { at: u32, value: i64 },
    /// A float, whose value is not computed.
    Float { at: u32 },
    /// A name, which ends before place `to`.
    Name { at: u32, to: u32 },
    /// `low..high`, which is empty where `low` is above `high`.
    Range { at: u32, low: i64, high: i64 },
    /// `{v, .., v}`, with its integers as written.
    Listed { at: u32, values: IntList },
}

/// Atoms in the order of a text.
pub type AtomList = dcsp_common::ItemList<Atom>;

/// An expression.
#[derive(Debug, Drop)]
pub enum Expr {
    /// One atom.
    One(Atom),
    /// `[a, .., a]`, where `at` is the place of the bracket.
    List { at: u32, atoms: AtomList },
}

/// Expressions in the order of a text.
pub type ExprList = dcsp_common::ItemList<Expr>;

/// What a declaration's values are drawn from.
#[derive(Debug, Drop)]
pub enum Base {
    /// `bool`.
    Bool,
    /// `int`.
    Int,
    /// `float`, or a range of floats.
    Float,
    /// Any form of `set of`.
    Set,
    /// `low..high`.
    Range { low: i64, high: i64 },
    /// `{v, .., v}`, with its integers as written.
    Listed(IntList),
}

/// What a declaration's annotations say of output. The first that is a mark decides.
#[derive(Debug, Drop)]
pub enum Marked {
    /// No annotation is a mark.
    Nothing,
    /// `output_var` without parentheses.
    Variable,
    /// `output_array([r, .., r])` with ranges of integers.
    Ranges(RangeList),
    /// `output_array` of another form.
    Wrong,
}

/// What is to be done with the problem. `at` is the place of the goal's word.
#[derive(Debug, Drop)]
pub enum Goal {
    /// `satisfy`.
    Satisfy,
    /// `minimize` and an expression.
    Minimize { at: u32, what: Expr },
    /// `maximize` and an expression.
    Maximize { at: u32, what: Expr },
}

/// An item. `at` is the place of its first byte.
#[derive(Debug, Drop)]
pub enum Item {
    /// A predicate, whose tokens are not looked at.
    Predicate {
        at: u32,
    },
    /// A parameter, a variable or an array of either.
    Declare {
        at: u32,
        /// Whether it is of variables.
        variable: bool,
        /// The bounds of an array's index.
        index: Option<(i64, i64)>,
        base: Base,
        /// The place of the name's first byte.
        name_at: u32,
        /// The place after the name's last byte.
        name_to: u32,
        marked: Marked,
        right: Option<Expr>,
    },
    /// A constraint with the name of its relation.
    Constraint {
        at: u32,
        /// The place of the name's first byte.
        name_at: u32,
        /// The place after the name's last byte.
        name_to: u32,
        arguments: ExprList,
    },
    /// The solve item.
    Solve {
        at: u32,
        goal: Goal,
    },
}

/// Items in the order of a text.
pub type ItemList = dcsp_common::ItemList<Item>;
