//! Random binary problems: so many pairs of variables have a constraint, and each of them forbids so many pairs
//! of values (Smith and Dyer, "Locating the phase transition in binary constraint satisfaction problems", model B).
ghost use Rattle.std.specs.Prelude.{◌≡◌, ◌+◌, ◌-◌, ◌<◌, ◌≤◌, ◌^◌, ◌++◌, flat_map, string_bytes, codes, IfOk, OnOk, length};
ghost use Rattle.abt_schedule.specs.Answers.{generator_of, word_at};
ghost use Rattle.dcsp_gen.specs.Problems.{pairs, pairs_of};
ghost use Rattle.dcsp_gen.specs.Binary.{binary_text, entries, entry, later_entry, table_line, table_lines, sizes_fit, value_line, value_lines, value_pairs, values_with};

use crate::lines::{push_array, push_solve};
use crate::selection::{Choosing, NumberPair, select};
use dcsp_common::Memory;
use rand_core::SeedableRng;
use rand_pcg::Pcg32;
use std::alloc::{AllocError, Global};

/// How large a random binary problem is.
#[derive(Clone, Copy, Debug)]
pub struct BinarySizes {
    /// How many variables there are, from 1 to 200.
    pub variables: u32,
    /// How many values each has, from 1 to 100: those from 0 on.
    pub values: u32,
    /// How many pairs of variables have a constraint.
    pub edges: u32,
    /// How many pairs of values each constraint forbids.
    pub forbidden: u32,
}

/// The most terms and entries of all constraints together.
const MOST_TERMS: u32 = 1_048_576;

impl BinarySizes {
    /// Whether there are as many pairs of variables and of values as are wanted, and all constraints together
    /// have at most 1,048,576 terms and entries.
    pub fn fit(&self) -> bool
        requires variables { (1 ≤ self.now.variables) × (self.now.variables ≤ 200) }
        requires values { self.now.values ≤ 100 }
        requires edges { self.now.edges ≤ 19900 }
        ensures { result ≡ sizes_fit self.now.variables self.now.values self.now.edges self.now.forbidden }
    {
        let value_pairs = self.values * self.values;
        if self.variables * (self.variables - 1) < 2 * self.edges || value_pairs < self.forbidden {
            return false;
        }
        self.edges * (2 * (value_pairs - self.forbidden) + 2) <= MOST_TERMS
    }
}

/// A random binary problem. The pairs of variables are gone through in rising order, each with a word of `seed`,
/// to choose those that have a constraint; then, for each of these, the pairs of values, to choose those that it
/// forbids. Variable `xI` has the values from 0 on.
pub fn binary(alloc: Global, sizes: BinarySizes, seed: u64) -> Result<Vec<u8>, Memory>
    requires variables { (1 ≤ sizes.variables) × (sizes.variables ≤ 200) }
    requires values { (1 ≤ sizes.values) × (sizes.values ≤ 100) }
    ensures { IfOk result (λ text. text.items ≡ binary_text sizes.variables sizes.values sizes.edges sizes.forbidden (word_at (generator_of seed))) }
{
    let mut words = Pcg32::seed_from_u64(seed);
    let text = binary_lines(alloc, sizes, &mut words)?;
    Ok(text.into_bytes())
}

fn binary_lines(alloc: Global, sizes: BinarySizes, words: &mut Pcg32) -> Result<String, AllocError>
    requires variables { (1 ≤ sizes.variables) × (sizes.variables ≤ 200) }
    requires values { (1 ≤ sizes.values) × (sizes.values ≤ 100) }
    ensures { IfOk result (λ text. string_bytes text ≡ binary_text sizes.variables sizes.values sizes.edges sizes.forbidden (word_at words.old)) }
{
    let mut text = String::new(alloc);
    push_value_lines(&mut text, sizes.values - 1, sizes.variables)?;
    push_array(&mut text, "x", sizes.variables)?;
    let all = variable_pairs(alloc, sizes.variables)?;
    let joined = Choosing {
        wanted: sizes.edges,
        kept: true,
    };
    let edges = select(alloc, &all, joined, words)?;
    let values = value_pairs(alloc, sizes.values)?;
    push_tables(&mut text, sizes.forbidden, &values, &edges, words)?;
    push_solve(&mut text)?;
    Ok(text)
}

/// Declares a variable with the values from 0 to `high`.
fn push_value_line(text: &mut String, high: u32, number: u32) -> Result<(), AllocError>
    ensures { OnOk result (string_bytes text.new ≡ string_bytes text.old ++ value_line high number) }
{
    write!(text, "var 0..{high}: x{number};\n")
}

/// Declares the variables 1 to `count`.
fn push_value_lines(text: &mut String, high: u32, count: u32) -> Result<(), AllocError>
    requires { count < 2 ^ 31 }
    ensures { OnOk result (string_bytes text.new ≡ string_bytes text.old ++ value_lines high count) }
{
    for number in 1..count + 1 {
        push_value_line(text, high, number)?;
    }
    Ok(())
}

/// The pairs of the numbers 1 to `n`, the lesser first.
pub fn variable_pairs(alloc: Global, n: u32) -> Result<Vec<NumberPair>, AllocError>
    requires { n ≤ 200 }
    ensures { IfOk result (λ list. list.items ≡ pairs n) }
{
    let mut list = Vec::new(alloc);
    for first in 1..n + 1 {
        push_later(&mut list, n, first)?;
    }
    Ok(list)
}

/// A number with each later one.
fn push_later(list: &mut Vec<NumberPair>, n: u32, first: u32) -> Result<(), AllocError>
    requires most { n ≤ 200 }
    requires within { first ≤ n }
    ensures { OnOk result (list.new.items ≡ list.old.items ++ pairs_of n first) }
{
    for second in first + 1..n + 1 {
        list.push((first, second))?;
    }
    Ok(())
}

/// The pairs of the numbers below `count`.
fn value_pairs(alloc: Global, count: u32) -> Result<Vec<NumberPair>, AllocError>
    ensures { IfOk result (λ list. list.items ≡ value_pairs count) }
{
    let mut list = Vec::new(alloc);
    for first in 0..count {
        push_values_with(&mut list, count, first)?;
    }
    Ok(list)
}

/// A number with each below `count`.
fn push_values_with(list: &mut Vec<NumberPair>, count: u32, first: u32) -> Result<(), AllocError>
    ensures { OnOk result (list.new.items ≡ list.old.items ++ values_with count first) }
{
    for second in 0..count {
        list.push((first, second))?;
    }
    Ok(())
}

/// The table of each edge: the pairs of values that its words do not choose.
fn push_tables(
    text: &mut String,
    forbidden: u32,
    values: &[NumberPair],
    edges: &[NumberPair],
    words: &mut Pcg32,
) -> Result<(), AllocError>
    requires { length values.now < 2 ^ 31 }
    ensures { OnOk result (string_bytes text.new ≡ string_bytes text.old ++ table_lines forbidden values.now (word_at words.old) edges.now) }
{
    let alloc = *text.allocator();
    let allowed = Choosing {
        wanted: forbidden,
        kept: false,
    };
    for edge in edges {
        let rows = select(alloc, values, allowed, words)?;
        push_table(text, *edge, &rows)?;
    }
    Ok(())
}

/// The constraint that two variables have the values of a row.
fn push_table(text: &mut String, edge: NumberPair, rows: &[NumberPair]) -> Result<(), AllocError>
    ensures { OnOk result (string_bytes text.new ≡ string_bytes text.old ++ table_line edge rows.now) }
{
    let (first, second) = edge;
    write!(text, "constraint fzn_table_int([x{first},x{second}],[")?;
    push_entries(text, rows)?;
    text.push_str("]);\n")?;
    Ok(())
}

/// The rows, with a comma between any two sizes.
pub fn push_entries(text: &mut String, rows: &[NumberPair]) -> Result<(), AllocError>
    ensures { OnOk result (string_bytes text.new ≡ string_bytes text.old ++ entries rows.now) }
{
    let Some((first, later)) = rows.split_first() else {
        return Ok(());
    };
    push_entry(text, *first)?;
    for row in later {
        push_later_entry(text, *row)?;
    }
    Ok(())
}

fn push_entry(text: &mut String, row: NumberPair) -> Result<(), AllocError>
    ensures { OnOk result (string_bytes text.new ≡ string_bytes text.old ++ entry row) }
{
    let (first, second) = row;
    write!(text, "{first},{second}")
}

fn push_later_entry(text: &mut String, row: NumberPair) -> Result<(), AllocError>
    ensures { OnOk result (string_bytes text.new ≡ string_bytes text.old ++ later_entry row) }
{
    text.push_str(",")?;
    push_entry(text, row)
}
