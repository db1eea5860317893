//! The generated problems.
ghost use Rattle.std.specs.Prelude.{◌≡◌, ℕ, ◌+◌, ◌-◌, ◌<◌, ◌≤◌, ◌++◌, ◌∷◌, [], flat_map, map, string_bytes, codes, IfOk, OnOk};
ghost use Rattle.std.specs.List.{range_with_len};
ghost use Rattle.dcsp_common.specs.Limits.{most};
ghost use Rattle.dcsp_common.specs.declared.limits.Which.TheVariants.{Variables};
ghost use Rattle.abt_schedule.specs.Answers.{generator_of, word_at};
ghost use Rattle.dcsp_gen.specs.Words.{TakesWords};
ghost use Rattle.dcsp_gen.specs.Problems.{pairs_of, pairs, queen_lines, queens_text, edge_line, colouring_text, thrice, neighbour_line, sparse_text, apart_line, pigeons_text};

use crate::lines::{push_array, push_diagonals, push_differ, push_solve, push_variables};
use dcsp_common::Memory;
use rand_core::SeedableRng;
use rand_core::utils::NextWord;
use rand_pcg::Pcg32;
use std::alloc::{AllocError, Global};

/// The queens problem: `n` queens on a board of `n` rows and columns, none of which attacks
/// another. Variable `qI` is the row of the queen in column I.
pub fn queens(alloc: Global, n: u32) -> Result<Vec<u8>, Memory>
    requires least { 1 ≤ n }
    requires most { n ≤ 200 }
    ensures { IfOk result (λ text. text.items ≡ queens_text n) }
{
    let text = queens_lines(alloc, n)?;
    Ok(text.into_bytes())
}

fn queens_lines(alloc: Global, n: u32) -> Result<String, AllocError>
    requires least { 1 ≤ n }
    requires most { n ≤ 200 }
    ensures { IfOk result (λ text. string_bytes text ≡ queens_text n) }
{
    let mut text = String::new(alloc);
    push_variables(&mut text, "q", n, n)?;
    push_array(&mut text, "q", n)?;
    for first in 1..n + 1 {
        push_queen(&mut text, n, first)?;
    }
    push_solve(&mut text)?;
    Ok(text)
}

/// The queen in column `first` and each later one.
fn push_queen(text: &mut String, n: u32, first: u32) -> Result<(), AllocError>
    requires most { n ≤ 200 }
    requires within { first ≤ n }
    ensures { OnOk result (string_bytes text.new ≡ string_bytes text.old ++ flat_map queen_lines (pairs_of n first)) }
{
    for second in first + 1..n + 1 {
        push_differ(text, "q", first, second)?;
        push_diagonals(text, "q", first, second)?;
    }
    Ok(())
}

/// The graph colouring problem: `n` nodes with one of `k` colours each. Each pair of nodes, in
/// rising order, takes one word of `seed`, and is an edge where its word is divisible by 4. Variable
/// `cI` is the colour of node I.
pub fn colouring(alloc: Global, n: u32, k: u32, seed: u64) -> Result<Vec<u8>, Memory>
    requires least { 1 ≤ n }
    requires most { n ≤ 200 }
    ensures { IfOk result (λ text. text.items ≡ colouring_text n k (word_at (generator_of seed))) }
{
    let mut words = Pcg32::seed_from_u64(seed);
    let text = colouring_lines(alloc, n, k, &mut words)?;
    Ok(text.into_bytes())
}

fn colouring_lines(alloc: Global, n: u32, k: u32, words: &mut Pcg32) -> Result<String, AllocError>
    requires least { 1 ≤ n }
    requires most { n ≤ 200 }
    ensures { IfOk result (λ text. string_bytes text ≡ colouring_text n k (word_at words.old)) }
{
    let mut text = String::new(alloc);
    push_variables(&mut text, "c", k, n)?;
    push_array(&mut text, "c", n)?;
    for first in 1..n + 1 {
        push_edges(&mut text, words, n, first)?;
    }
    push_solve(&mut text)?;
    Ok(text)
}

/// The edges from node `first` to later ones.
fn push_edges(text: &mut String, words: &mut Pcg32, n: u32, first: u32) -> Result<(), AllocError>
    requires most { n ≤ 200 }
    requires within { first ≤ n }
    ensures { OnOk result (TakesWords edge_line (pairs_of n first) (string_bytes text.old) words.old (string_bytes text.new) words.new) }
{
    for second in first + 1..n + 1 {
        let word = words.next_word();
        push_edge(text, word, first, second)?;
    }
    Ok(())
}

fn push_edge(text: &mut String, word: u32, first: u32, second: u32) -> Result<(), AllocError>
    ensures { OnOk result (string_bytes text.new ≡ string_bytes text.old ++ edge_line word (first, second)) }
{
    if word % 4 == 0 {
        return push_differ(text, "c", first, second);
    }
    Ok(())
}

/// A sparse graph colouring problem: `n` nodes with one of four colours each. Each node after the
/// first takes three words of `seed`, each of which names an earlier node that it differs from. So a
/// node has at most three earlier neighbours, and there is a solution.
pub fn sparse(alloc: Global, n: u32, seed: u64) -> Result<Vec<u8>, Memory>
    requires least { 1 ≤ n }
    requires most { n ≤ most Variables }
    ensures { IfOk result (λ text. text.items ≡ sparse_text n (word_at (generator_of seed))) }
{
    let mut words = Pcg32::seed_from_u64(seed);
    let text = sparse_lines(alloc, n, &mut words)?;
    Ok(text.into_bytes())
}

fn sparse_lines(alloc: Global, n: u32, words: &mut Pcg32) -> Result<String, AllocError>
    requires least { 1 ≤ n }
    requires most { n ≤ most Variables }
    ensures { IfOk result (λ text. string_bytes text ≡ sparse_text n (word_at words.old)) }
{
    let mut text = String::new(alloc);
    push_variables(&mut text, "c", 4, n)?;
    push_array(&mut text, "c", n)?;
    for node in 2..n + 1 {
        push_neighbours(&mut text, words, node)?;
    }
    push_solve(&mut text)?;
    Ok(text)
}

/// The three earlier neighbours of a node.
fn push_neighbours(text: &mut String, words: &mut Pcg32, node: u32) -> Result<(), AllocError>
    requires { 2 ≤ node }
    ensures { OnOk result (TakesWords neighbour_line (thrice node) (string_bytes text.old) words.old (string_bytes text.new) words.new) }
{
    push_neighbour(text, words, node)?;
    push_neighbour(text, words, node)?;
    push_neighbour(text, words, node)?;
    Ok(())
}

/// An earlier neighbour of a node.
fn push_neighbour(text: &mut String, words: &mut Pcg32, node: u32) -> Result<(), AllocError>
    requires { 2 ≤ node }
    ensures { OnOk result (TakesWords neighbour_line (node ∷ []) (string_bytes text.old) words.old (string_bytes text.new) words.new) }
{
    let word = words.next_word();
    push_differ(text, "c", 1 + word % (node - 1), node)?;
    Ok(())
}

/// The pigeonhole problem: `n` pigeons in `n - 1` holes, no two in one. It has no solution. Variable
/// `pI` is the hole of pigeon I.
pub fn pigeons(alloc: Global, n: u32) -> Result<Vec<u8>, Memory>
    requires least { 2 ≤ n }
    requires most { n ≤ 200 }
    ensures { IfOk result (λ text. text.items ≡ pigeons_text n) }
{
    let text = pigeons_lines(alloc, n)?;
    Ok(text.into_bytes())
}

fn pigeons_lines(alloc: Global, n: u32) -> Result<String, AllocError>
    requires least { 2 ≤ n }
    requires most { n ≤ 200 }
    ensures { IfOk result (λ text. string_bytes text ≡ pigeons_text n) }
{
    let mut text = String::new(alloc);
    push_variables(&mut text, "p", n - 1, n)?;
    for first in 1..n + 1 {
        push_apart(&mut text, n, first)?;
    }
    push_solve(&mut text)?;
    Ok(text)
}

/// Pigeon `first` and each later one.
fn push_apart(text: &mut String, n: u32, first: u32) -> Result<(), AllocError>
    requires most { n ≤ 200 }
    requires within { first ≤ n }
    ensures { OnOk result (string_bytes text.new ≡ string_bytes text.old ++ flat_map apart_line (pairs_of n first)) }
{
    for second in first + 1..n + 1 {
        push_differ(text, "p", first, second)?;
    }
    Ok(())
}
