//! A mark for each of so many places, kept as bits.

ghost use Rattle.std.specs.Prelude.{◌≡◌, ◌≢◌, ◌<◌, ◌≤◌, ◌+◌, ◌*◌, ◌/◌, ◌==◌, ℕ, IfOk, IfSome, false, length, nat_lt, slice_index_or, slice_set, true, unwrap_or};
ghost use Rattle.std.specs.Int.{bit_at};
ghost use Rattle.dcsp_row.specs.Bits.{has_bit};
ghost use Rattle.dcsp_row.specs.Spans.{is_within};

use crate::span::Span;
use dcsp_common::Memory;
use dcsp_common::word::{BLOCK, with_bit};
use std::alloc::Global;
use std::marker::Model;

/// For each of so many places, counted from 0, whether it is marked.
#[derive(Drop)]
pub struct Row {
    /// The bits of 64 places each, from the lowest on.
    words: Vec<u64>,
    size: usize,
}

impl Model for Row {
    ghost use Rattle.std.specs.Prelude.{List, Bool, ◌≤◌, ◌*◌, length};
    ghost use Rattle.dcsp_row.specs.Bits.{marks_of};

    ghost Value = { List Bool };

    ghost view = { λ row. marks_of row.size row.words.items };

    ghost invariant = { λ row. row.size ≤ 64 * length row.words.items };
}

impl Row {
    /// So many places without a mark. It takes an eighth of a byte for each, and none for no place.
    pub fn new(alloc: Global, size: usize) -> Result<Row, Memory>
        ensures size { IfOk result (λ row. length row ≡ size) }
        ensures none { IfOk result (λ row. (place : ℕ) → slice_index_or row place false ≡ false) }
    {
        let words = no_bits(alloc, size.div_ceil(BLOCK))?;
        Ok(Row { words, size })
    }

    /// The number of places.
    pub fn len(&self) -> usize
        ensures { result ≡ length self.now }
    {
        self.size
    }

    /// Whether the place is marked.
    pub fn has(&self, place: usize) -> bool
        requires { place < length self.now }
        ensures { result ≡ slice_index_or self.now place false }
    {
        self.words[place / BLOCK] >> (place % BLOCK) & 1 == 1
    }

    /// Marks the place, or takes its mark off.
    pub fn put(&mut self, place: usize, mark: bool)
        requires { place < length self.old }
        ensures { self.new ≡ slice_set self.old place mark }
    {
        let word = &mut self.words[place / BLOCK];
        *word = with_bit(*word, place % BLOCK, mark);
    }

    /// Marks exactly the places of the span.
    pub fn mark_span(&mut self, span: Span)
        ensures size { length self.new ≡ length self.old }
        ensures marks { (k : ℕ) → k < length self.new → slice_index_or self.new k false ≡ is_within span k }
    {
        fill_span(&mut self.words, span);
    }

    /// Marks exactly what the other row marks.
    pub fn copy_from(&mut self, other: &Row)
        requires { length other.now ≡ length self.old }
        ensures { self.new ≡ other.now }
    {
        copy_words(&mut self.words, &other.words);
    }

    /// The word of a block in which the bits of its marked places are set.
    pub fn word(&self, block: usize) -> u64
        ensures { (bit : ℕ) → bit < 64 → block * 64 + bit < length self.now → (bit_at result bit == 1) ≡ slice_index_or self.now (block * 64 + bit) false }
    {
        word_of(&self.words, block)
    }
}

/// Sets exactly the bits of the span's places.
fn fill_span(words: &mut [u64], span: Span)
    ensures { (k : ℕ) → k / 64 < length words.new → has_bit words.new k ≡ is_within span k }
{
    // One word takes no loop: that would be a call.
    if words.len() == 1 {
        words[0] = span.word(0);
        return;
    }
    for block in 0..words.len() {
        words[block] = span.word(block);
    }
}

/// Puts the other words in the place of these.
fn copy_words(words: &mut [u64], others: &[u64])
    ensures { (block : ℕ) → block < length words.new → slice_index_or words.new block 0 ≡ slice_index_or others.now block 0 }
{
    for block in 0..words.len() {
        words[block] = word_of(others, block);
    }
}

/// So many words without a bit.
fn no_bits(alloc: Global, count: usize) -> Result<Vec<u64>, Memory>
    ensures size { IfOk result (λ words. length words.items ≡ count) }
    ensures none { IfOk result (λ words. (block : ℕ) → slice_index_or words.items block 0 ≡ 0) }
{
    vec![in alloc; 0; count]
}

/// The word of a block, which has no bit where there is none.
fn word_of(words: &[u64], block: usize) -> u64
    ensures { result ≡ slice_index_or words.now block 0 }
{
    match words.get(block) {
        Some(word) => *word,
        None => 0,
    }
}
