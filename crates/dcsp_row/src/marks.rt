//! Marks of places, as a span or as bits.

ghost use Rattle.std.specs.Prelude.{◌≡◌, ◌≢◌, ◌<◌, ◌≤◌, ◌+◌, ◌*◌, ◌/◌, ◌==◌, ℕ, IfSome, IsTrue, unwrap_or};
ghost use Rattle.std.specs.Int.{bit_at};
ghost use Rattle.dcsp_row.specs.Marks.{has_room_for, is_marked, is_row, FitsSize};

use crate::row::Row;
use crate::span::Span;
use dcsp_common::word::{BLOCK, first_bit, next_bit, within};

/// Which places are marked: those of a span, or those of a row.
#[derive(Drop)]
pub enum Marks {
    Span(Span),
    Row(Row),
}

impl Marks {
    /// Whether the place is marked. A row has it.
    pub fn has(&self, size: usize, place: usize) -> bool
        requires size { FitsSize size self.now }
        requires place { place < size }
        ensures { result ≡ is_marked self.now place }
    {
        match self {
            Marks::Span(span) => span.has(place),
            Marks::Row(row) => row.has(place),
        }
    }

    /// Marks exactly what the other marks, of as many places.
    pub fn copy_from(&mut self, size: usize, other: &Marks)
        requires size { FitsSize size self.old }
        requires other { FitsSize size other.now }
        requires room { IsTrue (has_room_for self.old other.now) }
        ensures marks { (k : ℕ) → k < size → is_marked self.new k ≡ is_marked other.now k }
        ensures size { FitsSize size self.new }
        ensures row { is_row self.new ≡ is_row self.old }
    {
        match self {
            Marks::Span(own) => {
                if let Marks::Span(span) = other {
                    *own = *span;
                }
            }
            Marks::Row(own) => match other {
                Marks::Span(span) => own.mark_span(*span),
                Marks::Row(row) => own.copy_from(row),
            },
        }
    }

    /// The first of so many places, from this one on, that one of them marks and the other does not;
    /// `None` where they are the same from there on.
    pub fn next_change(&self, other: &Marks, size: usize, from: usize) -> Option<usize>
        requires size { FitsSize size self.now }
        requires other { FitsSize size other.now }
        ensures within { IfSome result (λ place. (from ≤ place) × (place < size)) }
        ensures same { (k : ℕ) → from ≤ k → k < unwrap_or result size → is_marked self.now k ≡ is_marked other.now k }
        ensures differs { IfSome result (λ place. is_marked self.now place ≢ is_marked other.now place) }
    {
        if let Marks::Span(mine) = self {
            if let Marks::Span(theirs) = other {
                return mine.next_change(*theirs, size, from);
            }
        }
        for block in from / BLOCK..size / BLOCK + 1 {
            let mine = self.word(size, block);
            let theirs = other.word(size, block);
            if let Some(bit) = next_bit(mine, theirs, first_bit(block, from)) {
                return within(block, bit, size);
            }
        }
        None
    }

    /// The end of a run of places from this one on, of so many, of which all are marked or none is. Of a row it
    /// is this place alone.
    pub fn end_of_run(&self, size: usize, place: usize) -> usize
        requires { place < size }
        ensures later { place < result }
        ensures most { result ≤ size }
        ensures same { (k : ℕ) → place ≤ k → k < result → is_marked self.now k ≡ is_marked self.now place }
    {
        match self {
            Marks::Span(span) => span.end_of_run(size, place),
            Marks::Row(_) => place + 1,
        }
    }

    /// The word of a block in which the bits of its marked places are set.
    fn word(&self, size: usize, block: usize) -> u64
        requires { FitsSize size self.now }
        ensures { (bit : ℕ) → bit < 64 → block * 64 + bit < size → (bit_at result bit == 1) ≡ is_marked self.now (block * 64 + bit) }
    {
        match self {
            Marks::Span(span) => span.word(block),
            Marks::Row(row) => row.word(block),
        }
    }
}
