//! Walks over the marked places of a row.

ghost use Rattle.std.specs.Prelude.{◌≡◌, ◌≢◌, ◌<◌, ◌≤◌, ◌+◌, ◌*◌, ◌==◌, ℕ, IfSome, IsNone, false, length, slice_index_or, true, unwrap_or};
ghost use Rattle.std.specs.Int.{bit_at};
ghost use Rattle.dcsp_row.specs.Walks.{IsOn, HasMarkIn, NoneBetween};

use crate::row::Row;
use dcsp_common::word::{BLOCK, low_word};

/// Where a walk over the marked places of a row stands.
#[derive(Clone, Copy, Debug)]
pub struct Walk {
    /// The first place that is not passed.
    from: usize,
    /// The first place of the block that the walk is in.
    first: usize,
    /// The bits of that block's marked places that are not passed.
    bits: u64,
}

impl Row {
    /// A walk over the marked places that has passed none.
    #[inline(always)]
    pub fn walk(&self) -> Walk
        ensures from { result.from ≡ 0 }
        ensures on { IsOn self.now result }
    {
        Walk {
            from: 0,
            first: 0,
            bits: self.bits(0),
        }
    }

    /// The next marked place of a walk over this row, if there is one. The walk passes it.
    #[inline(always)]
    pub fn next_of(&self, walk: &mut Walk) -> Option<usize>
        requires { IsOn self.now walk.old }
        ensures within { IfSome result (λ place. (walk.old.from ≤ place) × (place < length self.now)) }
        ensures before { NoneBetween self.now walk.old.from (unwrap_or result (length self.now)) }
        ensures marked { IfSome result (λ place. slice_index_or self.now place false ≡ true) }
        ensures passed { IfSome result (λ place. walk.new.from ≡ place + 1) }
        ensures on { IsOn self.now walk.new }
    {
        if !self.enter(walk) {
            return None;
        }
        Some(self.pass(walk))
    }

    /// Brings the walk into the first block that has a mark which is not passed. False exactly if none has one.
    #[inline(always)]
    fn enter(&self, walk: &mut Walk) -> bool
        requires { IsOn self.now walk.old }
        ensures on { IsOn self.now walk.new }
        ensures later { walk.old.from ≤ walk.new.from }
        ensures before { NoneBetween self.now walk.old.from walk.new.from }
        ensures some { result ≡ true → walk.new.bits ≢ 0 }
        ensures end { result ≡ false → NoneBetween self.now walk.old.from (length self.now) }
    {
        if walk.bits != 0 {
            return true;
        }
        // Most rows have one block.
        if self.len() - walk.first <= BLOCK {
            return false;
        }
        match self.next_block(walk.first / BLOCK + 1) {
            None => false,
            Some(block) => {
                *walk = Walk {
                    from: block * BLOCK,
                    first: block * BLOCK,
                    bits: self.bits(block),
                };
                true
            }
        }
    }

    /// Passes the places up to the next marked one, which stands in the walk's block.
    #[inline(always)]
    fn pass(&self, walk: &mut Walk) -> usize
        requires on { IsOn self.now walk.old }
        requires some { walk.old.bits ≢ 0 }
        ensures within { (walk.old.from ≤ result) × (result < length self.now) }
        ensures before { NoneBetween self.now walk.old.from result }
        ensures marked { slice_index_or self.now result false ≡ true }
        ensures passed { walk.new.from ≡ result + 1 }
        ensures on { IsOn self.now walk.new }
    {
        let _places = self.len();
        let place = walk.first + walk.bits.trailing_zeros() as usize;
        // One less has no more the lowest bit, but those below it.
        walk.bits &= walk.bits - 1;
        walk.from = place + 1;
        place
    }

    /// The first block, from this one on, that has a mark, if there is one.
    #[inline(never)]
    fn next_block(&self, from: usize) -> Option<usize>
        ensures within { IfSome result (λ block. (from ≤ block) × (block * 64 < length self.now)) }
        ensures before { IfSome result (λ block. NoneBetween self.now (from * 64) (block * 64)) }
        ensures end { IsNone result → NoneBetween self.now (from * 64) (length self.now) }
        ensures some { IfSome result (λ block. HasMarkIn self.now block) }
    {
        for block in from..self.len().div_ceil(BLOCK) {
            if self.bits(block) != 0 {
                return Some(block);
            }
        }
        None
    }

    /// The bits of a block's marked places.
    #[inline(always)]
    fn bits(&self, block: usize) -> u64
        ensures { (bit : ℕ) → bit < 64 → (bit_at result bit == 1) ≡ slice_index_or self.now (block * 64 + bit) false }
    {
        self.word(block) & low_word(block, self.len())
    }
}
