//! Runs of places, and all places outside them.

ghost use Rattle.std.specs.Prelude.{◌≡◌, ◌≢◌, ◌<◌, ◌≤◌, ◌+◌, ◌*◌, ◌^◌, ◌==◌, ℕ, IfSome, not, unwrap_or};
ghost use Rattle.std.specs.Int.{bit_at};
ghost use Rattle.dcsp_row.specs.Spans.{is_between, is_within};

use dcsp_common::word::low_word;

/// The places from one on that stand before another, or all others.
#[derive(Clone, Copy, Debug, PartialEq, Eq)]
pub struct Span {
    pub from: usize,
    pub to: usize,
    /// Not 0 for all other places. It is a whole word, so that a span has no gap between its fields: a gap is
    /// copied byte by byte, and the copy waits for what was written just before.
    pub outside: u64,
}

impl Span {
    /// All places, or none.
    #[inline(always)]
    pub fn whole(all: bool) -> Span
        ensures { (k : ℕ) → is_within result k ≡ all }
    {
        Span {
            from: 0,
            to: 0,
            outside: u64::from(all),
        }
    }

    /// This place alone.
    #[inline(always)]
    pub fn one(place: usize) -> Span
        requires { place < 2 ^ 63 }
        ensures { (k : ℕ) → is_within result k ≡ is_between place (place + 1) k }
    {
        Span {
            from: place,
            to: place + 1,
            outside: 0,
        }
    }

    /// The other places.
    #[inline(always)]
    pub fn others(self) -> Span
        ensures { (k : ℕ) → is_within result k ≡ not (is_within self k) }
    {
        Span {
            from: self.from,
            to: self.to,
            outside: u64::from(self.outside == 0),
        }
    }

    /// Whether the place is one of them.
    pub fn has(self, place: usize) -> bool
        ensures { result ≡ is_within self place }
    {
        let between = self.from <= place && place < self.to;
        between != (self.outside != 0)
    }

    /// The first of so many places, from this one on, that one of the spans has and the other does not;
    /// `None` where they have the same from there on. It looks at their ends alone.
    pub fn next_change(self, other: Span, size: usize, from: usize) -> Option<usize>
        ensures within { IfSome result (λ place. (from ≤ place) × (place < size)) }
        ensures same { (k : ℕ) → from ≤ k → k < unwrap_or result size → is_within self k ≡ is_within other k }
        ensures differs { IfSome result (λ place. is_within self place ≢ is_within other place) }
    {
        let mut at = from;
        while at < size {
            if self.has(at) != other.has(at) {
                return Some(at);
            }
            let end = cut(cut(size, at, self.from), at, self.to);
            at = cut(cut(end, at, other.from), at, other.to);
        }
        None
    }

    /// The end of a run of places from this one on, of so many, of which the span has all or none. It looks at
    /// its ends alone.
    pub fn end_of_run(self, size: usize, place: usize) -> usize
        requires { place < size }
        ensures later { place < result }
        ensures most { result ≤ size }
        ensures same { (k : ℕ) → place ≤ k → k < result → is_within self k ≡ is_within self place }
    {
        cut(cut(size, place, self.from), place, self.to)
    }

    /// The word of a block in which their bits are set.
    pub fn word(self, block: usize) -> u64
        ensures { (bit : ℕ) → bit < 64 → (bit_at result bit == 1) ≡ is_within self (block * 64 + bit) }
    {
        let between = word_between(self.from, self.to, block);
        if self.outside != 0 { !between } else { between }
    }
}

/// The word of a block in which the bits of the places from one on that stand before another are set.
fn word_between(from: usize, to: usize, block: usize) -> u64
    ensures { (bit : ℕ) → bit < 64 → (bit_at result bit == 1) ≡ is_between from to (block * 64 + bit) }
{
    low_word(block, to) & !low_word(block, from)
}

/// The end, or this place if it comes before the end and after the other one.
fn cut(end: usize, after: usize, place: usize) -> usize
    requires { after < end }
    ensures later { after < result }
    ensures most { result ≤ end }
    ensures cut { after < place → result ≤ place }
{
    if after < place && place < end {
        place
    } else {
        end
    }
}
