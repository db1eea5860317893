//! A set of numbers, one bit each.

ghost use Rattle.std.specs.Prelude.{◌≡◌, ◌≢◌, ◌<◌, ◌≤◌, ◌+◌, ◌*◌, ℕ, count_ones, ◌==◌, length, true, false, if◌then◌else◌, IfOk, slice_index_or};
ghost use Rattle.std.specs.Int.{bit_at};
ghost use Rattle.dcsp_common.specs.Limits.{most};
ghost use Rattle.dcsp_common.specs.declared.limits.Which.TheVariants.{Variables};
ghost use Rattle.abt_links.specs.Marks.{is_set, rank};

use dcsp_common::Memory;
use dcsp_common::word::next_bit;
use std::alloc::Global;
use std::marker::Model;

/// A set of numbers below a bound: number `i` is in where bit `i % 64` of word `i / 64` is set.
///
/// Where it has several words, a further one tells which of them have a number, so that the others, in a large network
/// most of them, are not looked at.
#[derive(Drop)]
pub(crate) struct Row {
    words: Vec<u64>,
    /// Bit `p` is set where word `p` has a number. With one word it is not kept.
    used: u64,
}

impl Model for Row {
    ghost use Rattle.std.specs.Prelude.{List, ℕ};

    ghost Value = { List ℕ };

    ghost view = { λ r. r.words.items };

    ghost use Rattle.abt_links.specs.Marks.{AreUsed};

    ghost invariant = { λ r. AreUsed r.words.items r.used };
}

impl Row {
    /// No number, with room for all below `bound`.
    pub(crate) fn new(alloc: Global, bound: u32) -> Result<Row, Memory>
        requires { bound ≤ most Variables }
        ensures room { IfOk result (λ r. bound ≤ 64 * length r) }
        ensures short { IfOk result (λ r. length r ≤ 64) }
        ensures none { IfOk result (λ r. (i : ℕ) → is_set r i ≡ false) }
    {
        let words = vec![in alloc; 0u64; (bound as usize + 63) / 64]?;
        Ok(Row { words, used: 0 })
    }

    /// Whether a number is in.
    pub(crate) fn contains(&self, number: u32) -> bool
        requires { number < 64 * length self.now }
        ensures { result ≡ is_set self.now number }
    {
        let word = self.words[number as usize / 64];
        (word >> (number % 64)) & 1 == 1
    }

    /// Puts a number in, if it is not in.
    pub(crate) fn insert(&mut self, number: u32)
        requires { number < 64 * length self.old }
        ensures marks { (i : ℕ) → is_set self.new i ≡ (if i == number then true else is_set self.old i) }
        ensures length { length self.new ≡ length self.old }
    {
        let place = number as usize / 64;
        let word = self.words[place];
        self.words[place] = with_bit(word, number % 64);
        if self.words.len() > 1 {
            self.used = with_bit(self.used, place as u32);
        }
    }

    /// The number that is in and has so many before it. It looks at the words up to it that have a number, and at the
    /// bits of one.
    pub(crate) fn nth(&self, rest: u32) -> u32
        requires short { length self.now ≤ 64 }
        requires some { rest < rank (is_set self.now) (64 * length self.now) }
        ensures set { is_set self.now result ≡ true }
        ensures before { rank (is_set self.now) result ≡ rest }
    {
        let last = self.words.len() - 1;
        let mut left = rest;
        let mut place = 0;
        while place < last {
            let word = self.words[place];
            let here = set_bits(word);
            if left < here {
                return place as u32 * 64 + nth_bit(word, left);
            }
            left -= here;
            place = self.next_used(place + 1, last);
        }
        // What is in no word before is in the last one, whose bits are not counted.
        last as u32 * 64 + nth_bit(self.words[last], left)
    }

    /// The first place from this one on whose word has a number, or the last place. The words before it have none.
    #[inline(always)]
    fn next_used(&self, from: usize, last: usize) -> usize
        requires last { length self.now ≡ last + 1 }
        requires from { from ≤ last }
        ensures from { from ≤ result }
        ensures last { result ≤ last }
        ensures none { (k : ℕ) → from ≤ k → k < result → slice_index_or self.now k 0 ≡ 0 }
    {
        match next_bit(self.used, 0, from) {
            Some(place) if place < last => place,
            _ => last,
        }
    }

    /// How many numbers before this one are in.
    pub(crate) fn rank(&self, number: u32) -> u32
        requires short { length self.now ≤ 64 }
        requires room { number < 64 * length self.now }
        ensures { result ≡ rank (is_set self.now) number }
    {
        let last = number as usize / 64;
        let mut before = 0;
        for place in 0..last {
            let word = self.words[place];
            before += word.count_ones();
        }
        before + ones_below(self.words[last], number % 64)
    }

    /// Takes a number out, if it is in.
    pub(crate) fn remove(&mut self, number: u32)
        requires { number < 64 * length self.old }
        ensures marks { (i : ℕ) → is_set self.new i ≡ (if i == number then false else is_set self.old i) }
        ensures length { length self.new ≡ length self.old }
    {
        let place = number as usize / 64;
        let word = without_bit(self.words[place], number % 64);
        self.words[place] = word;
        if word == 0 && self.words.len() > 1 {
            self.used = without_bit(self.used, place as u32);
        }
    }
}

/// The word with this bit set.
fn with_bit(word: u64, bit: u32) -> u64
    requires { bit < 64 }
    ensures same { bit_at result bit ≡ 1 }
    ensures others { (i : ℕ) → i ≢ bit → bit_at result i ≡ bit_at word i }
{
    word | (1 << bit)
}

/// The word with this bit cleared.
fn without_bit(word: u64, bit: u32) -> u64
    requires { bit < 64 }
    ensures less { result ≤ word }
    ensures same { bit_at result bit ≡ 0 }
    ensures others { (i : ℕ) → i < 64 → i ≢ bit → bit_at result i ≡ bit_at word i }
{
    word & !(1 << bit)
}

/// How many bits of the word are set. Most words have at most one, whose others are not counted.
#[inline(always)]
fn set_bits(word: u64) -> u32
    ensures { result ≡ count_ones word }
{
    if word == 0 {
        return 0;
    }
    let others = word & (word - 1);
    if others == 0 {
        return 1;
    }
    others.count_ones() + 1
}

/// The bit that has so many set bits below it: the lowest one, once these are cleared.
fn nth_bit(word: u64, rest: u32) -> u32
    requires { rest < count_ones word }
    ensures inside { result < 64 }
    ensures set { bit_at word result ≡ 1 }
    ensures before { rank (λ i. bit_at word i == 1) result ≡ rest }
{
    let mut bits = word;
    for _cleared in 0..rest {
        // All bits below the lowest set one are clear, so one less clears it and sets these.
        bits &= bits - 1;
    }
    bits.trailing_zeros()
}

/// How many bits below this one are set.
fn ones_below(word: u64, bit: u32) -> u32
    requires { bit < 64 }
    ensures { result ≡ rank (λ i. bit_at word i == 1) bit }
{
    (word & ((1 << bit) - 1)).count_ones()
}
