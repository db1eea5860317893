//! What steps have beside their nogoods, in one list of words.

ghost use Rattle.std.specs.Prelude.{◌≡◌, ◌++◌, ◌∷◌, [], ◌<◌, ◌≤◌, ◌*◌, ◌+◌, ◌^◌, ℕ, None, List, OnOk, OnErr, IfOk, length, take, slice_index_or};
ghost use Rattle.dcsp_defs.specs.declared.Reason.{Reason as A_reason};
ghost use Rattle.ngd_store.specs.Rests.{Rest, no_rest, variable_in, AreEnds, HasAdded, HasAddedRest, IsFar, rest_in, start_at, part};

use crate::arena::NO_VAR;
use crate::reasons::Reasons;
use dcsp_common::Memory;
use dcsp_defs::Reason;
use std::alloc::Global;
use std::marker::Model;

/// The word before the two of the number of a step.
pub const A_STEP: u16 = u16::MAX;

/// The word before the two of a rule's number that is not below this word.
pub const FAR_RULE: u16 = u16::MAX - 1;

/// The variables and reasons of steps, by place.
///
/// A step costs 4 bytes and 2 for its variable, and a reason 2, or 6 where it is a step or its number is 65,534 or
/// greater. There are at most 2^32 words, and a cited step has a number below 2^32.
#[derive(Drop)]
pub struct Rests {
    words: Vec<u16>,
    /// Where the words of each step end.
    ends: Vec<u32>,
}

impl Model for Rests {
    ghost use Rattle.std.specs.Prelude.{List};
    ghost use Rattle.ngd_store.specs.Rests.{Rest, rests_in, AreEnds};

    ghost Value = { List Rest };

    ghost view = { λ rests. rests_in rests.words.items rests.ends.items };

    ghost invariant = { λ rests. AreEnds rests.words.items rests.ends.items };
}

impl Rests {
    /// No step.
    pub fn new(alloc: Global) -> Rests
        ensures { result ≡ [] }
    {
        Rests {
            words: Vec::new(alloc),
            ends: Vec::new(alloc),
        }
    }

    /// How many steps there are.
    pub fn len(&self) -> usize
        ensures len { result ≡ length self.now }
        ensures small { result < 2 ^ 63 }
    {
        self.ends.len()
    }

    /// Adds a step. After a refusal nothing has changed.
    pub fn push(&mut self, variable: Option<u32>, reasons: &[Reason]) -> Result<(), Memory>
        ensures ok { OnOk result (self.new ≡ self.old ++ record { variable = variable; reasons = reasons.now } ∷ []) }
        ensures err { OnErr result (self.new ≡ self.old) }
    {
        let start = start_of(&self.ends, self.ends.len());
        self.words.truncate(start);
        put_rest(&mut self.words, variable, reasons)?;
        let Ok(end) = u32::try_from(self.words.len()) else {
            return Err(Memory);
        };
        push_end(&mut self.ends, end)
    }

    /// Takes the last step away.
    pub fn pop(&mut self)
        ensures { (rests : List Rest) (rest : Rest) → self.old ≡ rests ++ rest ∷ [] → self.new ≡ rests }
    {
        self.ends.pop();
    }

    /// The variable of the step at this place.
    pub fn variable(&self, place: usize) -> Option<u32>
        requires { place < length self.now }
        ensures { result ≡ (slice_index_or self.now place no_rest).variable }
    {
        match self.words_at(place) {
            [] => None,
            [word, ..] => variable_at(*word),
        }
    }

    /// The reasons of the step at this place, in order.
    pub fn reasons(&self, place: usize) -> Reasons<'_>
        requires { place < length self.now }
        ensures { result ≡ (slice_index_or self.now place no_rest).reasons }
    {
        match self.words_at(place) {
            [] => Reasons::of(&[]),
            [_, words @ ..] => Reasons::of(words),
        }
    }

    /// The words of the step at this place.
    fn words_at(&self, place: usize) -> &[u16]
        requires { place < length self.now }
        ensures { rest_in result.now ≡ slice_index_or self.now place no_rest }
    {
        let start = start_of(&self.ends, place);
        let end = self.ends[place] as usize;
        part_of(&self.words, start, end)
    }
}

/// Where the words of the step at this place begin.
fn start_of(ends: &[u32], place: usize) -> usize
    requires { place ≤ length ends.now }
    ensures { result ≡ start_at ends.now place }
{
    if place == 0 {
        return 0;
    }
    ends[place - 1] as usize
}

/// The words from a place to another.
fn part_of(words: &[u16], start: usize, end: usize) -> &[u16]
    requires after { start ≤ end }
    requires within { end ≤ length words.now }
    ensures { result.now ≡ part words.now start end }
{
    &words[start..end]
}

fn push_end(ends: &mut Vec<u32>, end: u32) -> Result<(), Memory>
    ensures ok { OnOk result (ends.new.items ≡ ends.old.items ++ end ∷ []) }
    ensures err { OnErr result (ends.new.items ≡ ends.old.items) }
{
    ends.push(end)?;
    Ok(())
}

/// The variable that a word stands for.
fn variable_at(word: u16) -> Option<u32>
    ensures { result ≡ variable_in word }
{
    if word == NO_VAR {
        None
    } else {
        Some(u32::from(word))
    }
}

/// Adds the words of a step. A refusal leaves those that were there in front.
fn put_rest(words: &mut Vec<u16>, variable: Option<u32>, reasons: &[Reason]) -> Result<(), Memory>
    ensures ok { OnOk result (HasAddedRest words.old.items words.new.items (record { variable = variable; reasons = reasons.now })) }
    ensures kept { take (length words.old.items) words.new.items ≡ words.old.items }
{
    let word = word_of(variable)?;
    put_word(words, word)?;
    put_reasons(words, reasons)
}

/// The word that stands for the variable.
fn word_of(variable: Option<u32>) -> Result<u16, Memory>
    ensures { IfOk result (λ word. variable_in word ≡ variable) }
{
    let Some(var) = variable else {
        return Ok(NO_VAR);
    };
    if var < u32::from(NO_VAR) {
        Ok(var as u16)
    } else {
        Err(Memory)
    }
}

/// Adds the words of the reasons. A refusal leaves those that were there in front.
fn put_reasons(words: &mut Vec<u16>, reasons: &[Reason]) -> Result<(), Memory>
    ensures ok { OnOk result (HasAdded words.old.items words.new.items reasons.now) }
    ensures kept { take (length words.old.items) words.new.items ≡ words.old.items }
{
    for reason in reasons {
        put_reason(words, *reason)?;
    }
    Ok(())
}

/// Adds the words of the reason. A refusal changes nothing.
fn put_reason(words: &mut Vec<u16>, reason: Reason) -> Result<(), Memory>
    ensures ok { OnOk result (HasAdded words.old.items words.new.items (reason ∷ [])) }
    ensures err { OnErr result (words.new.items ≡ words.old.items) }
{
    match reason {
        Reason::Rule(rule) => {
            if rule < u32::from(FAR_RULE) {
                put_word(words, rule as u16)
            } else {
                put_far(words, FAR_RULE, rule)
            }
        }
        Reason::Earlier(number) => {
            if number <= u64::from(u32::MAX) {
                put_far(words, A_STEP, number as u32)
            } else {
                Err(Memory)
            }
        }
    }
}

/// Adds the mark and the two words of the number.
fn put_far(words: &mut Vec<u16>, mark: u16, number: u32) -> Result<(), Memory>
    ensures ok { OnOk result (IsFar words.old.items words.new.items mark number) }
    ensures err { OnErr result (words.new.items ≡ words.old.items) }
{
    let high = (number / 65536) as u16;
    let low = (number % 65536) as u16;
    put(words, &[mark, high, low])
}

/// Adds this word. A refusal changes nothing.
fn put_word(words: &mut Vec<u16>, word: u16) -> Result<(), Memory>
    ensures ok { OnOk result (words.new.items ≡ words.old.items ++ word ∷ []) }
    ensures err { OnErr result (words.new.items ≡ words.old.items) }
{
    words.push(word)?;
    Ok(())
}

/// Adds these words. A refusal changes nothing.
fn put(words: &mut Vec<u16>, more: &[u16]) -> Result<(), Memory>
    ensures ok { OnOk result (words.new.items ≡ words.old.items ++ more.now) }
    ensures err { OnErr result (words.new.items ≡ words.old.items) }
{
    words.extend_from_slice(more)
}
