//! The reasons of a step that is kept, one after another.

ghost use Rattle.std.specs.Prelude.{◌≡◌, ◌++◌, ◌∷◌, [], ◌<◌, ◌≤◌, ◌*◌, ◌+◌, IsNone, IfSome, IfOk, OnOk, length};
ghost use Rattle.ngd_store.specs.Rests.{reasons_in};

use crate::rests::{A_STEP, FAR_RULE};
use dcsp_common::Memory;
use dcsp_defs::Reason;
use std::alloc::Global;
use std::marker::Model;

/// Reasons that are lent, in order, of which the first can be taken away.
#[derive(Drop)]
pub struct Reasons<'r> {
    words: &'r [u16],
}

impl<'r> Model for Reasons<'r> {
    ghost use Rattle.std.specs.Prelude.{List};
    ghost use Rattle.dcsp_defs.specs.declared.Reason.{Reason};
    ghost use Rattle.ngd_store.specs.Rests.{reasons_in};

    ghost Value = { List Reason };

    ghost view = { λ reasons. reasons_in reasons.words.now };
}

impl<'r> Reasons<'r> {
    /// The reasons that these words stand for.
    pub(crate) fn of(words: &'r [u16]) -> Reasons<'r>
        ensures { result ≡ reasons_in words.now }
    {
        Reasons { words }
    }

    /// Takes the first reason away; `None` where there is none.
    pub fn take_first(&mut self) -> Option<Reason>
        ensures first { IfSome result (λ reason. self.old ≡ reason ∷ self.new) }
        ensures none { IsNone result → self.old ≡ [] }
    {
        let (reason, rest) = reason_at(self.words)?;
        self.words = rest;
        Some(reason)
    }

    /// The reasons in a list of its own.
    pub fn list(self, alloc: Global) -> Result<Vec<Reason>, Memory>
        ensures { IfOk result (λ reasons. reasons.items ≡ self.entry) }
    {
        // A reason has a word or more.
        let mut into = Vec::with_capacity(alloc, self.words.len())?;
        add_all(self, &mut into)?;
        Ok(into)
    }
}

/// Adds the reasons to the list.
fn add_all(reasons: Reasons<'_>, into: &mut Vec<Reason>) -> Result<(), Memory>
    ensures { OnOk result (into.new.items ≡ into.old.items ++ reasons.entry) }
{
    let mut left = reasons;
    while let Some(reason) = left.take_first() {
        add(into, reason)?;
    }
    Ok(())
}

fn add(into: &mut Vec<Reason>, reason: Reason) -> Result<(), Memory>
    ensures { OnOk result (into.new.items ≡ into.old.items ++ reason ∷ []) }
{
    into.push(reason)?;
    Ok(())
}

/// The reason that the words in front stand for, and the words after these.
fn reason_at(words: &[u16]) -> Option<(Reason, &[u16])>
    ensures read { IfSome result (λ x. reasons_in words.now ≡ x.0 ∷ reasons_in x.1.now) }
    ensures shorter { IfSome result (λ x. length x.1.now < length words.now) }
    ensures none { IsNone result → reasons_in words.now ≡ [] }
{
    let [word, rest @ ..] = words else {
        return None;
    };
    if *word < FAR_RULE {
        return Some((Reason::Rule(u32::from(*word)), rest));
    }
    marked_at(words)
}

/// The same, where there may be a mark in front.
fn marked_at(words: &[u16]) -> Option<(Reason, &[u16])>
    ensures read { IfSome result (λ x. reasons_in words.now ≡ x.0 ∷ reasons_in x.1.now) }
    ensures shorter { IfSome result (λ x. length x.1.now < length words.now) }
    ensures none { IsNone result → reasons_in words.now ≡ [] }
{
    match words {
        [A_STEP, high, low, rest @ ..] => {
            Some((Reason::Earlier(u64::from(number_of(*high, *low))), rest))
        }
        [FAR_RULE, high, low, rest @ ..] => Some((Reason::Rule(number_of(*high, *low)), rest)),
        [word, rest @ ..] => Some((Reason::Rule(u32::from(*word)), rest)),
        [] => None,
    }
}

/// The number that two words stand for.
fn number_of(high: u16, low: u16) -> u32
    ensures { result ≡ high * 65536 + low }
{
    u32::from(high) * 65536 + u32::from(low)
}
