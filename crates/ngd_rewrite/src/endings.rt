//! The steps that end at each step.
ghost use Rattle.std.specs.Prelude.{◌≡◌, ◌≢◌, ℕ, ◌+◌, ◌-◌, ◌<◌, ◌≤◌, ◌==◌, ◌∷◌, [], ◌++◌, List, length, slice_index_or, OnOk, IfOk};
ghost use Rattle.std.specs.List.{filter};
ghost use Rattle.dcsp_defs.specs.declared.Step.{Step as A_step};
ghost use Rattle.ngd_rewrite.specs.Upgrade.{numbers};
ghost use Rattle.ngd_rewrite.specs.Endings.{Follows, LeadLater, AreEnds, AreEndings, IsReadAs};

use crate::ends::ends_of;
use crate::log::ends_of_log;
use dcsp_common::Memory;
use ngd_log::{Derivation, LogError};
use std::alloc::Global;
use std::marker::Model;

/// For each step of a derivation, the steps that end there.
///
/// It has 16 bytes a step.
#[derive(Debug, Drop)]
pub struct Endings {
    /// For each step the place of the first step that ends there.
    firsts: Vec<usize>,
    /// For each step the place of the next one that ends where it does.
    nexts: Vec<usize>,
}

impl Model for Endings {
    ghost use Rattle.ngd_rewrite.specs.Endings.{Chains, LeadLater};

    ghost Value = { Chains };

    ghost view = { λ endings. record { firsts = endings.firsts.items; nexts = endings.nexts.items } };

    ghost invariant = { λ endings. LeadLater endings.nexts.items };
}

impl Endings {
    /// The endings of the derivation's steps. It takes time in proportion to the steps and their reasons.
    pub fn of(alloc: Global, derivation: &Derivation) -> Result<Endings, Memory>
        ensures { IfOk result (AreEndings derivation.now) }
    {
        let ends = ends_of(alloc, derivation.steps())?;
        chains_of(alloc, &ends)
    }

    /// The endings of the steps of a log of version 1, from its text. No step is kept, and it takes time in
    /// proportion to the text.
    ///
    /// `LogError::Line` comes exactly where `read_log` answers it, with the same number.
    pub fn of_log(alloc: Global, text: &[u8]) -> Result<Endings, LogError>
        ensures { IsReadAs AreEndings text.now result }
    {
        let ends = ends_of_log(alloc, text)?;
        match chains_of(alloc, &ends) {
            Ok(endings) => Ok(endings),
            Err(_) => Err(LogError::Memory),
        }
    }

    /// How many steps there are.
    pub fn len(&self) -> usize
        ensures { result ≡ length self.now.firsts }
    {
        self.firsts.len()
    }

    /// Adds the numbers of the steps that end at the step at this place, which counts from 0. They rise.
    pub fn add_numbers(&self, place: usize, into: &mut Vec<u64>) -> Result<(), Memory>
        requires { place < length self.now.firsts }
        ensures { (numbers : List ℕ) → Follows self.now.nexts (slice_index_or self.now.firsts place 0) numbers
            → OnOk result (into.new.items ≡ into.old.items ++ numbers) }
    {
        add_chain(&self.nexts, self.firsts[place], into)
    }
}

/// For each step the chain of the steps that end there.
fn chains_of(alloc: Global, ends: &[u64]) -> Result<Endings, Memory>
    requires { (i : ℕ) → i < length ends.now → (0 < slice_index_or ends.now i 0) × (slice_index_or ends.now i 0 ≤ length ends.now) }
    ensures { (steps : List A_step) → AreEnds steps ends.now → IfOk result (AreEndings steps) }
{
    let mut firsts = no_places(alloc, ends.len())?;
    let mut nexts = no_places(alloc, ends.len())?;
    link_all(&mut firsts, &mut nexts, ends);
    Ok(Endings { firsts, nexts })
}

/// So many places, each of which is past the last.
fn no_places(alloc: Global, count: usize) -> Result<Vec<usize>, Memory>
    ensures count { IfOk result (λ places. length places.items ≡ count) }
    ensures each { IfOk result (λ places. (i : ℕ) → i < count → slice_index_or places.items i 0 ≡ count) }
{
    Ok(vec![in alloc; count; count]?)
}

/// Puts each step before the chain of those that end where it does, from the last step on.
fn link_all(firsts: &mut [usize], nexts: &mut [usize], ends: &[u64])
    requires firsts { length firsts.old ≡ length ends.now }
    requires nexts { length nexts.old ≡ length ends.now }
    requires no_first { (k : ℕ) → k < length ends.now → slice_index_or firsts.old k 0 ≡ length ends.now }
    requires no_next { (i : ℕ) → i < length ends.now → slice_index_or nexts.old i 0 ≡ length ends.now }
    requires ends { (i : ℕ) → i < length ends.now → (0 < slice_index_or ends.now i 0) × (slice_index_or ends.now i 0 ≤ length ends.now) }
    ensures firsts { length firsts.new ≡ length ends.now }
    ensures nexts { length nexts.new ≡ length ends.now }
    ensures later { LeadLater nexts.new }
    ensures each { (k : ℕ) → k < length ends.now
        → Follows nexts.new (slice_index_or firsts.new k 0) (filter (λ number. slice_index_or ends.now (number - 1) 0 == k + 1) (numbers (length ends.now))) }
{
    let mut place = ends.len();
    while place > 0 {
        place -= 1;
        let end = ends[place] as usize - 1;
        set(nexts, place, firsts[end]);
        set(firsts, end, place);
    }
}

/// Changes the item at a place.
fn set(items: &mut [usize], place: usize, item: usize)
    requires { place < length items.old }
    ensures here { slice_index_or items.new place 0 ≡ item }
    ensures others { (k : ℕ) → k ≢ place → slice_index_or items.new k 0 ≡ slice_index_or items.old k 0 }
    ensures count { length items.new ≡ length items.old }
{
    items[place] = item;
}

/// Adds the numbers of the chain from this place on.
fn add_chain(nexts: &[usize], first: usize, into: &mut Vec<u64>) -> Result<(), Memory>
    requires { LeadLater nexts.now }
    ensures { (numbers : List ℕ) → Follows nexts.now first numbers → OnOk result (into.new.items ≡ into.old.items ++ numbers) }
{
    let mut place = first;
    while place < nexts.len() {
        add_number(into, place as u64 + 1)?;
        place = nexts[place];
    }
    Ok(())
}

fn add_number(into: &mut Vec<u64>, number: u64) -> Result<(), Memory>
    ensures { OnOk result (into.new.items ≡ into.old.items ++ number ∷ []) }
{
    into.push(number)?;
    Ok(())
}
