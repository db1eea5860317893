//! Appending the entries.
ghost use Rattle.std.specs.Prelude.{◌≡◌, ℕ, ◌+◌, ◌<◌, [], ◌∷◌, ◌++◌, List, length, slice_index_or, OnOk, IfOk};
ghost use Rattle.ngd_rewrite.specs.Upgrade.{as_deletion, upgraded, deleted_count};
ghost use Rattle.ngd_rewrite.specs.Endings.{Follows, AreEndings};

use crate::endings::Endings;
use dcsp_common::Memory;
use dcsp_defs::{ReasonList, Step};
use ngd_log::{Entries, Entry, NumberList};
use std::alloc::Global;

/// Appends the steps in order, and after each but the last a deletion of those that end there, if there are any.
/// It answers how many numbers the deletions have.
pub fn append_all(
    alloc: Global,
    steps: &[Step],
    endings: &Endings,
    into: &mut Entries,
) -> Result<u64, Memory>
    requires { AreEndings steps.now endings.now }
    ensures entries { OnOk result (into.new ≡ into.old ++ upgraded steps.now) }
    ensures deleted { IfOk result (λ deleted. deleted ≡ deleted_count (upgraded steps.now)) }
{
    let Some((last, front)) = steps.split_last() else {
        return Ok(0);
    };
    let mut deleted = 0;
    for (place, step) in front.iter().enumerate() {
        push(into, Entry::Step(copy_of(alloc, step)?))?;
        deleted += push_endings(alloc, endings, place, into)?;
    }
    push(into, Entry::Step(copy_of(alloc, last)?))?;
    Ok(deleted)
}

/// Appends a deletion of the steps that end at the step at a place, if there are any. It answers how many there are.
fn push_endings(
    alloc: Global,
    endings: &Endings,
    place: usize,
    into: &mut Entries,
) -> Result<u64, Memory>
    requires { place < length endings.now.firsts }
    ensures entries { (numbers : List ℕ) → Follows endings.now.nexts (slice_index_or endings.now.firsts place 0) numbers
        → OnOk result (into.new ≡ into.old ++ as_deletion numbers) }
    ensures deleted { (numbers : List ℕ) → Follows endings.now.nexts (slice_index_or endings.now.firsts place 0) numbers
        → IfOk result (λ deleted. deleted ≡ length numbers) }
{
    let mut numbers = Vec::new(alloc);
    endings.add_numbers(place, &mut numbers)?;
    let deleted = numbers.len() as u64;
    push_deletion(NumberList::from_vec(numbers), into)?;
    Ok(deleted)
}

/// A copy of the step.
fn copy_of(alloc: Global, step: &Step) -> Result<Step, Memory>
    ensures { IfOk result (λ copy. copy ≡ step.now) }
{
    let nogood = step.nogood.copy(alloc)?;
    let reasons = Vec::from_slice(alloc, step.reasons.items())?;
    Ok(Step {
        variable: step.variable,
        nogood,
        reasons: ReasonList::from_vec(reasons),
    })
}

/// Appends a deletion, if it has a number.
fn push_deletion(group: NumberList, into: &mut Entries) -> Result<(), Memory>
    ensures { OnOk result (into.new ≡ into.old ++ as_deletion group) }
{
    if group.is_empty() {
        return Ok(());
    }
    push(into, Entry::Delete(group))
}

/// Appends an entry.
fn push(into: &mut Entries, entry: Entry) -> Result<(), Memory>
    ensures { OnOk result (into.new ≡ into.old ++ entry ∷ []) }
{
    match into.push(entry) {
        Ok(()) => Ok(()),
        Err((_, memory)) => Err(memory),
    }
}
