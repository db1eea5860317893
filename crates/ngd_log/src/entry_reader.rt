//! Reading the line of an entry.
ghost use Rattle.std.specs.Prelude.{◌≡◌, IfOk};
ghost use Rattle.dcsp_common.specs.Reading.{Reads};
ghost use Rattle.ngd_log.specs.Reading.{Gives};
ghost use Rattle.ngd_log.specs.EntryReading.{rising_at, deletion_front, after_deletion_mark, entry_front, entry_of};
ghost use Rattle.ngd_log.specs.Lent.{entry_in, RisesIn};

use crate::field::{after_byte, step_number_at};
use crate::reader::{Gathered, LineError, step_front};
use crate::standing::{EntryKind, Version};
use dcsp_common::Memory;
use dcsp_defs::{Entry, NumberList};
use std::alloc::Global;

/// Reads the numbers, each behind a space, as long as they rise, the first above 0.
fn rising_at<'t>(numbers: &mut Vec<u64>, bytes: &'t [u8]) -> Result<&'t [u8], LineError>
    ensures { Gives (λ rest. (numbers.new.items, rest.now)) result (rising_at bytes.now) }
{
    numbers.clear();
    let mut last = 0;
    let mut rest = bytes;
    while let Some(next) = after_byte(b' ', rest) {
        let Some((number, others)) = step_number_at(next) else {
            return Err(LineError::Bad);
        };
        if number <= last {
            return Err(LineError::Bad);
        }
        last = number;
        numbers.push(number)?;
        rest = others;
    }
    Ok(rest)
}

/// Reads the numbers of a deletion, whose line after its `d` is in front.
#[tactic(auto, unfolding(crate::specs::EntryReading::deletion_front))]
fn deletion_front<'t>(numbers: &mut Vec<u64>, bytes: &'t [u8]) -> Result<&'t [u8], LineError>
    ensures { Gives (λ rest. (numbers.new.items, rest.now)) result (deletion_front bytes.now) }
{
    let rest = rising_at(numbers, bytes)?;
    if numbers.is_empty() {
        return Err(LineError::Bad);
    }
    after_byte(b'\n', rest).ok_or(LineError::Bad)
}

/// What stands after the mark of a deletion, which a text of version 1 has not.
#[inline(always)]
fn after_deletion_mark(version: Version, bytes: &[u8]) -> Option<&[u8]>
    ensures { Reads (λ x. x.now) result (after_deletion_mark version bytes.now) }
{
    match version {
        Version::One => None,
        Version::Two => after_byte(b'd', bytes),
    }
}

/// Reads the entry whose line is in front in a log of this version, where the next step has this number, and gives
/// what stands after the line.
#[tactic(auto, unfolding(crate::specs::EntryReading::entry_front))]
#[inline(always)]
pub(crate) fn entry_front<'t>(
    gathered: &mut Gathered,
    version: Version,
    number: u64,
    bytes: &'t [u8],
) -> Result<(EntryKind, &'t [u8]), LineError>
    ensures { Gives (λ x. (entry_in x.0 gathered.new, x.1.now)) result (entry_front version number bytes.now) }
{
    match after_deletion_mark(version, bytes) {
        Some(rest) => {
            let rest = deletion_front(&mut gathered.numbers, rest)?;
            Ok((EntryKind::Delete, rest))
        }
        None => {
            let rest = step_front(gathered, number, bytes)?;
            Ok((EntryKind::Step, rest))
        }
    }
}

/// Reads the entry of a whole line.
#[tactic(auto, unfolding(crate::specs::EntryReading::entry_of))]
pub(crate) fn read_entry(
    gathered: &mut Gathered,
    version: Version,
    number: u64,
    line: &[u8],
) -> Result<EntryKind, LineError>
    ensures { Gives (λ kind. entry_in kind gathered.new) result (entry_of version number line.now) }
{
    match entry_front(gathered, version, number, line)? {
        (kind, []) => Ok(kind),
        _ => Err(LineError::Bad),
    }
}

/// The entry that was read, in lists of its own.
pub(crate) fn owned_entry(
    alloc: Global,
    kind: EntryKind,
    gathered: &Gathered,
) -> Result<Entry, Memory>
    requires { RisesIn (entry_in kind gathered.now) }
    ensures { IfOk result (λ entry. entry ≡ entry_in kind gathered.now) }
{
    match kind {
        EntryKind::Step => Ok(Entry::Step(gathered.step().copy(alloc)?)),
        EntryKind::Delete => {
            let numbers = Vec::from_slice(alloc, &gathered.numbers)?;
            Ok(Entry::Delete(NumberList::from_vec(numbers)))
        }
    }
}
