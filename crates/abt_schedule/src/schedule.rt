//! Schedules as text.

ghost use Rattle.std.specs.Prelude.{◌≡◌, ℕ, ◌+◌, ◌<◌, ◌≤◌, ◌^◌, ◌++◌, List, length, map, take, IfOk, IfErr, IfSome, IfNone, IsErrOf, OnOk, OnErr, Ok, Err};
ghost use Rattle.std.specs.List.{concat};
ghost use Rattle.abt_schedule.specs.Schedules.{choice_line, schedule_text, AreChoices, IsScheduleOf, BeginsWithChoice, IsFirstBad, IsCause, IsUnlessMemory, NextLine, ScheduleOrBadLine, SchedulesDiffer};

use crate::listed::Listed;
use dcsp_common::Memory;
use itoa::Buffer;
use ngd_log::{after, integer_at};
use std::alloc::{AllocError, Global};

/// The first line of a schedule.
const HEAD: &[u8] = b"schedule 1\n";

/// The last line of a schedule.
const TAIL: &[u8] = b"end\n";

/// Why a text gives no choices.
#[derive(Clone, Copy, Debug, PartialEq, Eq)]
pub enum ScheduleError {
    /// The text is no schedule, and this is its first bad line, counted from 1.
    Line { number: u64 },
    Memory,
}

/// The choices whose schedule the text is.
///
/// Line 1 of a schedule is `schedule 1`, and each later line is that of a choice, or `end`, which is the
/// last. `ScheduleError::Line` comes exactly where the text is no schedule, and names the first line
/// that is not so, or that is missing. A rest without a line feed is a bad line. Beside the text it
/// takes 4 bytes for each choice.
pub fn read_schedule(alloc: Global, text: &[u8]) -> Result<Listed, ScheduleError>
    ensures schedule { IfOk result (λ choices. IsScheduleOf text.now choices) }
    ensures line { (number : ℕ) → IsErrOf result (ScheduleError.Line number) → IsFirstBad text.now number }
    ensures accepts { (choices : List ℕ) → IsScheduleOf text.now choices → IsUnlessMemory (Ok choices) result }
    ensures refuses { (number : ℕ) → IsFirstBad text.now number → IsUnlessMemory (Err (ScheduleError.Line number)) result }
{
    choices_of(alloc, text)
}

/// Reads the lines one after the other.
fn choices_of(alloc: Global, text: &[u8]) -> Result<Listed, ScheduleError>
    ensures schedule { IfOk result (λ choices. IsScheduleOf text.now choices) }
    ensures cause { IfErr result (IsCause text.now) }
{
    let Some(first) = after(HEAD, text) else {
        return Err(ScheduleError::Line { number: 1 });
    };
    let Ok(mut choices) = Vec::with_capacity(alloc, most_choices(first)) else {
        return Err(ScheduleError::Memory);
    };
    let mut rest = first;
    while let Some((choice, others)) = choice_at(rest) {
        if let Err(_) = choices.push(choice) {
            return Err(ScheduleError::Memory);
        }
        rest = others;
    }
    let number = choices.len() as u64 + 2;
    match after(TAIL, rest) {
        Some([]) => Ok(Listed::from_vec(choices)),
        Some(_) => Err(ScheduleError::Line { number: number + 1 }),
        None => Err(ScheduleError::Line { number }),
    }
}

/// No fewer than the choices that the lines can be, so that room for them is made once.
fn most_choices(lines: &[u8]) -> usize {
    let feeds = lines.iter().filter(|byte| **byte == b'\n').count();
    feeds.min(lines.len() / 2)
}

/// The choice whose line is at the front, and what follows the line.
fn choice_at(bytes: &[u8]) -> Option<(u32, &[u8])>
    ensures some { IfSome result (λ x. BeginsWithChoice bytes.now x.0 x.1.now) }
    ensures shorter { IfSome result (λ x. length x.1.now < length bytes.now) }
    ensures none { IfNone result ((choice : ℕ) (rest : List ℕ) → BeginsWithChoice bytes.now choice rest → ⊥) }
{
    let Some((value, rest)) = integer_at(bytes) else {
        return None;
    };
    let Ok(choice) = u32::try_from(value) else {
        return None;
    };
    let Some(rest) = after(b"\n", rest) else {
        return None;
    };
    Some((choice, rest))
}

/// Appends the schedule of the choices. A refusal leaves `into` as it was.
pub fn write_schedule(choices: &[u32], into: &mut Vec<u8>) -> Result<(), Memory>
    ensures ok { OnOk result (into.new.items ≡ into.old.items ++ schedule_text choices.now) }
    ensures in_range { AreChoices choices.now }
    ensures err { OnErr result (into.new.items ≡ into.old.items) }
{
    let before = into.len();
    if push_lines(choices, into).is_err() {
        into.truncate(before);
        return Err(Memory);
    }
    Ok(())
}

/// Appends the lines of a schedule.
fn push_lines(choices: &[u32], into: &mut Vec<u8>) -> Result<(), AllocError>
    ensures ok { OnOk result (into.new.items ≡ into.old.items ++ schedule_text choices.now) }
    ensures kept { take (length into.old.items) into.new.items ≡ into.old.items }
{
    into.extend_from_slice(HEAD)?;
    for choice in choices {
        push_choice(*choice, into)?;
    }
    into.extend_from_slice(TAIL)?;
    Ok(())
}

/// Appends the line of a choice.
fn push_choice(choice: u32, into: &mut Vec<u8>) -> Result<(), AllocError>
    ensures ok { OnOk result (into.new.items ≡ into.old.items ++ choice_line choice) }
    ensures kept { take (length into.old.items) into.new.items ≡ into.old.items }
{
    into.extend_from_slice(Buffer::new().format(choice).as_bytes())?;
    into.extend_from_slice(b"\n")
}

/// Different lists have different schedules, and no schedule begins another.
pub fn schedules_differ()
    ensures { SchedulesDiffer }
{}

/// After the lines of choices a schedule has the line of a choice, or `end`.
pub fn next_lines()
    ensures { (choices line : List ℕ) → AreChoices choices → NextLine choices line }
{}

/// Each text is the schedule of one list, or has one first bad line.
pub fn schedule_or_bad_line()
    ensures { (text : List ℕ) → ScheduleOrBadLine text }
{}
