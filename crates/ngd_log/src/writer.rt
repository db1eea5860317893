//! A step as a line of a log.
//!
//! The longest line that a step may have tells how long a room it needs, so that room is made at most once. The line is
//! written there place by place.
ghost use Rattle.std.specs.Prelude.{◌≡◌, ℕ, ◌+◌, ◌*◌, ◌≤◌, [], ◌∷◌, ◌++◌, codes, decimal, length, take, FitsSigned, IfOk, IfSome, OnOk, OnErr};
ghost use Rattle.std.specs.Int.{w64};
ghost use Rattle.std.specs.List.{AllByRecursion};
ghost use Rattle.dcsp_defs.specs.Pairs.{IsRising};
ghost use Rattle.ngd_log.specs.StepText.{pair_text, pairs_text, reason_text, reasons_text, variable_text, step_line, IsStepNumber, IsInRange, IsWritable};

use crate::place::{put, put_number, put_value};
use dcsp_common::Memory;
use dcsp_defs::{Pair, Reason, Step};

/// The first line of a log.
pub const HEAD: &[u8] = b"ngd 1\n";

/// The last line of a log.
pub const TAIL: &[u8] = b"end\n";

/// The most bytes of a line besides its pairs and reasons.
const FRAME: usize = 64;

/// The most bytes of a pair, and of what stands before it.
const PAIR: usize = 48;

/// The most bytes of a reason, and of what stands before it.
const REASON: usize = 24;

/// Appends the line of a step with this number. A refusal leaves `into` as it was.
///
/// The numbers are in range: the step's own and an earlier step's from 1 to 2^62, a variable's from
/// 1 to 4,096 and a rule's from 1 to 262,144, both of which the fields count from 0. A step without
/// a variable has the empty nogood and one reason, a rule.
pub fn write_step(number: u64, step: &Step, into: &mut Vec<u8>) -> Result<(), Memory>
    requires number { IsStepNumber number }
    requires step { IsInRange step.now }
    ensures ok { OnOk result (into.new.items ≡ into.old.items ++ step_line number step.now) }
    ensures writable { OnOk result (IsWritable step.now) }
    ensures err { OnErr result (into.new.items ≡ into.old.items) }
{
    let start = into.len();
    let end = write_step_at(number, step, into, start)?;
    into.truncate(end);
    Ok(())
}

/// Writes the line of a step with this number into `room` from place `at` on, over what stands there, and tells the place
/// behind the line.
///
/// What stands before `at` stays. The room grows, by zeros, only where it is too short for the longest line that the
/// step may have. The numbers are in range, as for [`write_step`]. The error is want of memory for a longer room, and
/// leaves `room` as it was.
pub fn write_step_at(
    number: u64,
    step: &Step,
    room: &mut Vec<u8>,
    at: usize,
) -> Result<usize, Memory>
    requires number { IsStepNumber number }
    requires step { IsInRange step.now }
    requires place { at ≤ length room.old.items }
    ensures ok { IfOk result (λ end. take end room.new.items ≡ take at room.old.items ++ step_line number step.now) }
    ensures place { IfOk result (λ end. end ≤ length room.new.items) }
    ensures writable { OnOk result (IsWritable step.now) }
    ensures err { OnErr result (room.new.items ≡ room.old.items) }
{
    let Some(end) = end_of_room(at, step.nogood.pairs().len(), step.reasons.len()) else {
        return Err(Memory);
    };
    reach(room, end)?;
    Ok(put_step(room, at, number, step))
}

/// Makes the room at least so long. What stands in it stays.
fn reach(room: &mut Vec<u8>, end: usize) -> Result<(), Memory>
    ensures long { OnOk result (end ≤ length room.new.items) }
    ensures stays { OnOk result (take (length room.old.items) room.new.items ≡ room.old.items) }
    ensures err { OnErr result (room.new.items ≡ room.old.items) }
{
    if room.len() < end {
        room.resize(end, 0)?;
    }
    Ok(())
}

/// Where the room for a line with so many pairs and reasons ends that begins at `start`, if that is a number.
fn end_of_room(start: usize, pairs: usize, reasons: usize) -> Option<usize>
    ensures { IfSome result (λ end. start + 64 + 48 * pairs + 24 * reasons ≤ end) }
{
    let pairs = pairs.checked_mul(PAIR)?;
    let reasons = reasons.checked_mul(REASON)?;
    start
        .checked_add(FRAME)?
        .checked_add(pairs)?
        .checked_add(reasons)
}

/// Writes the line of a step, and tells the place behind it.
#[inline(always)]
fn put_step(room: &mut [u8], at: usize, number: u64, step: &Step) -> usize
    requires { at + 64 + 48 * length step.now.nogood + 24 * length step.now.reasons ≤ length room.old }
    ensures place { result ≤ length room.new }
    ensures text { take result room.new ≡ take at room.old ++ step_line number step.now }
    ensures rising { IsRising step.now.nogood }
    ensures values { AllByRecursion (λ y. FitsSigned w64 y.value) step.now.nogood }
{
    let at = put_head(room, at, number, step.variable);
    let at = put_pairs(room, at, step.nogood.pairs());
    let at = put_arrow(room, at);
    let at = put_reasons(room, at, step.reasons.items());
    put(room, at, b'\n')
}

/// Writes what stands before a step's pairs, and tells the place behind it.
#[inline(always)]
fn put_head(room: &mut [u8], at: usize, number: u64, variable: Option<u32>) -> usize
    requires { at + 43 ≤ length room.old }
    ensures place { result ≤ at + 43 }
    ensures text { take result room.new ≡ take at room.old ++ (decimal number ++ codes " " ++ variable_text variable ++ codes " ") }
{
    let at = put_number(room, at, number);
    let at = put(room, at, b' ');
    let at = put_variable(room, at, variable);
    put(room, at, b' ')
}

/// Writes a step's variable, and tells the place behind it.
#[inline(always)]
fn put_variable(room: &mut [u8], at: usize, variable: Option<u32>) -> usize
    requires { at + 21 ≤ length room.old }
    ensures place { result ≤ at + 21 }
    ensures text { take result room.new ≡ take at room.old ++ variable_text variable }
{
    match variable {
        None => put(room, at, b'-'),
        Some(variable) => {
            let at = put(room, at, b'v');
            put_number(room, at, u64::from(variable) + 1)
        }
    }
}

/// Writes what stands before the reasons, and tells the place behind it.
#[inline(always)]
fn put_arrow(room: &mut [u8], at: usize) -> usize
    requires { at + 3 ≤ length room.old }
    ensures place { result ≡ at + 3 }
    ensures text { take result room.new ≡ take at room.old ++ codes " <-" }
{
    let at = put(room, at, b' ');
    let at = put(room, at, b'<');
    put(room, at, b'-')
}

/// Writes a byte and a pair after it, and tells the place behind it.
#[inline(always)]
fn put_pair(room: &mut [u8], at: usize, before: u8, pair: &Pair) -> usize
    requires { at + 48 ≤ length room.old }
    ensures place { result ≤ at + 48 }
    ensures value { FitsSigned w64 pair.now.value }
    ensures text { take result room.new ≡ take at room.old ++ (before ∷ [] ++ pair_text pair.now) }
{
    let at = put(room, at, before);
    let at = put(room, at, b'v');
    let at = put_number(room, at, u64::from(pair.var) + 1);
    let at = put(room, at, b'=');
    put_value(room, at, pair.value)
}

/// Writes pairs, and tells the place behind them.
#[inline(always)]
fn put_pairs(room: &mut [u8], at: usize, pairs: &[Pair]) -> usize
    requires { at + 2 + 48 * length pairs.now ≤ length room.old }
    ensures place { result ≤ at + 2 + 48 * length pairs.now }
    ensures values { AllByRecursion (λ y. FitsSigned w64 y.value) pairs.now }
    ensures text { take result room.new ≡ take at room.old ++ pairs_text pairs.now }
{
    let [first, others @ ..] = pairs else {
        let at = put(room, at, b'[');
        return put(room, at, b']');
    };
    let mut at = put_pair(room, at, b'[', first);
    for pair in others {
        at = put_pair(room, at, b',', pair);
    }
    put(room, at, b']')
}

/// Writes a space and a reason after it, and tells the place behind it.
#[inline(always)]
fn put_reason(room: &mut [u8], at: usize, reason: Reason) -> usize
    requires { at + 24 ≤ length room.old }
    ensures place { result ≤ at + 24 }
    ensures text { take result room.new ≡ take at room.old ++ (codes " " ++ reason_text reason) }
{
    let at = put(room, at, b' ');
    match reason {
        Reason::Rule(rule) => {
            let at = put(room, at, b'c');
            put_number(room, at, u64::from(rule) + 1)
        }
        Reason::Earlier(step) => {
            let at = put(room, at, b'n');
            put_number(room, at, step)
        }
    }
}

/// Writes reasons, and tells the place behind them.
#[inline(always)]
fn put_reasons(room: &mut [u8], at: usize, reasons: &[Reason]) -> usize
    requires { at + 24 * length reasons.now ≤ length room.old }
    ensures place { result ≤ at + 24 * length reasons.now }
    ensures text { take result room.new ≡ take at room.old ++ reasons_text reasons.now }
{
    let mut at = at;
    for reason in reasons {
        at = put_reason(room, at, *reason);
    }
    at
}
