//! Tracking by sensors: each target wants three sensors that see it and hear each other, and no sensor tracks two
//! targets. The sensors of a square are numbered from 1 on, row after row.
ghost use Rattle.std.specs.Prelude.{◌≡◌, ◌+◌, ◌<◌, ◌≤◌, ◌^◌, ◌++◌, flat_map, string_bytes, IfOk, OnOk, length};
ghost use Rattle.std.specs.List.{range_with_len};
ghost use Rattle.abt_schedule.specs.Answers.{generator_of, word_at};
ghost use Rattle.dcsp_gen.specs.Lists.{lists_in, list_of};
ghost use Rattle.dcsp_gen.specs.Problems.{pairs};
ghost use Rattle.dcsp_gen.specs.Sensors.{hear, hearing, hearing_line, is_near, rise_line, rise_lines, sensors_fit, sensors_text, share_line, share_lines, slot_line, slot_lines, slots, target_lines, tracking};

use crate::binary_texts::{push_entries, variable_pairs};
use crate::lines::push_solve;
use crate::lists::{list_of, pairs_in, push_domain};
use crate::selection::{Choosing, NumberPair, select_each};
use dcsp_common::Memory;
use rand_core::SeedableRng;
use rand_pcg::Pcg32;
use std::alloc::{AllocError, Global};

/// How large a problem of sensors is.
#[derive(Clone, Copy, Debug)]
pub struct SensorSizes {
    /// How many rows and columns of sensors there are, from 2 to 16.
    pub side: u32,
    /// How many targets there are, from 1 to 32.
    pub targets: u32,
    /// How many sensors see each target.
    pub sees: u32,
}

/// How many sensors a target wants.
const SLOTS: u32 = 3;

/// How far the rows and columns of two sensors are apart at most that hear each other.
const REACH: u32 = 2;

impl SensorSizes {
    /// Whether a target is seen by at most all sensors.
    pub fn fit(&self) -> bool
        requires { self.now.side ≤ 16 }
        ensures { result ≡ sensors_fit self.now.side self.now.sees }
    {
        self.sees <= self.side * self.side
    }
}

/// A random problem of sensors. For each target words of `seed` choose the sensors that see it. Variable `tJsK` is
/// the sensor in slot K of target J.
pub fn sensors(alloc: Global, sizes: SensorSizes, seed: u64) -> Result<Vec<u8>, Memory>
    requires side { (1 ≤ sizes.side) × (sizes.side ≤ 16) }
    requires targets { sizes.targets ≤ 32 }
    ensures { IfOk result (λ text. text.items ≡ sensors_text sizes.side sizes.targets sizes.sees (word_at (generator_of seed))) }
{
    let mut words = Pcg32::seed_from_u64(seed);
    let text = sensors_lines(alloc, sizes, &mut words)?;
    Ok(text.into_bytes())
}

fn sensors_lines(alloc: Global, sizes: SensorSizes, words: &mut Pcg32) -> Result<String, AllocError>
    requires side { (1 ≤ sizes.side) × (sizes.side ≤ 16) }
    requires targets { sizes.targets ≤ 32 }
    ensures { IfOk result (λ text. string_bytes text ≡ sensors_text sizes.side sizes.targets sizes.sees (word_at words.old)) }
{
    let all = sizes.side * sizes.side;
    let sees = Choosing {
        wanted: sizes.sees,
        kept: true,
    };
    let seen = select_each(alloc, all, sees, sizes.targets, words)?;
    tracking(alloc, sizes.side, &seen)
}

/// The problem of these targets, each with the sensors that see it, on a square of so many rows.
fn tracking(alloc: Global, side: u32, seen: &[Vec<u32>]) -> Result<String, AllocError>
    requires side { 1 ≤ side }
    requires targets { length seen.now ≤ 200 }
    ensures { IfOk result (λ text. string_bytes text ≡ tracking side (lists_in seen.now)) }
{
    let mut text = String::new(alloc);
    push_slots(&mut text, seen)?;
    push_targets(alloc, &mut text, side, seen)?;
    let pairs = variable_pairs(alloc, seen.len() as u32)?;
    push_shares(&mut text, &pairs)?;
    push_solve(&mut text)?;
    Ok(text)
}

/// The slots of each target.
fn push_slots(text: &mut String, seen: &[Vec<u32>]) -> Result<(), AllocError>
    requires { length seen.now ≤ 200 }
    ensures { OnOk result (string_bytes text.new ≡ string_bytes text.old ++ flat_map (slot_lines (lists_in seen.now)) (range_with_len 1 (length seen.now))) }
{
    for target in 1..seen.len() as u32 + 1 {
        push_slots_of(text, seen, target)?;
    }
    Ok(())
}

/// What is wanted of the sensors of each target.
fn push_targets(
    alloc: Global,
    text: &mut String,
    side: u32,
    seen: &[Vec<u32>],
) -> Result<(), AllocError>
    requires side { 1 ≤ side }
    requires targets { length seen.now ≤ 200 }
    ensures { OnOk result (string_bytes text.new ≡ string_bytes text.old ++ flat_map (target_lines side (lists_in seen.now)) (range_with_len 1 (length seen.now))) }
{
    for target in 1..seen.len() as u32 + 1 {
        push_target(alloc, text, side, seen, target)?;
    }
    Ok(())
}

/// Each of these pairs of targets shares no sensor.
fn push_shares(text: &mut String, pairs: &[NumberPair]) -> Result<(), AllocError>
    ensures { OnOk result (string_bytes text.new ≡ string_bytes text.old ++ flat_map share_lines pairs.now) }
{
    for targets in pairs {
        push_shares_of(text, *targets)?;
    }
    Ok(())
}

/// Declares the slots of a target, for the sensors that see it.
fn push_slots_of(text: &mut String, seen: &[Vec<u32>], target: u32) -> Result<(), AllocError>
    ensures { OnOk result (string_bytes text.new ≡ string_bytes text.old ++ slot_lines (lists_in seen.now) target) }
{
    let sensors = list_of(seen, target);
    for slot in 1..SLOTS + 1 {
        push_slot(text, sensors, target, slot)?;
    }
    Ok(())
}

fn push_slot(text: &mut String, sensors: &[u32], target: u32, slot: u32) -> Result<(), AllocError>
    ensures { OnOk result (string_bytes text.new ≡ string_bytes text.old ++ slot_line sensors.now target slot) }
{
    push_domain(text, sensors)?;
    write!(text, ": t{target}s{slot} :: output_var;\n")?;
    Ok(())
}

/// What is wanted of the sensors of a target.
fn push_target(
    alloc: Global,
    text: &mut String,
    side: u32,
    seen: &[Vec<u32>],
    target: u32,
) -> Result<(), AllocError>
    requires { 1 ≤ side }
    ensures { OnOk result (string_bytes text.new ≡ string_bytes text.old ++ target_lines side (lists_in seen.now) target) }
{
    push_rises(text, target)?;
    push_hearings_of(alloc, text, side, list_of(seen, target), target)?;
    Ok(())
}

/// The sensors of a target are in rising order.
fn push_rises(text: &mut String, target: u32) -> Result<(), AllocError>
    ensures { OnOk result (string_bytes text.new ≡ string_bytes text.old ++ rise_lines target) }
{
    push_rise(text, target, 1, 2)?;
    push_rise(text, target, 2, 3)?;
    Ok(())
}

/// Each two of the sensors of a target hear each other.
fn push_hearings_of(
    alloc: Global,
    text: &mut String,
    side: u32,
    sensors: &[u32],
    target: u32,
) -> Result<(), AllocError>
    requires { 1 ≤ side }
    ensures { OnOk result (string_bytes text.new ≡ string_bytes text.old ++ flat_map (hearing_line target (hearing side sensors.now)) (pairs 3)) }
{
    let rows = hearing(alloc, side, sensors)?;
    let pairs = variable_pairs(alloc, SLOTS)?;
    push_hearings(text, target, &rows, &pairs)?;
    Ok(())
}

/// Each of these pairs of slots has sensors that are a row.
fn push_hearings(
    text: &mut String,
    target: u32,
    rows: &[NumberPair],
    pairs: &[NumberPair],
) -> Result<(), AllocError>
    ensures { OnOk result (string_bytes text.new ≡ string_bytes text.old ++ flat_map (hearing_line target rows.now) pairs.now) }
{
    for slots in pairs {
        push_hearing(text, target, rows, *slots)?;
    }
    Ok(())
}

fn push_rise(text: &mut String, target: u32, first: u32, second: u32) -> Result<(), AllocError>
    ensures { OnOk result (string_bytes text.new ≡ string_bytes text.old ++ rise_line target first second) }
{
    write!(
        text,
        "constraint int_lt(t{target}s{first},t{target}s{second});\n"
    )
}

/// Two slots of a target have sensors that are a row.
fn push_hearing(
    text: &mut String,
    target: u32,
    rows: &[NumberPair],
    slots: NumberPair,
) -> Result<(), AllocError>
    ensures { OnOk result (string_bytes text.new ≡ string_bytes text.old ++ hearing_line target rows.now slots) }
{
    let (first, second) = slots;
    write!(
        text,
        "constraint fzn_table_int([t{target}s{first},t{target}s{second}],["
    )?;
    push_entries(text, rows)?;
    text.push_str("]);\n")?;
    Ok(())
}

/// The pairs of these sensors that hear each other.
fn hearing(alloc: Global, side: u32, sensors: &[u32]) -> Result<Vec<NumberPair>, AllocError>
    requires { 1 ≤ side }
    ensures { IfOk result (λ list. list.items ≡ hearing side sensors.now) }
{
    let mut list = pairs_in(alloc, sensors)?;
    list.retain(|pair| hear(side, *pair));
    Ok(list)
}

/// Whether two sensors hear each other: neither their rows nor their columns differ by more than 2.
fn hear(side: u32, sensors: NumberPair) -> bool
    requires { 1 ≤ side }
    ensures { result ≡ hear side sensors }
{
    let first = sensors.0.saturating_sub(1);
    let second = sensors.1.saturating_sub(1);
    is_near(first / side, second / side) && is_near(first % side, second % side)
}

fn is_near(first: u32, second: u32) -> bool
    ensures { result ≡ is_near first second }
{
    first.abs_diff(second) <= REACH
}

/// Two targets share no sensor.
fn push_shares_of(text: &mut String, targets: NumberPair) -> Result<(), AllocError>
    ensures { OnOk result (string_bytes text.new ≡ string_bytes text.old ++ share_lines targets) }
{
    for slot in 1..SLOTS + 1 {
        push_shares_from(text, targets, slot)?;
    }
    Ok(())
}

/// A slot of the first target has another sensor than each slot of the second.
fn push_shares_from(text: &mut String, targets: NumberPair, slot: u32) -> Result<(), AllocError>
    ensures { OnOk result (string_bytes text.new ≡ string_bytes text.old ++ flat_map (share_line targets slot) slots) }
{
    for other in 1..SLOTS + 1 {
        push_share(text, targets, slot, other)?;
    }
    Ok(())
}

fn push_share(
    text: &mut String,
    targets: NumberPair,
    slot: u32,
    other: u32,
) -> Result<(), AllocError>
    ensures { OnOk result (string_bytes text.new ≡ string_bytes text.old ++ share_line targets slot other) }
{
    let (first, second) = targets;
    write!(
        text,
        "constraint int_ne(t{first}s{slot},t{second}s{other});\n"
    )
}
