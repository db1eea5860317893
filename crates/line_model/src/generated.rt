//! Printing generated models.

ghost use Rattle.std.specs.Prelude.{◌≤◌};
ghost use Rattle.dcsp_outside.specs.Outside.{Place};
ghost use Rattle.dcsp_script.specs.Scripts.{outside};
ghost use Rattle.dcsp_script.specs.Runs.{CameIn};
ghost use Rattle.abt_input.specs.Errors.{way_of};
ghost use Rattle.line_model.specs.Generated.{queens_promise, colouring_promise, sparse_promise, pigeons_promise, binary_promise, meetings_promise, sensors_promise};

use crate::text::print;
use abt_input::CommandError;
use dcsp_gen::{
    BinarySizes, MeetingSizes, SensorSizes, binary, colouring, meetings, pigeons, queens, sensors,
    sparse,
};
use dcsp_outside::Sink;
use dcsp_script::Status;
use std::alloc::Global;

/// Puts the queens problem of `n` queens on `out`, from 1 to 200.
pub fn run_queens<S: Sink>(alloc: Global, n: u32, out: &mut S) -> Result<Status, CommandError>
    requires least { 1 ≤ n }
    requires most { n ≤ 200 }
    ensures { (folder : Place) → CameIn (queens_promise n)
        (outside folder (S.stream out.old)) (outside folder (S.stream out.new)) (way_of result) }
{
    let text = queens(alloc, n)?;
    print(out, &text)
}

/// Puts the colouring problem of `n` nodes, from 1 to 200, with `k` colours and the edges of `seed` on `out`.
pub fn run_colouring<S: Sink>(
    alloc: Global,
    n: u32,
    k: u32,
    seed: u64,
    out: &mut S,
) -> Result<Status, CommandError>
    requires least { 1 ≤ n }
    requires most { n ≤ 200 }
    ensures { (folder : Place) → CameIn (colouring_promise n k seed)
        (outside folder (S.stream out.old)) (outside folder (S.stream out.new)) (way_of result) }
{
    let text = colouring(alloc, n, k, seed)?;
    print(out, &text)
}

/// Puts the sparse colouring of `n` nodes, from 1 to 4,096, with the edges of `seed` on `out`.
pub fn run_sparse<S: Sink>(
    alloc: Global,
    n: u32,
    seed: u64,
    out: &mut S,
) -> Result<Status, CommandError>
    requires least { 1 ≤ n }
    requires most { n ≤ 4096 }
    ensures { (folder : Place) → CameIn (sparse_promise n seed)
        (outside folder (S.stream out.old)) (outside folder (S.stream out.new)) (way_of result) }
{
    let text = sparse(alloc, n, seed)?;
    print(out, &text)
}

/// Puts the problem of `n` pigeons, from 2 to 200, in one hole less on `out`.
pub fn run_pigeons<S: Sink>(alloc: Global, n: u32, out: &mut S) -> Result<Status, CommandError>
    requires least { 2 ≤ n }
    requires most { n ≤ 200 }
    ensures { (folder : Place) → CameIn (pigeons_promise n)
        (outside folder (S.stream out.old)) (outside folder (S.stream out.new)) (way_of result) }
{
    let text = pigeons(alloc, n)?;
    print(out, &text)
}

/// Puts a random binary problem of these sizes, with the constraints of `seed`, on `out`.
pub fn run_binary<S: Sink>(
    alloc: Global,
    sizes: BinarySizes,
    seed: u64,
    out: &mut S,
) -> Result<Status, CommandError>
    requires variables { (1 ≤ sizes.variables) × (sizes.variables ≤ 200) }
    requires values { (1 ≤ sizes.values) × (sizes.values ≤ 100) }
    ensures { (folder : Place) → CameIn (binary_promise sizes.variables sizes.values sizes.edges sizes.forbidden seed)
        (outside folder (S.stream out.old)) (outside folder (S.stream out.new)) (way_of result) }
{
    let text = binary(alloc, sizes, seed)?;
    print(out, &text)
}

/// Puts a random problem of meetings of these sizes, with the calendars and groups of `seed`, on `out`.
pub fn run_meetings<S: Sink>(
    alloc: Global,
    sizes: MeetingSizes,
    seed: u64,
    out: &mut S,
) -> Result<Status, CommandError>
    requires people { sizes.people ≤ 64 }
    requires meetings { sizes.meetings ≤ 64 }
    requires hours { sizes.hours ≤ 100 }
    ensures { (folder : Place) → CameIn (meetings_promise sizes.people sizes.meetings sizes.each sizes.hours sizes.busy seed)
        (outside folder (S.stream out.old)) (outside folder (S.stream out.new)) (way_of result) }
{
    let text = meetings(alloc, sizes, seed)?;
    print(out, &text)
}

/// Puts a random problem of sensors of these sizes, with what they see by `seed`, on `out`.
pub fn run_sensors<S: Sink>(
    alloc: Global,
    sizes: SensorSizes,
    seed: u64,
    out: &mut S,
) -> Result<Status, CommandError>
    requires side { (1 ≤ sizes.side) × (sizes.side ≤ 16) }
    requires targets { sizes.targets ≤ 32 }
    ensures { (folder : Place) → CameIn (sensors_promise sizes.side sizes.targets sizes.sees seed)
        (outside folder (S.stream out.old)) (outside folder (S.stream out.new)) (way_of result) }
{
    let text = sensors(alloc, sizes, seed)?;
    print(out, &text)
}
