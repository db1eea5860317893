//! What tells of a run's deliveries: its line in the trace, and every so often how far the run is.

ghost use Rattle.std.specs.Prelude.{◌≡◌, ◌++◌, OnOk, decimal};
ghost use Rattle.abt_session.specs.Running.{nothing_told, trace_told};
ghost use Rattle.abt_session.specs.Traces as traces;
ghost use Rattle.abt_session.specs.Traces.{progress_line, round_name, so_far, steps_so_far};

use dcsp_common::push_number;
use std::alloc::AllocError;

/// After how many deliveries it is told again how far a run is.
const PROGRESS_EVERY: u64 = 1_000_000;

/// What is put of each delivery, behind the line of its step.
#[derive(Clone, Copy, Debug, PartialEq, Eq)]
pub struct Telling {
    /// Whether its line in the trace is put.
    pub trace: bool,
    /// Whether it is told how far the run is, after each delivery whose number is a multiple of a million.
    pub progress: bool,
    /// The number of the run among the rounds of a search, which is told with it.
    pub round: Option<u64>,
}

impl Telling {
    /// Nothing is put.
    pub fn nothing() -> Telling
        ensures { result ≡ nothing_told }
    {
        Telling::traced(false)
    }

    /// The trace alone is put, where it is asked for.
    pub fn traced(trace: bool) -> Telling
        ensures { result ≡ trace_told trace }
    {
        Telling {
            trace,
            progress: false,
            round: None,
        }
    }
}

/// Whether it is told how far the run is after the delivery with this number.
pub fn tells_progress(telling: Telling, number: u64) -> bool
    ensures { result ≡ traces.tells_progress telling number }
{
    telling.progress && number % PROGRESS_EVERY == 0
}

/// Appends the line that tells how far a run is, or the round of a search with this number. A refusal may leave a part of
/// it.
pub fn push_progress(
    line: &mut Vec<u8>,
    round: Option<u64>,
    deliveries: u64,
    steps: u64,
) -> Result<(), AllocError>
    ensures { OnOk result (line.new.items ≡ line.old.items ++ progress_line round deliveries steps) }
{
    line.extend_from_slice(b"% progress ")?;
    push_round_name(line, round)?;
    push_so_far(line, deliveries, steps)
}

fn push_so_far(line: &mut Vec<u8>, deliveries: u64, steps: u64) -> Result<(), AllocError>
    ensures { OnOk result (line.new.items ≡ line.old.items ++ so_far deliveries steps) }
{
    line.extend_from_slice(b"deliveries ")?;
    push_number(line, deliveries)?;
    push_steps(line, steps)
}

fn push_steps(line: &mut Vec<u8>, steps: u64) -> Result<(), AllocError>
    ensures { OnOk result (line.new.items ≡ line.old.items ++ steps_so_far steps) }
{
    line.extend_from_slice(b" steps ")?;
    push_number(line, steps)?;
    line.extend_from_slice(b"\n")
}

fn push_round_name(line: &mut Vec<u8>, round: Option<u64>) -> Result<(), AllocError>
    ensures { OnOk result (line.new.items ≡ line.old.items ++ round_name round) }
{
    let Some(number) = round else {
        return Ok(());
    };
    line.extend_from_slice(b"round ")?;
    push_number(line, number)?;
    line.extend_from_slice(b" ")
}
