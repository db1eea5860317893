//! Numbers of a run as text.

ghost use Rattle.std.specs.Prelude.{◌≡◌, ◌++◌, OnOk};
ghost use Rattle.abt_measure.specs.Rows.{as_kinds};
ghost use Rattle.line_measure.specs.Texts.{checks_lines, counts_fields, end_lines, end_word, greatest_lines, head_text, kinds_text, numbered, survey_line};

use crate::numbers::Numbers;
use abt_measure::Kinds;
use abt_network::Standing;
use itoa::Buffer;
use std::alloc::AllocError;

/// How a run ended, in a word.
pub fn end_word(end: Standing) -> &'static [u8]
    ensures { result.now ≡ end_word end }
{
    match end {
        Standing::Quiet => b"solved",
        Standing::Refuted => b"refuted",
        Standing::Open => b"open",
    }
}

/// Pushes these bytes, and a number behind them.
pub fn push_number(before: &[u8], number: u64, into: &mut Vec<u8>) -> Result<(), AllocError>
    ensures { OnOk result (into.new.items ≡ into.old.items ++ numbered before.now number) }
{
    into.extend_from_slice(before)?;
    dcsp_common::push_number(into, number)
}

/// Pushes the numbers of the three kinds, each behind a blank.
pub fn push_kinds(kinds: Kinds, into: &mut Vec<u8>) -> Result<(), AllocError>
    ensures { OnOk result (into.new.items ≡ into.old.items ++ kinds_text (as_kinds kinds)) }
{
    push_number(b" ", kinds.ok, into)?;
    push_number(b" ", kinds.nogood, into)?;
    push_number(b" ", kinds.link, into)
}

/// Pushes the lines of `measure` that speak of all agents.
pub fn push_head(numbers: &Numbers, into: &mut Vec<u8>) -> Result<(), AllocError>
    ensures { OnOk result (into.new.items ≡ into.old.items ++ head_text numbers.now) }
{
    push_end(numbers, into)?;
    push_checks(numbers, into)?;
    push_greatest(numbers, into)
}

/// How the run ended, and how many messages and steps were made.
fn push_end(numbers: &Numbers, into: &mut Vec<u8>) -> Result<(), AllocError>
    ensures { OnOk result (into.new.items ≡ into.old.items ++ end_lines numbers.now) }
{
    into.extend_from_slice(b"measures 1\nend ")?;
    into.extend_from_slice(end_word(numbers.end))?;
    push_number(b"\ndeliveries ", numbers.deliveries, into)?;
    push_number(b" ok ", numbers.got.ok, into)?;
    push_number(b" nogood ", numbers.got.nogood, into)?;
    push_number(b" link ", numbers.got.link, into)?;
    push_number(b"\nsteps ", numbers.steps, into)
}

/// How many checks were made, and how many of them did not wait for each other.
fn push_checks(numbers: &Numbers, into: &mut Vec<u8>) -> Result<(), AllocError>
    ensures { OnOk result (into.new.items ≡ into.old.items ++ checks_lines numbers.now) }
{
    let checks = numbers.constraints as u128 + numbers.nogoods as u128;
    into.extend_from_slice(b"\nchecks ")?;
    into.extend_from_slice(Buffer::new().format(checks).as_bytes())?;
    push_number(b" constraints ", numbers.constraints, into)?;
    push_number(b" nogoods ", numbers.nogoods, into)?;
    push_number(b"\nconcurrent-checks ", numbers.concurrent, into)?;
    push_number(b" constraints ", numbers.concurrent_constraints, into)
}

/// The longest chain, what was recorded and in transit, and the links that were added.
fn push_greatest(numbers: &Numbers, into: &mut Vec<u8>) -> Result<(), AllocError>
    ensures { OnOk result (into.new.items ≡ into.old.items ++ greatest_lines numbers.now) }
{
    push_number(b"\nlongest-chain ", numbers.longest_chain, into)?;
    push_number(b"\nrecorded ", numbers.recorded, into)?;
    push_number(b"\ntransit ", numbers.transit, into)?;
    push_number(b"\nlinks-added ", numbers.got.link, into)?;
    into.extend_from_slice(b"\n")
}

/// Pushes the line of `survey` for a seed.
pub fn push_line(seed: u64, numbers: &Numbers, into: &mut Vec<u8>) -> Result<(), AllocError>
    ensures { OnOk result (into.new.items ≡ into.old.items ++ survey_line seed numbers.now) }
{
    push_number(b"", seed, into)?;
    into.extend_from_slice(b",")?;
    into.extend_from_slice(end_word(numbers.end))?;
    push_number(b",", numbers.deliveries, into)?;
    push_number(b",", numbers.got.ok, into)?;
    push_number(b",", numbers.got.nogood, into)?;
    push_number(b",", numbers.got.link, into)?;
    push_number(b",", numbers.steps, into)?;
    push_counts(numbers, into)
}

/// The rest of the line, behind the steps.
fn push_counts(numbers: &Numbers, into: &mut Vec<u8>) -> Result<(), AllocError>
    ensures { OnOk result (into.new.items ≡ into.old.items ++ counts_fields numbers.now) }
{
    push_number(b",", numbers.longest_chain, into)?;
    push_number(b",", numbers.constraints, into)?;
    push_number(b",", numbers.nogoods, into)?;
    push_number(b",", numbers.concurrent, into)?;
    push_number(b",", numbers.recorded, into)?;
    push_number(b",", numbers.transit, into)?;
    push_number(b",", numbers.got.link, into)?;
    into.extend_from_slice(b"\n")
}
