//! Reading a log.
ghost use Rattle.std.specs.Prelude.{◌≡◌, ℕ, ◌+◌, ◌<◌, ◌≤◌, ◌∷◌, ◌++◌, false, List, length, take, IfOk, IfErr, IfSome, IfNone, IsErrOf, Ok, Err};
ghost use Rattle.dcsp_defs.specs.declared.Step.{Step};
ghost use Rattle.ngd_log.specs.Lines.{lines, HasNoLineFeed, IsLine};
ghost use Rattle.ngd_log.specs.Logs.{IsLogOf, IsFirstBad, LogOrBadLine, LogsDiffer, AreWritable, NextLine, IsUnlessMemory, IsCause};

use crate::reader::{Gathered, LineError, read_step};
use crate::writer::{HEAD, TAIL};
use dcsp_defs::Derivation;
use memchr::memchr;
use std::alloc::Global;

/// Why a text gives no derivation.
#[derive(Clone, Copy, Debug, PartialEq, Eq)]
pub enum LogError {
    /// The text is no log, and this is its first bad line, counted from 1.
    Line { number: u64 },
    Memory,
}

/// The derivation whose log the text is.
///
/// Line 1 of a log is `ngd 1`, and each later line is the line of the step with the next number, or
/// `end`, which is the last. `LogError::Line` comes exactly where the text is no log, and names the
/// first line that is not so, or that is missing. A rest without a line feed is a bad line.
pub fn read_log(alloc: Global, text: &[u8]) -> Result<Derivation, LogError>
    ensures log { IfOk result (λ derivation. IsLogOf text.now derivation) }
    ensures line { (number : ℕ) → IsErrOf result (LogError.Line number) → IsFirstBad text.now number }
    ensures accepts { (steps : List Step) → IsLogOf text.now steps → IsUnlessMemory (Ok steps) result }
    ensures refuses { (number : ℕ) → IsFirstBad text.now number → IsUnlessMemory (Err (LogError.Line number)) result }
{
    log_of(alloc, text)
}

/// Reads the lines one after the other.
fn log_of(alloc: Global, text: &[u8]) -> Result<Derivation, LogError>
    ensures log { IfOk result (λ derivation. IsLogOf text.now derivation) }
    ensures cause { IfErr result (IsCause text.now) }
{
    let Some((first, others)) = split_line(text) else {
        return Err(LogError::Line { number: 1 });
    };
    if first != HEAD {
        return Err(LogError::Line { number: 1 });
    }
    let mut derivation = Derivation::new(alloc);
    let mut gathered = Gathered::new(alloc);
    let mut rest = others;
    while let Some((line, others)) = split_line(rest) {
        let number = derivation.len() + 1;
        if line == TAIL {
            if others.is_empty() {
                return Ok(derivation);
            }
            return Err(LogError::Line { number: number + 2 });
        }
        match read_step(alloc, &mut gathered, number, line) {
            Ok(step) => {
                if derivation.push(step).is_err() {
                    return Err(LogError::Memory);
                }
            }
            Err(LineError::Bad) => return Err(LogError::Line { number: number + 1 }),
            Err(LineError::Memory) => return Err(LogError::Memory),
        }
        rest = others;
    }
    let missing = derivation.len() + 2;
    Err(LogError::Line { number: missing })
}

/// The first line, with its line feed, and what follows it.
pub(crate) fn split_line(text: &[u8]) -> Option<(&[u8], &[u8])>
    ensures first { IfSome result (λ x. lines text.now ≡ x.0.now ∷ lines x.1.now) }
    ensures shorter { IfSome result (λ x. length x.1.now < length text.now) }
    ensures parts { IfSome result (λ x. text.now ≡ x.0.now ++ x.1.now) }
    ensures whole { IfSome result (λ x. IsLine x.0.now) }
    ensures none { IfNone result (HasNoLineFeed text.now) }
{
    let at = memchr(b'\n', text)?;
    Some(text.split_at(at + 1))
}

/// Different derivations have different logs, and no log begins another.
pub fn logs_differ()
    ensures { LogsDiffer }
{}

/// After the lines of steps a log has the line of the step with the next number, or `end`.
pub fn next_lines()
    ensures { (steps : List Step) (line : List ℕ) → AreWritable steps → NextLine steps line }
{}

/// Each text is the log of one derivation, or has one first bad line.
pub fn log_or_bad_line()
    ensures { (text : List ℕ) → LogOrBadLine text }
{}
