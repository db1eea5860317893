//! Reading a line of a log.
ghost use Rattle.std.specs.Prelude.{◌≡◌, ℕ, IfOk, IsErrOf, codes};
ghost use Rattle.dcsp_common.specs.Reading.{Reads};
ghost use Rattle.ngd_log.specs.declared.reader.LineError.TheVariants.{Memory as OutOfMemory};
ghost use Rattle.dcsp_defs.specs.Pairs.{IsRising};
ghost use Rattle.dcsp_defs.specs.declared.Step.{Step as DerivationStep};
ghost use Rattle.ngd_log.specs.StepText.{IsStepLine};
ghost use Rattle.ngd_log.specs.Reading.{Gives, after, nogood_from, nogood_at, reasons_at, variable_front, rule_front, step_front};
ghost use Rattle.ngd_log.specs.Lent.{step_in};

use crate::field::{
    RULES, VARIABLES, after, after_byte, counted_at, pair_at, reason_at, step_number_at,
};
use dcsp_defs::{LentStep, Pair, Reason, Step};
use std::alloc::{AllocFailed, Global};

/// Why a line gives no step.
#[derive(Clone, Copy, Debug, PartialEq, Eq)]
pub enum LineError {
    /// It is not the line of the step with that number.
    Bad,
    Memory,
}

impl<T: Drop> From<AllocFailed<T>> for LineError {
    ghost from_gives = { λ _ e. e ≡ OutOfMemory };

    fn from(_refused: AllocFailed<T>) -> LineError {
        LineError::Memory
    }
}

/// What a line says, which is read into the same lists as the line before it.
#[derive(Drop)]
pub struct Gathered {
    /// The variable of a step.
    pub variable: Option<u32>,
    /// The pairs of a step.
    pub pairs: Vec<Pair>,
    /// The reasons of a step.
    pub reasons: Vec<Reason>,
    /// The numbers of a deletion.
    pub numbers: Vec<u64>,
}

impl Gathered {
    /// Nothing is gathered. It takes no memory.
    pub fn new(alloc: Global) -> Gathered {
        Gathered {
            variable: None,
            pairs: Vec::new(alloc),
            reasons: Vec::new(alloc),
            numbers: Vec::new(alloc),
        }
    }

    /// The step that was read, lent.
    pub fn step(&self) -> LentStep<'_>
        requires { IsRising self.now.pairs.items }
        ensures { result ≡ step_in self.now }
    {
        LentStep {
            variable: self.variable,
            pairs: &self.pairs,
            reasons: &self.reasons,
        }
    }
}

/// Reads the pairs after this first one, each behind a comma, as long as they rise.
fn nogood_from<'t>(
    pairs: &mut Vec<Pair>,
    first: Pair,
    bytes: &'t [u8],
) -> Result<&'t [u8], LineError>
    ensures { Gives (λ rest. (pairs.new.items, rest.now)) result (nogood_from first bytes.now) }
{
    pairs.clear();
    pairs.push(first)?;
    let mut last = first.var;
    let mut rest = bytes;
    while let Some(next) = after_byte(b',', rest) {
        let Some((pair, others)) = pair_at(next) else {
            return Err(LineError::Bad);
        };
        if pair.var <= last {
            return Err(LineError::Bad);
        }
        last = pair.var;
        pairs.push(pair)?;
        rest = others;
    }
    Ok(rest)
}

/// Reads the pairs of a nogood in brackets.
#[tactic(auto, unfolding(crate::specs::Reading::nogood_at, crate::specs::Reading::nogood_before))]
fn nogood_at<'t>(pairs: &mut Vec<Pair>, bytes: &'t [u8]) -> Result<&'t [u8], LineError>
    ensures { Gives (λ rest. (pairs.new.items, rest.now)) result (nogood_at bytes.now) }
{
    let rest = after_byte(b'[', bytes).ok_or(LineError::Bad)?;
    if let Some(rest) = after_byte(b']', rest) {
        pairs.clear();
        return Ok(rest);
    }
    let (first, rest) = pair_at(rest).ok_or(LineError::Bad)?;
    let rest = nogood_from(pairs, first, rest)?;
    after_byte(b']', rest).ok_or(LineError::Bad)
}

/// Reads the reasons, each behind a space.
fn reasons_at<'t>(reasons: &mut Vec<Reason>, bytes: &'t [u8]) -> Result<&'t [u8], LineError>
    ensures { Gives (λ x. (reasons.new.items, x.now)) result (reasons_at bytes.now) }
{
    reasons.clear();
    let mut rest = bytes;
    while let Some(next) = after_byte(b' ', rest) {
        let Some((reason, others)) = reason_at(next) else {
            return Err(LineError::Bad);
        };
        reasons.push(reason)?;
        rest = others;
    }
    Ok(rest)
}

/// Reads the step of a line with a variable, whose rest after the number is in front.
#[tactic(auto, unfolding(crate::specs::Reading::variable_front))]
fn variable_front<'t>(gathered: &mut Gathered, bytes: &'t [u8]) -> Result<&'t [u8], LineError>
    ensures { Gives (λ rest. (step_in gathered.new, rest.now)) result (variable_front bytes.now) }
{
    let rest = after_byte(b'v', bytes).ok_or(LineError::Bad)?;
    let (variable, rest) = counted_at(rest, VARIABLES).ok_or(LineError::Bad)?;
    let rest = after_byte(b' ', rest).ok_or(LineError::Bad)?;
    let rest = nogood_at(&mut gathered.pairs, rest)?;
    let rest = after(b" <-", rest).ok_or(LineError::Bad)?;
    let rest = reasons_at(&mut gathered.reasons, rest)?;
    let rest = after_byte(b'\n', rest).ok_or(LineError::Bad)?;
    gathered.variable = Some(variable);
    Ok(rest)
}

/// Reads the step of a line without a variable, whose rest after `- [] <- c` is in front.
#[tactic(auto, unfolding(crate::specs::Reading::rule_front))]
fn rule_front<'t>(gathered: &mut Gathered, bytes: &'t [u8]) -> Result<&'t [u8], LineError>
    ensures { Gives (λ rest. (step_in gathered.new, rest.now)) result (rule_front bytes.now) }
{
    let (rule, rest) = counted_at(bytes, RULES).ok_or(LineError::Bad)?;
    let rest = after_byte(b'\n', rest).ok_or(LineError::Bad)?;
    gathered.variable = None;
    gathered.pairs.clear();
    gathered.reasons.clear();
    gathered.reasons.push(Reason::Rule(rule))?;
    Ok(rest)
}

/// What stands after the mark of a step without a variable, if the bytes begin with it: one byte tells most that do not.
#[tactic(auto, unfolding(crate::specs::Reading::after))]
#[inline(always)]
fn after_mark(bytes: &[u8]) -> Option<&[u8]>
    ensures { Reads (λ x. x.now) result (after (codes "- [] <- c") bytes.now) }
{
    match bytes {
        [b'-', ..] => after(b"- [] <- c", bytes),
        _ => None,
    }
}

/// Reads the step whose line is in front and has this number, and gives what stands after the line.
#[tactic(auto, unfolding(crate::specs::Reading::step_front))]
pub(crate) fn step_front<'t>(
    gathered: &mut Gathered,
    number: u64,
    bytes: &'t [u8],
) -> Result<&'t [u8], LineError>
    ensures { Gives (λ rest. (step_in gathered.new, rest.now)) result (step_front number bytes.now) }
{
    let (found, rest) = step_number_at(bytes).ok_or(LineError::Bad)?;
    let rest = after_byte(b' ', rest).ok_or(LineError::Bad)?;
    if found != number {
        return Err(LineError::Bad);
    }
    match after_mark(rest) {
        Some(rest) => rule_front(gathered, rest),
        None => variable_front(gathered, rest),
    }
}

/// The step of a whole line with its line feed, where it has this number. Its lists are its own.
pub fn read_step(
    alloc: Global,
    gathered: &mut Gathered,
    number: u64,
    line: &[u8],
) -> Result<Step, LineError>
    ensures step { IfOk result (λ step. IsStepLine number line.now step) }
    ensures bad { IsErrOf result LineError.Bad → (step : DerivationStep) → IsStepLine number line.now step → ⊥ }
{
    match step_front(gathered, number, line) {
        Ok([]) => match gathered.step().copy(alloc) {
            Ok(step) => Ok(step),
            Err(_) => Err(LineError::Memory),
        },
        Ok(_) => Err(LineError::Bad),
        Err(error) => Err(error),
    }
}
