//! What one delivery writes.

ghost use Rattle.std.specs.Prelude.{◌≡◌, [], ◌∷◌, map, Contains, IfSome, option_to_list, option_copied};
ghost use Rattle.std.specs.List.{AllByRecursion};
ghost use Rattle.dcsp_outside.specs.Outside.{Place, Stream};
ghost use Rattle.dcsp_script.specs.Scripts.{Append, Put, outside};
ghost use Rattle.dcsp_script.specs.Ways.{Wrote};
ghost use Rattle.ngd_log.specs.StepText.{step_line, IsInRange, IsStepNumber};
ghost use Rattle.abt_network.specs.Rooms.{delivery_in};
ghost use Rattle.abt_network.specs.Standing.{delivery_of, steps_of};
ghost use Rattle.abt_session.specs.Traces.{progress_texts, trace_texts};
ghost use Rattle.abt_session.specs.Sessions.{step_writes};
ghost use Rattle.abt_session.specs.Making.{made_writes};

use crate::telling::{Telling, push_progress, tells_progress};
use crate::trace::push_line;
use abt_network::{Begun, DeliveryRoom};
use dcsp_defs::Step;
use dcsp_outside::{Folder, Sink};
use dcsp_script::{Stop, append_step, put};

/// Appends the line of the step, if one was made.
#[inline(always)]
pub fn append_made<F: Folder>(
    folder: &mut F,
    log: &str,
    number: u64,
    step: Option<&Step>,
    line: &mut Vec<u8>,
) -> Result<(), Stop>
    requires created { Contains (F.place folder.old).created log.now }
    requires number { IfSome (option_copied step) (λ s. IsStepNumber number) }
    requires in_range { IfSome (option_copied step) IsInRange }
    ensures wrote { (out : Stream) → Wrote (step_writes log.now number (option_to_list (option_copied step.entry)))
        (outside (F.place folder.old) out) (outside (F.place folder.new) out) result }
    ensures created { (F.place folder.new).created ≡ (F.place folder.old).created }
{
    match step {
        Some(step) => append_step(folder, log, number, step, line),
        None => Ok(()),
    }
}

/// Appends the line of the step that a start told of, if it made one.
pub fn append_begun<F: Folder>(
    folder: &mut F,
    log: &str,
    begun: &Begun,
    line: &mut Vec<u8>,
) -> Result<(), Stop>
    requires created { Contains (F.place folder.old).created log.now }
    requires in_range { AllByRecursion IsInRange (steps_of begun.now) }
    ensures wrote { (out : Stream) → Wrote (step_writes log.now 1 (steps_of begun.now))
        (outside (F.place folder.old) out) (outside (F.place folder.new) out) result }
    ensures created { (F.place folder.new).created ≡ (F.place folder.old).created }
{
    match begun {
        Begun::Running => Ok(()),
        Begun::Refuted(step) => append_step(folder, log, 1, step, line),
    }
}

/// A delivery that was made.
#[derive(Clone, Copy)]
pub struct Made<'d> {
    /// Its number, counted from 1.
    pub number: u64,
    /// How many steps the run has made with it.
    pub steps: u64,
    pub delivery: &'d DeliveryRoom,
}

/// Puts what tells of the delivery.
#[inline(always)]
pub fn put_delivery<S: Sink>(
    out: &mut S,
    telling: Telling,
    made: Made<'_>,
    line: &mut Vec<u8>,
) -> Result<(), Stop>
    ensures { (folder : Place) → Wrote (made_writes telling made.entry)
        (outside folder (S.stream out.old)) (outside folder (S.stream out.new)) result }
{
    if !telling.trace && !telling.progress {
        return Ok(());
    }
    put_told(out, telling, made, line)
}

/// Puts the line of the delivery, where a trace is asked for, and then how far the run is, where that is told after it.
fn put_told<S: Sink>(
    out: &mut S,
    telling: Telling,
    made: Made<'_>,
    line: &mut Vec<u8>,
) -> Result<(), Stop>
    ensures { (folder : Place) → Wrote (made_writes telling made.entry)
        (outside folder (S.stream out.old)) (outside folder (S.stream out.new)) result }
{
    put_trace(out, telling, made.number, made.delivery, line)?;
    put_progress(out, telling, made.number, made.steps, line)
}

/// Puts the line of the delivery with this number, where a trace is asked for.
fn put_trace<S: Sink>(
    out: &mut S,
    telling: Telling,
    number: u64,
    delivery: &DeliveryRoom,
    line: &mut Vec<u8>,
) -> Result<(), Stop>
    ensures { (folder : Place) → Wrote (map Put (trace_texts telling number (delivery_of (delivery_in delivery.now))))
        (outside folder (S.stream out.old)) (outside folder (S.stream out.new)) result }
{
    if !telling.trace {
        return Ok(());
    }
    line.clear();
    push_line(line, number, delivery)?;
    put(out, line)
}

/// Puts how far the run is, after a delivery that tells it.
fn put_progress<S: Sink>(
    out: &mut S,
    telling: Telling,
    deliveries: u64,
    steps: u64,
    line: &mut Vec<u8>,
) -> Result<(), Stop>
    ensures { (folder : Place) → Wrote (map Put (progress_texts telling deliveries steps))
        (outside folder (S.stream out.old)) (outside folder (S.stream out.new)) result }
{
    if !tells_progress(telling, deliveries) {
        return Ok(());
    }
    line.clear();
    push_progress(line, telling.round, deliveries, steps)?;
    put(out, line)
}
