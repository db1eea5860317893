//! What the agents of a run under an order tell, in the model's own numbers. Without an order it is told as it is.

ghost use Rattle.std.specs.Prelude.{◌≡◌, IfOk, IfSome, OnOk, Some, option_copied, option_to_list};
ghost use Rattle.std.specs.List.{AllByRecursion};
ghost use Rattle.ngd_log.specs.StepText.{IsInRange};
ghost use Rattle.dcsp_order.specs.Told.{steps_told};
ghost use Rattle.abt_network.specs.Rooms.{delivery_in, made_in};
ghost use Rattle.abt_network.specs.Standing.{delivery_of, steps_of};
ghost use Rattle.abt_session.specs.Traces.{delivery_told};

use abt_network::{Begun, DeliveryRoom};
use dcsp_common::Memory;
use dcsp_defs::Step;
use dcsp_order::Order;
use std::alloc::Global;

/// The step that was made, if one was.
pub fn step_told(
    alloc: Global,
    order: Option<&Order>,
    step: Option<Step>,
) -> Result<Option<Step>, Memory>
    ensures told { IfOk result (λ told. option_to_list told ≡ steps_told (option_copied order.entry) (option_to_list step)) }
    ensures in_range { IfSome step IsInRange → IfOk result (λ told. IfSome told IsInRange) }
{
    let Some(order) = order else {
        return Ok(step);
    };
    match step {
        Some(step) => {
            let told = order.step_told(alloc, &step)?;
            Ok(Some(told))
        }
        None => Ok(None),
    }
}

/// What a start told.
pub fn begun_told(alloc: Global, order: Option<&Order>, begun: Begun) -> Result<Begun, Memory>
    ensures told { IfOk result (λ told. steps_of told ≡ steps_told (option_copied order.entry) (steps_of begun)) }
    ensures in_range { AllByRecursion IsInRange (steps_of begun) → IfOk result (λ told. AllByRecursion IsInRange (steps_of told)) }
{
    let Some(order) = order else {
        return Ok(begun);
    };
    match begun {
        Begun::Refuted(step) => {
            let told = order.step_told(alloc, &step)?;
            Ok(Begun::Refuted(told))
        }
        Begun::Running => Ok(Begun::Running),
    }
}

/// Tells a delivery by the model's own numbers: who sent it and who received it, and the step that it made, if it made one.
#[inline(always)]
pub fn tell_delivery(
    alloc: Global,
    order: Option<&Order>,
    delivery: &mut DeliveryRoom,
) -> Result<(), Memory>
    ensures told { OnOk result (delivery_of (delivery_in delivery.new) ≡ delivery_told (option_copied order.entry) (delivery_of (delivery_in delivery.old))) }
    ensures step { OnOk result (option_to_list (made_in delivery.new) ≡ steps_told (option_copied order.entry) (option_to_list (made_in delivery.old))) }
    ensures in_range { IfSome (made_in delivery.old) IsInRange → OnOk result (IfSome (made_in delivery.new) IsInRange) }
{
    match order {
        None => Ok(()),
        Some(order) => tell_under(alloc, order, delivery),
    }
}

/// The same, where there is an order.
fn tell_under(alloc: Global, order: &Order, delivery: &mut DeliveryRoom) -> Result<(), Memory>
    ensures told { OnOk result (delivery_of (delivery_in delivery.new) ≡ delivery_told (Some order.now) (delivery_of (delivery_in delivery.old))) }
    ensures step { OnOk result (option_to_list (made_in delivery.new) ≡ steps_told (Some order.now) (option_to_list (made_in delivery.old))) }
    ensures in_range { IfSome (made_in delivery.old) IsInRange → OnOk result (IfSome (made_in delivery.new) IsInRange) }
{
    if delivery.has_step {
        delivery.step = order.step_told(alloc, &delivery.step)?;
    }
    delivery.from = order.number(delivery.from);
    delivery.to = order.number(delivery.to);
    Ok(())
}
