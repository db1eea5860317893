//! A delivery that is told in place of an earlier one, so that each step takes the room of the one before.

ghost use Rattle.std.specs.Prelude.{◌≡◌, option_copied};
ghost use Rattle.abt_network.specs.Rooms.{delivery_in, made_in};

use crate::{Cargo, Delivery};
use abt_agent::no_step;
use ngd_log::Step;
use std::alloc::Global;

/// A delivery, and room for its step.
#[derive(Debug, Drop)]
pub struct DeliveryRoom {
    /// The number of the list among those that were ready, counted from 0.
    pub number: u32,
    /// The sender, counted from 0.
    pub from: u32,
    /// The receiver, counted from 0.
    pub to: u32,
    pub cargo: Cargo,
    /// Whether the receiver made a step.
    pub has_step: bool,
    /// The step, if it made one; else one that is no longer needed.
    pub step: Step,
}

impl DeliveryRoom {
    /// Room for a first delivery, of which nothing is told. It takes no memory.
    pub fn new(alloc: Global) -> DeliveryRoom {
        DeliveryRoom {
            number: 0,
            from: 0,
            to: 0,
            cargo: Cargo::AddLink,
            has_step: false,
            step: no_step(alloc),
        }
    }

    /// The step that the receiver made, if it made one.
    #[inline(always)]
    pub fn made(&self) -> Option<&Step>
        ensures { option_copied result ≡ made_in self.now }
    {
        if self.has_step {
            Some(&self.step)
        } else {
            None
        }
    }

    /// The delivery alone.
    pub fn into_delivery(self) -> Delivery
        ensures { result ≡ delivery_in self }
    {
        let DeliveryRoom {
            number,
            from,
            to,
            cargo,
            has_step,
            step,
        } = self;
        let step = if has_step { Some(step) } else { None };
        Delivery {
            number,
            from,
            to,
            cargo,
            step,
        }
    }
}
