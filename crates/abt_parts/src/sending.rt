//! Messages are sent: they are appended to the list of those that are to be sent.

ghost use Rattle.std.specs.Prelude.{◌≡◌, ◌<◌, ◌∷◌, [], OnOk};
ghost use Rattle.abt_defs.specs.Agents.{Tell};
ghost use Rattle.abt_defs.specs.Steps as steps;
ghost use Rattle.abt_parts.specs.Messages.{message_of};
ghost use Rattle.abt_parts.specs.Views.{stamped_of};
ghost use Rattle.abt_parts.specs.Outgoing.{IsStamped, Posts};

use crate::message::{Message, Outbox, Sent};
use crate::view::StampedValue;
use dcsp_common::Memory;

/// Sends the message.
#[inline(always)]
pub fn post(out: &mut Outbox, to: u32, message: Message) -> Result<(), Memory>
    requires { IsStamped message }
    ensures { OnOk result (Posts out.old out.new ((to, message_of message) ∷ [])) }
{
    out.push(Sent { to, message }).map_err(|_| Memory)
}

/// Tells the value to each of the agents, in order.
pub fn tell_all(tells: &[u32], told: StampedValue, out: &mut Outbox) -> Result<(), Memory>
    requires { 0 < told.stamp }
    ensures { OnOk result (Posts out.old out.new (steps.to_each (Tell (stamped_of told)) tells.now)) }
{
    for to in tells {
        let message = Message::Tell {
            value: told.value,
            stamp: told.stamp,
        };
        post(out, *to, message)?;
    }
    Ok(())
}
