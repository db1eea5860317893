//! The lines of a trace.

ghost use Rattle.std.specs.Prelude.{◌≡◌, ◌++◌, OnOk};
ghost use Rattle.abt_network.specs.Rooms.{delivery_in};
ghost use Rattle.abt_network.specs.Standing.{cargo_in, delivery_of};
ghost use Rattle.abt_session.specs.Traces.{cargo_text, trace_line};

use abt_network::{Cargo, DeliveryRoom};
use dcsp_common::{push_number, push_signed};
use std::alloc::AllocError;

/// Appends the line of the delivery with this number. A refusal may leave a part of it.
pub fn push_line(line: &mut Vec<u8>, number: u64, delivery: &DeliveryRoom) -> Result<(), AllocError>
    ensures { OnOk result (line.new.items ≡ line.old.items ++ trace_line number (delivery_of (delivery_in delivery.now))) }
{
    line.extend_from_slice(b"% ")?;
    push_number(line, number)?;
    line.extend_from_slice(b" v")?;
    push_number(line, u64::from(delivery.from) + 1)?;
    line.extend_from_slice(b">v")?;
    push_number(line, u64::from(delivery.to) + 1)?;
    push_cargo(line, delivery.cargo)?;
    line.extend_from_slice(b"\n")
}

/// Appends what a message carries, as a trace and a story have it. A refusal may leave a part of it.
pub fn push_cargo(line: &mut Vec<u8>, cargo: Cargo) -> Result<(), AllocError>
    ensures { OnOk result (line.new.items ≡ line.old.items ++ cargo_text (cargo_in cargo)) }
{
    match cargo {
        Cargo::Tell { value } => {
            line.extend_from_slice(b" ok ")?;
            push_signed(line, value)
        }
        Cargo::Refuse { step } => {
            line.extend_from_slice(b" nogood ")?;
            push_number(line, step)
        }
        Cargo::AddLink => line.extend_from_slice(b" link"),
    }
}
