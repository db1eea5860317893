//! Sends what an agent has put out.

ghost use Rattle.std.specs.Prelude.{◌≡◌, ◌<◌, ◌++◌, ℕ, List, [], All, OnOk, map, if◌then◌else◌, ◌==◌, ◌&&◌, ◌∷◌};
ghost use Rattle.abt_defs.specs.Network.{sent_to};
ghost use Rattle.abt_parts.specs.Messages.{message_of, messages_of, told_sent};
ghost use Rattle.abt_parts.specs.declared.message.Sent.{Sent as TheSent};
ghost use Rattle.abt_parts.specs.Outgoing.{IsStamped};
ghost use Rattle.abt_network.specs.Standing.{messages_on, messages_with, messages_after};
ghost use Rattle.abt_network.specs.Bodies.{AreStamped};

use abt_links::Links;
use abt_parts::{Outbox, Sent, SentTo};
use dcsp_common::Memory;

/// Sends one message.
#[inline(always)]
fn post_one(links: &mut Links, from: u32, sent: Sent) -> Result<(), Memory>
    requires sender { from < links.old.agents }
    requires receiver { sent.to < links.old.agents }
    requires stamps { IsStamped sent.message }
    requires stamped { AreStamped links.old }
    ensures agents { links.new.agents ≡ links.old.agents }
    ensures lists { (k i : ℕ) → OnOk result (messages_on links.new k i ≡ messages_with links.old from sent.to (message_of sent.message) k i) }
    ensures stamped { OnOk result (AreStamped links.new) }
{
    let Sent { to, message } = sent;
    let Ok(()) = links.post(from, to, message) else {
        return Err(Memory);
    };
    Ok(())
}

/// Sends all messages of the outbox, in order, and adds to `told` what is told of each.
#[inline(always)]
pub fn post(
    links: &mut Links,
    from: u32,
    out: &mut Outbox,
    told: &mut Vec<SentTo>,
) -> Result<(), Memory>
    requires sender { from < links.old.agents }
    requires receivers { All (λ (sent : TheSent). sent.to < links.old.agents) out.old }
    requires stamps { All (λ (sent : TheSent). IsStamped sent.message) out.old }
    requires stamped { AreStamped links.old }
    ensures agents { links.new.agents ≡ links.old.agents }
    ensures lists { (k i : ℕ) → OnOk result (messages_on links.new k i ≡ messages_after links.old from (messages_of out.old) k i) }
    ensures stamped { OnOk result (AreStamped links.new) }
    ensures out { OnOk result (out.new ≡ []) }
    ensures told { OnOk result (told.new.items ≡ told.old.items ++ map told_sent (messages_of out.old)) }
{
    if out.is_empty() {
        return Ok(());
    }
    post_each(links, from, out, told)
}

/// The same, one message after the other.
fn post_each(
    links: &mut Links,
    from: u32,
    out: &mut Outbox,
    told: &mut Vec<SentTo>,
) -> Result<(), Memory>
    requires sender { from < links.old.agents }
    requires receivers { All (λ (sent : TheSent). sent.to < links.old.agents) out.old }
    requires stamps { All (λ (sent : TheSent). IsStamped sent.message) out.old }
    requires stamped { AreStamped links.old }
    ensures agents { links.new.agents ≡ links.old.agents }
    ensures lists { (k i : ℕ) → OnOk result (messages_on links.new k i ≡ messages_after links.old from (messages_of out.old) k i) }
    ensures stamped { OnOk result (AreStamped links.new) }
    ensures out { OnOk result (out.new ≡ []) }
    ensures told { OnOk result (told.new.items ≡ told.old.items ++ map told_sent (messages_of out.old)) }
{
    while let Some(sent) = out.take_first() {
        let heading = sent.told();
        post_one(links, from, sent)?;
        add_told(told, heading)?;
    }
    Ok(())
}

/// Adds what is told of a message at the end.
fn add_told(told: &mut Vec<SentTo>, heading: SentTo) -> Result<(), Memory>
    ensures { OnOk result (told.new.items ≡ told.old.items ++ heading ∷ []) }
{
    told.push(heading)?;
    Ok(())
}
