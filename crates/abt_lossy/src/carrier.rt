//! The pool and the counts together: what a packet does that arrives.

ghost use Rattle.std.specs.Prelude.{◌≡◌, ◌%◌, ◌≢◌, IfOk, OnOk};
ghost use Rattle.dcsp_defs.specs.Csp.{Csp};
ghost use Rattle.law_runs.specs.Worlds.{begin, raised};
ghost use Rattle.abt_lossy.specs.Carries.{acknowledged_of, handed_up_of, Arrives, Carries, Changes, Comes, CountsFit, HandsUp, Sends};

use crate::counts::Counts;
use crate::pool::{Packet, Pool};
use dcsp_common::Memory;
use std::alloc::Global;

/// All that the medium and the two ends of each pair have, but for the messages.
#[derive(Drop)]
pub struct Carrier {
    pub counts: Counts,
    pub pool: Pool,
}

/// What came of an event that does not send.
#[derive(Clone, Copy, Debug, PartialEq, Eq)]
pub enum Arrival {
    /// It has had its whole effect, and no count has changed.
    Done,
    /// It has had its whole effect: message `number` of this pair is now known to be acknowledged.
    Counted {
        sender: u32,
        receiver: u32,
        number: u64,
    },
    /// It is data that is next to be handed up. No count has changed, and `hand_up` is to follow.
    Next {
        sender: u32,
        receiver: u32,
        number: u64,
    },
}

impl Carrier {
    /// Nothing was handed up, and no packet is on its way. It keeps the allocator.
    pub fn new(alloc: Global) -> Carrier
        ensures begins { (p : Csp) → Carries (begin p) result }
        ensures fit { CountsFit result }
    {
        Carrier {
            counts: Counts::new(alloc),
            pool: Pool::new(alloc),
        }
    }

    /// Takes in a packet that arrives, while nothing is refuted. After `Memory` a packet's effect may
    /// be lost.
    pub fn arrive(&mut self, packet: Packet) -> Result<Arrival, Memory>
        requires { CountsFit self.old }
        ensures arrives { IfOk result (λ arrival. Arrives packet arrival self.old self.new) }
        ensures changes { IfOk result (λ arrival. Changes arrival self.old self.new) }
    {
        match packet {
            Packet::Data {
                sender,
                receiver,
                number,
            } => {
                let handed_up = self.counts.handed_up(sender, receiver);
                if number == handed_up + 1 {
                    return Ok(Arrival::Next {
                        sender,
                        receiver,
                        number,
                    });
                }
                if number <= handed_up {
                    self.pool.push(Packet::Acknowledgement {
                        sender,
                        receiver,
                        number,
                    })?;
                }
                Ok(Arrival::Done)
            }
            Packet::Acknowledgement {
                sender,
                receiver,
                number,
            } => {
                if number == self.counts.acknowledged(sender, receiver) + 1 {
                    self.counts.count_acknowledged(sender, receiver)?;
                    return Ok(Arrival::Counted {
                        sender,
                        receiver,
                        number,
                    });
                }
                Ok(Arrival::Done)
            }
        }
    }

    /// Message `number` of the pair was handed up. It is counted, and acknowledged unless it refuted.
    pub fn hand_up(
        &mut self,
        sender: u32,
        receiver: u32,
        number: u64,
        refuted: bool,
    ) -> Result<(), Memory>
        requires { CountsFit self.old }
        ensures hands_up { OnOk result (HandsUp sender receiver number refuted self.old self.new) }
        ensures handed_up { OnOk result (handed_up_of self.new.counts ≡ raised (handed_up_of self.old.counts) sender receiver) }
        ensures acknowledged { OnOk result (acknowledged_of self.new.counts ≡ acknowledged_of self.old.counts) }
    {
        self.counts.count_handed_up(sender, receiver)?;
        if !refuted {
            self.pool.push(Packet::Acknowledgement {
                sender,
                receiver,
                number,
            })?;
        }
        Ok(())
    }

    /// Sends the pair's first message that is not known to be acknowledged. The pair has one.
    pub fn send(&mut self, sender: u32, receiver: u32) -> Result<(), Memory>
        requires { CountsFit self.old }
        ensures sends { OnOk result (Sends sender receiver self.old self.new) }
        ensures counts { OnOk result (self.new.counts ≡ self.old.counts) }
    {
        let number = self.counts.acknowledged(sender, receiver) + 1;
        self.pool.push(Packet::Data {
            sender,
            receiver,
            number,
        })
    }

    /// Makes an event whose word delivers, repeats or loses, while nothing is refuted.
    pub fn come(&mut self, word: u32) -> Result<Arrival, Memory>
        requires fit { CountsFit self.old }
        requires kind { word % 4 ≢ 0 }
        ensures comes { IfOk result (λ arrival. Comes word arrival self.old self.new) }
        ensures changes { IfOk result (λ arrival. Changes arrival self.old self.new) }
    {
        let packet = self.pool.coming(word);
        self.pool.leave(word);
        match packet {
            Some(packet) => self.arrive(packet),
            None => Ok(Arrival::Done),
        }
    }
}
