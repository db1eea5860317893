//! The packets on their way.

ghost use Rattle.std.specs.Prelude.{◌≡◌, ◌+◌, [], ◌∷◌, ◌++◌, length, OnErr, OnOk};
ghost use Rattle.law_runs.specs.Packets.{coming, staying};

use dcsp_common::Memory;
use std::alloc::Global;
use std::marker::Model;

/// Numbered data of an ordered pair of agents, or the acknowledgement of such data.
///
/// The pair is that of the data in both: its sender, and then its receiver.
#[derive(Clone, Copy, Debug, PartialEq, Eq)]
pub enum Packet {
    /// Message number `number` from the sender to the receiver, counted from 1.
    Data {
        sender: u32,
        receiver: u32,
        number: u64,
    },
    /// Data of this number has come; it goes from the receiver back to the sender.
    Acknowledgement {
        sender: u32,
        receiver: u32,
        number: u64,
    },
}

/// The packets on their way, in the order in which they were sent.
///
/// A word of an event speaks of the packet whose place is a quarter of the word, modulo the number of
/// packets. Its remainder by 4 is its kind: 1 delivers the packet, 2 delivers and repeats it, 3 loses
/// it. A word of the kind 0 speaks of no packet.
#[derive(Debug, Drop)]
pub struct Pool {
    packets: Vec<Packet>,
}

impl Model for Pool {
    ghost use Rattle.std.specs.Prelude.{List};
    ghost use Rattle.abt_lossy.specs.declared.pool.Packet.{Packet};

    ghost Value = { List Packet };

    ghost view = { λ pool. pool.packets.items };
}

impl Pool {
    /// A pool without packets. It keeps the allocator.
    pub fn new(alloc: Global) -> Pool
        ensures { result ≡ [] }
    {
        Pool {
            packets: Vec::new(alloc),
        }
    }

    /// How many packets there are.
    pub fn len(&self) -> usize
        ensures { result ≡ length self.now }
    {
        self.packets.len()
    }

    /// The packet that arrives by this word, whose kind is not 0: none where the word loses it, or
    /// where there is no packet.
    pub fn coming(&self, word: u32) -> Option<Packet>
        ensures { result ≡ coming word self.now }
    {
        let len = self.packets.len();
        if word % 4 == 3 || len == 0 {
            return None;
        }
        Some(self.packets[(word / 4) as usize % len])
    }

    /// Takes out the packet that the word speaks of, unless the word repeats it. The pool closes up.
    pub fn leave(&mut self, word: u32)
        ensures { self.new ≡ staying word self.old }
    {
        let len = self.packets.len();
        if word % 4 == 2 || len == 0 {
            return;
        }
        self.packets.remove((word / 4) as usize % len);
    }

    /// Puts a packet last. Where memory runs out, the pool is as it was.
    pub fn push(&mut self, packet: Packet) -> Result<(), Memory>
        ensures ok { OnOk result (self.new ≡ self.old ++ packet ∷ []) }
        ensures err { OnErr result (self.new ≡ self.old) }
    {
        self.packets.push(packet)?;
        Ok(())
    }
}
