//! What agents send each other, and the list of what is to be sent.
//!
//! The messages are those of asynchronous backtracking (Yokoo, Durfee, Ishida and Kuwabara, IEEE
//! TKDE 10(5), 1998), with stamps on their values. `specs/` says which message of the definitions
//! each of them is.

ghost use Rattle.std.specs.Prelude.{◌≡◌, ◌↔◌, ◌+◌, [], ◌∷◌, ◌++◌, drop, length, slice_get, IfErr, IfOk, IsTrue, OnErr, OnOk};
ghost use Rattle.abt_parts.specs.Messages.{kind_of, message_of, sent_of, told_sent};

use crate::spare::{Spare, empty_list, let_go};
use dcsp_common::{ItemList, Memory};
use dcsp_defs::{Nogood, Pair};
use std::alloc::Global;
use std::collections::VecDeque;
use std::marker::Model;

/// Stamps in a given order. A value's stamp is how many values its agent had taken then, this one
/// included.
pub type StampList = ItemList<u64>;

/// What one agent sends another.
#[derive(Debug, Drop)]
pub enum Message {
    /// The sender's value and its stamp, which is above 0: the paper's `ok?`.
    Tell {
        value: i64,
        stamp: u64,
    },
    /// A nogood with one stamp for each of its pairs, and the number of the step that derived it,
    /// counted from 1.
    Refuse {
        nogood: Nogood,
        stamps: StampList,
        step: u64,
    },
    /// A request to be told the receiver's values from now on.
    AddLink,
}

/// A kind of message.
#[derive(Clone, Copy, Debug, PartialEq, Eq)]
pub enum MessageKind {
    /// An agent's value.
    Tell,
    /// A nogood.
    Refuse,
    /// A request to be told values.
    AddLink,
}

impl Message {
    /// Its kind.
    pub fn kind(&self) -> MessageKind
        ensures { result ≡ kind_of (message_of self.now) }
    {
        match self {
            Message::Tell { .. } => MessageKind::Tell,
            Message::Refuse { .. } => MessageKind::Refuse,
            Message::AddLink => MessageKind::AddLink,
        }
    }
}

/// A message and its receiver.
#[derive(Debug, Drop)]
pub struct Sent {
    /// The agent that receives it, counted from 0.
    pub to: u32,
    pub message: Message,
}

/// What is told of a message that was sent.
#[derive(Clone, Copy, Debug, PartialEq, Eq)]
pub struct SentTo {
    /// The agent that receives it, counted from 0.
    pub to: u32,
    pub kind: MessageKind,
}

impl Sent {
    /// What is told of it.
    pub fn told(&self) -> SentTo
        ensures { result ≡ told_sent (sent_of self.now) }
    {
        SentTo {
            to: self.to,
            kind: self.message.kind(),
        }
    }
}

/// Messages that are to be sent, first in and first out.
#[derive(Debug, Drop)]
pub struct Outbox {
    waiting: VecDeque<Sent>,
    spare: Spare,
}

impl Model for Outbox {
    ghost use Rattle.std.specs.Prelude.{List};
    ghost use Rattle.abt_parts.specs.declared.message.Sent.{Sent};

    ghost Value = { List Sent };

    ghost view = { λ outbox. outbox.waiting.items };
}

impl Outbox {
    /// No message.
    pub fn new(alloc: Global) -> Outbox
        ensures { result ≡ [] }
    {
        Outbox {
            waiting: VecDeque::new(alloc),
            spare: Spare::new(alloc),
        }
    }

    /// Adds a message at the end. A refusal hands it back and changes nothing.
    #[inline(always)]
    pub fn push(&mut self, sent: Sent) -> Result<(), (Sent, Memory)>
        ensures ok { OnOk result (self.new ≡ self.old ++ sent ∷ []) }
        ensures handed_back { IfErr result (λ refused. refused.0 ≡ sent) }
        ensures err { OnErr result (self.new ≡ self.old) }
    {
        // Most find room that was made before, and take no call.
        if self.waiting.len() < self.waiting.capacity() {
            self.waiting.push_back_reserved(sent);
            return Ok(());
        }
        match self.waiting.push_back(sent) {
            Ok(()) => Ok(()),
            Err(failed) => Err((failed.value, Memory)),
        }
    }

    /// Takes the first message out; `None` exactly if there is none. The others are not moved.
    pub fn take_first(&mut self) -> Option<Sent>
        ensures first { result ≡ slice_get self.old 0 }
        ensures rest { self.new ≡ drop 1 self.old }
    {
        self.waiting.pop_front()
    }

    /// Lets a list of stamps go, whose room may be given again.
    pub fn give_back(&mut self, stamps: StampList)
        ensures { self.new ≡ self.old }
    {
        let_go(&mut self.spare.stamps, stamps.into_vec());
    }

    /// Lets a nogood go, whose room may be given again.
    pub fn give_back_nogood(&mut self, nogood: Nogood)
        ensures { self.new ≡ self.old }
    {
        let_go(&mut self.spare.pairs, nogood.into_pairs());
    }

    /// Lets a list of pairs go, whose room may be given again.
    #[inline(always)]
    pub fn give_back_pairs(&mut self, pairs: Vec<Pair>)
        ensures { self.new ≡ self.old }
    {
        let_go(&mut self.spare.pairs, pairs);
    }

    /// An empty list for stamps, with the room of one that was let go, if there is one.
    pub fn stamp_room(&mut self, alloc: Global) -> Vec<u64>
        ensures stamps { result.items ≡ [] }
        ensures messages { self.new ≡ self.old }
    {
        empty_list(&mut self.spare.stamps, alloc)
    }

    /// An equal nogood, in the room of one that was let go, if there is one.
    pub fn copy_nogood(&mut self, alloc: Global, nogood: &Nogood) -> Result<Nogood, Memory>
        ensures copy { IfOk result (λ copy. copy ≡ nogood.now) }
        ensures messages { self.new ≡ self.old }
    {
        let mut pairs = empty_list(&mut self.spare.pairs, alloc);
        pairs.extend_from_slice(nogood.pairs())?;
        // They rise, as those of the nogood do.
        Ok(Nogood::of_rising(pairs))
    }

    /// The number of messages.
    pub fn len(&self) -> usize
        ensures { result ≡ length self.now }
    {
        self.waiting.len()
    }

    /// Whether there is no message.
    pub fn is_empty(&self) -> bool
        ensures { IsTrue result ↔ (self.now ≡ []) }
    {
        self.waiting.is_empty()
    }
}
