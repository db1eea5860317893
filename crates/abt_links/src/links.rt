//! The messages in transit.

ghost use Rattle.std.specs.Prelude.{◌≡◌, ◌≢◌, ◌+◌, ◌<◌, ◌≤◌, [], IfErr, IfOk, OnErr, OnOk, Some, position, option_copied, slice_get, length};
ghost use Rattle.dcsp_common.specs.Limits.{most};
ghost use Rattle.dcsp_common.specs.declared.limits.Which.TheVariants.{Variables};
ghost use Rattle.abt_links.specs.Transit.{is_pair, link_of, IsOpen, Opens, Sends, Posts, Keeps, Takes, ready_pairs, message_count};

use crate::open_pairs::OpenPairs;
use crate::pair_set::PairSet;
use crate::queues::Queues;
use abt_parts::Message;
use dcsp_common::Memory;
use std::alloc::Global;
use std::marker::Model;

/// A message with its sender and its receiver, both counted from 0.
#[derive(Debug, Drop)]
pub struct Carried {
    pub from: u32,
    pub to: u32,
    pub message: Message,
}

/// The messages in transit: a list for each ordered pair of agents that was opened, first in and first
/// out. A list that has a message is ready; ready lists are numbered from 0, by sender and then by
/// receiver.
///
/// Only `new`, `open_pair`, `send` and `post` take memory: the bits of a `PairSet`, 32 bytes for each pair
/// that was opened, 12 for each slot of a sender's first 128 agents that has no pair, and one entry of a
/// slab for each message.
#[derive(Drop)]
pub struct Links {
    agents: u32,
    opened: OpenPairs,
    queues: Queues,
    ready: PairSet,
}

impl Model for Links {
    ghost use Rattle.abt_links.specs.Transit.{Transit};

    ghost Value = { Transit };

    ghost use Rattle.abt_links.specs.Whole.{IsWhole};

    ghost view = { λ l. record { agents = l.agents; opened = l.opened; lists = l.queues } };

    ghost invariant = { λ l. IsWhole (record { agents = l.agents; opened = l.opened; lists = l.queues }) l.ready };
}

impl Links {
    /// The links of this many agents. No pair is open.
    pub fn new(alloc: Global, agents: u32) -> Result<Links, Memory>
        requires { agents ≤ most Variables }
        ensures agents { IfOk result (λ l. l.agents ≡ agents) }
        ensures none { IfOk result (λ l. l.opened ≡ []) }
        ensures empty { IfOk result (λ l. l.lists ≡ []) }
    {
        let ready = PairSet::new(alloc, agents)?;
        Ok(Links {
            agents,
            opened: OpenPairs::new(alloc),
            queues: Queues::new(alloc),
            ready,
        })
    }

    /// Opens the pair, if it is not open. A refusal changes nothing. As many messages are in transit as before.
    #[inline(never)]
    pub fn open_pair(&mut self, from: u32, to: u32) -> Result<(), Memory>
        requires sender { from < self.old.agents }
        requires receiver { to < self.old.agents }
        ensures ok { OnOk result (Opens self.old self.new from to) }
        ensures again { IsOpen self.old from to → self.new ≡ self.old }
        ensures err { OnErr result (self.new ≡ self.old) }
        ensures stays { message_count self.new ≡ message_count self.old }
    {
        if self.opened.find(from, to).is_some() {
            return Ok(());
        }
        self.queues.open()?;
        if let Err(memory) = self.opened.add(from, to) {
            self.queues.close_last();
            return Err(memory);
        }
        Ok(())
    }

    /// Puts a message last on the list of its pair, so that one more is in transit. A refusal hands it back and
    /// changes nothing.
    pub fn send(&mut self, from: u32, to: u32, message: Message) -> Result<(), (Message, Memory)>
        requires { IsOpen self.old from to }
        ensures ok { OnOk result (Sends self.old self.new from to message) }
        ensures rises { OnOk result (message_count self.new ≡ message_count self.old + 1) }
        ensures handed_back { IfErr result (λ refused. refused.0 ≡ message) }
        ensures err { OnErr result (self.new ≡ self.old) }
    {
        let list = self.opened.place_of(from, to);
        self.put_last(list, from, to, message)
    }

    /// Opens the pair, if it is not open, and puts a message last on its list, so that one more is in transit.
    /// A refusal hands it back, and may leave the pair open.
    pub fn post(&mut self, from: u32, to: u32, message: Message) -> Result<(), (Message, Memory)>
        requires sender { from < self.old.agents }
        requires receiver { to < self.old.agents }
        ensures ok { OnOk result (Posts self.old self.new from to message) }
        ensures rises { OnOk result (message_count self.new ≡ message_count self.old + 1) }
        ensures again { IsOpen self.old from to → OnOk result (Sends self.old self.new from to message) }
        ensures handed_back { IfErr result (λ refused. refused.0 ≡ message) }
        ensures err { OnErr result (Keeps self.old self.new from to) }
        ensures stays { OnErr result (message_count self.new ≡ message_count self.old) }
        ensures err_again { IsOpen self.old from to → OnErr result (self.new ≡ self.old) }
    {
        match self.opened.find(from, to) {
            Some(list) => self.put_last(list, from, to, message),
            None => match self.open_pair(from, to) {
                Ok(()) => self.send(from, to, message),
                Err(memory) => Err((message, memory)),
            },
        }
    }

    /// Puts a message last on this list, which is its pair's. A refusal hands it back and changes nothing.
    #[inline(always)]
    fn put_last(
        &mut self,
        list: usize,
        from: u32,
        to: u32,
        message: Message,
    ) -> Result<(), (Message, Memory)>
        requires { position (is_pair from to) self.old.opened ≡ Some list }
        ensures ok { OnOk result (Sends self.old self.new from to message) }
        ensures rises { OnOk result (message_count self.new ≡ message_count self.old + 1) }
        ensures handed_back { IfErr result (λ refused. refused.0 ≡ message) }
        ensures err { OnErr result (self.new ≡ self.old) }
    {
        let was_empty = self.queues.is_empty(list);
        if let Err(refused) = self.queues.push(list, message) {
            return Err(refused);
        }
        self.ready.enter(from, to, was_empty);
        Ok(())
    }

    /// How many messages are in transit.
    pub fn in_transit(&self) -> u64
        ensures { result ≡ message_count self.now }
    {
        self.queues.total()
    }

    /// How many messages are in transit from one agent to another; 0 where the pair is not open.
    pub fn waiting(&self, from: u32, to: u32) -> u64
        ensures { result ≡ length (link_of self.now from to) }
    {
        match self.opened.find(from, to) {
            Some(place) => self.queues.count(place),
            None => 0,
        }
    }

    /// The first message in transit from one agent to another, if there is one.
    pub fn first(&self, from: u32, to: u32) -> Option<&Message>
        ensures { option_copied result ≡ slice_get (link_of self.now from to) 0 }
    {
        match self.opened.find(from, to) {
            Some(place) => self.queues.first(place),
            None => None,
        }
    }

    /// How many lists are ready.
    pub fn ready_count(&self) -> u32
        ensures { result ≡ length (ready_pairs self.now) }
    {
        self.ready.count()
    }

    /// Sender and receiver of the ready list with this number.
    pub fn ready_pair(&self, number: u32) -> (u32, u32)
        requires { number < length (ready_pairs self.now) }
        ensures { slice_get (ready_pairs self.now) number ≡ Some result }
    {
        self.ready.nth(number)
    }

    /// The number of this pair's list, which is ready.
    pub fn number(&self, from: u32, to: u32) -> u32
        requires { link_of self.now from to ≢ [] }
        ensures { slice_get (ready_pairs self.now) result ≡ Some (from, to) }
    {
        self.ready.number(from, to)
    }

    /// Takes the first message of the ready list with this number, so that one less is in transit.
    #[inline(always)]
    pub fn take_ready(&mut self, number: u32) -> Carried
        requires { number < length (ready_pairs self.old) }
        ensures pair { slice_get (ready_pairs self.old) number ≡ Some (result.from, result.to) }
        ensures sender { result.from < self.old.agents }
        ensures receiver { result.to < self.old.agents }
        ensures takes { Takes self.old self.new result.from result.to result.message }
        ensures falls { message_count self.new + 1 ≡ message_count self.old }
    {
        let (from, to) = self.ready.nth(number);
        let place = self.opened.place_of(from, to);
        let message = self.queues.pop(place);
        let is_last = self.queues.is_empty(place);
        self.ready.leave(from, to, is_last);
        Carried { from, to, message }
    }
}
