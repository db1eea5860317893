//! A network whose messages stand in a plain list for each ordered pair of agents.

ghost use Rattle.std.specs.Prelude.{◌≡◌, length};

use crate::seats::{Letter, Seat};
use abt_agent::{Step, Turn};
use abt_network::Cargo;
use abt_parts::{Message, Outbox, Sent};
use dcsp_problem::Problem;
use std::alloc::Global;
use std::process::Abort;

/// The messages in transit from one agent to another.
#[derive(Drop)]
struct List {
    from: u32,
    to: u32,
    messages: Vec<Message>,
}

/// All agents of a problem, and a list of messages for each ordered pair of them.
#[derive(Drop)]
pub struct Plain<'p> {
    seats: Vec<Seat<'p>>,
    /// By sender, and then by receiver.
    lists: Vec<List>,
    out: Outbox,
    /// How many steps were made.
    pub steps: u64,
    pub is_refuted: bool,
}

/// One delivery.
#[derive(Debug, Drop)]
pub struct Delivered {
    pub from: u32,
    pub to: u32,
    pub cargo: Cargo,
    /// The step that the receiver made, if it made one.
    pub step: Option<Step>,
}

impl<'p> Plain<'p> {
    /// The agents of the problem have started in order, and each has taken a value.
    pub fn started(rt: &impl Abort, alloc: Global, problem: &'p Problem) -> Plain<'p> {
        let mut plain = Plain {
            seats: Vec::new(alloc),
            lists: lists_between(rt, alloc, problem.vars()),
            out: Outbox::new(alloc),
            steps: 0,
            is_refuted: false,
        };
        for me in 0..problem.vars() {
            let seat = Seat::started(rt, alloc, problem, me, &mut plain.out);
            plain.seats.push(seat).expect(rt, "memory");
            plain.send_all(rt, me);
        }
        plain
    }

    /// Appends what an agent put out to the lists.
    fn send_all(&mut self, rt: &impl Abort, from: u32) {
        for _sent in 0..self.out.len() {
            let sent = self.out.take_first().expect(rt, "a message");
            append(rt, &mut self.lists, from, sent);
        }
        assert!(rt; self.out.is_empty());
    }

    /// How many lists have messages.
    pub fn ready(&self) -> usize {
        let mut count: usize = 0;
        for list in &self.lists {
            if !list.messages.is_empty() {
                count = count.saturating_add(1);
            }
        }
        count
    }

    /// Delivers the first message of the list whose number among those that have messages is the
    /// remainder of `choice` by how many these are.
    pub fn deliver(&mut self, rt: &impl Abort, choice: u32) -> Delivered {
        let ready = self.ready();
        assert!(rt; ready > 0);
        let letter = taken(rt, &mut self.lists, choice as usize % ready);
        let (from, to) = (letter.from, letter.to);
        let cargo = cargo_of(&letter.message);
        assert!(rt; self.steps < 1_000_000);
        assert!(rt; (to as usize) < self.seats.len());
        let next_step = self.steps + 1;
        let turn = self.seats[to as usize].receive(rt, letter, next_step, &mut self.out);
        self.send_all(rt, to);
        let step = self.step_of(turn);
        Delivered {
            from,
            to,
            cargo,
            step,
        }
    }

    /// Counts the step of a turn, if it made one.
    fn step_of(&mut self, turn: Turn) -> Option<Step> {
        self.is_refuted = matches!(&turn, Turn::Empty(_));
        match turn {
            Turn::Quiet | Turn::Announced => None,
            Turn::Derived(step) | Turn::Empty(step) => {
                self.steps = self.steps.saturating_add(1);
                Some(step)
            }
        }
    }

    /// An agent's value.
    pub fn value(&self, rt: &impl Abort, agent: u32) -> Option<i64> {
        assert!(rt; (agent as usize) < self.seats.len());
        self.seats[agent as usize].value()
    }
}

/// No messages, between so many agents.
fn lists_between(rt: &impl Abort, alloc: Global, agents: u32) -> Vec<List> {
    let mut lists = Vec::new(alloc);
    for from in 0..agents {
        for to in 0..agents {
            let messages = Vec::new(alloc);
            lists.push(List { from, to, messages }).expect(rt, "memory");
        }
    }
    lists
}

/// Appends a message to the list of its pair.
fn append(rt: &impl Abort, lists: &mut [List], from: u32, sent: Sent) {
    let Sent { to, message } = sent;
    let place = lists
        .iter()
        .position(|list| list.from == from && list.to == to);
    let place = place.expect(rt, "a pair");
    lists[place].messages.push(message).expect(rt, "memory");
}

/// Takes the first message of the list with this number among those that have messages.
fn taken(rt: &impl Abort, lists: &mut [List], number: usize) -> Letter {
    let list = lists
        .iter_mut()
        .filter(|list| !list.messages.is_empty())
        .nth(number);
    let list = list.expect(rt, "a list");
    assert!(rt; !list.messages.is_empty());
    Letter {
        from: list.from,
        to: list.to,
        message: list.messages.remove(0),
    }
}

/// What is told of a message.
fn cargo_of(message: &Message) -> Cargo {
    match message {
        Message::Tell { value, .. } => Cargo::Tell { value: *value },
        Message::Refuse { step, .. } => Cargo::Refuse { step: *step },
        Message::AddLink => Cargo::AddLink,
    }
}
