//! Messages in transit, and pairs in order.

ghost use Rattle.std.specs.Prelude.{◌≡◌};

use abt_links::{Carried, Links, Message, PairSet};
use std::alloc::Global;
use std::process::Abort;

/// Links, and how many agents they have.
#[derive(Drop)]
struct Trial {
    agents: u32,
    links: Links,
    ghost same: { links.agents ≡ agents },
}

impl Trial {
    fn new(rt: &impl Abort, alloc: Global, agents: u32) -> Trial {
        assert!(rt; agents <= 4096);
        let links = Links::new(alloc, agents).expect(rt, "memory");
        Trial { agents, links }
    }

    /// Opens the pair, which may be open, and sends a value on it.
    fn tell(&mut self, rt: &impl Abort, from: u32, to: u32, value: i64) {
        assert!(rt; from < self.agents);
        assert!(rt; to < self.agents);
        self.links.open_pair(from, to).expect(rt, "memory");
        let message = Message::Tell { value, stamp: 1 };
        self.links.send(from, to, message).expect(rt, "memory");
    }

    /// Sends a value on the pair, which may be open.
    fn post(&mut self, rt: &impl Abort, from: u32, to: u32, value: i64) {
        assert!(rt; from < self.agents);
        assert!(rt; to < self.agents);
        let message = Message::Tell { value, stamp: 1 };
        self.links.post(from, to, message).expect(rt, "memory");
    }

    /// Takes from the ready list with this number, and tells sender, receiver and value.
    fn take(&mut self, rt: &impl Abort, number: u32) -> (u32, u32, i64) {
        assert!(rt; number < self.links.ready_count());
        let Carried { from, to, message } = self.links.take_ready(number);
        let Message::Tell { value, stamp: _ } = message else {
            panic!(rt; "another message");
        };
        (from, to, value)
    }

    /// Lets the links go. They are let go in a function of their own, where nothing else is known: its proof is
    /// long where much is.
    fn end(self) {}

    /// How many messages are in transit, how many from 0 to 1, and how many lists are ready.
    fn counts(&self) -> (u64, u64, u32) {
        let links = &self.links;
        (links.in_transit(), links.waiting(0, 1), links.ready_count())
    }
}

#[test]
fn lists_are_taken_by_number(rt: HostRuntime) {
    let mut trial = Trial::new(&rt, rt.alloc(), 3);
    for (from, to, value) in [(0u32, 1u32, 10i64), (0, 2, 20)] {
        trial.tell(&rt, from, to, value);
    }
    trial.post(&rt, 1, 2, 30);
    assert_eq!(rt; trial.take(&rt, 1), (0, 2, 20));
    trial.post(&rt, 0, 1, 11);
    assert_eq!(rt; trial.counts(), (3, 2, 2));
    assert!(rt; trial.links.ready_count() > 1);
    assert_eq!(rt; trial.links.ready_pair(1), (1, 2));
    for told in [(0u32, 1u32, 10i64), (0, 1, 11), (1, 2, 30)] {
        assert_eq!(rt; trial.take(&rt, 0), told);
    }
    assert_eq!(rt; trial.counts(), (0, 0, 0));
    trial.end();
}

#[test]
fn a_chain_of_agents(rt: HostRuntime) {
    let mut trial = Trial::new(&rt, rt.alloc(), 64);
    for agent in 0..63u32 {
        trial.tell(&rt, agent, agent + 1, i64::from(agent));
    }
    assert_eq!(rt; trial.take(&rt, 62), (62, 63, 62));
    assert_eq!(rt; trial.take(&rt, 0), (0, 1, 0));
    assert_eq!(rt; trial.links.ready_count(), 61);
    trial.end();
}

/// A walk over the lists would make some 10^11 looks here.
#[test]
fn one_list_in_a_million_is_found_fast(rt: HostRuntime) {
    let mut trial = Trial::new(&rt, rt.alloc(), 4096);
    for from in 0..4096u32 {
        for to in from + 1..4096.min(from + 257) {
            trial.tell(&rt, from, to, i64::from(from));
        }
    }
    assert_eq!(rt; trial.counts(), (1_015_680, 1, 1_015_680));
    for _ in 0..1_000_000u32 {
        let (from, to, value) = trial.take(&rt, 507_840);
        assert_eq!(rt; (from, to, value), (1983, 2176, 1983));
        trial.tell(&rt, from, to, value);
    }
    assert_eq!(rt; trial.counts(), (1_015_680, 1, 1_015_680));
    trial.end();
}

/// A set of pairs of 130 agents.
#[derive(Drop)]
struct Pairs {
    set: PairSet,
    ghost agents: { set.agents ≡ 130 },
}

impl Pairs {
    fn set(&mut self, rt: &impl Abort, from: u32, to: u32, is_in: bool) {
        assert!(rt; from < 130);
        assert!(rt; to < 130);
        self.set.set(from, to, is_in);
        assert_eq!(rt; self.set.contains(from, to), is_in);
    }

    /// Lets the set go.
    fn end(self) {}

    /// The pair with this number must be this one.
    fn expect(&self, rt: &impl Abort, number: u32, pair: (u32, u32)) {
        assert!(rt; number < self.set.count());
        assert_eq!(rt; self.set.nth(number), pair);
        assert!(rt; pair.0 < 130);
        assert!(rt; pair.1 < 130);
        assert!(rt; self.set.contains(pair.0, pair.1));
        assert_eq!(rt; self.set.number(pair.0, pair.1), number);
    }
}

#[test]
fn pairs_are_in_order(rt: HostRuntime) {
    let set = PairSet::new(rt.alloc(), 130).expect(&rt, "memory");
    let mut pairs = Pairs { set };
    for (from, to) in [(1u32, 129u32), (0, 64), (129, 0), (1, 3)] {
        pairs.set(&rt, from, to, true);
    }
    pairs.set(&rt, 0, 64, false);
    assert_eq!(rt; pairs.set.count(), 3);
    pairs.expect(&rt, 0, (1, 3));
    pairs.expect(&rt, 1, (1, 129));
    pairs.expect(&rt, 2, (129, 0));
    pairs.end();
}
