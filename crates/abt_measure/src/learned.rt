//! What agents were told of others.

ghost use Rattle.std.specs.Prelude.{◌≡◌, ◌≢◌, ◌<◌, ◌∷◌, ◌++◌, ℕ, [], List, IfOk, OnOk, Some, length};
ghost use Rattle.std.specs.List.{list_any};
ghost use Rattle.abt_defs.specs.Events.{Act};
ghost use Rattle.abt_defs.specs.Measures.{is_pair, once};
ghost use Rattle.abt_parts.specs.Messages.{message_of};
ghost use Rattle.abt_measure.specs.Learning.{others, others_told, pairs_at, AreLearned, Learns};

use abt_parts::Message;
use dcsp_common::{ItemList, Memory};
use dcsp_defs::Pair;
use std::alloc::Global;
use std::marker::Model;

/// For each agent the values of others that it was told of, each once, in the order in which they came.
#[derive(Drop)]
pub struct Learned {
    agents: Vec<ItemList<Pair>>,
}

impl Model for Learned {
    ghost use Rattle.std.specs.Prelude.{List};
    ghost use Rattle.dcsp_defs.specs.declared.nogood.Pair.{Pair};

    ghost Value = { List (List Pair) };

    ghost view = { λ l. l.agents.items };
}

impl Learned {
    /// So many agents that were told nothing.
    pub fn new(alloc: Global, agents: u32) -> Result<Learned, Memory>
        ensures long { IfOk result (λ l. length l ≡ agents) }
        ensures none { IfOk result (AreLearned []) }
    {
        let mut lists = Vec::new(alloc);
        for _agent in 0..agents {
            lists.push(ItemList::new(alloc))?;
        }
        Ok(Learned { agents: lists })
    }

    /// An agent receives the message from another one.
    pub fn receive(&mut self, agent: u32, from: u32, message: &Message) -> Result<(), Memory>
        requires { agent < length self.old }
        ensures learned { (acts : List Act) (a : Act) → AreLearned acts self.old → a.agent ≡ agent → a.came ≡ Some (from, message_of message.now) → OnOk result (AreLearned (acts ++ a ∷ []) self.new) }
        ensures long { length self.new ≡ length self.old }
    {
        self.take_in(agent, from, message)
    }

    /// The agent is told what the message tells.
    fn take_in(&mut self, agent: u32, from: u32, message: &Message) -> Result<(), Memory>
        requires { agent < length self.old }
        ensures learns { OnOk result (Learns agent (others_told agent from (message_of message.now)) self.old self.new) }
        ensures long { length self.new ≡ length self.old }
    {
        match message {
            Message::Tell { value, .. } => {
                let told = Pair {
                    var: from,
                    value: *value,
                };
                self.learn(agent, told)
            }
            Message::Refuse { nogood, .. } => self.learn_all(agent, nogood.pairs()),
            Message::AddLink => Ok(()),
        }
    }

    /// The agent is told these values, in order.
    fn learn_all(&mut self, agent: u32, pairs: &[Pair]) -> Result<(), Memory>
        requires { agent < length self.old }
        ensures learns { OnOk result (Learns agent (others agent pairs.now) self.old self.new) }
        ensures long { length self.new ≡ length self.old }
    {
        for pair in pairs {
            self.learn(agent, *pair)?;
        }
        Ok(())
    }

    /// The agent is told this value, of itself or of another one.
    fn learn(&mut self, agent: u32, pair: Pair) -> Result<(), Memory>
        requires { agent < length self.old }
        ensures learns { OnOk result (Learns agent (others agent (pair ∷ [])) self.old self.new) }
        ensures long { length self.new ≡ length self.old }
    {
        if pair.var == agent {
            return Ok(());
        }
        let known = &mut self.agents[agent as usize];
        add_once(known, pair)
    }

    /// What the agent was told of others.
    pub fn pairs(&self, agent: u32) -> &[Pair]
        requires { agent < length self.now }
        ensures { result.now ≡ pairs_at self.now agent }
    {
        self.agents[agent as usize].items()
    }
}

/// Adds the pair, if it is not there.
fn add_once(known: &mut ItemList<Pair>, pair: Pair) -> Result<(), Memory>
    ensures { OnOk result (known.new ≡ once known.old (pair ∷ [])) }
{
    if has_pair(known.items(), pair) {
        return Ok(());
    }
    match known.push(pair) {
        Ok(()) => Ok(()),
        Err(_) => Err(Memory),
    }
}

/// Whether the pair is one of these.
fn has_pair(pairs: &[Pair], pair: Pair) -> bool
    ensures { result ≡ list_any (is_pair pair) pairs.now }
{
    for known in pairs {
        if is_same(pair, *known) {
            return true;
        }
    }
    false
}

/// Whether both are the same pair.
fn is_same(a: Pair, b: Pair) -> bool
    ensures { result ≡ is_pair a b }
{
    a.var == b.var && a.value == b.value
}
