//! Lists of agents that rise.

ghost use Rattle.std.specs.Prelude.{◌≡◌, ◌<◌, ◌≤◌, ℕ, OnOk, length, ◌||◌, ◌==◌, slice_index_or};
ghost use Rattle.dcsp_defs.specs.Words.{IsRising};
ghost use Rattle.abt_defs.specs.Agents.{is_among};

use dcsp_common::Memory;

/// Adds the agent in its place, if it is not there.
pub fn add_rising(agents: &mut Vec<u32>, agent: u32) -> Result<(), Memory>
    requires { IsRising agents.old.items }
    ensures rising { OnOk result (IsRising agents.new.items) }
    ensures among { OnOk result ((k : ℕ) → is_among k agents.new.items ≡ (is_among k agents.old.items || (k == agent))) }
{
    if is_listed(agents, agent) {
        return Ok(());
    }
    let place = place_of(agents, agent);
    match agents.insert(place, agent) {
        Ok(()) => Ok(()),
        Err(_) => Err(Memory),
    }
}

/// Whether the agent is one of these.
fn is_listed(agents: &[u32], agent: u32) -> bool
    ensures { result ≡ is_among agent agents.now }
{
    agents.contains(&agent)
}

/// How many of the agents, which rise, are below this one.
fn place_of(agents: &[u32], agent: u32) -> usize
    requires { IsRising agents.now }
    ensures within { result ≤ length agents.now }
    ensures before { (k : ℕ) → k < result → slice_index_or agents.now k 0 < agent }
    ensures after { (k : ℕ) → result ≤ k → k < length agents.now → agent ≤ slice_index_or agents.now k 0 }
{
    for place in 0..agents.len() {
        if agent <= agents[place] {
            return place;
        }
    }
    agents.len()
}
