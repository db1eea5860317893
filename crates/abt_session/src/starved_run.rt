//! A run that starves a link.

ghost use Rattle.std.specs.Prelude.{◌≡◌, ◌<◌, ◌≤◌, ◌^◌, ◌++◌, ◌∷◌, [], true, false, length, IfOk, OnErr, OnOk};
ghost use Rattle.abt_defs.specs.Network.{Network as TheNetwork, deliver, start};
ghost use Rattle.abt_defs.specs.Runs.{starved, starved_choice};
ghost use Rattle.dcsp_rule.specs.Problems.{csp_of};
ghost use Rattle.law_runs.specs.Replay.{Verdicts};
ghost use Rattle.abt_links.specs.Transit.{ready_pairs};
ghost use Rattle.abt_network.specs.Standing.{CanDeliver, StandsAt};
ghost use Rattle.abt_session.specs.Running.{TakesPart};
ghost use Rattle.abt_session.specs.Starving.{choices_of, end_at, run_of, starving_choices, AreNear, IsStarved};

use abt_defs::End;
use abt_network::{DeliveryRoom, Network, Standing};
use abt_schedule::ChoiceList;
use dcsp_common::Memory;
use dcsp_problem::Problem;
use std::alloc::Global;

/// What a run that starves a link comes to.
#[derive(Clone, Copy, Debug, PartialEq, Eq)]
pub struct Starved {
    /// How it ended. Its choices are never used up.
    pub end: End<()>,
    /// How many deliveries were made.
    pub deliveries: u64,
}

/// A run that is asked for, and the link that it starves. A pair without messages starves nothing.
#[derive(Clone, Copy)]
pub struct StarvingRun<'p> {
    pub problem: &'p Problem,
    /// The agent that sends over the link, counted from 0.
    pub from: u32,
    /// The agent that the link leads to, counted from 0.
    pub to: u32,
    /// How many deliveries the run makes at most.
    pub most: u64,
}

/// Runs the agents of a problem and starves a link: each delivery is from the first list that is ready and not that
/// link's, and from that link's only where it is the only one.
///
/// The choices are pushed to `taken`. Each is 0 or 1 and is the number of its list, so that a run by those
/// numbers is a run under the choices. After want of memory some first ones of them were pushed.
pub fn starve(
    alloc: Global,
    run: StarvingRun<'_>,
    taken: &mut ChoiceList,
) -> Result<Starved, Memory>
    requires { run.most ≤ 2 ^ 40 }
    ensures starved { IfOk result (IsStarved (csp_of run.entry.problem.now) run.entry.from run.entry.to run.entry.most) }
    ensures takes { OnOk result (taken.new ≡ taken.old ++ choices_of run.entry) }
    ensures takes_part { TakesPart true (choices_of run.entry) taken.old taken.new }
    ensures numbers { (run_of run.entry).numbers ≡ choices_of run.entry }
    ensures near { AreNear run.entry.most (choices_of run.entry) }
    ensures verdicts { Verdicts (csp_of run.entry.problem.now) run.entry.most (run_of run.entry) }
{
    law_runs::verdicts();
    run.problem.denotes_csp();
    let mut network = Network::new(alloc, run.problem)?;
    let _begun = network.start()?;
    let mut room = DeliveryRoom::new(alloc);
    deliver_others(&mut network, &mut room, run.from, run.to, run.most, taken)?;
    Ok(Starved {
        end: end_of(&network),
        deliveries: network.deliveries(),
    })
}

/// Makes the deliveries of the run, until it ends or the greatest number was made.
fn deliver_others(
    network: &mut Network,
    room: &mut DeliveryRoom,
    from: u32,
    to: u32,
    most: u64,
    taken: &mut ChoiceList,
) -> Result<(), Memory>
    requires most { most ≤ 2 ^ 40 }
    requires sound { network.old.spent ≡ false }
    requires begun { network.old.begun ≡ true }
    requires starts { StandsAt network.old (start (csp_of network.old.problem)) }
    ensures stands { OnOk result (StandsAt network.new (starved (csp_of network.old.problem) from to most).net) }
    ensures takes { OnOk result (taken.new ≡ taken.old ++ starving_choices (csp_of network.old.problem) from to most) }
    ensures takes_part { TakesPart true (starving_choices (csp_of network.old.problem) from to most) taken.old taken.new }
    ensures sound { OnOk result (network.new.spent ≡ false) }
    ensures problem { network.new.problem ≡ network.old.problem }
{
    for _made in 0..most {
        match network.state() {
            Standing::Open => {}
            Standing::Refuted | Standing::Quiet => return Ok(()),
        }
        deliver_other(network, room, from, to, taken)?;
    }
    Ok(())
}

/// Makes one delivery, from the first ready list of another pair, if there is one.
fn deliver_other(
    network: &mut Network,
    room: &mut DeliveryRoom,
    from: u32,
    to: u32,
    taken: &mut ChoiceList,
) -> Result<(), Memory>
    requires sound { network.old.spent ≡ false }
    requires can { CanDeliver network.old }
    ensures stands { (net : TheNetwork) → StandsAt network.old net
        → OnOk result (StandsAt network.new (deliver (csp_of network.old.problem) (starved_choice (csp_of network.old.problem) from to net) net)) }
    ensures takes { (net : TheNetwork) → StandsAt network.old net
        → OnOk result (taken.new ≡ taken.old ++ starved_choice (csp_of network.old.problem) from to net ∷ []) }
    ensures not_taken { OnErr result (taken.new ≡ taken.old) }
    ensures sound { OnOk result (network.new.spent ≡ false) }
    ensures begun { OnOk result (network.new.begun ≡ true) }
    ensures problem { network.new.problem ≡ network.old.problem }
{
    let number = first_other(network, from, to);
    network.deliver_into(number, room)?;
    taken.push(number)
}

/// The number of the first ready list of another pair, or 0 where there is none.
fn first_other(network: &Network, from: u32, to: u32) -> u32
    requires { network.now.spent ≡ false }
    ensures { (net : TheNetwork) → StandsAt network.now net → result ≡ starved_choice (csp_of network.now.problem) from to net }
{
    for number in 0..network.ready() {
        if network.ready_pair(number) != (from, to) {
            return number;
        }
    }
    0
}

/// How a run has ended that leaves the network so.
fn end_of(network: &Network) -> End<()>
    requires { network.now.spent ≡ false }
    ensures { (net : TheNetwork) → StandsAt network.now net → result ≡ end_at (csp_of network.now.problem) net }
{
    match network.state() {
        Standing::Refuted => End::Refuted,
        Standing::Quiet => End::Solved(()),
        Standing::Open => End::Capped,
    }
}
