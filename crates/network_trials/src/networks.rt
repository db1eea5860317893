//! Whole runs under choices, by the network alone.

ghost use Rattle.std.specs.Prelude.{◌≡◌, length, true};

use crate::given::{THIRD, apart, let_go};
use Cargo::{AddLink, Refuse, Tell};
use abt_network::{Begun, Cargo, Delivery, Network, Standing};
use dcsp_problem::Problem;
use std::alloc::Global;
use std::process::Abort;

/// The start refuted nothing.
pub fn expect_running(rt: &impl Abort, begun: Begun) {
    assert!(rt; matches!(&begun, Begun::Running));
}

/// The network of the problem, after its start, which refutes nothing.
pub fn started<'p>(rt: &impl Abort, alloc: Global, problem: &'p Problem) -> Network<'p>
    ensures begun { result.begun ≡ true }
    ensures problem { result.problem ≡ problem.now }
{
    let mut network = Network::new(alloc, problem).expect(rt, "memory");
    let begun = network.start().expect(rt, "memory");
    expect_running(rt, begun);
    network
}

/// Lets the network go.
pub fn end(_network: Network<'_>) {}

/// Makes a delivery, while a message is in transit.
pub fn delivered(rt: &impl Abort, network: &mut Network<'_>, choice: u32) -> Delivery
    requires { network.old.begun ≡ true }
    ensures begun { network.new.begun ≡ true }
    ensures problem { network.new.problem ≡ network.old.problem }
{
    assert!(rt; network.state() == Standing::Open);
    assert!(rt; network.deliveries() < 1_000_000);
    network.deliver(choice).expect(rt, "memory")
}

/// A choice, and the delivery that must follow: from whom, to whom, and what the message carries.
type Told = (u32, u32, u32, Cargo);

/// The delivery is as told.
fn expect_delivery(rt: &impl Abort, delivery: Delivery, told: Told) {
    let (_, from, to, cargo) = told;
    assert_eq!(rt; delivery.from, from);
    assert_eq!(rt; delivery.to, to);
    assert!(rt; delivery.cargo == cargo);
}

/// Makes the deliveries, each of which must be as told.
fn play(rt: &impl Abort, network: &mut Network<'_>, rows: &[Told])
    requires { network.old.begun ≡ true }
    ensures { network.new.problem ≡ network.old.problem }
{
    for told in rows {
        let delivery = delivered(rt, network, told.0);
        expect_delivery(rt, delivery, *told);
    }
}

/// A run of three variables of which those of each pair differ: its deliveries, how the network stands after
/// them, how many steps were made, and the values where nothing was refuted.
#[derive(Drop)]
struct Run {
    least: [i64; 3],
    greatest: [i64; 3],
    pairs: &'static [(u32, u32)],
    told: &'static [Told],
    standing: Standing,
    steps: u64,
    values: Option<[i64; 3]>,
}

impl Run {
    /// Makes the run, which must be as it says.
    fn expect(&self, rt: &impl Abort, alloc: Global) {
        let problem = apart(rt, alloc, self.least, self.greatest, self.pairs);
        let mut network = started(rt, alloc, &problem);
        play(rt, &mut network, self.told);
        self.expect_end(rt, &network);
        if let Some(values) = self.values {
            expect_values(rt, &network, values);
        }
        end(network);
        let_go(problem);
    }

    /// The network stands as the run says.
    fn expect_end(&self, rt: &impl Abort, network: &Network<'_>) {
        assert!(rt; network.state() == self.standing);
        assert_eq!(rt; network.deliveries(), self.told.len() as u64);
        assert_eq!(rt; network.steps(), self.steps);
    }
}

/// Nothing is in transit, and these are the values.
fn expect_values(rt: &impl Abort, network: &Network<'_>, values: [i64; 3])
    requires { length network.now.problem.domains ≡ 3 }
{
    assert_eq!(rt; network.ready(), 0);
    assert!(rt; network.value(0) == Some(values[0]));
    assert!(rt; network.value(1) == Some(values[1]));
    assert!(rt; network.value(2) == Some(values[2]));
}

const RUNS: [Run; 4] = [
    // A link is asked for, and a value is told anew: nine deliveries.
    Run {
        least: [0, 1, 0],
        greatest: [1, 1, 1],
        pairs: THIRD,
        told: &[
            (0, 0, 2, Tell { value: 0 }),
            (0, 1, 2, Tell { value: 1 }),
            (0, 2, 1, Refuse { step: 1 }),
            (0, 1, 0, AddLink),
            (0, 0, 1, Tell { value: 0 }),
            (0, 1, 0, Refuse { step: 2 }),
            (0, 0, 1, Tell { value: 1 }),
            (0, 0, 2, Tell { value: 1 }),
            (0, 1, 2, Tell { value: 1 }),
        ],
        standing: Standing::Quiet,
        steps: 2,
        values: Some([1, 1, 0]),
    },
    // The link from the first agent to the third is starved.
    Run {
        least: [0, 0, 0],
        greatest: [1, 1, 0],
        pairs: THIRD,
        told: &[
            (1, 1, 2, Tell { value: 0 }),
            (1, 2, 1, Refuse { step: 1 }),
            (1, 1, 2, Tell { value: 1 }),
            (0, 0, 2, Tell { value: 0 }),
            (0, 2, 0, Refuse { step: 2 }),
            (0, 0, 2, Tell { value: 1 }),
        ],
        standing: Standing::Quiet,
        steps: 2,
        values: Some([1, 1, 0]),
    },
    // A nogood reaches an agent that waits.
    Run {
        least: [0, 0, 0],
        greatest: [1, 0, 0],
        pairs: &[(0, 1), (1, 2)],
        told: &[
            (0, 0, 1, Tell { value: 0 }),
            (1, 1, 2, Tell { value: 0 }),
            (1, 2, 1, Refuse { step: 2 }),
            (0, 1, 0, Refuse { step: 1 }),
            (0, 0, 1, Tell { value: 1 }),
        ],
        standing: Standing::Refuted,
        steps: 3,
        values: None,
    },
    // Three variables with two values, all different.
    Run {
        least: [0, 0, 0],
        greatest: [1, 1, 1],
        pairs: &[(0, 1), (0, 2), (1, 2)],
        told: &[
            (0, 0, 1, Tell { value: 0 }),
            (0, 0, 2, Tell { value: 0 }),
            (0, 1, 2, Tell { value: 0 }),
            (0, 1, 2, Tell { value: 1 }),
            (0, 2, 1, Refuse { step: 1 }),
            (0, 1, 0, Refuse { step: 2 }),
            (0, 0, 1, Tell { value: 1 }),
            (0, 0, 2, Tell { value: 1 }),
            (0, 1, 2, Tell { value: 0 }),
            (0, 2, 1, Refuse { step: 3 }),
            (0, 1, 0, Refuse { step: 4 }),
        ],
        standing: Standing::Refuted,
        steps: 5,
        values: None,
    },
];

#[test]
fn worked_runs(rt: HostRuntime) {
    for run in &RUNS {
        run.expect(&rt, rt.alloc());
    }
}
