//! Agents over a medium that loses, repeats and reorders, under words that are written out.

ghost use Rattle.std.specs.Prelude.{◌≡◌, ◌<◌, length, true};

use crate::given::{THIRD, apart, let_go, torn};
use crate::networks::expect_running;
use abt_lossy::{Happened, Lossy, Standing};
use dcsp_problem::Problem;
use std::alloc::Global;
use std::process::Abort;

/// The agents of the problem after their start, which refutes nothing.
fn begun<'p>(rt: &impl Abort, alloc: Global, problem: &'p Problem) -> Lossy<'p>
    ensures begun { result.begun ≡ true }
    ensures problem { result.problem ≡ problem.now }
{
    let mut medium = Lossy::new(alloc, problem).expect(rt, "memory");
    let begun = medium.start().expect(rt, "memory");
    expect_running(rt, begun);
    assert_eq!(rt; medium.pool(), 0);
    medium
}

/// Lets the agents go.
pub fn end(_medium: Lossy<'_>) {}

/// Makes the event of a word, while a message is not yet handed up.
fn made(rt: &impl Abort, medium: &mut Lossy<'_>, word: u32) -> Happened
    requires { medium.old.begun ≡ true }
    ensures begun { medium.new.begun ≡ true }
    ensures problem { medium.new.problem ≡ medium.old.problem }
{
    assert!(rt; medium.state() == Standing::Open);
    assert!(rt; medium.events() < 1000);
    medium.event(word).expect(rt, "memory")
}

/// An event: its word, the number of the list that it hands up from, if it does, whether a step is made, and
/// how many packets are on their way then.
type Row = (u32, Option<u32>, bool, u64);

/// This happened as the row says.
fn expect_happened(rt: &impl Abort, happened: Happened, row: Row) {
    let (_, delivered, step, _) = row;
    assert!(rt; happened.delivered == delivered);
    assert_eq!(rt; happened.step.is_some(), step);
}

/// Makes the events of these rows, each of which must be as its row says.
fn make_all(rt: &impl Abort, medium: &mut Lossy<'_>, rows: &[Row])
    requires { medium.old.begun ≡ true }
    ensures { medium.new.problem ≡ medium.old.problem }
{
    for row in rows {
        let happened = made(rt, medium, row.0);
        expect_happened(rt, happened, *row);
        assert_eq!(rt; medium.pool(), row.3);
    }
}

/// Data is sent, handed up while its packet stays, and acknowledged again as it comes again; then the first
/// acknowledgement is lost.
const REPEATED: [Row; 4] = [
    (0, None, false, 1),
    (2, Some(0), true, 2),
    (1, None, false, 2),
    (3, None, false, 1),
];

#[test]
fn a_repeated_packet(rt: HostRuntime) {
    let problem = torn(&rt, rt.alloc());
    let mut medium = begun(&rt, rt.alloc(), &problem);
    make_all(&rt, &mut medium, &REPEATED);
    assert_eq!(rt; medium.events(), 4);
    end(medium);
    let_go(problem);
}

/// Events of all kinds, until all is handed up that was sent: six messages.
const ROWS: [Row; 18] = [
    (4, None, false, 1),
    (0, None, false, 2),
    (1, Some(1), true, 2),
    (8, None, false, 3),
    (5, None, false, 2),
    (5, Some(1), false, 2),
    (4, None, false, 3),
    (10, Some(1), false, 4),
    (5, None, false, 3),
    (1, Some(0), true, 3),
    (9, None, false, 2),
    (4, None, false, 3),
    (3, None, false, 2),
    (1, None, false, 1),
    (9, Some(0), false, 1),
    (0, None, false, 2),
    (1, None, false, 1),
    (9, Some(0), false, 1),
];

/// All that was sent is handed up, after so many events.
fn expect_quiet(rt: &impl Abort, medium: &Lossy<'_>, events: u64) {
    assert!(rt; medium.state() == Standing::Quiet);
    assert_eq!(rt; medium.events(), events);
}

fn expect_value(rt: &impl Abort, medium: &Lossy<'_>, agent: u32, value: i64)
    requires { agent < length medium.now.problem.domains }
{
    assert!(rt; medium.value(agent) == Some(value));
}

#[test]
fn all_kinds_of_events(rt: HostRuntime) {
    let problem = apart(&rt, rt.alloc(), [0, 0, 0], [1, 1, 0], THIRD);
    let mut medium = begun(&rt, rt.alloc(), &problem);
    make_all(&rt, &mut medium, &ROWS);
    expect_quiet(&rt, &medium, 18);
    expect_value(&rt, &medium, 0, 1);
    expect_value(&rt, &medium, 1, 1);
    expect_value(&rt, &medium, 2, 0);
    end(medium);
    let_go(problem);
}
