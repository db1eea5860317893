//! How a run ends.

/// How a run ends, with what is told of a solution: all values, the value at the aim, or `()`.
#[derive(Clone, Copy, Debug, PartialEq, Eq, Drop)]
pub enum End<V> {
    /// Nothing is in transit, and nothing was refuted: the agents' values are a solution, of which this is told.
    Solved(V),
    /// A step with the empty nogood was made: there is no solution.
    Refuted,
    /// The choices are used up, and a message is in transit.
    Spent,
    /// The greatest number of deliveries was made, and a message is in transit.
    Capped,
}
