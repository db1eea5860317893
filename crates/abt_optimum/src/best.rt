//! What a whole search finds.

use dcsp_domain::IntList;

/// What is known when a search is over. Values are in the order of the variables.
#[derive(Debug, Drop)]
pub enum BestEnd {
    /// These values are a solution, and no solution has a better value at the aim.
    Optimal(IntList),
    /// There is no solution.
    NoSolution,
    /// The last round was spent or capped. These values, if there are any, are the best solution that was found.
    Open(Option<IntList>),
}

/// What a search found.
#[derive(Debug, Drop)]
pub struct Best {
    pub end: BestEnd,
    /// How many rounds it had.
    pub rounds: u64,
}
