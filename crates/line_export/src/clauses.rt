//! The clauses of a formula, each once.

ghost use Rattle.std.specs.Prelude.{◌≡◌, ◌<◌, ◌≤◌, ◌^◌, [], Some, length, slice_get, sum_by, OnOk};
ghost use Rattle.line_export.specs.Clauses.{with_clause};

use indexmap::IndexSet;
use std::alloc::{AllocError, Global};
use std::marker::Model;

/// Clauses in the order in which they came, each once. A clause is its literals: `N` for atom `N`, `-N` for its
/// negation.
#[derive(Drop)]
pub struct ClauseSet {
    clauses: IndexSet<Vec<i32>>,
}

impl Model for ClauseSet {
    ghost use Rattle.std.specs.Prelude.{ℤ, List, map};
    ghost use Rattle.std.specs.declared.vec.Vec.{Vec};
    ghost use Rattle.std.specs.declared.alloc.Global.{Global};

    ghost Value = { List (List ℤ) };

    ghost view = { λ set. map (λ (clause : Vec ℤ Global). clause.items) set.clauses.keys };
}

impl ClauseSet {
    /// No clauses.
    pub fn new(alloc: Global) -> ClauseSet
        ensures { result ≡ [] }
    {
        ClauseSet {
            clauses: IndexSet::new(alloc),
        }
    }

    /// How many clauses there are.
    pub fn len(&self) -> usize
        ensures len { result ≡ length self.now }
        ensures small { result < 2 ^ 63 }
    {
        self.clauses.len()
    }

    /// The clause at this place, counted from 0.
    pub fn clause(&self, place: usize) -> &[i32]
        requires { place < length self.now }
        ensures { slice_get self.now place ≡ Some result.now }
    {
        self.clauses.get_index(place).unwrap()
    }

    /// Adds the clause last, unless it is there.
    pub fn add(&mut self, clause: Vec<i32>) -> Result<(), AllocError>
        ensures { OnOk result (self.new ≡ with_clause self.old clause.items) }
    {
        let Ok(_) = self.clauses.insert(clause) else {
            return Err(AllocError);
        };
        Ok(())
    }

    /// How many literals all clauses have.
    pub fn literals(&self) -> u128
        ensures { result ≡ sum_by length self.now }
    {
        let mut count = 0;
        for place in 0..self.len() {
            count += self.clause(place).len() as u128;
        }
        count
    }
}
