//! The atoms of a problem.

ghost use Rattle.std.specs.Prelude.{◌≡◌, ◌<◌, ◌≤◌, suc, map, length, IfOk};
ghost use Rattle.dcsp_defs.specs.Words.{below};
ghost use Rattle.dcsp_rule.specs.Problems.{csp_of, value_count};
ghost use Rattle.line_export.specs.Atoms.{place_in, values_before, atoms_before, has_value, lacks_value, AreAtoms};

use dcsp_defs::Pair;
use dcsp_problem::{Domain, Problem};
use std::alloc::{AllocError, Global};

/// The atoms of a problem: one for each value of each variable, numbered from 1, variable by variable and value by
/// value in rising order.
#[derive(Drop)]
pub struct Atoms<'p> {
    pub problem: &'p Problem,
    /// For each variable, how many atoms come before those of its values.
    pub before: Vec<u32>,
    /// How many atoms there are.
    pub count: u32,
}

impl<'p> Atoms<'p> {
    /// The atoms of the problem.
    pub fn of(alloc: Global, problem: &'p Problem) -> Result<Atoms<'p>, AllocError>
        ensures atoms { IfOk result AreAtoms }
        ensures problem { IfOk result (λ atoms. atoms.problem.now ≡ problem.now) }
    {
        let (before, count) = values_before(alloc, problem)?;
        Ok(Atoms {
            problem,
            before,
            count,
        })
    }

    /// The number of the atom that says that the pair holds, which is one of a variable and a value of its domain.
    pub fn number(&self, pair: Pair) -> u32
        requires atoms { AreAtoms self.now }
        requires var { pair.var < length self.now.problem.now.domains }
        ensures number { result ≡ suc (atoms_before (csp_of self.now.problem.now) pair.var pair.value) }
        ensures few { result ≤ 1048577 }
    {
        let place = place_in(self.problem.domain(pair.var), pair);
        self.before[pair.var as usize] + place as u32 + 1
    }

    /// The literal that says that the pair holds.
    pub fn has_value(&self, pair: Pair) -> i32
        requires atoms { AreAtoms self.now }
        requires var { pair.var < length self.now.problem.now.domains }
        ensures { result ≡ has_value (csp_of self.now.problem.now) pair.var pair.value }
    {
        self.number(pair) as i32
    }

    /// The literal that says that it does not.
    pub fn lacks_value(&self, pair: Pair) -> i32
        requires atoms { AreAtoms self.now }
        requires var { pair.var < length self.now.problem.now.domains }
        ensures { result ≡ lacks_value (csp_of self.now.problem.now) pair.var pair.value }
    {
        -(self.number(pair) as i32)
    }
}

/// The place of the pair's value in the domain, counted from 0; past the end where it is not there.
fn place_in(domain: &Domain, pair: Pair) -> usize
    ensures place { result ≡ place_in domain.now pair.value }
    ensures within { result ≤ length domain.now }
    ensures few { length domain.now ≤ 65536 }
{
    domain.place_of(pair.value).unwrap_or(domain.len())
}

/// For each variable, how many values the domains before its own have; and how many all have.
fn values_before(alloc: Global, problem: &Problem) -> Result<(Vec<u32>, u32), AllocError>
    ensures before { IfOk result (λ made. made.0.items ≡ map (values_before (csp_of problem.now)) (below (length problem.now.domains))) }
    ensures count { IfOk result (λ made. made.1 ≡ value_count problem.now) }
    ensures few { IfOk result (λ made. value_count problem.now ≤ 1048576) }
{
    let mut before = Vec::new(alloc);
    let mut count = 0;
    for var in 0..problem.vars() {
        before.push(count)?;
        count += problem.domain(var).len() as u32;
    }
    Ok((before, count))
}
