//! The values of one nogood, by variable.

ghost use Rattle.std.specs.Prelude.{◌≡◌, ◌≤◌, ◌<◌, ℕ, None, [], OnOk, OnErr, All, length, slice_index_or};
ghost use Rattle.dcsp_defs.specs.Pairs.{value_at};
ghost use Rattle.ngd_check.specs.Tables.{IsClear, Gives};

use dcsp_common::Memory;
use dcsp_defs::Pair;
use dcsp_problem::Lookup;
use std::alloc::Global;
use std::marker::Model;

/// A table that gives each variable a value or none.
///
/// It has 16 bytes for each variable of the problem, once it is made ready.
#[derive(Drop)]
pub struct Present {
    values: Vec<Option<i64>>,
}

impl Model for Present {
    ghost use Rattle.std.specs.Prelude.{List, Option, ℤ};

    ghost Value = { List (Option ℤ) };

    ghost view = { λ present. present.values.items };
}

impl Lookup for Present {
    ghost use Rattle.std.specs.Prelude.{slice_index_or, None};

    ghost values = { λ present var. slice_index_or present var None };

    fn value_of(&self, var: u32) -> Option<i64> {
        let place = var as usize;
        if place >= self.values.len() {
            return None;
        }
        self.values[place]
    }
}

impl Present {
    /// A table for no variable. It takes no memory.
    pub fn new(alloc: Global) -> Present
        ensures { result ≡ [] }
    {
        Present {
            values: Vec::new(alloc),
        }
    }

    /// Makes the table one of at least so many variables, none of which has a value.
    pub fn make_ready(&mut self, vars: u32) -> Result<(), Memory>
        requires { IsClear self.old }
        ensures room { OnOk result (vars ≤ length self.new) }
        ensures clear { IsClear self.new }
    {
        make_long(&mut self.values, vars as usize)
    }

    /// Gives the variables of these pairs their values.
    pub fn take_in(&mut self, pairs: &[Pair])
        requires clear { IsClear self.old }
        requires room { All (λ pair. pair.var < length self.old) pairs.now }
        ensures values { Gives self.new pairs.now }
        ensures len { length self.new ≡ length self.old }
    {
        fill(&mut self.values, pairs);
    }

    /// Takes the values of the variables of these pairs away, which are all that there are.
    pub fn clear(&mut self, pairs: &[Pair])
        requires values { Gives self.old pairs.now }
        requires room { All (λ pair. pair.var < length self.old) pairs.now }
        ensures { IsClear self.new }
    {
        empty(&mut self.values, pairs);
    }
}

fn make_long(values: &mut Vec<Option<i64>>, vars: usize) -> Result<(), Memory>
    requires { IsClear values.old.items }
    ensures room { OnOk result (vars ≤ length values.new.items) }
    ensures clear { IsClear values.new.items }
{
    if vars <= values.len() {
        return Ok(());
    }
    values.resize(vars, None)?;
    Ok(())
}

fn fill(values: &mut [Option<i64>], pairs: &[Pair])
    requires clear { IsClear values.old }
    requires room { All (λ pair. pair.var < length values.old) pairs.now }
    ensures values { Gives values.new pairs.now }
    ensures len { length values.new ≡ length values.old }
{
    let mut k = pairs.len();
    while k > 0 {
        k -= 1;
        let pair = pairs[k];
        values[pair.var as usize] = Some(pair.value);
    }
}

fn empty(values: &mut [Option<i64>], pairs: &[Pair])
    requires values { Gives values.old pairs.now }
    requires room { All (λ pair. pair.var < length values.old) pairs.now }
    ensures { IsClear values.new }
{
    for pair in pairs {
        values[pair.var as usize] = None;
    }
}
