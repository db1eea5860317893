//! The calls of something in memory: how many were made, which are to fail, and how many failed.

ghost use Rattle.std.specs.Prelude.{◌≡◌, ◌≤◌, [], ◌∷◌, ◌++◌, OnOk, OnErr};
ghost use Rattle.dcsp_outside.specs.Outside.{one_more};
ghost use Rattle.dcsp_outside.specs.Memory.{kept_at, kept_next};

use dcsp_common::Memory;
use std::alloc::Global;
use std::marker::Model;

/// A call that is to fail.
#[derive(Clone, Copy)]
pub struct Failure {
    /// Its number, counted from 1.
    pub call: u64,
    /// How many first bytes of its piece are kept.
    pub kept: usize,
}

/// Calls are counted from 1. Both counts stay at their type's last value.
#[derive(Drop)]
pub struct CallPlan {
    made: u64,
    failing: Vec<Failure>,
    faults: u64,
}

impl Model for CallPlan {
    ghost use Rattle.dcsp_outside.specs.Memory.{Calls};

    ghost Value = { Calls };

    ghost view = { λ plan. record { made = plan.made; failing = plan.failing.items; faults = plan.faults } };
}

impl CallPlan {
    /// No call was made, and none is to fail.
    pub fn new(alloc: Global) -> CallPlan
        ensures { result ≡ record { made = 0; failing = []; faults = 0 } }
    {
        CallPlan {
            made: 0,
            failing: Vec::new(alloc),
            faults: 0,
        }
    }

    /// Lets a call fail.
    pub fn add(&mut self, failure: Failure) -> Result<(), Memory>
        ensures ok { OnOk result (self.new ≡ record self.old { failing = self.old.failing ++ failure ∷ [] }) }
        ensures err { OnErr result (self.new ≡ self.old) }
    {
        self.failing.push(failure)?;
        Ok(())
    }

    /// Counts one more call. Where it is to fail, tells how many first bytes of its piece are kept.
    pub fn count_call(&mut self) -> Option<usize>
        ensures kept { result ≡ kept_next self.old }
        ensures counted { self.new ≡ record self.old { made = one_more self.old.made } }
    {
        self.made = self.made.saturating_add(1);
        self.kept_at(self.made)
    }

    /// How many first bytes the call with this number keeps, if it is to fail.
    fn kept_at(&self, call: u64) -> Option<usize>
        ensures { result ≡ kept_at call self.now.failing }
    {
        for failure in &self.failing {
            if failure.call == call {
                return Some(failure.kept);
            }
        }
        None
    }

    /// Counts one more fault.
    pub fn count_fault(&mut self)
        ensures counted { self.new ≡ record self.old { faults = one_more self.old.faults } }
        ensures never_falls { self.old.faults ≤ self.new.faults }
    {
        self.faults = self.faults.saturating_add(1);
    }

    /// The number of faults.
    pub fn faults(&self) -> u64
        ensures { result ≡ self.now.faults }
    {
        self.faults
    }
}
