//! Derivations.
ghost use Rattle.std.specs.Prelude.{◌≡◌, ℕ, ◌-◌, ◌<◌, ◌≤◌, ◌∷◌, ◌++◌, [], length, slice_get, OnOk, OnErr, IfErr, Some, IsTrue, ◌↔◌};
ghost use Rattle.dcsp_defs.specs.Derivation.{step_at};

use crate::Step;
use dcsp_common::{ItemList, Memory};
use std::alloc::Global;
use std::marker::Model;

/// A list of steps, numbered from 1. It keeps the allocator that it was made with.
#[derive(Debug, Drop)]
pub struct Derivation {
    steps: ItemList<Step>,
}

impl Model for Derivation {
    ghost use Rattle.std.specs.Prelude.{List};
    ghost use Rattle.dcsp_defs.specs.declared.Step.{Step};

    ghost Value = { List Step };

    ghost view = { λ derivation. derivation.steps };
}

impl Derivation {
    /// The derivation without steps.
    pub fn new(alloc: Global) -> Derivation
        ensures { result ≡ [] }
    {
        Derivation {
            steps: ItemList::new(alloc),
        }
    }

    /// The derivation of these steps, whose list it takes over; so it lacks no memory.
    pub fn from_vec(steps: Vec<Step>) -> Derivation
        ensures { result ≡ steps.items }
    {
        Derivation {
            steps: ItemList::from_vec(steps),
        }
    }

    /// Adds a step at the end. A refusal hands it back.
    pub fn push(&mut self, step: Step) -> Result<(), (Step, Memory)>
        ensures ok { OnOk result (self.new ≡ self.old ++ step ∷ []) }
        ensures handed_back { IfErr result (λ refused. refused.0 ≡ step) }
        ensures err { OnErr result (self.new ≡ self.old) }
    {
        self.steps.push(step)
    }

    /// The number of steps.
    pub fn len(&self) -> u64
        ensures { result ≡ length self.now }
    {
        self.steps.len() as u64
    }

    /// Whether there is no step.
    pub fn is_empty(&self) -> bool
        ensures { IsTrue result ↔ (self.now ≡ []) }
    {
        self.steps.is_empty()
    }

    /// The step with this number, counted from 1.
    pub fn step(&self, number: u64) -> &Step
        requires from_one { 1 ≤ number }
        requires within { number ≤ length self.now }
        ensures { step_at self.now number ≡ Some result.now }
    {
        &self.steps.items()[number as usize - 1]
    }

    /// The steps in order.
    pub fn steps(&self) -> &[Step]
        ensures { result.now ≡ self.now }
    {
        self.steps.items()
    }
}
