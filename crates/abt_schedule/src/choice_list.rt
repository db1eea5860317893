//! Lists of choices.

ghost use Rattle.std.specs.Prelude.{◌≡◌, [], ◌∷◌, ◌++◌, OnOk, OnErr};

use dcsp_common::Memory;
use std::alloc::Global;
use std::marker::Model;

/// A list of choices that grows at its end. It keeps the allocator that it was made with.
#[derive(Debug, Drop)]
pub struct ChoiceList {
    choices: Vec<u32>,
}

impl Model for ChoiceList {
    ghost use Rattle.std.specs.Prelude.{List, ℕ};

    ghost Value = { List ℕ };

    ghost view = { λ list. list.choices.items };
}

impl ChoiceList {
    /// No choice. It takes no memory.
    pub fn new(alloc: Global) -> ChoiceList
        ensures { result ≡ [] }
    {
        ChoiceList {
            choices: Vec::new(alloc),
        }
    }

    /// Adds a choice at the end. A refusal changes nothing.
    pub fn push(&mut self, choice: u32) -> Result<(), Memory>
        ensures ok { OnOk result (self.new ≡ self.old ++ choice ∷ []) }
        ensures err { OnErr result (self.new ≡ self.old) }
    {
        self.choices.push(choice)?;
        Ok(())
    }

    /// The choices in order.
    pub fn choices(&self) -> &[u32]
        ensures { result.now ≡ self.now }
    {
        &self.choices
    }
}
