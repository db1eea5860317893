//! Choices of a list.

ghost use Rattle.std.specs.Prelude.{◌≡◌, length};

use crate::choices::Choices;
use std::marker::Model;

/// The choices of a recorded list, in order.
#[derive(Debug, Drop)]
pub struct Listed {
    choices: Vec<u32>,
    given: usize,
}

impl Model for Listed {
    ghost use Rattle.std.specs.Prelude.{List, ℕ, drop, ◌≤◌, length};

    ghost Value = { List ℕ };

    ghost view = { λ l. drop l.given l.choices.items };

    ghost invariant = { λ l. l.given ≤ length l.choices.items };
}

impl Listed {
    /// All of these choices. It takes no memory.
    pub(crate) fn from_vec(choices: Vec<u32>) -> Listed
        ensures { result ≡ choices.items }
    {
        Listed { choices, given: 0 }
    }

    /// The number of choices to come.
    pub fn left(&self) -> u64
        ensures { result ≡ length self.now }
    {
        (self.choices.len() - self.given) as u64
    }
}

impl Choices for Listed {
    ghost use Rattle.std.specs.Prelude.{slice_get};
    ghost use Rattle.abt_schedule.specs.Answers.{none_behind};

    ghost answers = { λ choices k. slice_get choices k };

    ghost none_stays = { none_behind };

    fn next(&mut self) -> Option<u32> {
        let choice = *self.choices.get(self.given)?;
        self.given += 1;
        Some(choice)
    }
}
