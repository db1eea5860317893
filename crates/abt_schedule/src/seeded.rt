//! Choices without end from a seed.

ghost use Rattle.std.specs.Prelude.{◌≡◌};
ghost use Rattle.abt_schedule.specs.Answers.{generator_of};

use crate::choices::Choices;
use rand_core::SeedableRng;
use rand_core::utils::NextWord;
use rand_pcg::Lcg64Xsh32;
use std::marker::Model;

/// Choices without end: the 32-bit words of the generator PCG XSH RR 64/32 (O'Neill's report on PCG)
/// that a number seeds.
#[derive(Debug, Drop)]
pub struct Seeded {
    generator: Lcg64Xsh32,
}

impl Model for Seeded {
    ghost use Rattle.rand_pcg.specs.Lcg.{Lcg};

    ghost Value = { Lcg };

    ghost view = { λ s. s.generator };
}

impl Seeded {
    /// The choices of a seed. It takes no memory.
    pub fn new(seed: u64) -> Seeded
        ensures { result ≡ generator_of seed }
    {
        Seeded {
            generator: Lcg64Xsh32::seed_from_u64(seed),
        }
    }
}

impl Choices for Seeded {
    ghost use Rattle.std.specs.Prelude.{Some};
    ghost use Rattle.abt_schedule.specs.Answers.{word_at, no_none};

    ghost answers = { λ generator k. Some (word_at generator k) };

    ghost none_stays = { λ generator k h. no_none (word_at generator k) h };

    fn next(&mut self) -> Option<u32> {
        Some(self.generator.next_word())
    }
}
