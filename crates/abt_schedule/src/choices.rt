//! What answers which message is delivered next.

ghost use Rattle.std.specs.Prelude.{◌≡◌, ◌+◌, ℕ, IsNone, None, suc};

/// A source of choices.
///
/// Its meaning is answer number `k` to come, counted from 0, which is a choice or none. After a call of
/// `next` the answers to come are those behind the first.
pub trait Choices {
    ghost use Rattle.std.specs.Prelude.{ℕ, Option};

    ghost answers: { Self → ℕ → Option ℕ };

    /// The next answer. Where it is none, no choice comes any more.
    fn next(&mut self) -> Option<u32>
        ensures first { result ≡ answers self.old 0 }
        ensures rest { (k : ℕ) → answers self.new k ≡ answers self.old (k + 1) }
        ensures none { IsNone result → (k : ℕ) → answers self.new k ≡ answers self.old k };

    // no choice comes behind a none
    ghost none_stays: { (choices : Self) (k : ℕ) → answers choices k ≡ None → answers choices (suc k) ≡ None };
}
