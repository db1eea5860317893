//! Rounds, and what is known between them.

ghost use Rattle.std.specs.Prelude.{◌≡◌};
ghost use Rattle.abt_optimum.specs.Rounds.{is_beyond, is_last, is_open, known_after, known_at_first};
ghost use Rattle.dcsp_rule.specs.Aims.{is_better};

use abt_defs::End;
use dcsp_problem::Aim;

/// What is known of the values at the aim.
#[derive(Clone, Copy, Debug, PartialEq, Eq)]
pub struct Known {
    /// The best one found, which is that of the last round that was solved; `None` before there is one.
    pub best: Option<i64>,
    /// All values better than this one are excluded: the round that was to better it was refuted. `None` excludes
    /// nothing.
    pub limit: Option<i64>,
}

impl Known {
    /// What is known before the first round.
    pub(crate) fn at_first() -> Known
        ensures { result ≡ known_at_first }
    {
        Known {
            best: None,
            limit: None,
        }
    }
}

/// A round that has ended.
#[derive(Clone, Copy, Debug, PartialEq, Eq)]
pub struct Round {
    /// What was known before it.
    pub known: Known,
    /// The value that it was to better; `None` for the first round.
    pub better: Option<i64>,
    /// How it ended, with the value at the aim where it was solved.
    pub end: End<i64>,
}

impl Round {
    /// What is known after it.
    pub(crate) fn known_after(self) -> Known
        ensures { result ≡ known_after self.known self.better self.end }
    {
        let Known { best, limit } = self.known;
        match self.end {
            End::Solved(value) => Known {
                best: Some(value),
                limit,
            },
            End::Refuted => Known {
                best,
                limit: self.better,
            },
            End::Spent | End::Capped => self.known,
        }
    }

    /// Whether no round follows it.
    pub(crate) fn is_last(self, aim: Aim) -> bool
        ensures { result ≡ is_last aim self }
    {
        match self.end {
            End::Solved(_) => aim.variable().is_none(),
            End::Refuted => {
                !is_beyond(aim, self.known.best, self.better) || aim.variable().is_none()
            }
            End::Spent | End::Capped => true,
        }
    }
}

/// Whether a round that ended so is open: it was spent or capped.
pub(crate) fn is_open(end: End<i64>) -> bool
    ensures { result ≡ is_open end }
{
    match end {
        End::Solved(_) | End::Refuted => false,
        End::Spent | End::Capped => true,
    }
}

/// Whether a round was to better a value that is itself better than the best one found.
fn is_beyond(aim: Aim, best: Option<i64>, better: Option<i64>) -> bool
    ensures { result ≡ is_beyond aim best better }
{
    match (best, better) {
        (Some(best), Some(better)) => is_better(aim, best, better),
        _ => false,
    }
}

/// Whether the value is better than the bound.
pub(crate) fn is_better(aim: Aim, bound: i64, value: i64) -> bool
    ensures { result ≡ is_better aim bound value }
{
    match aim {
        Aim::Satisfy => false,
        Aim::Least(_) => value < bound,
        Aim::Greatest(_) => bound < value,
    }
}
