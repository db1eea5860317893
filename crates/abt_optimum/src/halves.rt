//! The value that a round is to better: the best one found, or with halves one that is further on.

ghost use Rattle.std.specs.Prelude.{◌≡◌, true};
ghost use Rattle.abt_optimum.specs.Halves.{excluded, left_out, next_value, rank, value_ranked};

use crate::round::{Known, is_better};
use dcsp_domain::Domain;
use dcsp_problem::Aim;

/// The value that the next round is to better where `best` is the best one found and all better than `limit` are
/// excluded.
///
/// The candidates are the values of the domain that are better than `best` and not excluded. By halves it is the
/// value before the better half of them, so that the round asks for one of that half; without, it is `best` itself.
pub fn next_value(halves: bool, aim: Aim, domain: &Domain, best: i64, limit: Option<i64>) -> i64
    ensures { result ≡ next_value halves aim domain.now best limit }
{
    if !halves {
        return best;
    }
    let better = rank(aim, domain, best);
    let candidates = better.saturating_sub(excluded(aim, domain, limit));
    let left = left_out(candidates);
    if left == 0 {
        return best;
    }
    value_ranked(aim, domain, better.saturating_sub(left), best)
}

/// How many of so many candidates a round by halves leaves out of those that it asks for: one less than half of them,
/// rounded up.
fn left_out(candidates: usize) -> usize
    ensures { result ≡ left_out true candidates }
{
    candidates.saturating_sub(1) / 2
}

/// How many values of the domain are excluded.
fn excluded(aim: Aim, domain: &Domain, limit: Option<i64>) -> usize
    ensures { result ≡ excluded aim domain.now limit }
{
    match limit {
        Some(limit) => rank(aim, domain, limit),
        None => 0,
    }
}

/// The rank of a value: how many values of the domain are better than it.
fn rank(aim: Aim, domain: &Domain, value: i64) -> usize
    ensures { result ≡ rank aim domain.now value }
{
    let mut count = 0;
    for place in 0..domain.len() {
        if is_better(aim, value, domain.value(place)) {
            count += 1;
        }
    }
    count
}

/// The value of the domain that has this rank; `otherwise` where there are not so many.
fn value_ranked(aim: Aim, domain: &Domain, rank: usize, otherwise: i64) -> i64
    ensures { result ≡ value_ranked aim domain.now rank otherwise }
{
    let place = match aim {
        Aim::Greatest(_) => domain.len().saturating_sub(1).saturating_sub(rank),
        Aim::Satisfy | Aim::Least(_) => rank,
    };
    if place < domain.len() {
        return domain.value(place);
    }
    otherwise
}
