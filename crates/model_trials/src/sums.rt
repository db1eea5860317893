//! Sums in each relation, and their widths.

ghost use Rattle.std.specs.Prelude.{◌≤◌};
ghost use Rattle.dcsp_meaning.specs.Sums.{sizes_of};

use dcsp_meaning::{Rel, WIDEST, Weighted, sum_holds, width};

/// Terms that stand in a list.
#[derive(Drop)]
struct Terms<'a> {
    pairs: &'a [(i64, i64)],
}

impl Weighted for Terms<'_> {
    ghost pairs = { λ terms. terms.pairs.now };

    fn count(&self) -> usize {
        self.pairs.len()
    }

    fn coef(&self, place: usize) -> i64 {
        self.pairs[place].0
    }

    fn value(&self, place: usize) -> i64 {
        self.pairs[place].1
    }
}

/// How a sum of at most two terms stands to its total: equal to it, at most it, different from it.
fn stands(pairs: &[(i64, i64)], total: i64) -> (bool, bool, bool)
    requires { sizes_of pairs.now total ≤ WIDEST }
{
    let terms = Terms { pairs };
    (
        sum_holds(Rel::Equal, &terms, total),
        sum_holds(Rel::AtMost, &terms, total),
        sum_holds(Rel::Differ, &terms, total),
    )
}

#[test]
fn sums_in_their_relation(rt: HostRuntime) {
    assert_eq!(rt; stands(&[], 0), (true, true, false));
    assert_eq!(rt; stands(&[(2, 3), (-1, 4)], 2), (true, true, false));
    assert_eq!(rt; stands(&[(2, 3), (-1, 4)], 1), (false, false, true));
    assert_eq!(rt; stands(&[(2, -3), (1, 4)], 0), (false, true, true));
    assert_eq!(rt;
        stands(&[(4294967296, 4294967296)], 0),
        (false, false, true)
    );
    assert_eq!(rt; stands(&[(i64::MIN, i64::MIN)], 0), (false, false, true));
    assert_eq!(rt; stands(&[(1, i64::MIN)], i64::MIN), (true, true, false));
}

#[test]
fn widths(rt: HostRuntime) {
    let most = 9223372036854775808;
    assert_eq!(rt; width(&[], &[], 7), Some(7));
    assert_eq!(rt; width(&[2, -3], &[5, 7], 4), Some(35));
    assert_eq!(rt; width(&[i64::MIN], &[most], 0), Some(WIDEST));
    assert_eq!(rt; width(&[i64::MIN], &[most], 1), None);
    assert_eq!(rt;
        width(&[i64::MIN, i64::MIN], &[u64::MAX, u64::MAX], u64::MAX),
        None
    );
}
