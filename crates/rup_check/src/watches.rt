//! Two watched literals of each clause, and for each literal the clauses that watch it.
ghost use Rattle.std.specs.Prelude.{◌≡◌, ◌<◌, ◌≤◌, [], ◌∷◌, ◌++◌, length, OnOk, IfOk, slice_set, replicate, slice_index_or, false};
ghost use Rattle.std.specs.List.{All};
ghost use Rattle.rup_check.specs.Watches.{IsKind, AreListed, no_pair};
ghost use Rattle.rup_check.specs.Stored.{IsPlace, places};

use crate::assignment::{Assignment, first_open, has_true, other_open};
use crate::places::LAST_PLACE;
use dcsp_common::{ItemList, Memory};
use std::alloc::Global;

/// The two watched literals of a clause.
#[derive(Clone, Copy, Debug)]
pub struct WatchedPair {
    pub first: u16,
    pub second: u16,
    /// Where the search for the next one begins: a hint, which nothing rests on.
    pub at: u16,
}

/// The hint at a place; one that is too far is the last.
pub(crate) fn hint_of(place: usize) -> u16 {
    place.min(u16::MAX as usize) as u16
}

/// What the assignment makes of a clause.
#[derive(Clone, Copy, Debug)]
pub enum ClauseState {
    /// A literal of it is true.
    IsTrue,
    /// Each literal of it is false.
    IsFalse,
    /// Each literal of it but this one is false.
    Unit(u16),
    /// It has two literals or more that are not false: these are two of them.
    Long(WatchedPair),
}

/// Which clauses watch which literals.
#[derive(Drop)]
pub struct Watches {
    /// The pair of each clause; that of a clause which needs no watch says nothing.
    pub(crate) pairs: Vec<WatchedPair>,
    /// For each literal the clauses that watch it. Four bytes tell a clause, so that none from 2^32 on is watched.
    pub(crate) lists: Vec<ItemList<u32>>,
    /// Whether propagation from nothing has a conflict.
    pub(crate) refuted: bool,
    /// The clause that was found false last: a hint, which nothing rests on.
    pub(crate) last: usize,
}

impl Watches {
    /// The watches of no clause.
    pub(crate) fn new(alloc: Global) -> Result<Watches, Memory>
        ensures pairs { IfOk result (λ w. w.pairs.items ≡ []) }
        ensures lists { IfOk result (λ w. w.lists.items ≡ replicate places []) }
        ensures refuted { IfOk result (λ w. w.refuted ≡ false) }
    {
        let lists = empty_lists(alloc)?;
        Ok(Watches {
            pairs: Vec::new(alloc),
            lists,
            refuted: false,
            last: 0,
        })
    }

    /// The pair of a clause.
    pub(crate) fn pair(&self, number: usize) -> WatchedPair
        requires { number < length self.now.pairs.items }
        ensures { result ≡ slice_index_or self.now.pairs.items number no_pair }
    {
        self.pairs[number]
    }

    /// Adds a clause that needs no watch.
    pub(crate) fn add_none(&mut self) -> Result<(), Memory>
        ensures pairs { OnOk result (self.new.pairs.items ≡ self.old.pairs.items ++ no_pair ∷ []) }
        ensures lists { self.new.lists.items ≡ self.old.lists.items }
        ensures refuted { self.new.refuted ≡ self.old.refuted }
    {
        let none = WatchedPair {
            first: 0,
            second: 0,
            at: 0,
        };
        self.pairs.push(none)?;
        Ok(())
    }

    /// Adds a clause that watches two literals.
    pub(crate) fn add_pair(&mut self, pair: WatchedPair) -> Result<(), Memory>
        requires sized { length self.old.lists.items ≡ places }
        requires first { IsPlace pair.first }
        requires second { IsPlace pair.second }
        ensures pairs { OnOk result (self.new.pairs.items ≡ self.old.pairs.items ++ pair ∷ []) }
        ensures lists { OnOk result (AreListed self.old.lists.items self.new.lists.items pair (length self.old.pairs.items)) }
        ensures refuted { self.new.refuted ≡ self.old.refuted }
    {
        let Ok(number) = u32::try_from(self.pairs.len()) else {
            return Err(Memory);
        };
        push_to(&mut self.lists, pair.first, number)?;
        push_to(&mut self.lists, pair.second, number)?;
        self.pairs.push(pair)?;
        Ok(())
    }
}

/// What the assignment makes of a clause.
#[tactic(auto, using(crate::proofs::GrowLaws::unit_kind, crate::proofs::GrowLaws::long_kind))]
pub(crate) fn kind_of(assignment: &Assignment, clause: &[u16]) -> ClauseState
    requires size { length assignment.now.marks.items ≡ places }
    requires small { All IsPlace clause.now }
    ensures { IsKind assignment.now.marks.items clause.now result }
{
    let marks = &assignment.marks;
    if has_true(marks, clause) {
        return ClauseState::IsTrue;
    }
    let Some(first) = first_open(marks, clause) else {
        return ClauseState::IsFalse;
    };
    match other_open(marks, clause, first) {
        None => ClauseState::Unit(first),
        Some(second) => ClauseState::Long(WatchedPair {
            first,
            second,
            at: u16::MAX,
        }),
    }
}

/// Adds a clause to the list of a literal.
pub(crate) fn push_to(
    lists: &mut Vec<ItemList<u32>>,
    literal: u16,
    number: u32,
) -> Result<(), Memory>
    requires { literal < length lists.old.items }
    ensures { OnOk result (lists.new.items ≡ slice_set lists.old.items literal (slice_index_or lists.old.items literal [] ++ number ∷ [])) }
{
    lists[literal as usize]
        .push(number)
        .map_err(|failed| failed.1)
}

/// Empty lists.
fn empty_lists(alloc: Global) -> Result<Vec<ItemList<u32>>, Memory>
    ensures { IfOk result (λ lists. lists.items ≡ replicate places []) }
{
    let mut lists = Vec::new(alloc);
    for _place in 0..LAST_PLACE + 1 {
        lists.push(ItemList::new(alloc))?;
    }
    Ok(lists)
}
