//! Nogoods: pairs of a variable and a value, strictly rising by variable.
//!
//! A nogood says that its pairs do not hold together in any solution (Yokoo, Durfee, Ishida and
//! Kuwabara, IEEE TKDE 10(5), 1998).

ghost use Rattle.std.specs.Prelude.{◌≡◌, ℕ, ◌-◌, ◌<◌, ◌≤◌, length, [], IfOk, OnOk, OnErr, IfErr, IsErrOf, ◌⊎◌, ◌∷◌, ◌++◌, ℤ, IsNone, IsSome, IfSome, slice_get};
ghost use Rattle.dcsp_defs.specs.Pairs.{IsRising, IsFirstFall, value_at, var_at, no_pair, IsUnion, IsLeastClash, AgreeAt, ValuesDetermine};
ghost use Rattle.dcsp_defs.specs.Places.{IsPlaceOf};
ghost use Rattle.dcsp_defs.specs.Turns.{IsTurn};

use dcsp_common::Memory;
use std::alloc::Global;
use std::marker::Model;

/// A variable, counted from 0, and a value.
#[derive(Clone, Copy, Debug, PartialEq, Eq)]
pub struct Pair {
    pub var: u32,
    pub value: i64,
}

/// Why there is no nogood of a list of pairs.
#[derive(Clone, Copy, Debug, PartialEq, Eq)]
pub enum NogoodError {
    /// The pair at this place, counted from 0, is the first whose variable is not above the one before it.
    Unordered { place: usize },
    Memory,
}

/// Why two nogoods have no union.
#[derive(Clone, Copy, Debug, PartialEq, Eq)]
pub enum MergeError {
    /// Both nogoods have a pair for this variable, the least such, and the values differ.
    Clash { var: u32, mine: i64, theirs: i64 },
    Memory,
}

/// A list of pairs, strictly rising by variable.
#[derive(Debug, Drop)]
pub struct Nogood {
    pairs: Vec<Pair>,
}

impl Model for Nogood {
    ghost use Rattle.std.specs.Prelude.{List};
    ghost use Rattle.dcsp_defs.specs.declared.nogood.Pair.{Pair};
    ghost use Rattle.dcsp_defs.specs.Pairs.{IsRising};

    ghost Value = { List Pair };

    ghost view = { λ nogood. nogood.pairs.items };

    ghost invariant = { λ nogood. IsRising nogood.pairs.items };
}

impl Nogood {
    /// The nogood of exactly these pairs.
    pub fn from_pairs(alloc: Global, pairs: &[Pair]) -> Result<Nogood, NogoodError>
        ensures pairs { IfOk result (λ nogood. nogood ≡ pairs.now) }
        ensures rising { OnOk result (IsRising pairs.now) }
        ensures unordered { (place : ℕ) → IsErrOf result (NogoodError.Unordered place) → IsFirstFall pairs.now place }
    {
        if let Some(place) = first_fall(pairs) {
            return Err(NogoodError::Unordered { place });
        }
        match Vec::from_slice(alloc, pairs) {
            Ok(pairs) => Ok(Nogood { pairs }),
            Err(_) => Err(NogoodError::Memory),
        }
    }

    /// The nogood of exactly these pairs, whose list it takes over; so it lacks no memory. A refusal names
    /// the place of the first pair, counted from 0, whose variable is not above the one before it.
    pub fn from_vec(pairs: Vec<Pair>) -> Result<Nogood, usize>
        ensures pairs { IfOk result (λ nogood. nogood ≡ pairs.items) }
        ensures rising { OnOk result (IsRising pairs.items) }
        ensures unordered { IfErr result (IsFirstFall pairs.items) }
    {
        match first_fall(&pairs) {
            Some(place) => Err(place),
            None => Ok(Nogood { pairs }),
        }
    }

    /// The nogood of exactly these pairs, which rise, whose list it takes over.
    #[inline(always)]
    pub fn of_rising(pairs: Vec<Pair>) -> Nogood
        requires { IsRising pairs.items }
        ensures { result ≡ pairs.items }
    {
        Nogood { pairs }
    }

    /// Its pairs as a vector, which takes no memory.
    pub fn into_pairs(self) -> Vec<Pair>
        ensures { result.items ≡ self }
    {
        self.pairs
    }

    /// An equal nogood.
    pub fn copy(&self, alloc: Global) -> Result<Nogood, Memory>
        ensures { IfOk result (λ nogood. nogood ≡ self.now) }
    {
        let pairs = Vec::from_slice(alloc, &self.pairs)?;
        Ok(Nogood { pairs })
    }

    /// The pairs, strictly rising by variable.
    pub fn pairs(&self) -> &[Pair]
        ensures pairs { result.now ≡ self.now }
        ensures rising { IsRising self.now }
    {
        &self.pairs
    }

    /// The last pair: the one with the lowest priority.
    pub fn lowest(&self) -> Option<Pair>
        ensures { result ≡ slice_get self.now (length self.now - 1) }
    {
        self.pairs.last().copied()
    }

    /// The value that it gives a variable, by a binary search.
    pub fn value_of(&self, var: u32) -> Option<i64>
        ensures { result ≡ value_at self.now var }
    {
        let place = place_of(&self.pairs, var)?;
        Some(self.pairs[place].value)
    }

    /// Takes in the pairs of `other`, but for the one at `except`. After a refusal nothing has changed.
    pub fn merge_without(
        &mut self,
        alloc: Global,
        other: &Nogood,
        except: u32,
    ) -> Result<(), MergeError>
        ensures union { OnOk result (IsUnion self.old other.now except self.new) }
        ensures agree { OnOk result ((v : ℕ) → AgreeAt self.old other.now except v) }
        ensures clash { (v : ℕ) (a b : ℤ) → IsErrOf result (MergeError.Clash v a b) → IsLeastClash self.old other.now except v a b }
        ensures err { OnErr result (self.new ≡ self.old) }
    {
        self.pairs = merged(alloc, &self.pairs, &other.pairs, except)?;
        Ok(())
    }
}

/// The place of the first pair whose variable is not above the one before it.
fn first_fall(pairs: &[Pair]) -> Option<usize>
    ensures rising { IsNone result → IsRising pairs.now }
    ensures fall { IfSome result (IsFirstFall pairs.now) }
{
    for k in 1..pairs.len() {
        if pairs[k].var <= pairs[k - 1].var {
            return Some(k);
        }
    }
    None
}

/// The place of the variable's pair.
fn place_of(pairs: &[Pair], var: u32) -> Option<usize>
    requires { IsRising pairs.now }
    ensures found { IfSome result (IsPlaceOf pairs.now var) }
    ensures absent { IsNone result → value_at pairs.now var ≡ None }
{
    pairs.binary_search_by_key(&var, |pair| pair.var).ok()
}

/// What comes next in a merge of two rising lists.
enum Turn {
    Mine,
    Theirs,
    Both,
    LeftOut,
    Clash,
}

/// Which pair comes next, where `mine` is merged up to `i` and `theirs` up to `j`.
fn turn_of(mine: &[Pair], i: usize, theirs: &[Pair], j: usize, except: u32) -> Turn
    requires mine { i ≤ length mine.now }
    requires theirs { j ≤ length theirs.now }
    requires some { i < length mine.now ⊎ j < length theirs.now }
    ensures { IsTurn mine.now i theirs.now j except result }
{
    if j < theirs.len() && theirs[j].var == except {
        return Turn::LeftOut;
    }
    if i == mine.len() || (j < theirs.len() && theirs[j].var < mine[i].var) {
        return Turn::Theirs;
    }
    if j == theirs.len() || mine[i].var < theirs[j].var {
        return Turn::Mine;
    }
    if mine[i].value == theirs[j].value {
        Turn::Both
    } else {
        Turn::Clash
    }
}

/// The pairs of both, but for those of `theirs` at `except`.
fn merged(
    alloc: Global,
    mine: &[Pair],
    theirs: &[Pair],
    except: u32,
) -> Result<Vec<Pair>, MergeError>
    requires mine { IsRising mine.now }
    requires theirs { IsRising theirs.now }
    ensures union { IfOk result (λ all. IsUnion mine.now theirs.now except all.items) }
    ensures agree { OnOk result ((v : ℕ) → AgreeAt mine.now theirs.now except v) }
    ensures clash { (v : ℕ) (a b : ℤ) → IsErrOf result (MergeError.Clash v a b) → IsLeastClash mine.now theirs.now except v a b }
{
    let mut all = Vec::new(alloc);
    let mut i = 0;
    let mut j = 0;
    while i < mine.len() || j < theirs.len() {
        match turn_of(mine, i, theirs, j, except) {
            Turn::Mine => {
                push_pair(&mut all, mine[i])?;
                i += 1;
            }
            Turn::Theirs => {
                push_pair(&mut all, theirs[j])?;
                j += 1;
            }
            Turn::Both => {
                push_pair(&mut all, mine[i])?;
                i += 1;
                j += 1;
            }
            Turn::LeftOut => {
                j += 1;
            }
            Turn::Clash => {
                return Err(MergeError::Clash {
                    var: mine[i].var,
                    mine: mine[i].value,
                    theirs: theirs[j].value,
                });
            }
        }
    }
    Ok(all)
}

fn push_pair(all: &mut Vec<Pair>, pair: Pair) -> Result<(), MergeError>
    ensures ok { OnOk result (all.new.items ≡ all.old.items ++ pair ∷ []) }
    ensures err { IfErr result (λ e. e ≡ MergeError.Memory) }
{
    match all.push(pair) {
        Ok(()) => Ok(()),
        Err(_) => Err(MergeError::Memory),
    }
}

/// A rising list of pairs is determined by the values that it gives: so there is one union.
pub fn values_determine()
    ensures { ValuesDetermine }
{}
