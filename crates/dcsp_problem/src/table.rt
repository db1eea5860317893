//! Many lists of numbers in one array.

ghost use Rattle.std.specs.Prelude.{◌≡◌, ◌<◌, ◌++◌, ◌∷◌, ℕ, [], List, map, length, All, Some, IfOk, OnOk, slice_get};
ghost use Rattle.dcsp_rule.specs.Rules.{IsRuleOf, scope_of};
ghost use Rattle.dcsp_problem.specs.Lower.{set_below};
ghost use Rattle.dcsp_problem.specs.Pieces.{pieces, AreCuts};

use crate::index::{make_set, put_scope};
use dcsp_common::Memory;
use dcsp_rule::{NumberList, RuleTable};
use std::alloc::{AllocError, Global};
use std::marker::Model;

/// Lists of numbers, one after another in one array.
#[derive(Debug, Drop)]
pub struct NumberTable {
    numbers: Vec<u32>,
    /// Where each list begins, and after them where the last one ends.
    places: Vec<usize>,
}

impl Model for NumberTable {
    ghost use Rattle.std.specs.Prelude.{ℕ, List};
    ghost use Rattle.dcsp_problem.specs.Pieces.{pieces, AreCuts};

    ghost Value = { List (List ℕ) };

    ghost view = { λ t. pieces t.numbers.items t.places.items };

    ghost invariant = { λ t. AreCuts t.numbers.items t.places.items };
}

impl NumberTable {
    /// The table of these lists, each rising and without repeats.
    pub fn of_sets(alloc: Global, lists: &[NumberList]) -> Result<NumberTable, Memory>
        ensures { IfOk result (λ table. (n : ℕ) → All (λ list. All (λ x. x < n) list) lists.now → table ≡ map (set_below n) lists.now) }
    {
        let mut numbers = Vec::new(alloc);
        let mut places = vec![in alloc; 0]?;
        for list in lists {
            let set = rising_set(alloc, list.items())?;
            push_list(&mut numbers, &mut places, &set)?;
        }
        Ok(NumberTable { numbers, places })
    }

    /// The table of these lists.
    pub fn of_lists(alloc: Global, lists: &[NumberList]) -> Result<NumberTable, Memory>
        ensures { IfOk result (λ table. table ≡ lists.now) }
    {
        let mut numbers = Vec::new(alloc);
        let mut places = vec![in alloc; 0]?;
        for list in lists {
            push_list(&mut numbers, &mut places, list.items())?;
        }
        Ok(NumberTable { numbers, places })
    }

    /// The table of the scope of each rule.
    pub fn of_scopes(alloc: Global, rules: &RuleTable) -> Result<NumberTable, Memory>
        ensures { IfOk result (λ table. (variables : ℕ) → All (IsRuleOf variables) rules.now → table ≡ map (scope_of variables) rules.now) }
    {
        let mut numbers = Vec::new(alloc);
        let mut places = vec![in alloc; 0]?;
        let mut scope = Vec::new(alloc);
        for place in 0..rules.len() {
            put_scope(&mut scope, rules.rule(place))?;
            push_list(&mut numbers, &mut places, &scope)?;
        }
        Ok(NumberTable { numbers, places })
    }

    /// The number of lists.
    pub fn len(&self) -> usize
        ensures { result ≡ length self.now }
    {
        self.places.len() - 1
    }

    /// The list at a place.
    pub fn list(&self, place: usize) -> &[u32]
        requires { place < length self.now }
        ensures { slice_get self.now place ≡ Some result.now }
    {
        let start = self.places[place];
        let end = self.places[place + 1];
        &self.numbers[start..end]
    }
}

/// A list of more numbers is copied as a whole.
const MOST_ONE_BY_ONE: usize = 4;

/// Adds numbers to a list. Most scopes are short, and take less one by one than a call that copies takes.
#[inline(always)]
fn append(numbers: &mut Vec<u32>, more: &[u32]) -> Result<(), Memory>
    ensures { OnOk result (numbers.new.items ≡ numbers.old.items ++ more.now) }
{
    if more.len() > MOST_ONE_BY_ONE {
        numbers.extend_from_slice(more)?;
        return Ok(());
    }
    for number in more {
        numbers.push(*number)?;
    }
    Ok(())
}

/// The numbers, rising and without repeats.
fn rising_set(alloc: Global, numbers: &[u32]) -> Result<Vec<u32>, AllocError>
    ensures { IfOk result (λ set. (n : ℕ) → All (λ x. x < n) numbers.now → set.items ≡ set_below n numbers.now) }
{
    let mut set = Vec::from_slice(alloc, numbers)?;
    make_set(&mut set);
    Ok(set)
}

/// Adds a list after those that stand there.
fn push_list(numbers: &mut Vec<u32>, places: &mut Vec<usize>, list: &[u32]) -> Result<(), Memory>
    requires { AreCuts numbers.old.items places.old.items }
    ensures list { OnOk result (pieces numbers.new.items places.new.items ≡ pieces numbers.old.items places.old.items ++ list.now ∷ []) }
    ensures cuts { OnOk result (AreCuts numbers.new.items places.new.items) }
{
    append(numbers, list)?;
    places.push(numbers.len())?;
    Ok(())
}
