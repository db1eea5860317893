//! Rules whose terms stand one after another in one list, and their numbers in another.

ghost use Rattle.std.specs.Prelude.{◌≡◌, ◌<◌, ◌+◌, ◌^◌, ◌++◌, ◌∷◌, [], length, pos, Some, IfOk, OnOk, OnErr, slice_get, slice_index_or};
ghost use Rattle.dcsp_rule.specs.Lent.{lent_rule};
ghost use Rattle.dcsp_rule.specs.Flat.{head_of, rule_of_lists, Extends};

use crate::lent::{MembersRef, RuleRef};
use crate::rule::Term;
use dcsp_common::Memory;
use dcsp_meaning::{ConstraintKind, Rel};
use std::alloc::Global;
use std::marker::Model;

/// What a rule's lists are.
#[derive(Clone, Copy, Debug)]
pub enum HeadKind {
    /// Scalars and two lists of a plain rule, and the numbers that it lists.
    Listing(ConstraintKind),
    /// The same of a plain rule, whose two numbers are the ends of a range.
    Ranging(ConstraintKind),
    /// The terms of a sum, and then its total and the term of its truth, if it has one; the numbers are coefficients.
    Summing(Rel),
}

/// A rule without its lists: these are three pieces of a list of terms, one after another, and one of a list of
/// numbers.
#[derive(Clone, Copy, Debug)]
pub struct RuleHead {
    pub kind: HeadKind,
    /// Where its first list begins.
    pub first: u32,
    /// Where its first list ends, and the second begins.
    pub second: u32,
    /// Where its second list ends, and the third begins.
    pub third: u32,
    /// Where its third list ends.
    pub end: u32,
    /// Where its numbers begin.
    pub numbers: u32,
    /// Where its numbers end.
    pub numbers_end: u32,
}

/// The lists of a rule.
#[derive(Clone, Copy)]
pub struct RuleLists<'l> {
    pub first: &'l [Term],
    pub second: &'l [Term],
    pub third: &'l [Term],
    pub numbers: &'l [i64],
}

/// A table has no more terms, and no more numbers.
const MOST_PLACES: usize = u32::MAX as usize;

/// A list of more items is copied as a whole.
const MOST_ONE_BY_ONE: usize = 8;

/// Rules, each of which is lent.
///
/// A table has less than 2^32 terms, and as many numbers; that it cannot take more is told as want of memory.
#[derive(Debug, Drop)]
pub struct RuleTable {
    heads: Vec<RuleHead>,
    terms: Vec<Term>,
    numbers: Vec<i64>,
}

impl Model for RuleTable {
    ghost use Rattle.std.specs.Prelude.{List, All, length};
    ghost use Rattle.dcsp_rule.specs.declared.rule.Rule.{Rule};
    ghost use Rattle.dcsp_rule.specs.Flat.{rules_in, IsInside};

    ghost Value = { List Rule };

    ghost view = { λ t. rules_in t.terms.items t.numbers.items t.heads.items };

    ghost invariant = { λ t. All (IsInside (length t.terms.items) (length t.numbers.items)) t.heads.items };
}

impl RuleTable {
    /// No rules.
    pub fn new(alloc: Global) -> RuleTable
        ensures { result ≡ [] }
    {
        RuleTable {
            heads: Vec::new(alloc),
            terms: Vec::new(alloc),
            numbers: Vec::new(alloc),
        }
    }

    /// The number of rules.
    pub fn len(&self) -> usize
        ensures { result ≡ length self.now }
    {
        self.heads.len()
    }

    /// The rule at a place.
    pub fn rule(&self, place: usize) -> RuleRef<'_>
        requires { place < length self.now }
        ensures { slice_get self.now place ≡ Some (lent_rule result) }
    {
        let head = self.heads[place];
        let lists = RuleLists {
            first: &self.terms[head.first as usize..head.second as usize],
            second: &self.terms[head.second as usize..head.third as usize],
            third: &self.terms[head.third as usize..head.end as usize],
            numbers: &self.numbers[head.numbers as usize..head.numbers_end as usize],
        };
        lend(head.kind, lists)
    }

    /// Adds a rule, with lists that are copied.
    #[inline(always)]
    pub fn push(&mut self, rule: RuleRef<'_>) -> Result<(), Memory>
        ensures ok { OnOk result (self.new ≡ self.old ++ lent_rule rule.entry ∷ []) }
        ensures err { OnErr result (self.new ≡ self.old) }
    {
        match rule {
            RuleRef::Plain {
                kind,
                scalars,
                first,
                second,
                members,
            } => match members {
                MembersRef::Between { low, high } => self.push_lists(
                    HeadKind::Ranging(kind),
                    RuleLists {
                        first: scalars,
                        second: first,
                        third: second,
                        numbers: &[low, high],
                    },
                ),
                MembersRef::Listed(values) => self.push_lists(
                    HeadKind::Listing(kind),
                    RuleLists {
                        first: scalars,
                        second: first,
                        third: second,
                        numbers: values,
                    },
                ),
            },
            RuleRef::Sum {
                rel,
                coefs,
                terms,
                total,
                truth,
            } => match truth {
                None => self.push_lists(
                    HeadKind::Summing(rel),
                    RuleLists {
                        first: terms,
                        second: &[total],
                        third: &[],
                        numbers: coefs,
                    },
                ),
                Some(truth) => self.push_lists(
                    HeadKind::Summing(rel),
                    RuleLists {
                        first: terms,
                        second: &[total, truth],
                        third: &[],
                        numbers: coefs,
                    },
                ),
            },
        }
    }

    /// Adds the rule that these lists make.
    #[inline(always)]
    fn push_lists(&mut self, kind: HeadKind, lists: RuleLists<'_>) -> Result<(), Memory>
        ensures ok { OnOk result (self.new ≡ self.old ++ rule_of_lists kind lists.entry.first.now lists.entry.second.now lists.entry.third.now lists.entry.numbers.now ∷ []) }
        ensures err { OnErr result (self.new ≡ self.old) }
    {
        let head = head_for(kind, self.terms.len(), self.numbers.len(), lists)?;
        add_terms(&mut self.terms, lists)?;
        append(&mut self.numbers, lists.numbers)?;
        self.heads.push(head)?;
        Ok(())
    }
}

/// Adds the terms of the lists, one list after another. After `Memory` the first of them may be added.
#[inline(always)]
fn add_terms(terms: &mut Vec<Term>, lists: RuleLists<'_>) -> Result<(), Memory>
    ensures ok { OnOk result (terms.new.items ≡ terms.old.items ++ (lists.entry.first.now ++ (lists.entry.second.now ++ lists.entry.third.now))) }
    ensures err { OnErr result (Extends terms.old.items terms.new.items) }
{
    append(terms, lists.first)?;
    append(terms, lists.second)?;
    append(terms, lists.third)?;
    Ok(())
}

/// Adds items to a list. Most lists of rules are short, and take less one by one than a call that copies takes. After
/// `Memory` the first of them may be added.
#[inline(always)]
fn append<T: Copy>(list: &mut Vec<T>, more: &[T]) -> Result<(), Memory>
    ensures ok { OnOk result (list.new.items ≡ list.old.items ++ more.now) }
    ensures err { OnErr result (Extends list.old.items list.new.items) }
{
    if more.len() > MOST_ONE_BY_ONE {
        list.extend_from_slice(more)?;
        return Ok(());
    }
    for item in more {
        list.push(*item)?;
    }
    Ok(())
}

/// The head of a rule with these lists, which come after so many terms and numbers.
#[inline(always)]
fn head_for(
    kind: HeadKind,
    terms: usize,
    numbers: usize,
    lists: RuleLists<'_>,
) -> Result<RuleHead, Memory>
    requires terms { terms < 2 ^ 59 }
    requires numbers { numbers < 2 ^ 60 }
    ensures { IfOk result (λ head. head ≡ head_of kind terms numbers (length lists.entry.first.now) (length lists.entry.second.now) (length lists.entry.third.now) (length lists.entry.numbers.now)) }
{
    let second = terms + lists.first.len();
    let third = second + lists.second.len();
    let end = third + lists.third.len();
    let numbers_end = numbers + lists.numbers.len();
    if end > MOST_PLACES || numbers_end > MOST_PLACES {
        return Err(Memory);
    }
    Ok(RuleHead {
        kind,
        first: terms as u32,
        second: second as u32,
        third: third as u32,
        end: end as u32,
        numbers: numbers as u32,
        numbers_end: numbers_end as u32,
    })
}

/// The rule that these lists make.
fn lend<'l>(kind: HeadKind, lists: RuleLists<'l>) -> RuleRef<'l>
    ensures { lent_rule result ≡ rule_of_lists kind lists.entry.first.now lists.entry.second.now lists.entry.third.now lists.entry.numbers.now }
{
    match kind {
        HeadKind::Listing(kind) => RuleRef::Plain {
            kind,
            scalars: lists.first,
            first: lists.second,
            second: lists.third,
            members: MembersRef::Listed(lists.numbers),
        },
        HeadKind::Ranging(kind) => RuleRef::Plain {
            kind,
            scalars: lists.first,
            first: lists.second,
            second: lists.third,
            members: MembersRef::Between {
                low: number_at(lists.numbers, 0),
                high: number_at(lists.numbers, 1),
            },
        },
        HeadKind::Summing(rel) => RuleRef::Sum {
            rel,
            coefs: lists.numbers,
            terms: lists.first,
            total: term_at(lists.second, 0),
            truth: lists.second.get(1).copied(),
        },
    }
}

/// The number at a place; 0 past the last.
fn number_at(numbers: &[i64], place: usize) -> i64
    ensures { result ≡ slice_index_or numbers.now place (pos 0) }
{
    match numbers.get(place) {
        Some(number) => *number,
        None => 0,
    }
}

/// The term at a place; 0 past the last.
fn term_at(terms: &[Term], place: usize) -> Term
    ensures { result ≡ slice_index_or terms.now place (Term.Const (pos 0)) }
{
    match terms.get(place) {
        Some(term) => *term,
        None => Term::Const(0),
    }
}
