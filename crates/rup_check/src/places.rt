//! Clauses inside: a literal stands as a place. Variable v is place 4,095 + v and its negation 4,096 - v, so that a
//! place and its negation sum to 8,191. All clauses stand in one array of places, and a second array says where each ends.
ghost use Rattle.rup_check.specs.Kept.{all_of, clauses_of};
ghost use Rattle.std.specs.Prelude.{◌≡◌, ◌<◌, ◌≤◌, ◌+◌, ◌-◌, ◌^◌, ℕ, List, [], ◌∷◌, ◌++◌, length, OnOk, OnErr, slice_index_or, map};
ghost use Rattle.std.specs.List.{All};
ghost use Rattle.rup_check.specs.Literals.{IsLiteral};
ghost use Rattle.rup_check.specs.Stored.{place_of, IsPlace, places};
ghost use Rattle.rup_check.specs.Watches.{Extends};
ghost use Rattle.rup_check.specs.Assignments.{flipped};
ghost use Rattle.rup_check.specs.Parts.{parts, part_start, AreEnds};

use dcsp_common::Memory;
use std::alloc::Global;
use std::marker::Model;

/// The greatest number of a variable.
const VARIABLES: u16 = 4_096;

/// The last place of a literal: each variable has two.
pub(crate) const LAST_PLACE: u16 = 8_191;

/// The negation of a literal.
pub(crate) fn flipped(literal: u16) -> u16
    requires { IsPlace literal }
    ensures { result ≡ flipped literal }
{
    LAST_PLACE - literal
}

/// Clauses, each a list of literals.
#[derive(Drop)]
pub struct PlaceList {
    literals: Vec<u16>,
    ends: Vec<usize>,
}

impl Model for PlaceList {
    ghost use Rattle.std.specs.Prelude.{List, ℕ};
    ghost use Rattle.rup_check.specs.Parts.{parts, AreEnds};

    ghost Value = { List (List ℕ) };

    ghost view = { λ list. parts 0 list.ends.items list.literals.items };

    ghost invariant = { λ list. AreEnds list.ends.items list.literals.items };
}

impl PlaceList {
    /// No clause.
    pub fn new(alloc: Global) -> PlaceList
        ensures { result ≡ [] }
    {
        PlaceList {
            literals: Vec::new(alloc),
            ends: Vec::new(alloc),
        }
    }

    /// The number of clauses.
    #[tactic(auto, using(crate::proofs::PartLaws::length_parts))]
    pub fn len(&self) -> usize
        ensures { result ≡ length self.now }
    {
        self.ends.len()
    }

    /// The literals of a clause.
    #[tactic(auto, using(crate::proofs::PartLaws::length_parts))]
    pub fn clause(&self, number: usize) -> &[u16]
        requires { number < length self.now }
        ensures value { result.now ≡ slice_index_or self.now number [] }
        ensures small { All IsPlace result.now }
    {
        part(&self.ends, &self.literals, number)
    }
}

impl PlaceList {
    /// Adds the clause of these literals at the end. A refusal changes nothing.
    #[tactic(auto, using(crate::proofs::PartLaws::pushed_part))]
    pub(crate) fn push(&mut self, numbers: &[i32]) -> Result<(), Memory>
        requires { All IsLiteral numbers.now }
        ensures ok { OnOk result (self.new ≡ self.old ++ map place_of numbers.now ∷ []) }
        ensures err { OnErr result (self.new ≡ self.old) }
    {
        add_part(&mut self.ends, &mut self.literals, numbers)
    }
}

/// The place of a literal.
fn place_of(number: i32) -> u16
    requires { IsLiteral number }
    ensures { result ≡ place_of number }
{
    let variable = number.unsigned_abs() as u16;
    if number > 0 {
        VARIABLES - 1 + variable
    } else {
        VARIABLES - variable
    }
}

/// Adds the places of these literals at the end.
fn add_places(places: &mut Vec<u16>, numbers: &[i32]) -> Result<(), Memory>
    requires { All IsLiteral numbers.now }
    ensures ok { OnOk result (places.new.items ≡ places.old.items ++ map place_of numbers.now) }
    ensures err { OnErr result (Extends places.old.items places.new.items) }
{
    for number in numbers {
        places.push(place_of(*number))?;
    }
    Ok(())
}

/// Adds the part of these literals at the end. A refusal changes nothing.
#[tactic(auto, using(crate::proofs::PartLaws::truncated))]
fn add_part(ends: &mut Vec<usize>, places: &mut Vec<u16>, numbers: &[i32]) -> Result<(), Memory>
    requires { All IsLiteral numbers.now }
    ensures places { OnOk result (places.new.items ≡ places.old.items ++ map place_of numbers.now) }
    ensures ends { OnOk result (ends.new.items ≡ ends.old.items ++ length places.new.items ∷ []) }
    ensures no_places { OnErr result (places.new.items ≡ places.old.items) }
    ensures no_end { OnErr result (ends.new.items ≡ ends.old.items) }
{
    let before = places.len();
    if add_places(places, numbers).is_err() {
        places.truncate(before);
        return Err(Memory);
    }
    let end = places.len();
    if ends.push(end).is_err() {
        places.truncate(before);
        return Err(Memory);
    }
    Ok(())
}

/// Where a part begins.
fn part_start(ends: &[usize], number: usize) -> usize
    requires { number < length ends.now }
    ensures { result ≡ part_start 0 ends.now number }
{
    if number == 0 { 0 } else { ends[number - 1] }
}

/// The part with this number.
#[tactic(auto, using(crate::proofs::PartLaws::part_value))]
fn part<'a>(ends: &[usize], literals: &'a [u16], number: usize) -> &'a [u16]
    requires ends { AreEnds ends.now literals.now }
    requires in_range { number < length ends.now }
    ensures value { result.now ≡ slice_index_or (parts 0 ends.now literals.now) number [] }
    ensures small { All IsPlace result.now }
{
    let start = part_start(ends, number);
    let end = ends[number];
    &literals[start..end]
}

/// The clauses of a formula and of its proof, of which the first `count` are known.
#[derive(Clone, Copy)]
pub(crate) struct Known<'a> {
    pub(crate) formula: &'a PlaceList,
    pub(crate) proof: &'a PlaceList,
    pub(crate) count: usize,
}

impl<'a> Known<'a> {
    /// The literals of a clause, known or not.
    #[tactic(auto, using(crate::proofs::PartLaws::in_formula, crate::proofs::PartLaws::in_proof))]
    pub(crate) fn any(&self, number: usize) -> &'a [u16]
        requires { number < length (all_of self.now) }
        ensures value { result.now ≡ slice_index_or (all_of self.now) number [] }
        ensures small { All IsPlace result.now }
    {
        let first = self.formula.len();
        if number < first {
            self.formula.clause(number)
        } else {
            self.proof.clause(number - first)
        }
    }

    /// The literals of a known clause.
    #[tactic(auto, using(crate::proofs::PartLaws::known_value))]
    pub(crate) fn clause(&self, number: usize) -> &'a [u16]
        requires { number < length (clauses_of self.now) }
        ensures value { result.now ≡ slice_index_or (clauses_of self.now) number [] }
        ensures small { All IsPlace result.now }
    {
        self.any(number)
    }
}
