//! Lists that a constraint's arguments are read into.

ghost use Rattle.std.specs.Prelude.{◌≡◌, [], OnOk, map};
ghost use Rattle.dcsp_rule.specs.declared.rule.Members.TheVariants as members;
ghost use Rattle.dcsp_rule.specs.Lent.{lent_members};
ghost use Rattle.fzn_scope.specs.Arguments.{arguments_in, members_in};
ghost use Rattle.fzn_scope.specs.Rules.{constant_of, no_arguments};

use dcsp_common::Memory;
use dcsp_problem::{IntList, Members, MembersRef, Term};
use std::alloc::Global;

/// A set of integers, whose list is used again for the next.
#[derive(Debug, Drop)]
pub(crate) struct SetList {
    /// The ends of a range, both included.
    pub(crate) range: Option<(i64, i64)>,
    /// The numbers of a set that is no range, as they are written.
    pub(crate) numbers: Vec<i64>,
}

/// The arguments of a constraint, in lists that are used again for the next: a list takes memory only where it is
/// longer than each before.
#[derive(Debug, Drop)]
pub struct ArgumentLists {
    pub(crate) scalars: Vec<Term>,
    pub(crate) first: Vec<Term>,
    pub(crate) second: Vec<Term>,
    pub(crate) set: SetList,
    /// The coefficients of a sum: the constants of its first list.
    pub(crate) coefs: Vec<i64>,
}

impl SetList {
    /// The empty set.
    pub(crate) fn new(alloc: Global) -> SetList
        ensures { members_in result ≡ members.Listed [] }
    {
        SetList {
            range: None,
            numbers: Vec::new(alloc),
        }
    }

    /// Leaves the empty set.
    fn clear(&mut self)
        ensures { members_in self.new ≡ members.Listed [] }
    {
        self.range = None;
        self.numbers.clear();
    }

    /// Puts another set in its place.
    pub(crate) fn put(&mut self, set: MembersRef<'_>) -> Result<(), Memory>
        ensures { OnOk result (members_in self.new ≡ lent_members set.entry) }
    {
        self.clear();
        match set {
            MembersRef::Between { low, high } => self.range = Some((low, high)),
            MembersRef::Listed(numbers) => self.numbers.extend_from_slice(numbers)?,
        }
        Ok(())
    }

    /// The set, lent.
    pub(crate) fn lent(&self) -> MembersRef<'_>
        ensures { lent_members result ≡ members_in self.now }
    {
        match self.range {
            Some((low, high)) => MembersRef::Between { low, high },
            None => MembersRef::Listed(&self.numbers),
        }
    }

    /// The set, which keeps its list.
    pub(crate) fn into_members(self) -> Members
        ensures { result ≡ members_in self }
    {
        match self.range {
            Some((low, high)) => Members::Between { low, high },
            None => Members::Listed(IntList::from_vec(self.numbers)),
        }
    }
}

impl ArgumentLists {
    /// No arguments.
    pub fn new(alloc: Global) -> ArgumentLists
        ensures { arguments_in result ≡ no_arguments }
    {
        ArgumentLists {
            scalars: Vec::new(alloc),
            first: Vec::new(alloc),
            second: Vec::new(alloc),
            set: SetList::new(alloc),
            coefs: Vec::new(alloc),
        }
    }

    /// Leaves no arguments.
    pub(crate) fn clear(&mut self)
        ensures { arguments_in self.new ≡ no_arguments }
    {
        self.scalars.clear();
        self.first.clear();
        self.second.clear();
        self.set.clear();
    }

    /// Takes the constants of the first list for coefficients.
    pub(crate) fn put_coefs(&mut self) -> Result<(), Memory>
        ensures coefs { OnOk result (self.new.coefs.items ≡ map constant_of self.old.first.items) }
        ensures same { OnOk result (arguments_in self.new ≡ arguments_in self.old) }
    {
        put_constants(&mut self.coefs, &self.first)
    }
}

/// A constant's value; nothing asks for a variable's.
fn constant_of(term: Term) -> i64
    ensures { result ≡ constant_of term }
{
    match term {
        Term::Const(value) => value,
        Term::Var(_) => 0,
    }
}

/// Puts the values of constants in place of what stands in a list.
fn put_constants(values: &mut Vec<i64>, terms: &[Term]) -> Result<(), Memory>
    ensures { OnOk result (values.new.items ≡ map constant_of terms.now) }
{
    values.clear();
    for term in terms {
        values.push(constant_of(*term))?;
    }
    Ok(())
}

/// Puts other terms in place of those that stand in a list.
pub(crate) fn put_terms(terms: &mut Vec<Term>, others: &[Term]) -> Result<(), Memory>
    ensures { OnOk result (terms.new.items ≡ others.now) }
{
    terms.clear();
    terms.extend_from_slice(others)?;
    Ok(())
}
