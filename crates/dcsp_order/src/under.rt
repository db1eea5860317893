//! Problems under an order.

ghost use Rattle.std.specs.Prelude.{◌≡◌, length, All, IfOk, IfSome, map};
ghost use Rattle.std.specs.Option.{option_map};
ghost use Rattle.dcsp_rule.specs.Lent.{lent_members, lent_rule};
ghost use Rattle.dcsp_rule.specs.Rules.{terms_of, IsAimOf, IsTermOf};
ghost use Rattle.dcsp_order.specs.Under.{aim_under, domain_at, output_under, rule_under, term_under, terms_under, under};

use crate::order::Order;
use dcsp_common::{ItemList, Memory};
use dcsp_problem::{
    Aim, Domain, IntList, Members, MembersRef, NameText, Output, Problem, RangeList, Rule, RuleRef,
    RuleTable, Shape, Term, TermList,
};
use std::alloc::Global;

impl Order {
    /// The problem under the order: each variable is told by its place, the one that stands first has the highest
    /// priority, and rules keep their numbers.
    pub fn problem_under(&self, alloc: Global, problem: &Problem) -> Result<Problem, Memory>
        requires { length self.now ≡ length problem.now.domains }
        ensures { IfOk result (λ moved. moved ≡ under self.now problem.now) }
    {
        problem.denotes_csp();
        self.has_each_once();
        let domains = self.domains_under(alloc, problem)?;
        let rules = self.rules_under(alloc, problem)?;
        let outputs = self.outputs_under(alloc, problem)?;
        let aim = self.aim_under(problem.aim());
        Problem::of_parts(alloc, domains, rules, outputs, aim)
    }

    /// The domains, in order.
    fn domains_under(&self, alloc: Global, problem: &Problem) -> Result<Vec<Domain>, Memory>
        requires { length self.now ≡ length problem.now.domains }
        ensures { IfOk result (λ domains. domains.items ≡ map (domain_at problem.now) self.now) }
    {
        let numbers = self.numbers();
        let mut domains = Vec::new(alloc);
        for place in 0..numbers.len() {
            let domain = problem.domain(numbers[place]).copied()?;
            domains.push(domain)?;
        }
        Ok(domains)
    }

    /// The rules, over places.
    fn rules_under(&self, alloc: Global, problem: &Problem) -> Result<RuleTable, Memory>
        requires { length self.now ≡ length problem.now.domains }
        ensures { IfOk result (λ rules. rules ≡ map (rule_under self.now) problem.now.rules) }
    {
        problem.denotes_csp();
        let mut rules = RuleTable::new(alloc);
        for number in 0..problem.rules() {
            let rule = self.rule_under(alloc, problem.rule(number))?;
            rules.push(rule.lent())?;
        }
        Ok(rules)
    }

    /// What is told of a solution, over places.
    fn outputs_under(&self, alloc: Global, problem: &Problem) -> Result<Vec<Output>, Memory>
        requires { length self.now ≡ length problem.now.domains }
        ensures { IfOk result (λ outputs. outputs.items ≡ map (output_under self.now) problem.now.outputs) }
    {
        problem.denotes_csp();
        let mut outputs = Vec::new(alloc);
        for place in 0..problem.outputs() {
            let output = self.output_under(alloc, problem.output(place))?;
            outputs.push(output)?;
        }
        Ok(outputs)
    }

    /// A rule over places.
    fn rule_under(&self, alloc: Global, rule: RuleRef<'_>) -> Result<Rule, Memory>
        requires { All (IsTermOf (length self.now)) (terms_of (lent_rule rule)) }
        ensures { IfOk result (λ moved. moved ≡ rule_under self.now (lent_rule rule.entry)) }
    {
        match rule {
            RuleRef::Plain {
                kind,
                scalars,
                first,
                second,
                members,
            } => Ok(Rule::Plain {
                kind,
                scalars: self.terms_under(alloc, scalars)?,
                first: self.terms_under(alloc, first)?,
                second: self.terms_under(alloc, second)?,
                members: copied_members(alloc, members)?,
            }),
            RuleRef::Sum {
                rel,
                coefs,
                terms,
                total,
                truth,
            } => Ok(Rule::Sum {
                rel,
                coefs: copied_integers(alloc, coefs)?,
                terms: self.terms_under(alloc, terms)?,
                total: self.term_under(total),
                truth: self.told_under(truth),
            }),
        }
    }

    /// An output over places.
    fn output_under(&self, alloc: Global, output: &Output) -> Result<Output, Memory>
        requires { All (IsTermOf (length self.now)) output.now.terms }
        ensures { IfOk result (λ moved. moved ≡ output_under self.now output.now) }
    {
        Ok(Output {
            name: copied_name(alloc, &output.name)?,
            boolean: output.boolean,
            shape: copied_shape(alloc, &output.shape)?,
            terms: self.terms_under(alloc, output.terms.items())?,
        })
    }

    /// What is wanted of a solution, over places.
    fn aim_under(&self, aim: Aim) -> Aim
        requires { IsAimOf (length self.now) aim }
        ensures { result ≡ aim_under self.now aim }
    {
        match aim {
            Aim::Satisfy => Aim::Satisfy,
            Aim::Least(term) => Aim::Least(self.term_under(term)),
            Aim::Greatest(term) => Aim::Greatest(self.term_under(term)),
        }
    }

    /// Terms over places.
    fn terms_under(&self, alloc: Global, terms: &[Term]) -> Result<TermList, Memory>
        requires { All (IsTermOf (length self.now)) terms.now }
        ensures { IfOk result (λ moved. moved ≡ terms_under self.now terms.now) }
    {
        let mut moved = Vec::new(alloc);
        for term in terms {
            moved.push(self.term_under(*term))?;
        }
        Ok(ItemList::from_vec(moved))
    }

    /// A term over places.
    fn term_under(&self, term: Term) -> Term
        requires { IsTermOf (length self.now) term }
        ensures { result ≡ term_under self.now term }
    {
        match term {
            Term::Const(value) => Term::Const(value),
            Term::Var(var) => Term::Var(self.place(var)),
        }
    }

    /// The term of a truth over places, where there is one.
    fn told_under(&self, told: Option<Term>) -> Option<Term>
        requires { IfSome told (IsTermOf (length self.now)) }
        ensures { result ≡ option_map (term_under self.now) told }
    {
        match told {
            Some(term) => Some(self.term_under(term)),
            None => None,
        }
    }
}

/// The same members once more.
fn copied_members(alloc: Global, members: MembersRef<'_>) -> Result<Members, Memory>
    ensures { IfOk result (λ copy. copy ≡ lent_members members.entry) }
{
    match members {
        MembersRef::Between { low, high } => Ok(Members::Between { low, high }),
        MembersRef::Listed(values) => Ok(Members::Listed(copied_integers(alloc, values)?)),
    }
}

/// The same shape once more.
fn copied_shape(alloc: Global, shape: &Shape) -> Result<Shape, Memory>
    ensures { IfOk result (λ copy. copy ≡ shape.now) }
{
    match shape {
        Shape::One => Ok(Shape::One),
        Shape::Ranges(ranges) => Ok(Shape::Ranges(copied_ranges(alloc, ranges)?)),
    }
}

/// The same integers once more.
fn copied_integers(alloc: Global, list: &[i64]) -> Result<IntList, Memory>
    ensures { IfOk result (λ copy. copy ≡ list.now) }
{
    Ok(ItemList::from_vec(Vec::from_slice(alloc, list)?))
}

/// The same ranges once more.
fn copied_ranges(alloc: Global, list: &RangeList) -> Result<RangeList, Memory>
    ensures { IfOk result (λ copy. copy ≡ list.now) }
{
    let items = Vec::from_slice(alloc, list.items())?;
    Ok(ItemList::from_vec(items))
}

/// The same name once more.
fn copied_name(alloc: Global, list: &NameText) -> Result<NameText, Memory>
    ensures { IfOk result (λ copy. copy ≡ list.now) }
{
    let items = Vec::from_slice(alloc, list.items())?;
    Ok(ItemList::from_vec(items))
}
