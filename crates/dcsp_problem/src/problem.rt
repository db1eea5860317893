//! Problems as they stand once they are built.

ghost use Rattle.std.specs.Prelude.{◌≡◌, ◌≤◌, ◌<◌, ℕ, ℤ, pos, List, length, All, Some, is_some, true, slice_get, slice_index_or, IfOk, IfSome, IsSome, IsTrue, filter};
ghost use Rattle.std.specs.List.{list_all};
ghost use Rattle.dcsp_domain.specs.Sets.{has};
ghost use Rattle.dcsp_defs.specs.Csp.{domain, owner, is_violated, IsConstraint, IsCsp};
ghost use Rattle.dcsp_rule.specs.Problems.{csp_of, constraint_at, rule_at, within_domains, AreInDomains};
ghost use Rattle.dcsp_problem.specs.WellFormed.{IsProblem};
ghost use Rattle.dcsp_rule.specs.Rules.{IsAimOf};
ghost use Rattle.dcsp_rule.specs.Lent.{lent_rule};
ghost use Rattle.dcsp_rule.specs.Aims.{aimed_at, is_better, narrowed_domains, narrowed};
ghost use Rattle.dcsp_rule.specs.Pairs.{compares_variable, IsPairOf, IsSmallSum};
ghost use Rattle.dcsp_rule.specs.Forms.{IsFormOf};
ghost use Rattle.dcsp_problem.specs.Index.{IsIndexed, owned_rules};
ghost use Rattle.dcsp_problem.specs.Lower.{lower_owners};

use crate::index::owned_lists;
use crate::lower::lower_table;
use crate::table::NumberTable;
use dcsp_common::Memory;
use dcsp_domain::Domain;
use dcsp_rule::{
    Aim, Assignment, BinaryRule, Form, Lookup, Output, RuleRef, RuleTable, WithinDomains, forms_of,
    is_true_under,
};
use std::alloc::Global;
use std::marker::Model;
use std::rc::Rc;

/// Variables with their domains, rules over them, what is told of a solution, and what is wanted of one.
#[derive(Debug, Drop)]
pub struct Problem {
    domains: Vec<Domain>,
    aim: Aim,
    shared: Rc<SharedPart>,
}

/// What a problem has in common with those that it is narrowed to.
#[derive(Debug, Drop)]
pub struct SharedPart {
    pub rules: RuleTable,
    pub outputs: Vec<Output>,
    /// What is read off the rules once, when a problem is finished.
    pub tables: Tables,
}

/// What is read off a problem's rules.
#[derive(Debug, Drop)]
pub struct Tables {
    /// The scope of each rule.
    pub scopes: NumberTable,
    /// The form of each rule.
    pub forms: Vec<Form>,
    /// The rules that each variable owns.
    pub owned: NumberTable,
    /// The later variables that own a rule over each variable.
    pub lower: NumberTable,
}

impl Model for Problem {
    ghost use Rattle.dcsp_rule.specs.Problems.{Contents};
    ghost use Rattle.dcsp_problem.specs.Index.{IsIndexed};

    ghost Value = { Contents };

    ghost view = { λ p. record { domains = p.domains.items; rules = p.shared.value.rules; outputs = p.shared.value.outputs.items; aim = p.aim } };

    ghost invariant = { λ p. IsIndexed (record { domains = p.domains.items; rules = p.shared.value.rules; outputs = p.shared.value.outputs.items; aim = p.aim }) p.shared.value.tables.scopes p.shared.value.tables.forms.items p.shared.value.tables.owned p.shared.value.tables.lower };
}

impl Problem {
    /// The problem of these parts, which keep the limits.
    pub fn of_parts(
        alloc: Global,
        domains: Vec<Domain>,
        rules: RuleTable,
        outputs: Vec<Output>,
        aim: Aim,
    ) -> Result<Problem, Memory>
        requires { IsProblem (record { domains = domains.items; rules = rules; outputs = outputs.items; aim = aim }) }
        ensures { IfOk result (λ problem. problem ≡ record { domains = domains.items; rules = rules; outputs = outputs.items; aim = aim }) }
    {
        let scopes = NumberTable::of_scopes(alloc, &rules)?;
        let forms = forms_of(alloc, &rules)?;
        let owners = owned_lists(alloc, &scopes, domains.len())?;
        let owned = NumberTable::of_lists(alloc, &owners)?;
        drop(owners);
        let lower = lower_table(alloc, &scopes, domains.len())?;
        let tables = Tables {
            scopes,
            forms,
            owned,
            lower,
        };
        let shared = SharedPart {
            rules,
            outputs,
            tables,
        };
        Problem::from_parts(alloc, domains, aim, shared)
    }

    /// The problem of these domains and this aim, and of rules and outputs with the tables that belong to them all.
    fn from_parts(
        alloc: Global,
        domains: Vec<Domain>,
        aim: Aim,
        shared: SharedPart,
    ) -> Result<Problem, Memory>
        requires { IsIndexed (record { domains = domains.items; rules = shared.rules; outputs = shared.outputs.items; aim = aim }) shared.tables.scopes shared.tables.forms.items shared.tables.owned shared.tables.lower }
        ensures { IfOk result (λ problem. problem ≡ record { domains = domains.items; rules = shared.rules; outputs = shared.outputs.items; aim = aim }) }
    {
        let shared = Rc::new(alloc, shared)?;
        Ok(Problem {
            domains,
            aim,
            shared,
        })
    }

    /// The number of variables.
    ///
    /// Every problem denotes a well-formed abstract problem, and keeps the limits.
    pub fn vars(&self) -> u32
        ensures vars { result ≡ length self.now.domains }
        ensures csp { IsCsp (csp_of self.now) }
        ensures problem { IsProblem self.now }
    {
        self.domains.len() as u32
    }

    /// Every problem denotes a well-formed abstract problem, and keeps the limits.
    pub fn denotes_csp(&self)
        ensures csp { IsCsp (csp_of self.now) }
        ensures problem { IsProblem self.now }
    {
        let _vars = self.vars();
    }

    /// The domain of a variable.
    pub fn domain(&self, var: u32) -> &Domain
        requires { var < length self.now.domains }
        ensures { result.now ≡ domain (csp_of self.now) var }
    {
        &self.domains[var as usize]
    }

    /// The number of rules.
    pub fn rules(&self) -> u32
        ensures rules { result ≡ length self.now.rules }
        ensures constraints { (number : ℕ) → number < length self.now.rules → slice_get (csp_of self.now).constraints number ≡ Some (constraint_at self.now number) }
    {
        self.shared.rules.len() as u32
    }

    /// The rule with this number, lent.
    pub fn rule(&self, number: u32) -> RuleRef<'_>
        requires { number < length self.now.rules }
        ensures { slice_get self.now.rules number ≡ Some (lent_rule result) }
    {
        self.shared.rules.rule(number as usize)
    }

    /// The rule as a relation of its variables, if it is one: what is true where this is, and over which variables.
    ///
    /// There is one of each comparison of two numbers of which at least one is a variable, and of each sum over one
    /// or two variables that nothing tells, unless its numbers are great.
    #[inline(always)]
    pub fn pair(&self, rule: u32) -> Option<BinaryRule>
        requires { rule < length self.now.rules }
        ensures pair { IfSome result (λ pair. IsPairOf pair (rule_at self.now rule)) }
        ensures compared { IsTrue (compares_variable (rule_at self.now rule)) → IsSome result }
        ensures summed { (v w : ℕ) → IsSmallSum v w (rule_at self.now rule) → IsSome result }
    {
        self.form(rule).pair()
    }

    /// The form of a rule.
    #[inline(always)]
    fn form(&self, rule: u32) -> &Form
        requires { rule < length self.now.rules }
        ensures form { IsFormOf result.now (rule_at self.now rule) }
        ensures problem { IsProblem self.now }
    {
        &self.shared.tables.forms[rule as usize]
    }

    /// The number of outputs.
    pub fn outputs(&self) -> u32
        ensures { result ≡ length self.now.outputs }
    {
        self.shared.outputs.len() as u32
    }

    /// The output at a place, counted from 0, in the order in which they were added.
    pub fn output(&self, place: u32) -> &Output
        requires { place < length self.now.outputs }
        ensures { slice_get self.now.outputs place ≡ Some result.now }
    {
        &self.shared.outputs[place as usize]
    }

    /// What is wanted of a solution. It is at a constant, at a variable of the problem, or at nothing.
    pub fn aim(&self) -> Aim
        ensures aim { result ≡ self.now.aim }
        ensures known { IsAimOf (length self.now.domains) result }
    {
        self.aim
    }

    /// The problem that only better solutions solve: in the domain of the variable that the aim is at stay only
    /// the values below `better` for the least, above it for the greatest.
    ///
    /// The domains are copied; all else is lent to the new problem.
    pub fn narrowed(&self, better: i64) -> Result<Problem, Memory>
        requires { IsSome (aimed_at self.now.aim) }
        ensures { IfOk result (λ problem. problem ≡ narrowed self.now better) }
    {
        let var = self.aim.variable().unwrap();
        let domains = narrowed_domains(&self.domains, self.aim, var, better)?;
        let shared = self.shared.clone()?;
        Ok(Problem {
            domains,
            aim: self.aim,
            shared,
        })
    }

    /// The variables among a rule's terms, strictly rising.
    pub fn scope(&self, rule: u32) -> &[u32]
        requires { rule < length self.now.rules }
        ensures scope { result.now ≡ (constraint_at self.now rule).scope }
        ensures inside { All (λ var. var < length self.now.domains) result.now }
        ensures constraint { IsConstraint (csp_of self.now) (constraint_at self.now rule) }
    {
        self.shared.tables.scopes.list(rule as usize)
    }

    /// The last variable of a rule's scope; `None` exactly if the scope is empty.
    pub fn owner(&self, rule: u32) -> Option<u32>
        requires { rule < length self.now.rules }
        ensures { result ≡ owner (constraint_at self.now rule) }
    {
        self.scope(rule).last().copied()
    }

    /// The rules that a variable owns, in order.
    pub fn owned(&self, var: u32) -> &[u32]
        requires { var < length self.now.domains }
        ensures rules { result.now ≡ owned_rules self.now var }
        ensures inside { All (λ rule. rule < length self.now.rules) (owned_rules self.now var) }
    {
        self.shared.tables.owned.list(var as usize)
    }

    /// The variables after this one that own a rule with it in scope, strictly rising.
    pub fn lower_owners(&self, var: u32) -> &[u32]
        requires { var < length self.now.domains }
        ensures owners { result.now ≡ lower_owners (csp_of self.now) var }
        ensures inside { All (λ owner. owner < length self.now.domains) (lower_owners (csp_of self.now) var) }
    {
        self.shared.tables.lower.list(var as usize)
    }

    /// Whether a rule holds where the variables have these values, in order.
    pub fn rule_holds(&self, rule: u32, values: &[i64]) -> bool
        requires in_range { rule < length self.now.rules }
        requires as_many { length values.now ≡ length self.now.domains }
        requires in_domains { (var : ℕ) → var < length self.now.domains → has (domain (csp_of self.now) var) (slice_index_or values.now var (pos 0)) ≡ true }
        ensures { result ≡ (constraint_at self.now rule).test (λ var. slice_index_or values.now var (pos 0)) }
    {
        let _scope = self.scope(rule);
        !self.violated_within(rule, &Assignment { values })
    }

    /// Whether the look-up gives each variable of a rule's scope a value of that variable's domain, and the
    /// rule is false under these values.
    pub fn violated_by<L: Lookup>(&self, rule: u32, lookup: &L) -> bool
        requires { rule < length self.now.rules }
        ensures in_domains { result ≡ is_violated (within_domains (csp_of self.now) (L.values lookup.now)) (constraint_at self.now rule) }
        ensures known { AreInDomains (csp_of self.now) (L.values lookup.now) → result ≡ is_violated (L.values lookup.now) (constraint_at self.now rule) }
    {
        let within = WithinDomains {
            domains: &self.domains,
            lookup,
        };
        self.violated_within(rule, &within)
    }

    /// The same of a look-up that gives values of their variables' domains alone: it searches no domain.
    pub fn violated_within<L: Lookup>(&self, rule: u32, lookup: &L) -> bool
        requires rule { rule < length self.now.rules }
        requires domains { AreInDomains (csp_of self.now) (L.values lookup.now) }
        ensures { result ≡ is_violated (L.values lookup.now) (constraint_at self.now rule) }
    {
        let form = self.form(rule);
        match form {
            Form::Narrow(pair) => pair.is_missed(lookup),
            Form::Wide(pair) => pair.is_missed(lookup),
            Form::Listed(_) | Form::Plain => {
                self.knows_scope(rule, lookup) && !is_true_under(self.rule(rule), form, lookup)
            }
        }
    }

    /// Whether the look-up gives each variable of a rule's scope a value.
    fn knows_scope<L: Lookup>(&self, rule: u32, lookup: &L) -> bool
        requires { rule < length self.now.rules }
        ensures { result ≡ list_all (λ var. is_some (L.values lookup.now var)) (constraint_at self.now rule).scope }
    {
        let scope = self.scope(rule);
        for var in scope {
            if lookup.value_of(*var).is_none() {
                return false;
            }
        }
        true
    }
}

/// The domains, where of one variable's only those values stay that are better than the bound.
fn narrowed_domains(
    domains: &Vec<Domain>,
    aim: Aim,
    var: u32,
    bound: i64,
) -> Result<Vec<Domain>, Memory>
    requires known { var < length domains.now.items }
    requires aimed { IsSome (aimed_at aim) }
    ensures { IfOk result (λ narrowed. narrowed.items ≡ narrowed_domains aim bound var domains.now.items) }
{
    let mut narrowed = copied_domains(domains)?;
    narrowed[var as usize] = better_values(aim, &domains[var as usize], bound)?;
    Ok(narrowed)
}

/// The same domains once more.
fn copied_domains(domains: &Vec<Domain>) -> Result<Vec<Domain>, Memory>
    ensures { IfOk result (λ copies. copies.items ≡ domains.now.items) }
{
    let mut copies = Vec::with_capacity(*domains.allocator(), domains.len())?;
    for domain in domains {
        let copy = domain.copied()?;
        copies.push(copy)?;
    }
    Ok(copies)
}

/// Those of the values that are better than the bound.
fn better_values(aim: Aim, domain: &Domain, bound: i64) -> Result<Domain, Memory>
    requires { IsSome (aimed_at aim) }
    ensures { IfOk result (λ values. values ≡ filter (is_better aim bound) domain.now) }
{
    match aim {
        Aim::Greatest(_) => domain.above(bound),
        _ => domain.below(bound),
    }
}
