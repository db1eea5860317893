//! Problems as they are built.

ghost use Rattle.std.specs.Prelude.{◌≡◌, ◌≤◌, ◌<◌, ◌+◌, ◌-◌, ◌^◌, ◌++◌, ◌∷◌, [], length, All, IsTrue, IfOk, IfErr, OnOk, OnErr, MatchOption, Ok, Err};
ghost use Rattle.dcsp_rule.specs.Members.{values_of};
ghost use Rattle.dcsp_rule.specs.Lent.{lent_members, lent_rule};
ghost use Rattle.dcsp_rule.specs.Rules.{IsTermOf, IsAimOf, terms_of, size_of, has_shape};
ghost use Rattle.dcsp_problem.specs.Outputs.{IsOutputOf};
ghost use Rattle.dcsp_problem.specs.Limits.{first_past, list_counts, variable_refusal, rule_refusal, Refuses};

use crate::limits::{BuildError, within};
use crate::problem::Problem;
use crate::widths::within_width;
use dcsp_common::{Memory, Which};
use dcsp_domain::Domain;
use dcsp_rule::{Aim, MembersRef, Output, Rule, RuleRef, RuleTable};
use std::alloc::Global;
use std::marker::Model;

/// A problem that variables, rules and outputs are still added to.
#[derive(Debug, Drop)]
pub struct ProblemBuilder {
    alloc: Global,
    domains: Vec<Domain>,
    rules: RuleTable,
    outputs: Vec<Output>,
    aim: Aim,
    /// The number of values over all domains.
    values: usize,
    /// The number of terms over all rules.
    terms: usize,
}

impl Model for ProblemBuilder {
    ghost use Rattle.dcsp_rule.specs.Problems.{Contents};
    ghost use Rattle.dcsp_problem.specs.Index.{IsTallied};

    ghost Value = { Contents };

    ghost view = { λ b. record { domains = b.domains.items; rules = b.rules; outputs = b.outputs.items; aim = b.aim } };

    ghost invariant = { λ b. IsTallied (record { domains = b.domains.items; rules = b.rules; outputs = b.outputs.items; aim = b.aim }) b.values b.terms };
}

impl ProblemBuilder {
    /// A problem without variables, rules and outputs, of which any solution is wanted.
    pub fn new(alloc: Global) -> ProblemBuilder
        ensures domains { result.domains ≡ [] }
        ensures rules { result.rules ≡ [] }
        ensures outputs { result.outputs ≡ [] }
        ensures aim { result.aim ≡ Aim.Satisfy }
    {
        ProblemBuilder {
            alloc,
            domains: Vec::new(alloc),
            rules: RuleTable::new(alloc),
            outputs: Vec::new(alloc),
            aim: Aim::Satisfy,
            values: 0,
            terms: 0,
        }
    }

    /// Adds a variable with this domain, and gives its number.
    ///
    /// `Limit` comes exactly where `Variables`, tried first, or `DomainValues` would pass its greatest number.
    pub fn add_var(&mut self, domain: Domain) -> Result<u32, BuildError>
        ensures number { IfOk result (λ number. number ≡ length self.old.domains) }
        ensures added { OnOk result (self.new ≡ record self.old { domains = self.old.domains ++ domain ∷ [] }) }
        ensures refusal { Refuses (variable_refusal self.old domain) result }
        ensures err { OnErr result (self.new ≡ self.old) }
    {
        let number = self.domains.len();
        within(Which::Variables, number + 1)?;
        let values = self.values + domain.len();
        within(Which::DomainValues, values)?;
        self.domains.push(domain)?;
        self.values = values;
        Ok(number as u32)
    }

    /// Adds a rule over the variables that were added before, and gives its number.
    ///
    /// `WideSum` comes exactly where the width of its sum is above 2^126, over the domains of its variables. After
    /// that `Limit` comes exactly where `Elements` (of one list, the lists from left to right), `Rules` or `Terms`
    /// would pass its greatest number, tried in this order. A listed set is no list; its values are terms, each
    /// as often as it is listed.
    pub fn add_rule(&mut self, rule: Rule) -> Result<u32, BuildError>
        requires known { All (IsTermOf (length self.old.domains)) (terms_of rule) }
        requires shape { IsTrue (has_shape rule) }
        ensures number { IfOk result (λ number. number ≡ length self.old.rules) }
        ensures added { OnOk result (self.new ≡ record self.old { rules = self.old.rules ++ rule ∷ [] }) }
        ensures refusal { Refuses (rule_refusal self.old rule) result }
        ensures err { OnErr result (self.new ≡ self.old) }
    {
        self.add_lent(rule.lent())
    }

    /// The same of a rule whose lists are another's: they are copied into the problem's.
    #[inline(always)]
    pub fn add_lent(&mut self, rule: RuleRef<'_>) -> Result<u32, BuildError>
        requires known { All (IsTermOf (length self.old.domains)) (terms_of (lent_rule rule)) }
        requires shape { IsTrue (has_shape (lent_rule rule)) }
        ensures number { IfOk result (λ number. number ≡ length self.old.rules) }
        ensures added { OnOk result (self.new ≡ record self.old { rules = self.old.rules ++ lent_rule rule.entry ∷ [] }) }
        ensures refusal { Refuses (rule_refusal self.old (lent_rule rule.entry)) result }
        ensures err { OnErr result (self.new ≡ self.old) }
    {
        within_width(&self.domains, rule)?;
        let number = self.rules.len();
        let added = count_terms(rule)?;
        within(Which::Rules, number + 1)?;
        let terms = self.terms + added;
        within(Which::Terms, terms)?;
        self.rules.push(rule)?;
        self.terms = terms;
        Ok(number as u32)
    }

    /// Adds an output over the variables that were added before. It refuses only with `Memory`.
    pub fn add_output(&mut self, output: Output) -> Result<(), BuildError>
        requires few { length self.old.outputs < 2 ^ 32 - 1 }
        requires fits { IsOutputOf (length self.old.domains) output }
        ensures added { OnOk result (self.new ≡ record self.old { outputs = self.old.outputs ++ output ∷ [] }) }
        ensures refusal { IfErr result (λ e. e ≡ BuildError.Memory) }
        ensures err { OnErr result (self.new ≡ self.old) }
    {
        self.outputs.push(output)?;
        Ok(())
    }

    /// Says what is wanted of a solution, at a constant or at a variable that was added before. It stands in place
    /// of what was wanted until then.
    pub fn set_aim(&mut self, aim: Aim)
        requires { IsAimOf (length self.old.domains) aim }
        ensures { self.new ≡ record self.old { aim = aim } }
    {
        self.aim = aim;
    }

    /// The problem. A refusal drops what was built.
    pub fn finish(self) -> Result<Problem, Memory>
        ensures { IfOk result (λ problem. problem ≡ self) }
    {
        Problem::of_parts(self.alloc, self.domains, self.rules, self.outputs, self.aim)
    }
}

/// The number of the rule's terms, unless one of its lists is too long.
fn count_terms(rule: RuleRef<'_>) -> Result<usize, BuildError>
    ensures count { MatchOption (first_past (list_counts (lent_rule rule.entry))) (result ≡ Ok (size_of (lent_rule rule.entry))) (λ past. result ≡ Err (BuildError.Limit past.0 past.1)) }
    ensures small { IfOk result (λ count. count < 2 ^ 63) }
{
    match rule {
        RuleRef::Plain {
            scalars,
            first,
            second,
            members,
            ..
        } => {
            within(Which::Elements, scalars.len())?;
            within(Which::Elements, first.len())?;
            within(Which::Elements, second.len())?;
            Ok(scalars.len() + first.len() + second.len() + count_listed(members))
        }
        RuleRef::Sum {
            coefs,
            terms,
            truth,
            ..
        } => {
            within(Which::Elements, coefs.len())?;
            within(Which::Elements, terms.len())?;
            let reified = usize::from(truth.is_some());
            Ok(terms.len() + 1 + reified)
        }
    }
}

/// The number of the listed values, as they are written.
fn count_listed(members: MembersRef<'_>) -> usize
    ensures count { result ≡ length (values_of (lent_members members.entry)) }
    ensures small { result < 2 ^ 62 }
{
    match members {
        MembersRef::Between { .. } => 0,
        MembersRef::Listed(values) => values.len(),
    }
}
