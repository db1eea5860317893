//! Rules made ready to be tested, once, when a problem is finished.

ghost use Rattle.std.specs.Prelude.{◌≡◌, All, IfOk, IsTrue, Some};
ghost use Rattle.dcsp_rule.specs.Rules.{has_shape};
ghost use Rattle.dcsp_rule.specs.Lent.{lent_rule};
ghost use Rattle.dcsp_rule.specs.Forms.{form_has, pair_in, AreForms, IsFormOf, LooksUp};

use crate::flat::RuleTable;
use crate::lent::{MembersRef, RuleRef};
use crate::members::MemberSet;
use crate::pair::{BinaryRule, NarrowPair};
use crate::parts::pair_of;
use dcsp_common::Memory;
use std::alloc::Global;

/// A rule made ready to be tested.
#[derive(Debug, Drop)]
pub enum Form {
    /// A relation of one or two variables, which tells all.
    Narrow(NarrowPair),
    /// One whose numbers are great.
    Wide(Box<BinaryRule>),
    /// A rule that lists members, with their set.
    Listed(MemberSet),
    /// Any other rule, which is looked at itself.
    Plain,
}

impl Form {
    /// The pair, if it is one. It is inlined, so that no pair goes through memory where a rule is tested.
    #[inline(always)]
    pub fn pair(&self) -> Option<BinaryRule>
        ensures { result ≡ pair_in self.now }
    {
        match self {
            Form::Narrow(pair) => Some(pair.widened()),
            Form::Wide(pair) => Some(**pair),
            Form::Listed(_) => None,
            Form::Plain => None,
        }
    }

    /// Whether the value is in its set; none is where it has no set.
    pub fn has(&self, value: i64) -> bool
        ensures { result ≡ form_has self.now value }
    {
        match self {
            Form::Listed(set) => set.contains(value),
            Form::Narrow(_) | Form::Wide(_) | Form::Plain => false,
        }
    }
}

/// The form of each rule.
pub fn forms_of(alloc: Global, rules: &RuleTable) -> Result<Vec<Form>, Memory>
    requires { All (λ rule. IsTrue (has_shape rule)) rules.now }
    ensures { IfOk result (λ forms. AreForms forms.items rules.now) }
{
    let mut forms = Vec::with_capacity(alloc, rules.len())?;
    for place in 0..rules.len() {
        let form = form_of(alloc, rules.rule(place))?;
        forms.push(form)?;
    }
    Ok(forms)
}

/// The form of the rule.
fn form_of(alloc: Global, rule: RuleRef<'_>) -> Result<Form, Memory>
    requires { IsTrue (has_shape (lent_rule rule)) }
    ensures { IfOk result (λ form. IsFormOf form (lent_rule rule.entry)) }
{
    match pair_of(rule) {
        Some(pair) => form_of_pair(alloc, pair),
        None => form_without_pair(alloc, rule),
    }
}

/// The form of a pair: it takes memory only where its numbers are great.
fn form_of_pair(alloc: Global, pair: BinaryRule) -> Result<Form, Memory>
    ensures { IfOk result (λ form. pair_in form ≡ Some pair) }
{
    match NarrowPair::of(pair) {
        Some(narrow) => Ok(Form::Narrow(narrow)),
        None => Ok(Form::Wide(Box::new(alloc, pair)?)),
    }
}

/// The form of a rule that is no pair: it takes memory only where members are listed.
fn form_without_pair(alloc: Global, rule: RuleRef<'_>) -> Result<Form, Memory>
    ensures { IfOk result (LooksUp (lent_rule rule.entry)) }
{
    let RuleRef::Plain { members, .. } = rule else {
        return Ok(Form::Plain);
    };
    let MembersRef::Listed(values) = members else {
        return Ok(Form::Plain);
    };
    if values.is_empty() {
        return Ok(Form::Plain);
    }
    let set = MemberSet::new(alloc, values)?;
    Ok(Form::Listed(set))
}
