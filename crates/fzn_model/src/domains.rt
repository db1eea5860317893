//! Domains of variables.

ghost use Rattle.std.specs.Prelude.{◌≡◌};
ghost use Rattle.fzn_item.specs.declared.item.Base.TheVariants as base;
ghost use Rattle.fzn_scope.specs.Checks.{Gives};
ghost use Rattle.fzn_model.specs.Declarations.{domain_of};

use dcsp_domain::{Domain, DomainError, IntList};
use dcsp_problem::Which;
use fzn_item::Base;
use fzn_token::{ModelError, Refusal};
use std::alloc::Global;
use std::marker::Model;

/// The domain of a range.
#[derive(Drop)]
pub(crate) struct Range {
    low: i64,
    high: i64,
    domain: Domain,
}

/// Domains as they are declared. Variables that follow each other often have the same range: its numbers are shared.
#[derive(Drop)]
pub(crate) struct Domains {
    alloc: Global,
    last: Option<Range>,
}

impl Model for Domains {
    ghost use Rattle.std.specs.Prelude.{◌≡◌, ℕ, Ok, IfSome};
    ghost use Rattle.fzn_item.specs.declared.item.Base.TheVariants as base;
    ghost use Rattle.fzn_model.specs.Declarations.{domain_of};

    /// Nothing of it is told.
    ghost Value = { Unit {0} };

    ghost view = { λ domains. tt };

    ghost invariant = { λ domains. IfSome domains.last (λ range. (at : ℕ) → domain_of at (base.Range range.low range.high) ≡ Ok range.domain) };
}

impl Domains {
    /// Before the first declaration.
    pub(crate) fn new(alloc: Global) -> Domains {
        Domains { alloc, last: None }
    }

    /// A variable's domain.
    pub(crate) fn domain_of(&mut self, at: u32, base: &Base) -> Result<Domain, ModelError>
        ensures { Gives result (domain_of at base.now) }
    {
        match base {
            Base::Bool => self.between(at, 0, 1),
            Base::Int => Err(ModelError::Refused(Refusal::Unbounded { at })),
            Base::Float | Base::Set => Err(ModelError::Refused(Refusal::Unsupported { at })),
            Base::Range { low, high } => self.between(at, *low, *high),
            Base::Listed(values) => listed_domain(self.alloc, at, values),
        }
    }

    /// The domain of a range: that of the last one where it is the same.
    #[tactic(auto, using(crate::proofs::Ranges::domain_anywhere))]
    fn between(&mut self, at: u32, low: i64, high: i64) -> Result<Domain, ModelError>
        ensures { Gives result (domain_of at (base.Range low high)) }
    {
        if let Some(last) = &self.last {
            if last.low == low && last.high == high {
                return Ok(last.domain.copied()?);
            }
        }
        let domain = domain_between(self.alloc, at, low, high)?;
        let shared = domain.copied()?;
        self.last = Some(Range {
            low,
            high,
            domain: shared,
        });
        Ok(domain)
    }
}

/// The domain of a range.
fn domain_between(alloc: Global, at: u32, low: i64, high: i64) -> Result<Domain, ModelError>
    ensures { Gives result (domain_of at (base.Range low high)) }
{
    match Domain::range(alloc, low, high) {
        Ok(domain) => Ok(domain),
        Err(DomainError::Large { size }) => Err(ModelError::Refused(large(at, size))),
        Err(DomainError::Memory) => Err(ModelError::Memory),
    }
}

/// The domain of a listed set.
fn listed_domain(alloc: Global, at: u32, values: &IntList) -> Result<Domain, ModelError>
    ensures { Gives result (domain_of at (base.Listed values.now)) }
{
    match Domain::listed(alloc, values.items()) {
        Ok(domain) => Ok(domain),
        Err(DomainError::Large { size }) => Err(ModelError::Refused(large(at, size))),
        Err(DomainError::Memory) => Err(ModelError::Memory),
    }
}

/// A domain would have so many values.
fn large(at: u32, count: u128) -> Refusal
    ensures { result ≡ Refusal.Limit Which.DomainSize count at }
{
    Refusal::Limit {
        which: Which::DomainSize,
        count,
        at,
    }
}
