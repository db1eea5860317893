//! Domains: the finite sets of 64-bit numbers that variables range over.
#![tactic(auto)]

ghost use Rattle.std.specs.Prelude.{◌≡◌, ◌==◌, ◌<◌, ◌≤◌, ◌↔◌, ◌^◌, ℕ, ℤ, pos, ◌+ℤ◌, ◌<ℤ◌, ◌≤ℤ◌, List, length, true, OnOk, IfOk, IfErr, IfSome, Some, is_some, slice_get, slice_index_or, slice_range, filter, drop, int_lt, take};
ghost use Rattle.dcsp_domain.specs.Sets.{IsDomain, IsRising, IsSetOf, set_of, has};
ghost use Rattle.dcsp_domain.specs.declared.DomainError.TheVariants.{Memory as Lacking};
ghost use Rattle.dcsp_domain.specs.Ranges.{count_between, numbers_from, numbers_between};
ghost use Rattle.dcsp_domain.specs.Refusals.{IsRefusalAt};

use dcsp_common::ItemList;
pub use dcsp_common::Memory;
use std::alloc::{AllocError, AllocFailed, Global};
use std::marker::Model;
use std::rc::Rc;

/// Numbers in a given order, repeats allowed.
pub type IntList = ItemList<i64>;

/// Ranges of numbers, each as its lowest and its highest number.
pub type RangeList = ItemList<(i64, i64)>;

/// The most values that one domain may have.
pub const MOST_VALUES: usize = 65_536;

/// Why there is no domain.
#[derive(Clone, Copy, Debug, PartialEq, Eq)]
pub enum DomainError {
    /// There would be `size` values, which is more than `MOST_VALUES`.
    Large { size: u128 },
    /// Memory ran out.
    Memory,
}

impl From<AllocError> for DomainError {
    ghost use Rattle.std.specs.Prelude.{◌≡◌};
    ghost use Rattle.dcsp_domain.specs.declared.DomainError.TheVariants.{Memory};

    ghost from_gives = { λ _ e. e ≡ Memory };

    fn from(_: AllocError) -> DomainError {
        DomainError::Memory
    }
}

impl<T: Drop> From<AllocFailed<T>> for DomainError {
    ghost use Rattle.std.specs.Prelude.{◌≡◌};
    ghost use Rattle.dcsp_domain.specs.declared.DomainError.TheVariants.{Memory};

    ghost from_gives = { λ _ e. e ≡ Memory };

    fn from(_: AllocFailed<T>) -> DomainError {
        DomainError::Memory
    }
}

/// The values of a variable: at most `MOST_VALUES` different numbers, in rising order.
///
/// A domain shares its numbers with those that it is narrowed to, so one of them takes no more room than its ends.
#[derive(Debug, Drop)]
pub struct Domain {
    numbers: Rc<Vec<i64>>,
    /// The values are the numbers from this place on ..
    from: usize,
    /// .. that stand before this one.
    to: usize,
}

impl Model for Domain {
    ghost use Rattle.std.specs.Prelude.{List, ℤ, slice_range};
    ghost use Rattle.dcsp_domain.specs.Sets.{IsPart};

    ghost Value = { List ℤ };

    ghost view = { λ d. slice_range d.numbers.value.items d.from d.to };

    ghost invariant = { λ d. IsPart d.numbers.value.items d.from d.to };
}

impl Domain {
    /// The numbers from `low` to `high`; none where `low` is above `high`.
    ///
    /// `Large` comes exactly where there are more than `MOST_VALUES` of them, and then at once.
    pub fn range(alloc: Global, low: i64, high: i64) -> Result<Domain, DomainError>
        ensures ok { IfOk result (λ d. d ≡ numbers_between low high) }
        ensures fits { OnOk result (count_between low high ≤ MOST_VALUES) }
        ensures large { MOST_VALUES < count_between low high → result ≡ Err (DomainError.Large (count_between low high)) }
        ensures err { IfErr result (IsRefusalAt (count_between low high)) }
    {
        let size = count_between(low, high);
        if size > MOST_VALUES as u128 {
            return Err(DomainError::Large { size });
        }
        let numbers = numbers_from(alloc, low, size as usize)?;
        Ok(Domain::whole(alloc, numbers)?)
    }

    /// The distinct values among these, in rising order.
    ///
    /// `Large` comes exactly where there are more than `MOST_VALUES` distinct ones.
    pub fn listed(alloc: Global, values: &[i64]) -> Result<Domain, DomainError>
        ensures ok { IfOk result (λ d. d ≡ set_of values.now) }
        ensures fits { OnOk result (length (set_of values.now) ≤ MOST_VALUES) }
        ensures err { IfErr result (IsRefusalAt (length (set_of values.now))) }
    {
        let values = sorted_set(alloc, values)?;
        let size = values.len();
        if size > MOST_VALUES {
            return Err(DomainError::Large { size: size as u128 });
        }
        Ok(Domain::whole(alloc, values)?)
    }

    /// All of these numbers.
    fn whole(alloc: Global, numbers: Vec<i64>) -> Result<Domain, DomainError>
        requires { IsDomain numbers.items }
        ensures ok { IfOk result (λ d. d ≡ numbers.items) }
        ensures err { IfErr result (λ e. e ≡ Lacking) }
    {
        let to = numbers.len();
        let numbers = Rc::new(alloc, numbers)?;
        Ok(Domain {
            numbers,
            from: 0,
            to,
        })
    }

    /// The values from one place on that stand before another.
    fn part(&self, from: usize, to: usize) -> Result<Domain, Memory>
        requires order { from ≤ to }
        requires within { to ≤ length self.now }
        ensures { IfOk result (λ d. d ≡ slice_range self.now from to) }
    {
        let Ok(numbers) = self.numbers.clone() else {
            return Err(Memory);
        };
        Ok(Domain {
            numbers,
            from: self.from + from,
            to: self.from + to,
        })
    }

    /// The values.
    fn values(&self) -> &[i64]
        ensures values { result.now ≡ self.now }
        ensures rising { IsRising self.now }
    {
        &self.numbers[self.from..self.to]
    }

    /// The number of values.
    pub fn len(&self) -> usize
        ensures len { result ≡ length self.now }
        ensures rising { IsRising self.now }
        ensures small { length self.now ≤ MOST_VALUES }
    {
        self.to - self.from
    }

    /// Whether there is no value.
    pub fn is_empty(&self) -> bool
        ensures { result ≡ (length self.now == 0) }
    {
        self.from == self.to
    }

    /// The value at a place, from the lowest on.
    pub fn value(&self, place: usize) -> i64
        requires { place < length self.now }
        ensures { slice_get self.now place ≡ Some result }
    {
        self.values()[place]
    }

    /// The same values once more.
    pub fn copied(&self) -> Result<Domain, Memory>
        ensures { IfOk result (λ d. d ≡ self.now) }
    {
        self.part(0, self.len())
    }

    /// The values below the bound.
    pub fn below(&self, bound: i64) -> Result<Domain, Memory>
        ensures { IfOk result (λ d. d ≡ filter (λ value. int_lt value bound) self.now) }
    {
        self.part(0, place_for(self.values(), bound))
    }

    /// The values above the bound.
    pub fn above(&self, bound: i64) -> Result<Domain, Memory>
        ensures { IfOk result (λ d. d ≡ filter (λ value. int_lt bound value) self.now) }
    {
        self.part(place_behind(self.values(), bound), self.len())
    }

    /// The place of a value; `None` exactly if the domain does not have it.
    pub fn place_of(&self, value: i64) -> Option<usize>
        ensures found { IfSome result (λ place. slice_get self.now place ≡ Some value) }
        ensures has { is_some result ≡ has self.now value }
    {
        place_in(self.values(), value)
    }
}

/// The place of the first of some rising numbers that is not below the bound; how many there are if each is.
fn place_for(numbers: &[i64], bound: i64) -> usize
    requires { IsRising numbers.now }
    ensures within { result ≤ length numbers.now }
    ensures below { take result numbers.now ≡ filter (λ value. int_lt value bound) numbers.now }
{
    match numbers.binary_search(&bound) {
        Ok(place) => place,
        Err(place) => place,
    }
}

/// The place of the first of some rising numbers that is above the bound; how many there are if none is.
fn place_behind(numbers: &[i64], bound: i64) -> usize
    requires { IsRising numbers.now }
    ensures within { result ≤ length numbers.now }
    ensures above { drop result numbers.now ≡ filter (λ value. int_lt bound value) numbers.now }
{
    match numbers.binary_search(&bound) {
        Ok(place) => place + 1,
        Err(place) => place,
    }
}

/// The place of a value among rising ones.
fn place_in(values: &[i64], value: i64) -> Option<usize>
    requires { IsRising values.now }
    ensures found { IfSome result (λ place. slice_get values.now place ≡ Some value) }
    ensures has { is_some result ≡ has values.now value }
{
    let place = place_without_gaps(values, value);
    if place.is_some() {
        return place;
    }
    values.binary_search(&value).ok()
}

/// The place at which the value is, if it is at the one at which it would be without gaps before it.
fn place_without_gaps(values: &[i64], value: i64) -> Option<usize>
    ensures { IfSome result (λ place. slice_get values.now place ≡ Some value) }
{
    let low = *values.first()?;
    let place = value.abs_diff(low) as usize;
    if place < values.len() && values[place] == value {
        return Some(place);
    }
    None
}

/// How many numbers there are from `low` to `high`.
fn count_between(low: i64, high: i64) -> u128
    ensures { result ≡ count_between low high }
{
    if low > high {
        return 0;
    }
    u128::from(high.abs_diff(low)) + 1
}

/// The first `count` numbers from `low` on.
fn numbers_from(alloc: Global, low: i64, count: usize) -> Result<Vec<i64>, AllocError>
    requires few { count ≤ MOST_VALUES }
    requires fit { (k : ℕ) → k < count → (low +ℤ pos k) <ℤ pos (2 ^ 63) }
    ensures { IfOk result (λ v. v.items ≡ numbers_from low count) }
{
    let mut values = Vec::with_capacity(alloc, count)?;
    for place in 0..count {
        values.push(low + place as i64)?;
    }
    Ok(values)
}

/// The distinct values among these, in rising order, however many there are.
pub fn sorted_set(alloc: Global, values: &[i64]) -> Result<Vec<i64>, AllocError>
    ensures { IfOk result (λ v. v.items ≡ set_of values.now) }
{
    let mut values = Vec::from_slice(alloc, values)?;
    values.sort_unstable();
    values.dedup();
    Ok(values)
}

/// The set of some values rises and has just these values, and it is the only such list.
pub fn sets_are_determined()
    ensures is_set { (values : List ℤ) → IsSetOf values (set_of values) }
    ensures only_one { (values xs ys : List ℤ) → IsSetOf values xs → IsSetOf values ys → xs ≡ ys }
{}

/// The numbers from `low` to `high` rise, are as many as is said, and are just those that are neither below
/// `low` nor above `high`.
pub fn ranges_are_sets()
    ensures rising { (low high : ℤ) → IsRising (numbers_between low high) }
    ensures length { (low high : ℤ) → length (numbers_between low high) ≡ count_between low high }
    ensures members { (low high value : ℤ) → (has (numbers_between low high) value ≡ true) ↔ ((low ≤ℤ value) × (value ≤ℤ high)) }
{}
