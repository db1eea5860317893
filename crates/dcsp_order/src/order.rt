//! An order, with the place of each number.

ghost use Rattle.std.specs.Prelude.{◌≡◌, ◌<◌, ◌≤◌, length, IfOk};
ghost use Rattle.dcsp_common.specs.declared.limits.Which.TheVariants.{Variables};
ghost use Rattle.dcsp_common.specs.Limits.{most};
ghost use Rattle.dcsp_order.specs.Orders.{place_of, ArePlaces, IsOrder};

use dcsp_common::Memory;
use std::alloc::Global;
use std::marker::Model;

/// An order of variables: each of their numbers, counted from 0, stands in it once. The first has the highest priority.
#[derive(Debug, Drop)]
pub struct Order {
    numbers: Vec<u32>,
    places: Vec<u32>,
}

impl Model for Order {
    ghost use Rattle.std.specs.Prelude.{List, ℕ};
    ghost use Rattle.dcsp_order.specs.Orders.{IsKept};

    ghost Value = { List ℕ };

    ghost view = { λ order. order.numbers.items };

    ghost invariant = { λ order. IsKept order.numbers.items order.places.items };
}

impl Order {
    /// The order of these numbers.
    pub fn of_numbers(alloc: Global, numbers: Vec<u32>) -> Result<Order, Memory>
        requires order { IsOrder (length numbers.items) numbers.items }
        requires few { length numbers.items ≤ most Variables }
        ensures { IfOk result (λ order. order ≡ numbers.items) }
    {
        let places = places_of(alloc, &numbers)?;
        Ok(Order { numbers, places })
    }

    /// The numbers in their order.
    pub fn numbers(&self) -> &[u32]
        ensures numbers { result.now ≡ self.now }
        ensures order { IsOrder (length self.now) self.now }
        ensures few { length self.now ≤ most Variables }
    {
        &self.numbers
    }

    /// Every order has each of its numbers once, and no more of them than a problem may have variables.
    pub fn has_each_once(&self)
        ensures order { IsOrder (length self.now) self.now }
        ensures few { length self.now ≤ most Variables }
    {
        let _numbers = self.numbers();
    }

    /// The place of a number.
    pub fn place(&self, number: u32) -> u32
        requires { number < length self.now }
        ensures place { result ≡ place_of self.now number }
        ensures within { result < length self.now }
    {
        self.places[number as usize]
    }
}

/// The place of each of the numbers.
fn places_of(alloc: Global, numbers: &[u32]) -> Result<Vec<u32>, Memory>
    requires order { IsOrder (length numbers.now) numbers.now }
    requires few { length numbers.now ≤ most Variables }
    ensures { IfOk result (λ places. ArePlaces numbers.now places.items) }
{
    let mut places = vec![in alloc; 0u32; numbers.len()]?;
    for place in 0..numbers.len() {
        places[numbers[place] as usize] = place as u32;
    }
    Ok(places)
}
