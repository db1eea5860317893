//! Orders as text.
//!
//! The text of an order is a line `order 1`, the number of each variable in order, counted from 1, one a line, and a line
//! `end`, each ended by one line feed.

ghost use Rattle.std.specs.Prelude.{◌≡◌, ◌≤◌, ◌<◌, ◌+◌, ◌++◌, ◌∷◌, [], ℕ, List, length, IfOk, IfErr, IfSome, IfNone, IsErrOf, OnOk, Ok, Err, vec_len};
ghost use Rattle.dcsp_common.specs.Reading.{Reads};
ghost use Rattle.dcsp_common.specs.declared.limits.Which.TheVariants.{Variables};
ghost use Rattle.dcsp_common.specs.Limits.{most};
ghost use Rattle.dcsp_order.specs.Texts.{order_text, variable_at, variable_line, IsCause, IsFirstBad, IsTextOf, IsUnlessMemory, OneAnswer};
ghost use Rattle.dcsp_order.specs.Taken.{AreTaken, Takes};

use crate::order::Order;
use dcsp_common::{Memory, number_at, push_number};
use ngd_log::after;
use std::alloc::{AllocError, Global};

/// The first line of an order's text.
const HEAD: &[u8] = b"order 1\n";

/// The last line of an order's text.
const TAIL: &[u8] = b"end\n";

/// Why a text gives no order.
#[derive(Clone, Copy, Debug, PartialEq, Eq)]
pub enum OrderError {
    /// The text is no order of the variables, and this is its first bad line, counted from 1.
    Line { number: u64 },
    Memory,
}

/// The order of so many variables whose text this is.
///
/// Line 1 is `order 1`. As long as a variable is missing, a line is the number of a variable that no earlier line has;
/// then comes `end`, which is the last. `OrderError::Line` comes exactly where the text is no such order, and names the
/// first line that is not so, or that is missing. A rest without a line feed is a bad line.
pub fn read_order(alloc: Global, text: &[u8], variables: u32) -> Result<Order, OrderError>
    requires { variables ≤ most Variables }
    ensures order { IfOk result (λ order. IsTextOf variables text.now order) }
    ensures line { (number : ℕ) → IsErrOf result (OrderError.Line number) → IsFirstBad variables text.now number }
    ensures accepts { (order : List ℕ) → IsTextOf variables text.now order → IsUnlessMemory (Ok order) result }
    ensures refuses { (number : ℕ) → IsFirstBad variables text.now number → IsUnlessMemory (Err (OrderError.Line number)) result }
{
    order_of(alloc, text, variables)
}

/// Reads the lines one after the other.
fn order_of(alloc: Global, text: &[u8], variables: u32) -> Result<Order, OrderError>
    requires { variables ≤ most Variables }
    ensures order { IfOk result (λ order. IsTextOf variables text.now order) }
    ensures cause { IfErr result (IsCause variables text.now) }
{
    let Some(first) = after(HEAD, text) else {
        return Err(OrderError::Line { number: 1 });
    };
    let mut numbers = Vec::new(alloc);
    let Ok(mut taken) = vec![in alloc; false; variables as usize] else {
        return Err(OrderError::Memory);
    };
    let mut rest = first;
    for place in 0..variables {
        let Some((variable, others)) = variable_at(rest, variables) else {
            return Err(bad_line(place, 2));
        };
        match take(&mut numbers, &mut taken, variable) {
            Ok(true) => rest = others,
            Ok(false) => return Err(bad_line(place, 2)),
            Err(Memory) => return Err(OrderError::Memory),
        }
    }
    match after(TAIL, rest) {
        Some([]) => match Order::of_numbers(alloc, numbers) {
            Ok(order) => Ok(order),
            Err(Memory) => Err(OrderError::Memory),
        },
        Some(_) => Err(bad_line(variables, 3)),
        None => Err(bad_line(variables, 2)),
    }
}

/// The line that stands so far behind those of so many variables.
fn bad_line(variables: u32, further: u64) -> OrderError
    requires { further ≤ 3 }
    ensures { result ≡ OrderError.Line (variables + further) }
{
    OrderError::Line {
        number: u64::from(variables) + further,
    }
}

/// The variable whose line is at the front, one of so many, and what follows the line.
#[tactic(auto, unfolding(crate::specs::Texts::variable_at, ngd_log::specs::Reading::counted_at))]
fn variable_at(bytes: &[u8], variables: u32) -> Option<(u32, &[u8])>
    ensures { Reads (λ x. (x.0, x.1.now)) result (variable_at variables bytes.now) }
{
    let (number, rest) = number_at(bytes)?;
    if number == 0 || number > u64::from(variables) {
        return None;
    }
    let rest = after(b"\n", rest)?;
    Some((number as u32 - 1, rest))
}

/// Adds the number at the end and tells so, unless it is among them.
fn take(numbers: &mut Vec<u32>, taken: &mut Vec<bool>, number: u32) -> Result<bool, Memory>
    requires within { number < vec_len taken.old }
    requires taken { AreTaken numbers.old.items taken.old.items }
    ensures { IfOk result (λ new. Takes new number numbers.old.items numbers.new.items taken.old.items taken.new.items) }
{
    if taken[number as usize] {
        return Ok(false);
    }
    numbers.push(number)?;
    taken[number as usize] = true;
    Ok(true)
}

impl Order {
    /// The order's text.
    pub fn text(&self, alloc: Global) -> Result<Vec<u8>, Memory>
        ensures { IfOk result (λ text. text.items ≡ order_text self.now) }
    {
        text_of(alloc, self.numbers())
    }
}

/// The text of the order of these numbers.
fn text_of(alloc: Global, numbers: &[u32]) -> Result<Vec<u8>, AllocError>
    ensures { IfOk result (λ text. text.items ≡ order_text numbers.now) }
{
    let mut text = Vec::new(alloc);
    text.extend_from_slice(HEAD)?;
    for number in numbers {
        push_variable(&mut text, *number)?;
    }
    text.extend_from_slice(TAIL)?;
    Ok(text)
}

/// Appends the line of a variable.
fn push_variable(text: &mut Vec<u8>, number: u32) -> Result<(), AllocError>
    ensures { OnOk result (text.new.items ≡ text.old.items ++ variable_line number) }
{
    push_number(text, u64::from(number) + 1)?;
    text.extend_from_slice(b"\n")
}

/// A text is that of one order at most, has one first bad line at most, and never both.
pub fn one_answer()
    ensures { (variables : ℕ) (text : List ℕ) → variables ≤ most Variables → OneAnswer variables text }
{}
