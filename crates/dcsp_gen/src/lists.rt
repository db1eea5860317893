//! Numbered lists of numbers, and pairs of what is in one.
ghost use Rattle.std.specs.Prelude.{◌≡◌, ◌++◌, map, string_bytes, IfOk, OnOk};
ghost use Rattle.dcsp_gen.specs.Lists.{domain, later_number, list_of, listed, lists_in, pairs_in};

use crate::selection::NumberPair;
use std::alloc::{AllocError, Global};

/// The list of a number, from 1 on. It is empty where there are not so many.
pub fn list_of(lists: &[Vec<u32>], number: u32) -> &[u32]
    ensures { result.now ≡ list_of (lists_in lists.now) number }
{
    match lists.get(number.saturating_sub(1) as usize) {
        Some(list) => list,
        None => &[],
    }
}

/// The pairs of what is in a list, in its order.
pub fn pairs_in(alloc: Global, numbers: &[u32]) -> Result<Vec<NumberPair>, AllocError>
    ensures { IfOk result (λ pairs. pairs.items ≡ pairs_in numbers.now) }
{
    let mut pairs = Vec::new(alloc);
    let mut rest = numbers;
    while let Some((first, later)) = rest.split_first() {
        push_pairs(&mut pairs, *first, later)?;
        rest = later;
    }
    Ok(pairs)
}

/// A number with each of the later ones.
fn push_pairs(pairs: &mut Vec<NumberPair>, first: u32, later: &[u32]) -> Result<(), AllocError>
    ensures { OnOk result (pairs.new.items ≡ pairs.old.items ++ map (λ second. (first, second)) later.now) }
{
    for second in later {
        pairs.push((first, *second))?;
    }
    Ok(())
}

/// The numbers, with a comma between two.
fn push_listed(text: &mut String, numbers: &[u32]) -> Result<(), AllocError>
    ensures { OnOk result (string_bytes text.new ≡ string_bytes text.old ++ listed numbers.now) }
{
    let Some((first, later)) = numbers.split_first() else {
        return Ok(());
    };
    write!(text, "{first}")?;
    for number in later {
        push_later_number(text, *number)?;
    }
    Ok(())
}

fn push_later_number(text: &mut String, number: u32) -> Result<(), AllocError>
    ensures { OnOk result (string_bytes text.new ≡ string_bytes text.old ++ later_number number) }
{
    write!(text, ",{number}")
}

/// Begins the declaration of a variable that has these values.
pub fn push_domain(text: &mut String, numbers: &[u32]) -> Result<(), AllocError>
    ensures { OnOk result (string_bytes text.new ≡ string_bytes text.old ++ domain numbers.now) }
{
    text.push_str("var {")?;
    push_listed(text, numbers)?;
    text.push_str("}")?;
    Ok(())
}
