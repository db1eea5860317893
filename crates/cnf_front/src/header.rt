//! The header of a DIMACS text.
ghost use Rattle.std.specs.Prelude.{◌≡◌, ℕ, ◌+◌, ◌<◌, ◌≤◌, ◌^◌, List, [], length, IfSome, OnOk, IfOk, neg_ℤ, unsigned_abs};
ghost use Rattle.dcsp_common.specs.Limits.{most};
ghost use Rattle.dcsp_common.specs.declared.limits.Which.TheVariants.{Variables};
ghost use Rattle.cnf_front.specs.Dimacs.{words};
ghost use Rattle.cnf_front.specs.Formulas.{is_p, is_cnf, is_number, is_end, all_digits, digits_of, number_of, literal_in, negated, plain, passes, expect, variables_at, header, Gives};

use crate::words::{Rest, next_word};
use dcsp_problem::Which;
use std::alloc::{AllocError, AllocFailed};

/// Why a text gives no problem.
#[derive(Clone, Copy, Debug, PartialEq, Eq)]
pub enum CnfError {
    /// The text is not as the format wants it at this place.
    Syntax { at: u32 },
    /// There would be `count` of these, which is more than their greatest number.
    Limit { which: Which, count: u128, at: u32 },
    Memory,
}

impl From<AllocError> for CnfError {
    ghost use Rattle.std.specs.Prelude.{◌≡◌};
    ghost use Rattle.cnf_front.specs.declared.header.CnfError.TheVariants.{Memory};

    ghost from_gives = { λ _ e. e ≡ Memory };

    fn from(_: AllocError) -> CnfError {
        CnfError::Memory
    }
}

impl<T: Drop> From<AllocFailed<T>> for CnfError {
    ghost use Rattle.std.specs.Prelude.{◌≡◌};
    ghost use Rattle.cnf_front.specs.declared.header.CnfError.TheVariants.{Memory};

    ghost from_gives = { λ _ e. e ≡ Memory };

    fn from(_: AllocFailed<T>) -> CnfError {
        CnfError::Memory
    }
}

/// A word of the header that is not the number of variables.
#[derive(Clone, Copy, Debug)]
pub enum Mark {
    P,
    Cnf,
    /// The number of clauses.
    Clauses,
}

/// Whether a word is the one that is wanted.
fn passes(mark: Mark, word: &[u8]) -> bool
    ensures { result ≡ passes mark word.now }
{
    match mark {
        Mark::P => is_p(word),
        Mark::Cnf => is_cnf(word),
        Mark::Clauses => is_number(word),
    }
}

/// Reads the word that is wanted: what follows it.
fn expect(mark: Mark, from: Rest) -> Result<Rest, CnfError>
    requires { from.at + length from.bytes.now < 2 ^ 32 }
    ensures given { Gives (λ x. words x.stand x.at x.bytes.now) result (expect (passes mark) (words from.entry.stand from.entry.at from.entry.bytes.now)) }
    ensures end { IfOk result (λ x. x.at + length x.bytes.now ≡ from.entry.at + length from.entry.bytes.now) }
{
    let (word, rest) = next_word(from);
    if passes(mark, word.bytes) {
        Ok(rest)
    } else {
        Err(CnfError::Syntax { at: word.at as u32 })
    }
}

/// Reads the number of variables: it, and what follows it.
fn read_variables(from: Rest) -> Result<(u32, Rest), CnfError>
    requires { from.at + length from.bytes.now < 2 ^ 32 }
    ensures given { Gives (λ x. (x.0, words x.1.stand x.1.at x.1.bytes.now)) result (variables_at (words from.entry.stand from.entry.at from.entry.bytes.now)) }
    ensures end { IfOk result (λ x. x.1.at + length x.1.bytes.now ≡ from.entry.at + length from.entry.bytes.now) }
    ensures few { IfOk result (λ x. x.0 ≤ most Variables) }
{
    let (word, rest) = next_word(from);
    let at = word.at as u32;
    let Some(number) = number_of(word.bytes) else {
        return Err(CnfError::Syntax { at });
    };
    if number > Which::Variables.most() as u64 {
        return Err(CnfError::Limit {
            which: Which::Variables,
            count: u128::from(number),
            at,
        });
    }
    Ok((number as u32, rest))
}

/// Reads the header: the number of variables, and what follows it.
#[tactic(auto, unfolding(crate::specs::Formulas::header))]
pub(crate) fn read_header(from: Rest) -> Result<(u32, Rest), CnfError>
    requires { from.at + length from.bytes.now < 2 ^ 32 }
    ensures given { Gives (λ x. (x.0, words x.1.stand x.1.at x.1.bytes.now)) result (header (words from.entry.stand from.entry.at from.entry.bytes.now)) }
    ensures end { IfOk result (λ x. x.1.at + length x.1.bytes.now ≡ from.entry.at + length from.entry.bytes.now) }
    ensures few { IfOk result (λ x. x.0 ≤ most Variables) }
{
    let rest = expect(Mark::P, from)?;
    let rest = expect(Mark::Cnf, rest)?;
    let (variables, rest) = read_variables(rest)?;
    let rest = expect(Mark::Clauses, rest)?;
    Ok((variables, rest))
}

fn is_p(word: &[u8]) -> bool
    ensures { result ≡ is_p word.now }
{
    match word {
        [b'p'] => true,
        _ => false,
    }
}

fn is_cnf(word: &[u8]) -> bool
    ensures { result ≡ is_cnf word.now }
{
    match word {
        [b'c', b'n', b'f'] => true,
        _ => false,
    }
}

/// Whether the text ends with this word: it is empty or `%`.
pub(crate) fn is_end(word: &[u8]) -> bool
    ensures { result ≡ is_end word.now }
{
    match word {
        [] => true,
        [b'%'] => true,
        _ => false,
    }
}

/// Whether each byte is a digit.
#[tactic(auto, unfolding(crate::specs::Formulas::all_digits))]
fn all_digits(bytes: &[u8]) -> bool
    ensures { result ≡ all_digits bytes.now }
{
    let mut rest = bytes;
    while let [byte, others @ ..] = rest {
        if !byte.is_ascii_digit() {
            return false;
        }
        rest = others;
    }
    true
}

/// A whole number without sign.
fn is_number(word: &[u8]) -> bool
    ensures { result ≡ is_number word.now }
{
    match word {
        [] => false,
        [_, ..] => all_digits(word),
    }
}

/// The number that digits write.
#[tactic(auto, unfolding(crate::specs::Formulas::digits_of))]
fn digits_of(bytes: &[u8]) -> Option<u64>
    ensures { result ≡ digits_of 0 bytes.now }
{
    let mut number = 0u64;
    let mut rest = bytes;
    while let [byte, others @ ..] = rest {
        if !byte.is_ascii_digit() {
            return None;
        }
        number = number.checked_mul(10)?.checked_add(u64::from(byte - b'0'))?;
        rest = others;
    }
    Some(number)
}

/// The number of 64 bits that a word writes.
#[tactic(auto, unfolding(crate::specs::Formulas::number_of))]
fn number_of(word: &[u8]) -> Option<u64>
    ensures { result ≡ number_of word.now }
{
    match word {
        [] => None,
        [_, ..] => digits_of(word),
    }
}

/// The literal over so many variables, or 0, that a word writes.
#[tactic(auto, unfolding(crate::specs::Formulas::literal_in, crate::specs::Formulas::negated, crate::specs::Formulas::plain))]
pub(crate) fn literal_in(variables: u32, word: &[u8]) -> Option<i32>
    requires { variables ≤ most Variables }
    ensures literal { result ≡ literal_in variables word.now }
    ensures within { IfSome result (λ z. unsigned_abs z ≤ variables) }
{
    match word {
        [b'-', unsigned @ ..] => {
            let number = number_of(unsigned)?;
            if number == 0 || number > u64::from(variables) {
                return None;
            }
            Some(-(number as i32))
        }
        [_, ..] => {
            let number = number_of(word)?;
            if number > u64::from(variables) {
                return None;
            }
            Some(number as i32)
        }
        [] => None,
    }
}
