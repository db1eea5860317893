//! The names that were declared, and what each stands for.

ghost use Rattle.std.specs.Prelude.{◌≡◌, ◌≤◌, ◌+◌, [], ◌∷◌, ◌++◌, length, None, Some, IfSome, IsTrue, OnOk, OnErr, option_copied};
ghost use Rattle.fzn_scope.specs.declared.names.Declared.TheVariants as one_of;
ghost use Rattle.dcsp_rule.specs.declared.rule.Term.TheVariants as term;
ghost use Rattle.fzn_scope.specs.Names.{declared_as, bytes_at, AreEightSame};

use crate::bytes::{eight_at, spread};
use crate::variables::Variables;
use dcsp_common::Memory;
use dcsp_problem::{Members, Term, TermList};
use indexmap::IndexMap;
use std::alloc::Global;
use std::marker::Model;

/// What a name stands for. A truth is a number: `true` is 1, and `false` is 0.
#[derive(Debug, Drop)]
pub enum Declared {
    /// An integer or a Boolean: a constant for a parameter, and otherwise a variable.
    One {
        boolean: bool,
        term: Term,
    },
    /// A set of integers.
    Set(Members),
    /// An array of integers or of Booleans, declared as of variables or as of constants.
    Many {
        boolean: bool,
        variable: bool,
        terms: TermList,
    },
}

/// A slot for a guess has so many bits.
const SLOT_BITS: u32 = 13;

const SLOTS: usize = 1 << SLOT_BITS;

/// Names that are slices of the text, in the order in which they were declared.
///
/// Most look-ups are of names that stand where it is guessed, and cost one comparison of bytes. The table decides the
/// others, so a guess need not be right.
#[derive(Drop)]
pub struct Names<'t> {
    table: IndexMap<&'t [u8], Declared>,
    /// By slots, the place in the table of the name of that slot which was declared last. There are none before the
    /// first name.
    guesses: Vec<u32>,
    /// Variables that are found without a look at the text.
    variables: Variables,
}

impl<'t> Model for Names<'t> {
    ghost use Rattle.std.specs.Prelude.{ℕ, List, map};
    ghost use Rattle.fzn_scope.specs.declared.names.Declared.{Declared};

    ghost Value = { List (List ℕ × Declared) };

    ghost view = { λ names. map (λ entry. (entry.0.now, entry.1)) names.table.entries };

    ghost use Rattle.std.specs.Prelude.{All};
    ghost use Rattle.fzn_scope.specs.Variables.{StandsFor};

    ghost invariant = { λ names. All (StandsFor (map (λ entry. (entry.0.now, entry.1)) names.table.entries)) names.variables.known.items };
}

impl<'t> Names<'t> {
    /// No names.
    pub fn new(alloc: Global) -> Names<'t>
        ensures { result ≡ [] }
    {
        Names {
            table: IndexMap::new(alloc),
            guesses: Vec::new(alloc),
            variables: Variables::new(alloc),
        }
    }

    /// What the name stands for; `None` where it was not declared.
    #[inline(always)]
    pub fn get(&self, name: &[u8]) -> Option<&Declared>
        ensures { option_copied result ≡ declared_as self.now name.now }
    {
        match self.guessed(name) {
            Some(declared) => Some(declared),
            None => self.looked_up(name),
        }
    }

    /// Whether a variable of this name is Boolean, and its term, where it is found without a look at the text.
    #[inline(always)]
    pub(crate) fn variable(&self, name: &[u8]) -> Option<(bool, Term)>
        ensures { IfSome result (λ found. declared_as self.now name.now ≡ Some (one_of.One found.0 found.1)) }
    {
        self.variables.find(name)
    }

    /// What the name stands for, where it is guessed.
    #[inline(always)]
    fn guessed(&self, name: &[u8]) -> Option<&Declared>
        ensures { IfSome result (λ declared. declared_as self.now name.now ≡ Some declared.now) }
    {
        let place = *self.guesses.get(slot_of(name))?;
        let (known, declared) = self.table.get_index(place as usize)?;
        if is_same(known, name) {
            Some(declared)
        } else {
            None
        }
    }

    /// What the name stands for, by the table.
    #[inline(never)]
    fn looked_up(&self, name: &[u8]) -> Option<&Declared>
        ensures { option_copied result ≡ declared_as self.now name.now }
    {
        self.table.get(name)
    }

    /// Adds a name that was not declared. Where memory runs out nothing is added.
    pub fn declare(&mut self, name: &'t [u8], declared: Declared) -> Result<(), Memory>
        requires { declared_as self.old name.now ≡ None }
        ensures ok { OnOk result (self.new ≡ self.old ++ (name.now, declared) ∷ []) }
        ensures err { OnErr result (self.new ≡ self.old) }
    {
        self.guess_next(name)?;
        self.add(name, declared)
    }

    /// Guesses that this name is added next.
    fn guess_next(&mut self, name: &[u8]) -> Result<(), Memory>
        ensures { self.new ≡ self.old }
    {
        set_guess(&mut self.guesses, slot_of(name), self.table.len())
    }

    /// Adds a name to the table.
    fn add(&mut self, name: &'t [u8], declared: Declared) -> Result<(), Memory>
        requires { declared_as self.old name.now ≡ None }
        ensures ok { OnOk result (self.new ≡ self.old ++ (name.now, declared) ∷ []) }
        ensures err { OnErr result (self.new ≡ self.old) }
    {
        let variable = variable_in(&declared);
        self.variables.reserve()?;
        self.table.insert(name, declared)?;
        self.variables.add(name, variable);
        Ok(())
    }
}

/// Whether a variable is Boolean, and its number, where a name stands for one.
fn variable_in(declared: &Declared) -> Option<(bool, u32)>
    ensures { IfSome result (λ v. declared.now ≡ one_of.One v.0 (term.Var v.1)) }
{
    match declared {
        Declared::One {
            boolean,
            term: Term::Var(variable),
        } => Some((*boolean, *variable)),
        Declared::One {
            term: Term::Const(_),
            ..
        } => None,
        Declared::Set(_) => None,
        Declared::Many { .. } => None,
    }
}

/// Guesses that the names of a slot stand at this place of the table.
fn set_guess(guesses: &mut Vec<u32>, slot: usize, place: usize) -> Result<(), Memory> {
    if guesses.is_empty() {
        guesses.resize(SLOTS, 0)?;
    }
    if let Some(guess) = guesses.get_mut(slot) {
        *guess = u32::try_from(place).unwrap_or(u32::MAX);
    }
    Ok(())
}

/// Whether two names are found to be the same. Most names have 8 to 24 bytes, and are compared eight bytes at a time.
#[inline(always)]
fn is_same(known: &[u8], name: &[u8]) -> bool
    ensures { IsTrue result → known.now ≡ name.now }
{
    let len = name.len();
    if known.len() != len {
        return false;
    }
    if len < 8 || len > 24 {
        return known == name;
    }
    if !are_eight_same(known, name, 0) {
        return false;
    }
    if len > 16 && !are_eight_same(known, name, 8) {
        return false;
    }
    are_eight_same(known, name, len - 8)
}

/// Whether eight bytes from a place on are the same in two names.
#[inline(always)]
fn are_eight_same(known: &[u8], name: &[u8], at: usize) -> bool
    requires known { at + 8 ≤ length known.now }
    requires name { at + 8 ≤ length name.now }
    ensures { IsTrue result → AreEightSame known.now name.now at }
{
    eight_at(known, at) == eight_at(name, at)
}

/// The slot of a name, by its last eight bytes: names that are numbered differ there.
#[inline(always)]
fn slot_of(name: &[u8]) -> usize {
    let last = match name.last_chunk::<8>() {
        Some(bytes) => u64::from_le_bytes(*bytes),
        None => number_of(name),
    };
    (spread(last) >> (64 - SLOT_BITS)) as usize
}

/// The number that a few bytes are.
fn number_of(bytes: &[u8]) -> u64 {
    let mut number: u64 = 0;
    for byte in bytes {
        number = number << 8 | u64::from(*byte);
    }
    number
}

/// The bytes of the text from one place up to another; none where these are no places of the text in order.
pub fn bytes_at(text: &[u8], from: u32, to: u32) -> &[u8]
    ensures { result.now ≡ bytes_at text.now from to }
{
    let (from, to) = (from as usize, to as usize);
    if to < from || text.len() < to {
        return &[];
    }
    &text[from..to]
}
