//! Variables that are found by the bytes of their names, where these are few, without a look at the text.

ghost use Rattle.std.specs.Prelude.{◌≡◌, ◌<◌, [], All, IfSome, OnOk, Some};
ghost use Rattle.std.specs.Vec.{vec_len, vec_capacity};
ghost use Rattle.dcsp_rule.specs.declared.rule.Term.TheVariants as term;
ghost use Rattle.fzn_scope.specs.declared.names.Declared.TheVariants as declared;
ghost use Rattle.fzn_scope.specs.Names.{Scope, declared_as};
ghost use Rattle.fzn_scope.specs.Variables.{key_of, HasKey, StandsFor};

use crate::bytes::{eight_at, spread};
use crate::names::Declared;
use dcsp_common::Memory;
use dcsp_problem::Term;
use std::alloc::Global;

/// A slot for a variable has so many bits.
const SLOT_BITS: u32 = 14;

const SLOTS: usize = 1 << SLOT_BITS;

/// The bytes of a name that has 8 to 24 of them: its first, its second and its last eight, which may overlap. Where it has
/// at most 16, the first stand for the second.
#[derive(Clone, Copy, PartialEq, Eq)]
pub(crate) struct Key {
    first: u64,
    middle: u64,
    last: u64,
}

/// A variable, and the name of 8 to 24 bytes that stands for it.
#[derive(Clone, Copy)]
pub(crate) struct Known {
    key: Key,
    variable: u32,
    len: u8,
    boolean: bool,
}

/// Variables by their names. Not all need be here: a name that is not found may have been declared.
#[derive(Drop)]
pub(crate) struct Variables {
    known: Vec<Known>,
    /// By slots, the place of the variable of that slot which was declared last. There are none before the first one.
    slots: Vec<u32>,
}

impl Key {
    /// The key of a name; `None` where it is too short or too long to have one.
    #[inline(always)]
    fn of(name: &[u8]) -> Option<Key>
        ensures has { IfSome result (λ _. HasKey name.now) }
        ensures key { IfSome result (λ key. key ≡ key_of name.now) }
    {
        let len = name.len();
        if len < 8 || len > 24 {
            return None;
        }
        Some(Key {
            first: eight_at(name, 0),
            middle: eight_at(name, if len > 16 { 8 } else { 0 }),
            last: eight_at(name, len - 8),
        })
    }

    /// The slot of a variable, by the last eight bytes of its name: names that are numbered differ there.
    #[inline(always)]
    fn slot(self) -> usize {
        (spread(self.last) >> (64 - SLOT_BITS)) as usize
    }
}

impl Variables {
    /// None. It takes no memory.
    pub(crate) fn new(alloc: Global) -> Variables
        ensures { result.known.items ≡ [] }
    {
        Variables {
            known: Vec::new(alloc),
            slots: Vec::new(alloc),
        }
    }

    /// Whether a variable of this name is Boolean, and its term; `None` where it is not found.
    #[inline(always)]
    pub(crate) fn find(&self, name: &[u8]) -> Option<(bool, Term)>
        ensures { IfSome result (λ found. (scope : Scope) → All (StandsFor scope) self.now.known.items →
            declared_as scope name.now ≡ Some (declared.One found.0 found.1)) }
    {
        let key = Key::of(name)?;
        let known = self.known.get(*self.slots.get(key.slot())? as usize)?;
        if known.key == key && known.len as usize == name.len() {
            Some((known.boolean, Term::Var(known.variable)))
        } else {
            None
        }
    }

    /// Makes room for one more.
    pub(crate) fn reserve(&mut self) -> Result<(), Memory>
        ensures known { self.new.known.items ≡ self.old.known.items }
        ensures room { OnOk result (vec_len self.new.known < vec_capacity self.new.known) }
    {
        if self.slots.is_empty() {
            self.slots.resize(SLOTS, u32::MAX)?;
        }
        self.known.reserve(1)
    }

    /// Adds what a name stands for, where it is a variable and the name has a key.
    pub(crate) fn add(&mut self, name: &[u8], variable: Option<(bool, u32)>)
        requires { vec_len self.old.known < vec_capacity self.old.known }
        ensures { (scope : Scope) → All (StandsFor scope) self.old.known.items →
            IfSome variable (λ v. declared_as scope name.now ≡ Some (declared.One v.0 (term.Var v.1))) → All (StandsFor scope) self.new.known.items }
    {
        let Some((boolean, variable)) = variable else {
            return;
        };
        let Some(key) = Key::of(name) else {
            return;
        };
        self.point_to_next(key.slot());
        self.known.push_reserved(Known {
            key,
            variable,
            len: name.len() as u8,
            boolean,
        });
    }

    /// Lets a slot have the variable that is added next.
    fn point_to_next(&mut self, slot: usize)
        ensures { self.new.known ≡ self.old.known }
    {
        let next = self.known.len();
        if let Some(place) = self.slots.get_mut(slot) {
            *place = u32::try_from(next).unwrap_or(u32::MAX);
        }
    }
}
