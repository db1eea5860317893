//! For each variable the later ones that own a rule over it.

ghost use Rattle.std.specs.Prelude.{◌≡◌, ◌<◌, ◌&&◌, ◌==◌, ℕ, [], map, length, All, OnOk, IfOk, nat_lt, vec_len};
ghost use Rattle.dcsp_defs.specs.Words.{below};
ghost use Rattle.dcsp_problem.specs.Lower.{is_among, ends_after, lower_among, Adds};

use crate::index::{empty_lists, room_for};
use crate::table::NumberTable;
use dcsp_common::Memory;
use dcsp_rule::NumberList;
use std::alloc::Global;

/// For each of so many variables the later ones that are last in a scope with it, where these are the rules' scopes.
pub fn lower_table(
    alloc: Global,
    scopes: &NumberTable,
    variables: usize,
) -> Result<NumberTable, Memory>
    requires { All (λ scope. All (λ v. v < variables) scope) scopes.now }
    ensures { IfOk result (λ table. table ≡ map (lower_among scopes.now variables) (below variables)) }
{
    let mut owners = empty_lists(alloc, variables, room_for(scopes.len(), variables))?;
    for rule in 0..scopes.len() {
        push_scope(&mut owners, scopes.list(rule))?;
    }
    NumberTable::of_sets(alloc, &owners)
}

/// Adds the last variable of a scope to the list of each earlier one.
fn push_scope(owners: &mut Vec<NumberList>, scope: &[u32]) -> Result<(), Memory>
    requires { All (λ v. v < vec_len owners.old) scope.now }
    ensures { OnOk result (Adds (ends_after scope.now) owners.old.items owners.new.items) }
{
    match scope.last() {
        None => Ok(()),
        Some(owner) => push_owners(owners, scope, *owner),
    }
}

/// Adds the owner to the list of each of these variables that is before it.
fn push_owners(owners: &mut Vec<NumberList>, vars: &[u32], owner: u32) -> Result<(), Memory>
    requires { All (λ v. v < vec_len owners.old) vars.now }
    ensures { OnOk result (Adds (λ var number. (owner == number) && (nat_lt var number && is_among var vars.now)) owners.old.items owners.new.items) }
{
    for var in vars {
        push_owner(owners, *var, owner)?;
    }
    Ok(())
}

/// Adds the owner to the variable's list, if the variable is before it.
fn push_owner(owners: &mut Vec<NumberList>, var: u32, owner: u32) -> Result<(), Memory>
    requires { var < vec_len owners.old }
    ensures { OnOk result (Adds (λ other number. (owner == number) && (nat_lt other number && (other == var))) owners.old.items owners.new.items) }
{
    if var >= owner {
        return Ok(());
    }
    match owners[var as usize].push(owner) {
        Ok(()) => Ok(()),
        Err(_) => Err(Memory),
    }
}
