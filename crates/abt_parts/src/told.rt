//! What is told of agents: whether it is news, and whether a view has it.

ghost use Rattle.std.specs.Prelude.{◌≡◌, ◌<◌, ◌∷◌, ◌++◌, [], ◌&&◌, ◌||◌, ℤ, IfSome, OnOk, Some, is_some, length, nat_lt, not, option_to_list, true};
ghost use Rattle.std.specs.List.{list_all};
ghost use Rattle.std.specs.Option.{ForSome};
ghost use Rattle.dcsp_defs.specs.Csp.{with_value};
ghost use Rattle.dcsp_defs.specs.Words.{is_value};
ghost use Rattle.abt_defs.specs.Agents.{value_in, values_in};
ghost use Rattle.abt_defs.specs.Reasons.{pair_at};
ghost use Rattle.abt_defs.specs.Steps as steps;
ghost use Rattle.abt_parts.specs.Messages.{with_stamps};
ghost use Rattle.abt_parts.specs.Outgoing.{ArePositive};
ghost use Rattle.abt_parts.specs.Views.{stamped_in, view_of};

use crate::view::{StampedValue, View};
use dcsp_common::Memory;
use dcsp_defs::Pair;

impl View {
    /// Whether the view of this agent has the pair, if that is of a higher agent; `None` if what is told of that has a
    /// stamp that is newer than the view.
    #[inline(always)]
    pub fn fits(&self, me: u32, pair: Pair, stamp: u64) -> Option<bool>
        ensures news { is_some result ≡ not (nat_lt pair.var me && steps.is_newer (view_of self.now pair.var) stamp) }
        ensures fits { IfSome result (λ fits. fits ≡ (not (nat_lt pair.var me) || is_value (values_in (view_of self.now) pair.var) pair.value)) }
    {
        if pair.var >= me {
            return Some(true);
        }
        match self.stamped_value(pair.var) {
            None => None,
            Some(known) => {
                if known.stamp < stamp {
                    None
                } else {
                    Some(known.value == pair.value)
                }
            }
        }
    }

    /// Whether each of the variables is this agent's own, or has a value in its view.
    pub fn knows_all(&self, me: u32, variables: &[u32]) -> bool
        ensures { (v : ℤ) → result ≡ list_all (λ k. is_some (with_value me v (values_in (view_of self.now)) k)) variables.now }
    {
        for place in 0..variables.len() {
            if !self.knows(me, variables[place]) {
                return false;
            }
        }
        true
    }

    /// Whether the variable is this agent's own, or has a value in its view.
    fn knows(&self, me: u32, var: u32) -> bool
        ensures { (v : ℤ) → result ≡ is_some (with_value me v (values_in (view_of self.now)) var) }
    {
        var == me || self.value_of(var).is_some()
    }
}

/// Whether a stamp is newer than what was told before, if something was.
#[inline(always)]
pub fn is_news(before: Option<StampedValue>, stamp: u64) -> bool
    ensures { result ≡ steps.is_newer (stamped_in before) stamp }
{
    match before {
        Some(known) => known.stamp < stamp,
        None => true,
    }
}

/// Whether what was told before is this value.
#[inline(always)]
pub fn has_value(before: Option<StampedValue>, value: i64) -> bool
    ensures { result ≡ true → value_in (stamped_in before) ≡ Some value }
{
    match before {
        Some(known) => known.value == value,
        None => false,
    }
}

/// Adds the variable with what is told of it, if there is something, to pairs and their stamps.
#[inline(always)]
pub fn add_told(
    pairs: &mut Vec<Pair>,
    stamps: &mut Vec<u64>,
    var: u32,
    told: Option<StampedValue>,
) -> Result<(), Memory>
    requires size { length stamps.old.items ≡ length pairs.old.items }
    requires positive { ArePositive stamps.old.items }
    requires stamped { ForSome told (λ told. 0 < told.stamp) }
    ensures told { OnOk result (with_stamps pairs.new.items stamps.new.items ≡ with_stamps pairs.old.items stamps.old.items ++ option_to_list (pair_at var (stamped_in told))) }
    ensures size { OnOk result (length stamps.new.items ≡ length pairs.new.items) }
    ensures positive { OnOk result (ArePositive stamps.new.items) }
{
    match told {
        Some(told) => {
            let pair = Pair {
                var,
                value: told.value,
            };
            push(pairs, pair)?;
            push(stamps, told.stamp)?;
            Ok(())
        }
        None => Ok(()),
    }
}

/// Adds an item at the end. Most find room that was made before, and take no call.
#[inline(always)]
fn push<T: Drop>(items: &mut Vec<T>, item: T) -> Result<(), Memory>
    ensures { OnOk result (items.new.items ≡ items.old.items ++ item ∷ []) }
{
    if items.len() < items.capacity() {
        items.push_reserved(item);
        return Ok(());
    }
    items.push(item)?;
    Ok(())
}
