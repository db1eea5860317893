//! What an agent believes of the agents above it: of each the value and the stamp that it was told last.
//!
//! Agents are counted from 0, and a lower number is a higher priority. This is the agent view of
//! asynchronous backtracking (Yokoo, Durfee, Ishida and Kuwabara, IEEE TKDE 10(5), 1998), with a
//! stamp beside each value.

ghost use Rattle.std.specs.Prelude.{◌≡◌, ◌<◌, ℕ, Some, None, IfOk, OnErr, OnOk, length, set, slice_index_or, false, true, if◌then◌else◌};
ghost use Rattle.dcsp_defs.specs.Words.{update};
ghost use Rattle.abt_defs.specs.Agents.{values_in};
ghost use Rattle.abt_defs.specs.Steps.{is_newer};
ghost use Rattle.abt_parts.specs.Views.{blank, has_place, newest, placeless, stamp_in, stamped_of, told_at, view_of};

use dcsp_common::{Entry, Memory, item_of, place_of, put};
use std::alloc::Global;
use std::marker::Model;

/// A value, and its stamp: how many values its agent had taken then, this one included.
#[derive(Clone, Copy, Debug, PartialEq, Eq)]
pub struct StampedValue {
    pub value: i64,
    pub stamp: u64,
}

/// How many of the first agents are near: as soon as one of them gets a place, and every fourth of those before it could
/// have one, each of these gets one too, so that theirs stand at their own numbers and are found without a search.
const NEAR: u32 = 128;

/// For each higher agent the value and the stamp last told, if there was one. What is told of an agent is learned
/// once it has a place.
#[derive(Debug, Drop)]
pub struct View {
    /// The places of agents above, by agent, with what they told.
    places: Vec<Entry<Option<StampedValue>>>,
    /// How many agents there are above.
    agents: usize,
}

impl Model for View {
    ghost use Rattle.abt_parts.specs.Views.{slots_of, ArePlaces, Slots};

    ghost Value = { Slots };

    ghost view = { λ view. slots_of view.agents view.places.items };

    ghost invariant = { λ view. ArePlaces view.agents view.places.items };
}

impl View {
    /// The view of an agent that was told nothing, with a place for each agent above it.
    pub fn new(alloc: Global, agent: u32) -> Result<View, Memory>
        ensures slots { IfOk result (λ view. view ≡ blank agent) }
        ensures empty { IfOk result (λ view. view_of view ≡ (λ k. None)) }
    {
        let mut view = View::without_places(alloc, agent);
        for higher in 0..agent {
            view.make_one_place(higher)?;
        }
        Ok(view)
    }

    /// The view of an agent that was told nothing, in which no agent has a place. It takes no memory.
    pub fn without_places(alloc: Global, agent: u32) -> View
        ensures slots { result ≡ placeless agent }
        ensures empty { view_of result ≡ (λ k. None) }
    {
        View {
            places: Vec::new(alloc),
            agents: agent as usize,
        }
    }

    /// Gives a higher agent a place, if it has none. What was told stays.
    #[inline(always)]
    pub fn make_place(&mut self, var: u32) -> Result<(), Memory>
        requires { var < length self.old }
        ensures place { OnOk result (has_place self.new var ≡ true) }
        ensures stay { (k : ℕ) → has_place self.old k ≡ true → has_place self.new k ≡ true }
        ensures told { view_of self.new ≡ view_of self.old }
        ensures slots { length self.new ≡ length self.old }
    {
        if self.has_place(var) {
            return Ok(());
        }
        if self.is_near(var) {
            self.make_places_before(var)?;
        }
        self.make_one_place(var)?;
        Ok(())
    }

    /// Whether an agent is near, and places are not few before it.
    #[inline(always)]
    fn is_near(&self, var: u32) -> bool {
        var < NEAR && var as usize / 4 <= self.places.len()
    }

    /// Whether an agent has a place.
    #[inline(always)]
    fn has_place(&self, var: u32) -> bool
        ensures { result ≡ has_place self.now var }
    {
        item_of(&self.places, var).is_some()
    }

    /// Gives each agent above this one a place, if it has none.
    fn make_places_before(&mut self, var: u32) -> Result<(), Memory>
        requires { var < length self.old }
        ensures stay { (k : ℕ) → has_place self.old k ≡ true → has_place self.new k ≡ true }
        ensures told { view_of self.new ≡ view_of self.old }
        ensures slots { length self.new ≡ length self.old }
    {
        for near in 0..var {
            self.make_one_place(near)?;
        }
        Ok(())
    }

    /// Gives one agent a place, if it has none.
    fn make_one_place(&mut self, var: u32) -> Result<(), Memory>
        requires { var < length self.old }
        ensures made { OnOk result (self.new ≡ set self.old var (Some (told_at self.old var))) }
        ensures err { OnErr result (self.new ≡ self.old) }
    {
        if self.has_place(var) {
            return Ok(());
        }
        put(&mut self.places, var, None)?;
        Ok(())
    }

    /// Takes what a higher agent tells, unless it told that or something newer before, and gives what it told before.
    /// The agent has a place from then on.
    #[inline(always)]
    pub fn tell(&mut self, var: u32, told: StampedValue) -> Result<Option<StampedValue>, Memory>
        requires { var < length self.old }
        ensures before { IfOk result (λ before. before ≡ told_at self.old var) }
        ensures view { OnOk result (view_of self.new ≡ (if is_newer (view_of self.old var) told.stamp then update (view_of self.old) var (Some (stamped_of told)) else view_of self.old)) }
        ensures err { OnErr result (view_of self.new ≡ view_of self.old) }
        ensures slots { length self.new ≡ length self.old }
    {
        match self.swap_told(var, told) {
            Some(before) => Ok(before),
            None => {
                self.make_place(var)?;
                self.put_told(var, told);
                Ok(None)
            }
        }
    }

    /// Puts into an agent's place what it tells, if that is newer, and gives what was there; `None` if it has no place.
    #[inline(always)]
    fn swap_told(&mut self, var: u32, told: StampedValue) -> Option<Option<StampedValue>>
        ensures slot { result ≡ slice_index_or self.old var None }
        ensures kept { has_place self.old var ≡ false → self.new ≡ self.old }
        ensures swapped { has_place self.old var ≡ true → self.new ≡ set self.old var (Some (Some (newest (told_at self.old var) told))) }
    {
        let Ok(place) = place_of(&self.places, var) else {
            return None;
        };
        let before = self.places[place].item;
        self.places[place].item = Some(newest(before, told));
        Some(before)
    }

    /// Takes a value and its stamp for a higher agent, which has a place, and is true, exactly if there is no stamp
    /// for it or a lower one.
    pub fn learn(&mut self, var: u32, value: i64, stamp: u64) -> bool
        requires { has_place self.old var ≡ true }
        ensures newer { result ≡ is_newer (view_of self.old var) stamp }
        ensures view { view_of self.new ≡ (if result then update (view_of self.old) var (Some (record { value = value; stamp = stamp })) else view_of self.old) }
        ensures slots { length self.new ≡ length self.old }
        ensures places { (k : ℕ) → has_place self.new k ≡ has_place self.old k }
    {
        let told = StampedValue { value, stamp };
        match self.stamp_of(var) {
            None => {
                self.put_told(var, told);
                true
            }
            Some(known) => {
                let is_newer = known < stamp;
                if is_newer {
                    self.put_told(var, told);
                }
                is_newer
            }
        }
    }

    /// Puts into an agent's place what it told.
    #[inline(always)]
    fn put_told(&mut self, var: u32, told: StampedValue)
        requires { has_place self.old var ≡ true }
        ensures { self.new ≡ set self.old var (Some (Some told)) }
    {
        if let Ok(place) = place_of(&self.places, var) {
            self.places[place].item = Some(told);
        }
    }

    /// The value last told by an agent; `None` where it told nothing or is not higher.
    pub fn value_of(&self, var: u32) -> Option<i64>
        ensures { result ≡ values_in (view_of self.now) var }
    {
        Some(self.stamped_value(var)?.value)
    }

    /// The stamp last told by an agent; `None` where it told nothing or is not higher.
    pub fn stamp_of(&self, var: u32) -> Option<u64>
        ensures { result ≡ stamp_in (view_of self.now var) }
    {
        Some(self.stamped_value(var)?.stamp)
    }

    /// The value and the stamp last told by an agent; `None` where it told nothing or is not higher.
    pub fn stamped_value(&self, var: u32) -> Option<StampedValue>
        ensures { result ≡ told_at self.now var }
    {
        item_of(&self.places, var)?
    }
}

/// What is newer: what was told before, if there was something, or what is told.
#[inline(always)]
fn newest(before: Option<StampedValue>, told: StampedValue) -> StampedValue
    ensures { result ≡ newest before told }
{
    match before {
        Some(known) => {
            if known.stamp < told.stamp {
                told
            } else {
                known
            }
        }
        None => told,
    }
}
