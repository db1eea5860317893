//! Selection in order: things are gone through one after another, each with a word of its own, and so many of
//! them are chosen.
ghost use Rattle.std.specs.Prelude.{◌≡◌, ◌+◌, ◌*◌, ◌<◌, ◌^◌, ◌++◌, ◌∷◌, [], if◌then◌else◌, IfOk, OnOk, length};
ghost use Rattle.std.specs.List.{range_with_len};
ghost use Rattle.abt_schedule.specs.Answers.{word_at};
ghost use Rattle.dcsp_gen.specs.Lists.{lists_in};
ghost use Rattle.dcsp_gen.specs.Selection.{chooses, selected, selections, wanted_after, words_after};

use rand_core::utils::NextWord;
use rand_pcg::Pcg32;
use std::alloc::{AllocError, Global};

/// Two variables, or two values.
pub type NumberPair = (u32, u32);

/// What a selection takes: so many things are chosen, and these are kept, or the others.
#[derive(Clone, Copy, Debug)]
pub struct Choosing {
    /// How many are chosen.
    pub wanted: u32,
    /// Whether those that are chosen are kept, or those that are not.
    pub kept: bool,
}

/// Those of the things that are kept.
///
/// Each thing takes one word. It is chosen where the remainder of its word by the number of things that are left, itself
/// included, is below the number of those that are still wanted. So as many are chosen as are wanted, if there are
/// so many.
pub fn select<T: Copy>(
    alloc: Global,
    things: &[T],
    choosing: Choosing,
    words: &mut Pcg32,
) -> Result<Vec<T>, AllocError>
    requires { length things.now < 2 ^ 31 }
    ensures things { IfOk result (λ list. list.items ≡ selected choosing.kept (word_at words.old) choosing.wanted things.now) }
    ensures words { OnOk result (word_at words.new ≡ words_after (length things.now) (word_at words.old)) }
{
    let mut list = Vec::new(alloc);
    let mut still = choosing.wanted;
    for place in 0..things.len() {
        let left = (things.len() - place) as u32;
        let chosen = chooses(words.next_word(), still, left);
        still = wanted_after(chosen, still);
        push_if(&mut list, chosen == choosing.kept, things[place])?;
    }
    Ok(list)
}

/// So many selections among the numbers 1 to `high`, one after another.
pub fn select_each(
    alloc: Global,
    high: u32,
    choosing: Choosing,
    count: u32,
    words: &mut Pcg32,
) -> Result<Vec<Vec<u32>>, AllocError>
    requires { high < 2 ^ 31 }
    ensures lists { IfOk result (λ lists. lists_in lists.items ≡ selections choosing.kept (word_at words.old) choosing.wanted high count) }
    ensures words { OnOk result (word_at words.new ≡ words_after (count * high) (word_at words.old)) }
{
    let numbers = numbers_to(alloc, high)?;
    let mut lists = Vec::new(alloc);
    for _done in 0..count {
        let list = select(alloc, &numbers, choosing, words)?;
        lists.push(list)?;
    }
    Ok(lists)
}

/// The numbers 1 to `high`.
fn numbers_to(alloc: Global, high: u32) -> Result<Vec<u32>, AllocError>
    requires { high < 2 ^ 31 }
    ensures { IfOk result (λ list. list.items ≡ range_with_len 1 high) }
{
    let mut list = Vec::new(alloc);
    for number in 1..high + 1 {
        list.push(number)?;
    }
    Ok(list)
}

/// Whether a word chooses a thing, where so many are still wanted of those that are left.
fn chooses(word: u32, wanted: u32, left: u32) -> bool
    requires { 0 < left }
    ensures { result ≡ chooses word wanted left }
{
    word % left < wanted
}

/// How many are wanted after a thing.
fn wanted_after(chosen: bool, wanted: u32) -> u32
    ensures { result ≡ wanted_after chosen wanted }
{
    if chosen {
        wanted.saturating_sub(1)
    } else {
        wanted
    }
}

/// Appends the thing, if it is to be kept.
pub fn push_if<T: Copy>(list: &mut Vec<T>, kept: bool, thing: T) -> Result<(), AllocError>
    ensures { OnOk result (list.new.items ≡ (if kept then list.old.items ++ thing ∷ [] else list.old.items)) }
{
    if kept {
        list.push(thing)?;
    }
    Ok(())
}
