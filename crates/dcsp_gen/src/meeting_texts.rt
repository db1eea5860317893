//! Meeting scheduling: people with calendars of their own agree on hours, and each of them keeps a copy of each of
//! its meetings. People, meetings and hours are numbers from 1 on.
ghost use Rattle.std.specs.Prelude.{◌≡◌, ◌+◌, ◌<◌, ◌≤◌, ◌^◌, ◌++◌, flat_map, string_bytes, IfOk, OnOk, length};
ghost use Rattle.std.specs.List.{range_with_len};
ghost use Rattle.abt_schedule.specs.Answers.{generator_of, word_at};
ghost use Rattle.dcsp_gen.specs.Lists.{lists_in, list_of};
ghost use Rattle.dcsp_gen.specs.Meetings.{agenda, attends, clash_line, clash_lines, copy_line, copy_lines, first_copies, meetings_fit, meetings_of, meetings_text, tie_line, tie_lines};

use crate::lines::push_solve;
use crate::lists::{list_of, pairs_in, push_domain};
use crate::selection::{Choosing, NumberPair, push_if, select_each};
use dcsp_common::Memory;
use rand_core::SeedableRng;
use rand_pcg::Pcg32;
use std::alloc::{AllocError, Global};

/// How large a problem of meetings is.
#[derive(Clone, Copy, Debug)]
pub struct MeetingSizes {
    /// How many people there are, from 1 to 64.
    pub people: u32,
    /// How many meetings there are, from 1 to 64.
    pub meetings: u32,
    /// How many people each meeting has.
    pub each: u32,
    /// How many hours there are, from 1 to 100.
    pub hours: u32,
    /// At how many of the hours each person is busy.
    pub busy: u32,
}

impl MeetingSizes {
    /// Whether a meeting has at most all people, and each person has a free hour.
    pub fn fit(&self) -> bool
        ensures { result ≡ meetings_fit self.now.people self.now.each self.now.hours self.now.busy }
    {
        self.each <= self.people && self.busy < self.hours
    }
}

/// A random problem of meetings. For each person words of `seed` choose the hours at which it is busy; then, for
/// each meeting, its people. Variable `mJpI` is the hour of meeting J, as person I has it.
pub fn meetings(alloc: Global, sizes: MeetingSizes, seed: u64) -> Result<Vec<u8>, Memory>
    requires people { sizes.people ≤ 64 }
    requires meetings { sizes.meetings ≤ 64 }
    requires hours { sizes.hours ≤ 100 }
    ensures { IfOk result (λ text. text.items ≡ meetings_text sizes.people sizes.meetings sizes.each sizes.hours sizes.busy (word_at (generator_of seed))) }
{
    let mut words = Pcg32::seed_from_u64(seed);
    let text = meetings_lines(alloc, sizes, &mut words)?;
    Ok(text.into_bytes())
}

fn meetings_lines(
    alloc: Global,
    sizes: MeetingSizes,
    words: &mut Pcg32,
) -> Result<String, AllocError>
    requires people { sizes.people ≤ 64 }
    requires meetings { sizes.meetings ≤ 64 }
    requires hours { sizes.hours ≤ 100 }
    ensures { IfOk result (λ text. string_bytes text ≡ meetings_text sizes.people sizes.meetings sizes.each sizes.hours sizes.busy (word_at words.old)) }
{
    let busy = Choosing {
        wanted: sizes.busy,
        kept: false,
    };
    let each = Choosing {
        wanted: sizes.each,
        kept: true,
    };
    let free = select_each(alloc, sizes.hours, busy, sizes.people, words)?;
    let groups = select_each(alloc, sizes.people, each, sizes.meetings, words)?;
    agenda(alloc, &free, &groups)
}

/// The problem of these people, each with its free hours, and these meetings, each with its people.
fn agenda(alloc: Global, free: &[Vec<u32>], groups: &[Vec<u32>]) -> Result<String, AllocError>
    requires people { length free.now < 2 ^ 31 }
    requires meetings { length groups.now < 2 ^ 31 }
    ensures { IfOk result (λ text. string_bytes text ≡ agenda (lists_in free.now) (lists_in groups.now)) }
{
    let mut text = String::new(alloc);
    push_copies(&mut text, free, groups)?;
    push_ties(&mut text, groups)?;
    push_clashes(alloc, &mut text, groups, free.len() as u32)?;
    push_solve(&mut text)?;
    Ok(text)
}

/// The copies of each meeting.
fn push_copies(text: &mut String, free: &[Vec<u32>], groups: &[Vec<u32>]) -> Result<(), AllocError>
    requires { length groups.now < 2 ^ 31 }
    ensures { OnOk result (string_bytes text.new ≡ string_bytes text.old ++ first_copies (lists_in free.now) (lists_in groups.now) (length groups.now)) }
{
    for meeting in 1..groups.len() as u32 + 1 {
        push_copies_of(text, free, groups, meeting)?;
    }
    Ok(())
}

/// The ties of each meeting.
fn push_ties(text: &mut String, groups: &[Vec<u32>]) -> Result<(), AllocError>
    requires { length groups.now < 2 ^ 31 }
    ensures { OnOk result (string_bytes text.new ≡ string_bytes text.old ++ flat_map (tie_lines (lists_in groups.now)) (range_with_len 1 (length groups.now))) }
{
    for meeting in 1..groups.len() as u32 + 1 {
        push_ties_of(text, groups, meeting)?;
    }
    Ok(())
}

/// The clashes of each person.
fn push_clashes(
    alloc: Global,
    text: &mut String,
    groups: &[Vec<u32>],
    people: u32,
) -> Result<(), AllocError>
    requires people { people < 2 ^ 31 }
    requires meetings { length groups.now < 2 ^ 31 }
    ensures { OnOk result (string_bytes text.new ≡ string_bytes text.old ++ flat_map (clash_lines (lists_in groups.now)) (range_with_len 1 people)) }
{
    for person in 1..people + 1 {
        push_clashes_of(alloc, text, groups, person)?;
    }
    Ok(())
}

/// The copies of a meeting, in the order of its people.
fn push_copies_of(
    text: &mut String,
    free: &[Vec<u32>],
    groups: &[Vec<u32>],
    meeting: u32,
) -> Result<(), AllocError>
    ensures { OnOk result (string_bytes text.new ≡ string_bytes text.old ++ copy_lines (lists_in free.now) (lists_in groups.now) meeting) }
{
    for person in list_of(groups, meeting) {
        push_copy(text, free, meeting, *person)?;
    }
    Ok(())
}

/// Declares the copy of a meeting that a person has, with the person's free hours.
fn push_copy(
    text: &mut String,
    free: &[Vec<u32>],
    meeting: u32,
    person: u32,
) -> Result<(), AllocError>
    ensures { OnOk result (string_bytes text.new ≡ string_bytes text.old ++ copy_line (lists_in free.now) meeting person) }
{
    push_domain(text, list_of(free, person))?;
    write!(text, ": m{meeting}p{person} :: output_var;\n")?;
    Ok(())
}

/// Each copy of a meeting is equal to the next one.
fn push_ties_of(text: &mut String, groups: &[Vec<u32>], meeting: u32) -> Result<(), AllocError>
    ensures { OnOk result (string_bytes text.new ≡ string_bytes text.old ++ tie_lines (lists_in groups.now) meeting) }
{
    let Some((first, later)) = list_of(groups, meeting).split_first() else {
        return Ok(());
    };
    let mut before = *first;
    for person in later {
        push_tie(text, meeting, before, *person)?;
        before = *person;
    }
    Ok(())
}

fn push_tie(text: &mut String, meeting: u32, first: u32, second: u32) -> Result<(), AllocError>
    ensures { OnOk result (string_bytes text.new ≡ string_bytes text.old ++ tie_line meeting (first, second)) }
{
    write!(
        text,
        "constraint int_eq(m{meeting}p{first},m{meeting}p{second});\n"
    )
}

/// No two meetings of a person are at one hour.
fn push_clashes_of(
    alloc: Global,
    text: &mut String,
    groups: &[Vec<u32>],
    person: u32,
) -> Result<(), AllocError>
    requires { length groups.now < 2 ^ 31 }
    ensures { OnOk result (string_bytes text.new ≡ string_bytes text.old ++ clash_lines (lists_in groups.now) person) }
{
    let attended = meetings_of(alloc, groups, person)?;
    let pairs = pairs_in(alloc, &attended)?;
    for meetings in &pairs {
        push_clash(text, person, *meetings)?;
    }
    Ok(())
}

fn push_clash(text: &mut String, person: u32, meetings: NumberPair) -> Result<(), AllocError>
    ensures { OnOk result (string_bytes text.new ≡ string_bytes text.old ++ clash_line person meetings) }
{
    let (first, second) = meetings;
    write!(
        text,
        "constraint int_ne(m{first}p{person},m{second}p{person});\n"
    )
}

/// The meetings of a person, in rising order.
fn meetings_of(alloc: Global, groups: &[Vec<u32>], person: u32) -> Result<Vec<u32>, AllocError>
    requires { length groups.now < 2 ^ 31 }
    ensures { IfOk result (λ list. list.items ≡ meetings_of (lists_in groups.now) person) }
{
    let mut list = Vec::new(alloc);
    for meeting in 1..groups.len() as u32 + 1 {
        push_if(&mut list, attends(groups, person, meeting), meeting)?;
    }
    Ok(list)
}

/// Whether a person is in a meeting.
fn attends(groups: &[Vec<u32>], person: u32, meeting: u32) -> bool
    ensures { result ≡ attends (lists_in groups.now) person meeting }
{
    list_of(groups, meeting).contains(&person)
}
