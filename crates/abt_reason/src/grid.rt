//! For each rule the values that it rules out; for each value how many rules do, and the first of them.
//!
//! What puts a span in place of a span runs for each rule at each change of a view. It is inlined, so that no span is
//! copied through memory from call to call.
//!
//! Where there are many values for each rule, nothing is counted: what that takes would grow with the values, and
//! the rules are gone over instead.

ghost use Rattle.std.specs.Prelude.{◌≡◌, ◌≢◌, ◌<◌, ◌≤◌, ◌+◌, ◌^◌, ℕ, Bool, All, IfOk, IfSome, IsTrue, None, is_some, length, true, false, slice_index_or, ◌||◌, ◌==◌};
ghost use Rattle.dcsp_rule.specs.Problems.{rule_at};
ghost use Rattle.dcsp_row.specs.Easy.{has_span};
ghost use Rattle.dcsp_row.specs.Spans.{is_within};
ghost use Rattle.dcsp_row.specs.Marks.{has_room_for, is_marked, is_row, FitsSize};
ghost use Rattle.abt_reason.specs.Firsts.{IsFirst};
ghost use Rattle.abt_reason.specs.Grids.{marks_at, is_marked_at, mixed_rows, rows_of, row_of, with_row, few_row, is_only, AreCounted, AreMarksBehind, AreSized, CanReplace, CountsMark, CountsRow, HaveRoom, IsBelow, IsChange, IsFirstAfter, IsGrid, IsReplaced, IsValueRun, NoneIfUncounted, NoneUpTo};

use dcsp_common::Memory;
use dcsp_problem::Problem;
use dcsp_row::{Marks, Row, Span, has_span};
use std::alloc::Global;

/// So many values are counted, however few rules there are.
const COUNTED: usize = 1_024;

/// So many values are counted for each rule.
const COUNTED_BY_RULE: usize = 64;

/// The rules of an agent with so many values, of which none rules anything out yet.
#[derive(Clone, Copy)]
pub struct OwnedRules<'a> {
    pub problem: &'a Problem,
    pub rules: &'a [u32],
    pub agent: u32,
    pub values: usize,
}

/// The value that is marked, where one is at most.
#[derive(Clone, Copy)]
enum Few {
    Nothing,
    Only(usize),
}

/// The marks that are replaced and those that come, where both mark one value at most.
#[derive(Clone, Copy)]
struct Change {
    before: Few,
    after: Few,
}

/// One of so many values, and a rule's place.
#[derive(Clone, Copy)]
struct Cell {
    values: usize,
    value: usize,
    place: usize,
}

/// Values of an agent that stand one after another, up to an end, and have the same first rule that rules them out.
#[derive(Clone, Copy)]
pub struct ValueRun {
    /// The rule's place among those that the agent owns; `None` if none rules them out.
    pub first: Option<u32>,
    pub end: usize,
}

/// For each rule the values that it rules out.
#[derive(Drop)]
pub struct RuledOut {
    /// A rule whose values always stand in one span of the domain has no bits.
    pub rows: Vec<Marks>,
    /// For each value how many rules rule it out; empty where nothing is counted.
    pub counts: Vec<u32>,
    /// For each value the first rule that rules it out; empty where nothing is counted.
    pub firsts: Vec<Option<u32>>,
}

impl RuledOut {
    /// These rules of an agent with so many values, as if they ruled nothing out.
    pub fn new(alloc: Global, empty: &OwnedRules) -> Result<RuledOut, Memory>
        requires few { length empty.now.rules.now < 2 ^ 32 }
        requires rules { All (λ rule. rule < length empty.now.problem.now.rules) empty.now.rules.now }
        ensures rules { IfOk result (λ grid. length grid.rows.items ≡ length empty.now.rules.now) }
        ensures grid { IfOk result (λ grid. IsGrid (rows_of empty.now.values grid.rows.items) empty.now.values grid.counts.items grid.firsts.items) }
        ensures sized { IfOk result (λ grid. AreSized empty.now.values grid.rows.items) }
        ensures room { IfOk result (λ grid. HaveRoom empty.now.problem.now empty.now.agent empty.now.rules.now grid.rows.items) }
    {
        let rows = empty_rows(alloc, empty)?;
        let counted = counted_values(empty);
        let counts = no_counts(alloc, counted)?;
        let firsts = no_firsts(alloc, counted)?;
        Ok(RuledOut {
            rows,
            counts,
            firsts,
        })
    }

    /// How far the values from this one on have the same first rule that rules them out, and which.
    #[inline(always)]
    pub fn run(&self, values: usize, value: usize) -> ValueRun
        requires value { value < values }
        requires grid { IsGrid (rows_of values self.now.rows.items) values self.now.counts.items self.now.firsts.items }
        requires sized { AreSized values self.now.rows.items }
        ensures { IsValueRun (rows_of values self.now.rows.items) (length self.now.rows.items) values value result.first result.end }
    {
        if value < self.firsts.len() {
            return ValueRun {
                first: self.firsts[value],
                end: value + 1,
            };
        }
        run_over(&self.rows, values, value)
    }

    /// The first value from this one on that no rule rules out, as far as counts tell; they tell nothing where none are
    /// kept.
    #[inline(always)]
    pub fn pass_ruled_out(&self, from: usize) -> usize
        ensures later { from ≤ result }
        ensures passed { (k : ℕ) → from ≤ k → k < result → is_some (slice_index_or self.now.firsts.items k None) ≡ true }
    {
        let firsts = self.firsts.as_slice();
        let mut value = from;
        while let Some(Some(_)) = firsts.get(value) {
            value += 1;
        }
        value
    }

    /// Puts a span in place of what the rule ruled out. Most rules rule out one value, and then another:
    /// only these two are touched.
    #[inline(always)]
    pub fn replace_span(&mut self, place: usize, values: usize, span: Span)
        requires rows { CanReplace values place self.old.rows.items self.old.counts.items self.old.firsts.items }
        ensures { IsReplaced values place (is_within span) self.old.rows.items self.new.rows.items self.new.counts.items self.new.firsts.items }
    {
        if self.counts.len() == values {
            if let Some(change) = change_to(&self.rows[place], span, values) {
                self.replace_few(place, values, span, change);
                return;
            }
        }
        self.replace(place, values, &Marks::Span(span));
    }

    /// The same, where both are spans of one value at most.
    #[inline(always)]
    fn replace_few(&mut self, place: usize, values: usize, span: Span, change: Change)
        requires counted { length self.old.counts.items ≡ values }
        requires rows { CanReplace values place self.old.rows.items self.old.counts.items self.old.firsts.items }
        requires change { IsChange values (marks_at self.old.rows.items place) span change }
        ensures { IsReplaced values place (is_within span) self.old.rows.items self.new.rows.items self.new.counts.items self.new.firsts.items }
    {
        self.count_few(place, values, change);
        store(&mut self.rows[place], span);
    }

    /// Takes a rule's new marks, of one value at most, into the counts and firsts.
    #[inline(always)]
    fn count_few(&mut self, place: usize, values: usize, change: Change)
        requires counted { length self.old.counts.items ≡ values }
        requires place { place < length self.old.rows.items }
        requires grid { IsGrid (with_row values self.old.rows.items place (few_row values change.before)) values self.old.counts.items self.old.firsts.items }
        requires sized { AreSized values self.old.rows.items }
        requires before { IsBelow values change.before }
        requires after { IsBelow values change.after }
        ensures grid { IsGrid (with_row values self.new.rows.items place (few_row values change.after)) values self.new.counts.items self.new.firsts.items }
        ensures rows { self.new.rows.items ≡ self.old.rows.items }
    {
        match change.before {
            Few::Nothing => match change.after {
                Few::Nothing => {}
                Few::Only(gained) => self.gain(place, values, gained),
            },
            Few::Only(lost) => match change.after {
                Few::Nothing => self.lose(place, values, lost),
                Few::Only(gained) => {
                    if lost != gained {
                        self.lose(place, values, lost);
                        self.gain(place, values, gained);
                    }
                }
            },
        }
    }

    /// Puts what the rule rules out in place of what it ruled out.
    pub fn replace(&mut self, place: usize, values: usize, new: &Marks)
        requires rows { CanReplace values place self.old.rows.items self.old.counts.items self.old.firsts.items }
        requires size { FitsSize values new.now }
        requires room { IsTrue (has_room_for (marks_at self.old.rows.items place) new.now) }
        ensures { IsReplaced values place (is_marked new.now) self.old.rows.items self.new.rows.items self.new.counts.items self.new.firsts.items }
    {
        self.count_changes(place, values, new);
        self.rows[place].copy_from(values, new);
    }

    /// Takes a rule's new marks into the counts and firsts. Only values for which they change are touched.
    fn count_changes(&mut self, place: usize, values: usize, new: &Marks)
        requires rows { CanReplace values place self.old.rows.items self.old.counts.items self.old.firsts.items }
        requires size { FitsSize values new.now }
        ensures grid { IsGrid (with_row values self.new.rows.items place (row_of values new.now)) values self.new.counts.items self.new.firsts.items }
        ensures rows { self.new.rows.items ≡ self.old.rows.items }
    {
        if self.counts.len() != values {
            return;
        }
        let mut from = 0;
        while let Some(value) = new.next_change(&self.rows[place], values, from) {
            self.count(place, values, value, new);
            from = value + 1;
        }
    }

    /// Takes a value's new mark for a rule, which differs, into the counts and firsts, where those of the values
    /// before are taken in.
    fn count(&mut self, place: usize, values: usize, value: usize, new: &Marks)
        requires place { place < length self.old.rows.items }
        requires value { value < values }
        requires counted { length self.old.counts.items ≡ values }
        requires grid { IsGrid (mixed_rows values self.old.rows.items place new.now value) values self.old.counts.items self.old.firsts.items }
        requires sized { AreSized values self.old.rows.items }
        requires size { FitsSize values new.now }
        requires differs { is_marked new.now value ≢ is_marked_at self.old.rows.items place value }
        ensures grid { IsGrid (mixed_rows values self.new.rows.items place new.now (value + 1)) values self.new.counts.items self.new.firsts.items }
        ensures size { length self.new.counts.items ≡ length self.old.counts.items }
        ensures rows { self.new.rows.items ≡ self.old.rows.items }
    {
        if new.has(values, value) {
            self.gain(place, values, value);
        } else {
            self.lose(place, values, value);
        }
    }

    /// Takes into the counts and firsts that the rule rules out the value.
    fn gain(&mut self, place: usize, values: usize, value: usize)
        requires place { place < length self.old.rows.items }
        requires value { value < length self.old.counts.items }
        requires counts { CountsRow values place value false self.old.rows.items self.old.counts.items self.old.firsts.items }
        ensures grid { CountsMark values place value true self.old.rows.items self.old.counts.items self.old.firsts.items self.new.counts.items self.new.firsts.items }
        ensures size { length self.new.counts.items ≡ length self.old.counts.items }
        ensures rows { self.new.rows.items ≡ self.old.rows.items }
    {
        self.counts[value] += 1;
        self.firsts[value] = with_place(self.firsts[value], place as u32);
    }

    /// Takes into the counts and firsts that the rule no longer rules out the value.
    fn lose(&mut self, place: usize, values: usize, value: usize)
        requires place { place < length self.old.rows.items }
        requires value { value < length self.old.counts.items }
        requires sized { AreSized values self.old.rows.items }
        requires counts { CountsRow values place value true self.old.rows.items self.old.counts.items self.old.firsts.items }
        ensures grid { CountsMark values place value false self.old.rows.items self.old.counts.items self.old.firsts.items self.new.counts.items self.new.firsts.items }
        ensures size { length self.new.counts.items ≡ length self.old.counts.items }
        ensures rows { self.new.rows.items ≡ self.old.rows.items }
    {
        self.counts[value] -= 1;
        let count = self.counts[value];
        let first = self.firsts[value];
        let cell = Cell {
            values,
            value,
            place,
        };
        self.firsts[value] = first_without(&self.rows, cell, count, first);
    }
}

/// Puts a span in place of a span.
#[inline(always)]
fn store(marks: &mut Marks, span: Span)
    requires { is_row marks.old ≡ false }
    ensures sized { (size : ℕ) → FitsSize size marks.new }
    ensures marks { (k : ℕ) → is_marked marks.new k ≡ is_within span k }
    ensures row { is_row marks.new ≡ is_row marks.old }
{
    if let Marks::Span(own) = marks {
        *own = span;
    }
}

/// The one of so many values at most that each of them marks, if both are such spans.
#[inline(always)]
fn change_to(old: &Marks, span: Span, values: usize) -> Option<Change>
    ensures { IfSome result (IsChange values old.now span) }
{
    let before = few_of(old, values)?;
    let after = few_in(span, values)?;
    Some(Change { before, after })
}

/// Which of so many values the marks mark, if they are a span of one at most.
#[inline(always)]
fn few_of(marks: &Marks, values: usize) -> Option<Few>
    ensures span { IfSome result (λ few. is_row marks.now ≡ false) }
    ensures few { IfSome result (λ few. IsBelow values few) }
    ensures same { IfSome result (λ few. (k : ℕ) → k < values → is_marked marks.now k ≡ is_only few k) }
{
    match marks {
        Marks::Span(span) => few_in(*span, values),
        Marks::Row(_) => None,
    }
}

/// Which of so many places the span has, if it has one at most.
#[inline(always)]
fn few_in(span: Span, values: usize) -> Option<Few>
    ensures few { IfSome result (λ few. IsBelow values few) }
    ensures same { IfSome result (λ few. (k : ℕ) → k < values → is_within span k ≡ is_only few k) }
{
    if span.outside != 0 {
        return None;
    }
    if span.from >= span.to || span.from >= values {
        return Some(Few::Nothing);
    }
    if span.to - span.from > 1 {
        return None;
    }
    Some(Few::Only(span.from))
}

/// The first place, where this one is added.
fn with_place(first: Option<u32>, place: u32) -> Option<u32>
    ensures { (p q : ℕ → Bool) (count : ℕ) → IsFirst p count first → place < count → q place ≡ true → ((j : ℕ) → j ≢ place → p j ≡ q j) → IsFirst q count result }
{
    match first {
        None => Some(place),
        Some(first) => Some(first.min(place)),
    }
}

/// The first rule that rules the value out, where the one at a place no longer does, and so many do.
fn first_without(rows: &[Marks], cell: Cell, count: u32, first: Option<u32>) -> Option<u32>
    requires few { length rows.now < 2 ^ 32 }
    requires place { cell.place < length rows.now }
    requires value { cell.value < cell.values }
    requires sized { AreSized cell.values rows.now }
    ensures { IsFirstAfter rows.now cell count first result }
{
    if first == Some(cell.place as u32) {
        next_marking(rows, cell, count)
    } else {
        first
    }
}

/// The first rule after a place that rules the value out, where so many rules do.
fn next_marking(rows: &[Marks], cell: Cell, count: u32) -> Option<u32>
    requires few { length rows.now < 2 ^ 32 }
    requires place { cell.place < length rows.now }
    requires value { cell.value < cell.values }
    requires sized { AreSized cell.values rows.now }
    ensures { (q : ℕ → Bool) → NoneUpTo cell.place q → AreMarksBehind rows.now cell.value cell.place q → NoneIfUncounted count rows.now q → IsFirst q (length rows.now) result }
{
    if count == 0 {
        return None;
    }
    for next in cell.place + 1..rows.len() {
        if rows[next].has(cell.values, cell.value) {
            return Some(next as u32);
        }
    }
    None
}

/// Goes over the rules for the first that rules the value out, and tells how far the values from this one on have
/// the same one.
fn run_over(rows: &[Marks], values: usize, value: usize) -> ValueRun
    requires few { length rows.now < 2 ^ 32 }
    requires value { value < values }
    requires sized { AreSized values rows.now }
    ensures { IsValueRun (rows_of values rows.now) (length rows.now) values value result.first result.end }
{
    let mut end = values;
    for place in 0..rows.len() {
        end = end.min(rows[place].end_of_run(values, value));
        if rows[place].has(values, value) {
            return ValueRun {
                first: Some(place as u32),
                end,
            };
        }
    }
    ValueRun { first: None, end }
}

/// How many of the values are counted: all, or none where there are many for each rule.
fn counted_values(empty: &OwnedRules) -> usize
    ensures { AreCounted empty.now.values result }
{
    if empty.values <= COUNTED || empty.values / COUNTED_BY_RULE <= empty.rules.len() {
        empty.values
    } else {
        0
    }
}

/// For each of these rules marks of no value, as bits only where its values need not stand in one span.
fn empty_rows(alloc: Global, empty: &OwnedRules) -> Result<Vec<Marks>, Memory>
    requires { All (λ rule. rule < length empty.now.problem.now.rules) empty.now.rules.now }
    ensures rules { IfOk result (λ rows. length rows.items ≡ length empty.now.rules.now) }
    ensures sized { IfOk result (λ rows. AreSized empty.now.values rows.items) }
    ensures none { IfOk result (λ rows. (place value : ℕ) → place < length rows.items → is_marked_at rows.items place value ≡ false) }
    ensures room { IfOk result (λ rows. HaveRoom empty.now.problem.now empty.now.agent empty.now.rules.now rows.items) }
{
    let Ok(mut rows) = Vec::with_capacity(alloc, empty.rules.len()) else {
        return Err(Memory);
    };
    for rule in empty.rules {
        let row = empty_row(alloc, empty, *rule)?;
        let Ok(()) = rows.push(row) else {
            return Err(Memory);
        };
    }
    Ok(rows)
}

/// Marks of no value, as bits only where the rule's values need not stand in one span.
fn empty_row(alloc: Global, empty: &OwnedRules, rule: u32) -> Result<Marks, Memory>
    requires { rule < length empty.now.problem.now.rules }
    ensures sized { IfOk result (FitsSize empty.now.values) }
    ensures none { IfOk result (λ marks. (value : ℕ) → is_marked marks value ≡ false) }
    ensures room { IfOk result (λ marks. IsTrue (has_span empty.now.agent (rule_at empty.now.problem.now rule) || is_row marks)) }
{
    if has_span(empty.problem, rule, empty.agent) {
        return Ok(Marks::Span(Span::whole(false)));
    }
    Ok(Marks::Row(Row::new(alloc, empty.values)?))
}

/// No row, for each of so many values.
fn no_firsts(alloc: Global, values: usize) -> Result<Vec<Option<u32>>, Memory>
    ensures size { IfOk result (λ firsts. length firsts.items ≡ values) }
    ensures none { IfOk result (λ firsts. (k : ℕ) → slice_index_or firsts.items k None ≡ None) }
{
    vec![in alloc; None; values]
}

/// No row, for each of so many values.
fn no_counts(alloc: Global, values: usize) -> Result<Vec<u32>, Memory>
    ensures size { IfOk result (λ counts. length counts.items ≡ values) }
    ensures none { IfOk result (λ counts. (k : ℕ) → slice_index_or counts.items k 0 ≡ 0) }
{
    vec![in alloc; 0; values]
}
