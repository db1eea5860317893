//! A run over the medium on its way.

ghost use Rattle.std.specs.Prelude.{◌≡◌, ◌<◌, ◌≤◌, ◌+◌, ◌^◌, ◌++◌, ℕ, List, [], ◌∷◌, length, false, Contains, IfOk, OnErr, OnOk, Err, option_to_list};
ghost use Rattle.dcsp_outside.specs.Outside.{Place, Stream};
ghost use Rattle.dcsp_rule.specs.Problems.{csp_of};
ghost use Rattle.dcsp_script.specs.Scripts.{Append, Create, outside};
ghost use Rattle.dcsp_script.specs.Ways.{Wrote};
ghost use Rattle.law_runs.specs.LossyEnds.{calm_word, has_verdict};
ghost use Rattle.abt_network.specs.Standing.{standing_in, steps_of};
ghost use Rattle.abt_lossy.specs.InWorld.{reached, CanHappen};
ghost use Rattle.abt_schedule.specs.Answers.{word_at};
ghost use Rattle.abt_session.specs.Running.{kept};
ghost use Rattle.abt_session.specs.Sessions.{begun_script};
ghost use Rattle.line_lossy.specs.Asked.{log_script};
ghost use Rattle.line_lossy.specs.Asking.{steps_by, words_by};

use abt_lossy::{Begun, Lossy, Standing, Step};
use abt_schedule::{ChoiceList, Choices, Seeded};
use abt_session::{append_begun, append_made, begun_told, step_told};
use dcsp_order::Order;
use dcsp_outside::Folder;
use dcsp_script::{Stop, append, create};
use ngd_log::{HEAD, TAIL};
use std::alloc::Global;

/// A run over the medium on its way.
#[derive(Drop)]
pub struct LossyRunner<'p, 'w> {
    pub alloc: Global,
    /// The order whose numbers tell the run, where it is one under an order.
    pub order: Option<&'p Order>,
    pub medium: Lossy<'p>,
    /// The name of the log.
    pub log: &'w str,
    /// Whether the numbers of what is handed up are taken down.
    pub keep: bool,
    pub taken: ChoiceList,
    /// How many messages were handed up.
    pub deliveries: u64,
    /// How many steps were made.
    pub steps: u64,
    /// Where lines are made.
    pub line: Vec<u8>,
}

impl<'p, 'w> LossyRunner<'p, 'w> {
    ghost use Rattle.line_lossy.specs.Runners.{calmed, order_of, seeded_until_verdict, writes_between, HasMade, SameTask};

    /// Makes the whole run, and its log: the events of the seed, so many of them, and then calm ones, at most
    /// `most`, until a verdict stands.
    pub fn run<F: Folder>(
        &mut self,
        seed: u64,
        events: u32,
        most: u64,
        folder: &mut F,
    ) -> Result<(), Stop>
        requires few { most ≤ 2 ^ 40 }
        requires sound { self.old.medium.spent ≡ false }
        requires fresh { self.old.medium.begun ≡ false }
        requires none { (self.old.steps ≡ 0) × (self.old.deliveries ≡ 0) × (self.old.taken ≡ []) }
        ensures wrote { (out : Stream) → Wrote (log_script self.old.log.now (steps_by self.old (words_by self.old seed events most)))
            (outside (F.place folder.old) out) (outside (F.place folder.new) out) result }
        ensures made { OnOk result (HasMade (words_by self.old seed events most) self.new) }
        ensures same { SameTask self.old self.new }
    {
        self.begin(folder)?;
        self.make_seeded(Seeded::new(seed), events, folder)?;
        self.make_calm(most, folder)?;
        append(folder, self.log, TAIL)
    }

    /// Begins the log, and starts the agents.
    fn begin<F: Folder>(&mut self, folder: &mut F) -> Result<(), Stop>
        requires sound { self.old.medium.spent ≡ false }
        requires fresh { self.old.medium.begun ≡ false }
        requires none { (self.old.steps ≡ 0) × (self.old.deliveries ≡ 0) × (self.old.taken ≡ []) }
        ensures wrote { (out : Stream) → Wrote (begun_script (order_of self.old) (csp_of self.old.medium.problem) self.old.log.now)
            (outside (F.place folder.old) out) (outside (F.place folder.new) out) result }
        ensures made { OnOk result (HasMade [] self.new) }
        ensures same { SameTask self.old self.new }
        ensures created { OnOk result (Contains (F.place folder.new).created self.old.log.now) }
    {
        create(folder, self.log)?;
        append(folder, self.log, HEAD)?;
        let Ok(begun) = self.medium.start() else {
            return Err(Stop::Memory);
        };
        self.steps = steps_in(&begun);
        let Ok(told) = begun_told(self.alloc, self.order, begun) else {
            return Err(Stop::Memory);
        };
        append_begun(folder, self.log, &told, &mut self.line)
    }

    /// Makes the events of these words, so many of them, until a verdict stands.
    fn make_seeded<F: Folder>(
        &mut self,
        words: Seeded,
        events: u32,
        folder: &mut F,
    ) -> Result<(), Stop>
        requires created { Contains (F.place folder.old).created self.old.log.now }
        requires made { HasMade [] self.old }
        ensures wrote { (out : Stream) → Wrote (writes_between self.old [] (seeded_until_verdict self.old.medium words events))
            (outside (F.place folder.old) out) (outside (F.place folder.new) out) result }
        ensures made { OnOk result (HasMade (seeded_until_verdict self.old.medium words events) self.new) }
        ensures same { SameTask self.old self.new }
        ensures created { (F.place folder.new).created ≡ (F.place folder.old).created }
    {
        let mut words = words;
        for _made in 0..events {
            if self.is_over() {
                return Ok(());
            }
            let word = next_word(&mut words);
            self.make_event(word, folder)?;
        }
        Ok(())
    }

    /// Makes calm events, at most so many, until a verdict stands: the first packet of the pool is delivered; where
    /// there is none, the first pair sends that may.
    fn make_calm<F: Folder>(&mut self, most: u64, folder: &mut F) -> Result<(), Stop>
        requires created { Contains (F.place folder.old).created self.old.log.now }
        requires made { (words : List ℕ) × HasMade words self.old }
        requires few { self.old.medium.events + most < 2 ^ 48 }
        ensures wrote { (words : List ℕ) (out : Stream) → HasMade words self.old → Wrote (writes_between self.old words (calmed self.old.medium words most))
            (outside (F.place folder.old) out) (outside (F.place folder.new) out) result }
        ensures made { (words : List ℕ) → HasMade words self.old → OnOk result (HasMade (calmed self.old.medium words most) self.new) }
        ensures same { SameTask self.old self.new }
        ensures created { (F.place folder.new).created ≡ (F.place folder.old).created }
    {
        for _made in 0..most {
            if self.is_over() {
                return Ok(());
            }
            let word = self.next_calm();
            self.make_event(word, folder)?;
        }
        Ok(())
    }

    /// Whether a verdict stands.
    fn is_over(&self) -> bool
        ensures over { (words : List ℕ) → HasMade words self.now → result ≡ has_verdict (csp_of self.now.medium.problem) (reached self.now.medium words) }
        ensures open_ { result ≡ false → standing_in self.now.medium.network ≡ Standing.Open }
    {
        match self.medium.state() {
            Standing::Refuted => true,
            Standing::Quiet => true,
            Standing::Open => false,
        }
    }

    /// The word of the next calm event.
    fn next_calm(&self) -> u32
        ensures { (words : List ℕ) → HasMade words self.now → result ≡ calm_word (reached self.now.medium words) }
    {
        if self.medium.pool() == 0 { 0 } else { 1 }
    }

    /// Makes one event: the line of its step is appended, and what it handed up is taken down.
    fn make_event<F: Folder>(&mut self, word: u32, folder: &mut F) -> Result<(), Stop>
        requires created { Contains (F.place folder.old).created self.old.log.now }
        requires made { (words : List ℕ) × HasMade words self.old }
        requires can { CanHappen self.old.medium }
        ensures wrote { (words : List ℕ) (out : Stream) → HasMade words self.old → Wrote (writes_between self.old words (words ++ word ∷ []))
            (outside (F.place folder.old) out) (outside (F.place folder.new) out) result }
        ensures made { (words : List ℕ) → HasMade words self.old → OnOk result (HasMade (words ++ word ∷ []) self.new) }
        ensures same { SameTask self.old self.new }
        ensures created { (F.place folder.new).created ≡ (F.place folder.old).created }
    {
        let Ok(happened) = self.medium.event(word) else {
            return Err(Stop::Memory);
        };
        self.count_step(&happened.step);
        let Ok(told) = step_told(self.alloc, self.order, happened.step) else {
            return Err(Stop::Memory);
        };
        append_made(folder, self.log, self.steps, told.as_ref(), &mut self.line)?;
        self.take_down(happened.delivered)
    }

    /// Counts the step, if one was made.
    fn count_step(&mut self, step: &Option<Step>)
        requires { self.old.steps < 2 ^ 62 }
        ensures steps { self.new.steps ≡ self.old.steps + length (option_to_list step.now) }
        ensures same { SameTask self.old self.new }
        ensures medium { self.new.medium ≡ self.old.medium }
        ensures taken { (self.new.taken ≡ self.old.taken) × (self.new.deliveries ≡ self.old.deliveries) }
    {
        if step.is_some() {
            self.steps += 1;
        }
    }

    /// Counts what was handed up, and takes its number down, where that is asked for.
    fn take_down(&mut self, delivered: Option<u32>) -> Result<(), Stop>
        requires { self.old.deliveries < 2 ^ 62 }
        ensures taken { OnOk result (self.new.taken ≡ self.old.taken ++ kept self.old.keep (option_to_list delivered)) }
        ensures deliveries { self.new.deliveries ≡ self.old.deliveries + length (option_to_list delivered) }
        ensures only_memory { OnErr result (result ≡ Err Stop.Memory) }
        ensures same { SameTask self.old self.new }
        ensures medium { (self.new.medium ≡ self.old.medium) × (self.new.steps ≡ self.old.steps) }
    {
        let Some(number) = delivered else {
            return Ok(());
        };
        self.deliveries += 1;
        if !self.keep {
            return Ok(());
        }
        self.taken.push(number)?;
        Ok(())
    }
}

/// How many steps a start told of.
fn steps_in(begun: &Begun) -> u64
    ensures { result ≡ length (steps_of begun.now) }
{
    match begun {
        Begun::Running => 0,
        Begun::Refuted(_) => 1,
    }
}

/// The next word of the seed.
fn next_word(words: &mut Seeded) -> u32
    ensures first { result ≡ word_at words.old 0 }
    ensures rest { (k : ℕ) → word_at words.new k ≡ word_at words.old (k + 1) }
{
    words.next().unwrap_or(0)
}
