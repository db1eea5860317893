//! A run that is told as it is made.

ghost use Rattle.std.specs.Prelude.{◌≡◌, ◌≤◌, ◌∷◌, ◌++◌, ◌^◌, ℕ, [], Contains, List, OnOk, false, length, true};
ghost use Rattle.dcsp_outside.specs.Outside.{Place, Stream};
ghost use Rattle.dcsp_script.specs.Scripts.{Append, Put, outside};
ghost use Rattle.dcsp_script.specs.Ways.{Wrote};
ghost use Rattle.abt_defs.specs.Network.{Network as TheNetwork, start};
ghost use Rattle.abt_defs.specs.Runs.{whole};
ghost use Rattle.abt_network.specs.Standing.{reached, standing_of, CanDeliver, StandsAt};
ghost use Rattle.abt_session.specs.Answers.{first_answers};
ghost use Rattle.abt_session.specs.Ordering.{order_in};
ghost use Rattle.abt_session.specs.Running.{IsAfter};
ghost use Rattle.line_story.specs.StoryPromise.{end_line, end_word, some_write, status_at, story_line};
ghost use Rattle.line_story.specs.Telling.{begin_script, csp_told, deliveries_write, told_write, IsReady, SameTask};

use abt_input::AnswerLine;
use abt_network::{Network, Standing};
use abt_schedule::Choices;
use abt_session::Ordered;
use abt_story::{tell_delivery, tell_start};
use dcsp_outside::{Folder, Sink};
use dcsp_script::{Status, Stop, append, create, put};
use std::alloc::Global;

/// A run that is told as it is made.
#[derive(Drop)]
pub struct Teller<'p, 'w> {
    pub alloc: Global,
    /// The problem that is run, and the order whose numbers tell agents, where the run is one under an order.
    pub model: Ordered<'p>,
    pub network: Network<'p>,
    /// The name of the file that takes the story.
    pub file: &'w str,
    /// Where the lines of an event are made.
    pub text: Vec<u8>,
}

impl<'p, 'w> Teller<'p, 'w> {
    /// Begins the story, and starts the agents.
    pub fn begin<F: Folder>(&mut self, folder: &mut F) -> Result<(), Stop>
        requires sound { self.old.network.spent ≡ false }
        requires fresh { self.old.network.begun ≡ false }
        requires problem { self.old.network.problem ≡ self.old.model.problem.now }
        ensures wrote { (out : Stream) → Wrote (begin_script self.old.file.now (order_in self.old.model) (csp_told self.old))
            (outside (F.place folder.old) out) (outside (F.place folder.new) out) result }
        ensures stands { OnOk result (StandsAt self.new.network (start (csp_told self.old))) }
        ensures ready { OnOk result (IsReady self.new) }
        ensures same { SameTask self.old self.new }
        ensures created { OnOk result (Contains (F.place folder.new).created self.old.file.now) }
    {
        create(folder, self.file)?;
        append(folder, self.file, b"story 1\n")?;
        self.text.clear();
        let Ok(()) = tell_start(self.alloc, self.model, &mut self.network, &mut self.text) else {
            return Err(Stop::Memory);
        };
        append_some(folder, self.file, &self.text)
    }

    /// Makes the deliveries of the run, until one of its four stops, and appends the lines of each.
    pub fn deliver_all<C: Choices, F: Folder>(
        &mut self,
        choices: &mut C,
        most: u64,
        folder: &mut F,
    ) -> Result<(), Stop>
        requires most { most ≤ 2 ^ 40 }
        requires ready { IsReady self.old }
        requires starts { StandsAt self.old.network (start (csp_told self.old)) }
        requires created { Contains (F.place folder.old).created self.old.file.now }
        ensures wrote { (out : Stream) → Wrote (deliveries_write self.old.file.now (order_in self.old.model) (csp_told self.old) most (first_answers most (C.answers choices.old)))
            (outside (F.place folder.old) out) (outside (F.place folder.new) out) result }
        ensures stands { OnOk result (StandsAt self.new.network (whole (csp_told self.old) most (first_answers most (C.answers choices.old))).net) }
        ensures ready { OnOk result (IsReady self.new) }
        ensures same { SameTask self.old self.new }
        ensures created { (F.place folder.new).created ≡ (F.place folder.old).created }
    {
        for _made in 0..most {
            match self.network.state() {
                Standing::Open => {}
                Standing::Refuted | Standing::Quiet => return Ok(()),
            }
            let Some(choice) = choices.next() else {
                return Ok(());
            };
            self.deliver(choice, folder)?;
        }
        Ok(())
    }

    /// Makes one delivery, and appends its lines.
    fn deliver<F: Folder>(&mut self, choice: u32, folder: &mut F) -> Result<(), Stop>
        requires can { CanDeliver self.old.network }
        requires ready { IsReady self.old }
        requires on_run { (choices : List ℕ) × IsAfter self.old.network choices }
        requires created { Contains (F.place folder.old).created self.old.file.now }
        ensures wrote { (choices : List ℕ) (out : Stream) → IsAfter self.old.network choices
            → Wrote (told_write self.old choice (reached self.old.network choices))
            (outside (F.place folder.old) out) (outside (F.place folder.new) out) result }
        ensures stands { (choices : List ℕ) → IsAfter self.old.network choices → OnOk result (StandsAt self.new.network (reached self.old.network (choices ++ choice ∷ []))) }
        ensures ready { OnOk result (IsReady self.new) }
        ensures same { SameTask self.old self.new }
        ensures created { (F.place folder.new).created ≡ (F.place folder.old).created }
    {
        self.text.clear();
        let Ok(()) = tell_delivery(
            self.alloc,
            self.model,
            &mut self.network,
            choice,
            &mut self.text,
        ) else {
            return Err(Stop::Memory);
        };
        append_some(folder, self.file, &self.text)
    }

    /// Appends the last line, which says how the run ended.
    pub fn end<F: Folder>(&self, folder: &mut F) -> Result<(), Stop>
        requires ready { IsReady self.now }
        requires created { Contains (F.place folder.old).created self.now.file.now }
        ensures { (net : TheNetwork) (out : Stream) → StandsAt self.now.network net → Wrote (Append self.now.file.now (end_line (standing_of (csp_told self.now) net)) ∷ [])
            (outside (F.place folder.old) out) (outside (F.place folder.new) out) result }
    {
        let line = end_line(self.network.state());
        append(folder, self.file, line.bytes())
    }

    /// Puts how the run ended, and how many deliveries it made.
    pub fn answer<S: Sink>(&self, out: &mut S) -> Result<(), Stop>
        requires ready { IsReady self.now }
        ensures { (net : TheNetwork) (folder : Place) → StandsAt self.now.network net → Wrote (Put (story_line (standing_of (csp_told self.now) net) net.deliveries) ∷ [])
            (outside folder (S.stream out.old)) (outside folder (S.stream out.new)) result }
    {
        let line = story_line(self.network.state(), self.network.deliveries());
        put(out, line.bytes())
    }

    /// The status of the run: unfinished where a message is in transit.
    pub fn status(&self) -> Status
        requires ready { IsReady self.now }
        ensures { (net : TheNetwork) → StandsAt self.now.network net → result ≡ status_at (standing_of (csp_told self.now) net) }
    {
        match self.network.state() {
            Standing::Quiet | Standing::Refuted => Status::Good,
            Standing::Open => Status::Unfinished,
        }
    }
}

/// The last line of a story.
fn end_line(end: Standing) -> AnswerLine
    ensures { result ≡ end_line end }
{
    AnswerLine::of(b"end ").with(end_word(end)).with(b"\n")
}

/// What is told of the run.
fn story_line(end: Standing, deliveries: u64) -> AnswerLine
    ensures { result ≡ story_line end deliveries }
{
    AnswerLine::of(b"story ")
        .with(end_word(end))
        .with(b" deliveries ")
        .with_number(deliveries)
        .with(b"\n")
}

/// How a run ended, in a word.
fn end_word(end: Standing) -> &'static [u8]
    ensures word { result.now ≡ end_word end }
    ensures short { length result.now ≤ 16 }
{
    match end {
        Standing::Quiet => b"solved",
        Standing::Refuted => b"refuted",
        Standing::Open => b"open",
    }
}

/// Appends the text, if there is some.
fn append_some<F: Folder>(folder: &mut F, file: &str, text: &[u8]) -> Result<(), Stop>
    requires { Contains (F.place folder.old).created file.now }
    ensures wrote { (out : Stream) → Wrote (some_write file.now text.now) (outside (F.place folder.old) out) (outside (F.place folder.new) out) result }
    ensures created { (F.place folder.new).created ≡ (F.place folder.old).created }
{
    if text.is_empty() {
        return Ok(());
    }
    append(folder, file, text)
}
