//! A run on its way.

ghost use Rattle.std.specs.Prelude.{◌≡◌, ◌<◌, ◌≤◌, ◌+◌, ◌^◌, ◌++◌, ℕ, [], ◌∷◌, true, false, Contains, IfSome, OnOk, OnErr, Err, option_to_list};
ghost use Rattle.dcsp_defs.specs.Csp.{IsCsp};
ghost use Rattle.abt_defs.specs.Network.{Network as TheNetwork, deliver, start};
ghost use Rattle.law_runs.specs.Stops.{list_number};
ghost use Rattle.dcsp_outside.specs.Outside.{Place, Stream};
ghost use Rattle.dcsp_rule.specs.Problems.{csp_of};
ghost use Rattle.dcsp_problem.specs.WellFormed.{IsProblem};
ghost use Rattle.dcsp_script.specs.Outsides.{world};
ghost use Rattle.dcsp_script.specs.Scripts.{outside};
ghost use Rattle.dcsp_script.specs.Ways.{Wrote};
ghost use Rattle.ngd_log.specs.StepText.{IsInRange};
ghost use Rattle.abt_network.specs.Standing.{delivery_of, CanDeliver, StandsAt};
ghost use Rattle.abt_network.specs.Rooms.{delivery_in, made_in};
ghost use Rattle.abt_session.specs.Sessions.{begun_script, choice_writes, deliveries_write, step_writes, telling_writes};
ghost use Rattle.abt_session.specs.Running.{kept, order_of, session_for, IsOnRun};

use crate::lines::{Made, append_begun, append_made, put_delivery};
use crate::session::RunTask;
use crate::told::{begun_told, tell_delivery};
use abt_defs::End;
use abt_network::{DeliveryRoom, Network, Standing};
use abt_schedule::{ChoiceList, Choices};
use dcsp_outside::{Folder, Sink};
use dcsp_script::{Outside, Stop, append, create};
use ngd_log::HEAD;
use std::alloc::Global;

/// A run on its way.
#[derive(Drop)]
pub struct Runner<'p, 'w> {
    pub network: Network<'p>,
    pub task: RunTask<'w>,
    /// The last delivery, in whose place the next one is told.
    pub room: DeliveryRoom,
    /// The numbers of the lists that were delivered from, where they are kept.
    pub taken: ChoiceList,
    /// Where lines are made.
    pub line: Vec<u8>,
    pub alloc: Global,
}

impl<'p, 'w> Runner<'p, 'w> {
    ghost use Rattle.abt_session.specs.Runners.{Leaves, SameTask};

    /// Begins the log, and starts the agents.
    pub fn begin<F: Folder>(&mut self, folder: &mut F) -> Result<(), Stop>
        requires sound { self.old.network.spent ≡ false }
        requires fresh { self.old.network.begun ≡ false }
        ensures wrote { (out : Stream) → Wrote (begun_script (order_of self.old.task) (csp_of self.old.network.problem) self.old.task.log.now)
            (outside (F.place folder.old) out) (outside (F.place folder.new) out) result }
        ensures stands { OnOk result (StandsAt self.new.network (start (csp_of self.old.network.problem))) }
        ensures same { SameTask self.old self.new }
        ensures taken { self.new.taken ≡ self.old.taken }
        ensures sound { OnOk result (self.new.network.spent ≡ false) }
        ensures begun { OnOk result (self.new.network.begun ≡ true) }
        ensures created { OnOk result (Contains (F.place folder.new).created self.old.task.log.now) }
    {
        create(folder, self.task.log)?;
        append(folder, self.task.log, HEAD)?;
        let begun = self.network.start()?;
        let told = begun_told(self.alloc, self.task.model.order, begun)?;
        append_begun(folder, self.task.log, &told, &mut self.line)
    }

    /// Makes the deliveries of the run, until one of its four stops.
    pub fn deliver_all<C: Choices, F: Folder, S: Sink>(
        &mut self,
        choices: &mut C,
        outside: &mut Outside<F, S>,
    ) -> Result<End<()>, Stop>
        requires created { Contains (F.place outside.old.folder).created self.old.task.log.now }
        requires most { self.old.task.most ≤ 2 ^ 40 }
        requires sound { self.old.network.spent ≡ false }
        requires begun { self.old.network.begun ≡ true }
        requires problem { IsProblem self.old.network.problem × IsCsp (csp_of self.old.network.problem) }
        requires starts { StandsAt self.old.network (start (csp_of self.old.network.problem)) }
        ensures leaves { let s = session_for self.old.network.problem (C.answers choices.old) self.old.task in Leaves s (deliveries_write s) self.old.task.keep
            self.old.taken self.new.taken (C.answers choices.old) (C.answers choices.new) self.new.network
            (world F.place S.stream outside.old) (world F.place S.stream outside.new) result }
        ensures same { SameTask self.old self.new }
        ensures created { (F.place outside.new.folder).created ≡ (F.place outside.old.folder).created }
    {
        for _made in 0..self.task.most {
            match self.network.state() {
                Standing::Refuted => return Ok(End::Refuted),
                Standing::Quiet => return Ok(End::Solved(())),
                Standing::Open => {}
            }
            let Some(choice) = choices.next() else {
                return Ok(End::Spent);
            };
            self.deliver_one(choice, outside)?;
        }
        match self.network.state() {
            Standing::Refuted => Ok(End::Refuted),
            Standing::Quiet => Ok(End::Solved(())),
            Standing::Open => Ok(End::Capped),
        }
    }

    /// Makes one delivery: the line of its step is appended, and then what tells of it is put.
    #[inline(always)]
    fn deliver_one<F: Folder, S: Sink>(
        &mut self,
        choice: u32,
        outside: &mut Outside<F, S>,
    ) -> Result<(), Stop>
        requires created { Contains (F.place outside.old.folder).created self.old.task.log.now }
        requires sound { self.old.network.spent ≡ false }
        requires can { CanDeliver self.old.network }
        requires problem { IsProblem self.old.network.problem × IsCsp (csp_of self.old.network.problem) }
        requires on_run { IsOnRun self.old.network }
        ensures wrote { (net : TheNetwork) → StandsAt self.old.network net
            → Wrote (choice_writes (order_of self.old.task) (csp_of self.old.network.problem) self.old.task.log.now self.old.task.telling (net.deliveries + 1) choice net)
            (world F.place S.stream outside.old) (world F.place S.stream outside.new) result }
        ensures stands { (net : TheNetwork) → StandsAt self.old.network net
            → OnOk result (StandsAt self.new.network (deliver (csp_of self.old.network.problem) choice net)) }
        ensures takes { (net : TheNetwork) → StandsAt self.old.network net
            → OnOk result (self.new.taken ≡ self.old.taken ++ kept self.old.task.keep (list_number (csp_of self.old.network.problem) choice net ∷ [])) }
        ensures same { SameTask self.old self.new }
        ensures sound { OnOk result (self.new.network.spent ≡ false) }
        ensures begun { OnOk result (self.new.network.begun ≡ true) }
        ensures created { (F.place outside.new.folder).created ≡ (F.place outside.old.folder).created }
    {
        let Ok(()) = self.network.deliver_into(choice, &mut self.room) else {
            return Err(Stop::Memory);
        };
        let number = self.room.number;
        let Ok(()) = tell_delivery(self.alloc, self.task.model.order, &mut self.room) else {
            return Err(Stop::Memory);
        };
        self.write_made(outside)?;
        self.take_down(number)
    }

    /// Writes what the last delivery writes.
    #[inline(always)]
    fn write_made<F: Folder, S: Sink>(&mut self, outside: &mut Outside<F, S>) -> Result<(), Stop>
        requires created { Contains (F.place outside.old.folder).created self.old.task.log.now }
        requires sound { self.old.network.spent ≡ false }
        requires number { IfSome (made_in self.old.room) (λ s. 0 < self.old.network.steps) }
        requires in_range { IfSome (made_in self.old.room) IsInRange }
        ensures wrote { Wrote (step_writes self.old.task.log.now self.old.network.steps (option_to_list (made_in self.old.room))
            ++ telling_writes self.old.task.telling self.old.network.deliveries self.old.network.steps (delivery_of (delivery_in self.old.room) ∷ []))
            (world F.place S.stream outside.old) (world F.place S.stream outside.new) result }
        ensures same { SameTask self.old self.new }
        ensures network { self.new.network ≡ self.old.network }
        ensures taken { self.new.taken ≡ self.old.taken }
        ensures created { (F.place outside.new.folder).created ≡ (F.place outside.old.folder).created }
    {
        let steps = self.network.steps();
        append_made(
            &mut outside.folder,
            self.task.log,
            steps,
            self.room.made(),
            &mut self.line,
        )?;
        let made = Made {
            number: self.network.deliveries(),
            steps,
            delivery: &self.room,
        };
        put_delivery(&mut outside.out, self.task.telling, made, &mut self.line)
    }

    /// Takes the number of a list down, where that is asked for.
    fn take_down(&mut self, number: u32) -> Result<(), Stop>
        ensures ok { OnOk result (self.new.taken ≡ self.old.taken ++ kept self.old.task.keep (number ∷ [])) }
        ensures only_memory { OnErr result (result ≡ Err Stop.Memory) }
        ensures same { SameTask self.old self.new }
        ensures network { self.new.network ≡ self.old.network }
    {
        if !self.task.keep {
            return Ok(());
        }
        self.taken.push(number)?;
        Ok(())
    }
}
