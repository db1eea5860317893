//! A sink in memory whose calls can be made to fail.

ghost use Rattle.std.specs.Prelude.{◌≡◌, ℕ, ◌≤◌, ◌↔◌, [], ◌∷◌, ◌++◌, OnOk, OnErr, IsErrOf, IsTrue, false};
ghost use Rattle.dcsp_outside.specs.Outside.{AddsPartOf};
ghost use Rattle.dcsp_outside.specs.Memory.{fails_next, kept_of, is_put_failure, after_call, lacks_after};

use crate::call_plan::{CallPlan, Failure};
use crate::kept_files::first_of;
use crate::sink::{Sink, SinkError};
use dcsp_common::Memory;
use std::alloc::Global;
use std::marker::Model;

/// A sink in memory whose calls can be made to fail.
///
/// Calls of `put` are counted from 1 up to `2^64 - 1`, where the number stays. A call fails exactly
/// where [`MemorySink::fail_at`] or [`MemorySink::fail_after`] named its number, and then writes
/// nothing but what `fail_after` lets it keep.
#[derive(Drop)]
pub struct MemorySink {
    written: Vec<u8>,
    calls: CallPlan,
    lacks: u64,
}

impl Model for MemorySink {
    ghost use Rattle.dcsp_outside.specs.Outside.{AddsPartOf};
    ghost use Rattle.dcsp_outside.specs.Memory.{SinkState};

    ghost Value = { SinkState };

    ghost view = { λ sink. record { written = sink.written.items; calls = sink.calls; lacks = sink.lacks } };
}

impl MemorySink {
    /// A sink on which nothing was written and that was not called.
    pub fn new(alloc: Global) -> MemorySink
        ensures written { result.written ≡ [] }
        ensures calls { result.calls ≡ record { made = 0; failing = []; faults = 0 } }
        ensures lacks { result.lacks ≡ 0 }
    {
        MemorySink {
            written: Vec::new(alloc),
            calls: CallPlan::new(alloc),
            lacks: 0,
        }
    }

    /// All bytes that were written.
    pub fn bytes(&self) -> &[u8]
        ensures { result.now ≡ self.now.written }
    {
        &self.written
    }

    /// Lets call number `call` fail, counted from 1.
    pub fn fail_at(&mut self, call: u64) -> Result<(), Memory>
        ensures ok { OnOk result (self.new.calls ≡ record self.old.calls {
          failing = self.old.calls.failing ++ record { call = call; kept = 0 } ∷ [];
        }) }
        ensures err { OnErr result (self.new.calls ≡ self.old.calls) }
        ensures written { self.new.written ≡ self.old.written }
        ensures lacks { self.new.lacks ≡ self.old.lacks }
    {
        self.fail_after(call, 0)
    }

    /// Lets call number `call` fail, counted from 1. The first `kept` bytes of its piece are written
    /// last, or all where they are fewer; for want of memory for these it answers `Memory`. Where a call
    /// is named twice, the first counts.
    pub fn fail_after(&mut self, call: u64, kept: usize) -> Result<(), Memory>
        ensures ok { OnOk result (self.new.calls ≡ record self.old.calls {
          failing = self.old.calls.failing ++ record { call = call; kept = kept } ∷ [];
        }) }
        ensures err { OnErr result (self.new.calls ≡ self.old.calls) }
        ensures written { self.new.written ≡ self.old.written }
        ensures lacks { self.new.lacks ≡ self.old.lacks }
    {
        self.calls.add(Failure { call, kept })
    }

    /// How many calls have failed, up to `2^64 - 1`, where the number stays.
    pub fn faults(&self) -> u64
        ensures { result ≡ self.now.calls.faults }
    {
        self.calls.faults()
    }

    /// Writes the bytes last.
    fn write(&mut self, bytes: &[u8]) -> Result<(), SinkError>
        ensures ok { OnOk result (self.new.written ≡ self.old.written ++ bytes.now) }
        ensures err { OnErr result (self.new.written ≡ self.old.written) }
        ensures memory { IsErrOf result SinkError.Failed → ⊥ }
        ensures calls { self.new.calls ≡ self.old.calls }
        ensures lacks { self.new.lacks ≡ lacks_after self.old.lacks result }
        ensures lacks_rise { self.old.lacks ≤ self.new.lacks }
    {
        match self.written.extend_from_slice(bytes) {
            Ok(()) => Ok(()),
            Err(_) => {
                self.lacks = self.lacks.saturating_add(1);
                Err(SinkError::Memory)
            }
        }
    }
}

impl Sink for MemorySink {
    ghost use Rattle.std.specs.Prelude.{Some};

    ghost stream = { λ sink. record { written = Some sink.written; faults = sink.calls.faults; lacks = sink.lacks } };

    fn put(&mut self, bytes: &[u8]) -> Result<(), SinkError>
        ensures goes_through { OnOk result (fails_next self.old.calls ≡ false) }
        ensures fails { IsErrOf result SinkError.Failed → IsTrue (fails_next self.old.calls) }
        ensures calls { self.new.calls ≡ after_call self.old.calls (is_put_failure result) }
        ensures never_falls { self.old.calls.faults ≤ self.new.calls.faults }
        ensures ok { OnOk result (self.new.written ≡ self.old.written ++ bytes.now) }
        ensures failed { IsErrOf result SinkError.Failed
            → self.new.written ≡ self.old.written ++ kept_of self.old.calls bytes.now }
        ensures part { IsErrOf result SinkError.Failed
            → AddsPartOf bytes.now self.old.written self.new.written }
        ensures memory { IsErrOf result SinkError.Memory → self.new.written ≡ self.old.written }
        ensures lacks { self.new.lacks ≡ lacks_after self.old.lacks result }
        ensures lacks_rise { self.old.lacks ≤ self.new.lacks }
    {
        let Some(kept) = self.calls.count_call() else {
            return self.write(bytes);
        };
        self.write(first_of(bytes, kept))?;
        self.calls.count_fault();
        Err(SinkError::Failed)
    }
}
