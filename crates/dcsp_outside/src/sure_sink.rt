//! A sink in memory that never fails.

ghost use Rattle.std.specs.Prelude.{◌≡◌, ◌≤◌, ℕ, [], ◌++◌, OnOk, OnErr, IsErrOf};
ghost use Rattle.dcsp_outside.specs.Memory.{lacks_after};

use crate::sink::{Sink, SinkError};
use std::alloc::Global;
use std::marker::Model;

/// A sink in memory that never fails.
#[derive(Drop)]
pub struct SureSink {
    written: Vec<u8>,
    lacks: u64,
}

impl Model for SureSink {
    ghost use Rattle.dcsp_outside.specs.Memory.{SureSinkState};

    ghost Value = { SureSinkState };

    ghost view = { λ sink. record { written = sink.written.items; lacks = sink.lacks } };
}

impl SureSink {
    /// A sink on which nothing was written.
    pub fn new(alloc: Global) -> SureSink
        ensures { result ≡ record { written = []; lacks = 0 } }
    {
        SureSink {
            written: Vec::new(alloc),
            lacks: 0,
        }
    }

    /// All bytes that were written.
    pub fn bytes(&self) -> &[u8]
        ensures { result.now ≡ self.now.written }
    {
        &self.written
    }
}

impl Sink for SureSink {
    ghost use Rattle.std.specs.Prelude.{Some};

    ghost stream = { λ sink. record { written = Some sink.written; faults = 0; lacks = sink.lacks } };

    fn put(&mut self, bytes: &[u8]) -> Result<(), SinkError>
        ensures ok { OnOk result (self.new.written ≡ self.old.written ++ bytes.now) }
        ensures err { OnErr result (self.new.written ≡ self.old.written) }
        ensures lacks { self.new.lacks ≡ lacks_after self.old.lacks result }
        ensures lacks_rise { self.old.lacks ≤ self.new.lacks }
        ensures never_fails { IsErrOf result SinkError.Failed → ⊥ }
    {
        match self.written.extend_from_slice(bytes) {
            Ok(()) => Ok(()),
            Err(_) => {
                self.lacks = self.lacks.saturating_add(1);
                Err(SinkError::Memory)
            }
        }
    }
}
