//! A sink that takes bytes.

ghost use Rattle.std.specs.Prelude.{◌≡◌, ◌≤◌, ◌++◌, OnOk, IsErrOf};
ghost use Rattle.dcsp_outside.specs.Outside.{Stream, Rose, UnlessPutFailed, UnlessPutLacked, Told, AddsPartOf};

/// Why a sink refused a piece.
#[derive(Clone, Copy, Debug, PartialEq, Eq)]
pub enum SinkError {
    /// The sink failed, and counted it.
    Failed,
    /// Want of memory.
    Memory,
}

/// A sink: bytes are written at its end.
///
/// What was written may be left untold, as a terminal leaves it; the clauses on bytes speak of
/// sinks that tell it. The counts of failures and of refusals for want of memory never fall, and a
/// call that does not answer `Failed`, or `Memory`, leaves that count as it was.
pub trait Sink {
    /// The sink as contracts see it.
    ghost stream: { Self → Stream };

    /// Writes the bytes last. After `Failed` some first bytes of them, or none, were written.
    fn put(&mut self, bytes: &[u8]) -> Result<(), SinkError>
        ensures ok { OnOk result (Told (stream self.old).written (stream self.new).written
            (λ old new. new ≡ old ++ bytes.now)) }
        ensures failed { IsErrOf result SinkError.Failed → Told (stream self.old).written (stream self.new).written
            (AddsPartOf bytes.now) }
        ensures memory { IsErrOf result SinkError.Memory → (stream self.new).written ≡ (stream self.old).written }
        ensures faults { (stream self.old).faults ≤ (stream self.new).faults }
        ensures count { UnlessPutFailed result ((stream self.new).faults ≡ (stream self.old).faults) }
        ensures cause { IsErrOf result SinkError.Failed → Rose (stream self.old).faults (stream self.new).faults }
        ensures lacks { (stream self.old).lacks ≤ (stream self.new).lacks }
        ensures lack_count { UnlessPutLacked result ((stream self.new).lacks ≡ (stream self.old).lacks) }
        ensures lack { IsErrOf result SinkError.Memory → Rose (stream self.old).lacks (stream self.new).lacks };
}
