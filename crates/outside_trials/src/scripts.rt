//! A log that is written bit by bit, over a folder in memory.

ghost use Rattle.std.specs.Prelude.{[], ◌∷◌, ◌++◌, codes, flat_map, Contains};
ghost use Rattle.dcsp_script.specs.Outsides.{world};
ghost use Rattle.dcsp_script.specs.Scripts.{Create, Append, Put};
ghost use Rattle.dcsp_script.specs.Ways.{Wrote};

use dcsp_outside::{Folder, MemoryFolder, MemorySink, Sink};
use dcsp_script::{Outside, Stop, append, create, put};
use std::alloc::Global;
use std::process::Abort;

/// Adds the note to the log, and then puts it on `out`.
fn write_note<F: Folder, S: Sink>(
    outside: &mut Outside<F, S>,
    log: &str,
    note: &[u8],
) -> Result<(), Stop>
    requires { Contains (F.place outside.old.folder).created log.now }
    ensures { Wrote (Append log.now note.now ∷ Put note.now ∷ [])
        (world F.place S.stream outside.old) (world F.place S.stream outside.new) result }
{
    append(&mut outside.folder, log, note)?;
    put(&mut outside.out, note)
}

/// Writes each note, and then the log's end.
fn write_notes<F: Folder, S: Sink>(
    outside: &mut Outside<F, S>,
    log: &str,
    notes: &[Vec<u8>],
) -> Result<(), Stop>
    requires { Contains (F.place outside.old.folder).created log.now }
    ensures { Wrote (flat_map (λ note. Append log.now note.items ∷ Put note.items ∷ []) notes.now
        ++ Append log.now (codes "end\n") ∷ [])
        (world F.place S.stream outside.old) (world F.place S.stream outside.new) result }
{
    for note in notes {
        write_note(outside, log, note)?;
    }
    append(&mut outside.folder, log, b"end\n")
}

/// Creates the log, writes the notes, and answers.
fn write_log<F: Folder, S: Sink>(
    outside: &mut Outside<F, S>,
    log: &str,
    notes: &[Vec<u8>],
) -> Result<(), Stop>
    ensures { Wrote (Create log.now ∷ ((flat_map (λ note. Append log.now note.items ∷ Put note.items ∷ []) notes.now
        ++ Append log.now (codes "end\n") ∷ []) ++ Put (codes "done\n") ∷ []))
        (world F.place S.stream outside.old) (world F.place S.stream outside.new) result }
{
    create(&mut outside.folder, log)?;
    write_notes(outside, log, notes)?;
    put(&mut outside.out, b"done\n")
}

/// Which calls of the folder and of `out` fail, and what is left.
#[derive(Drop)]
struct Case {
    folder: u64,
    out: u64,
    came: Result<(), Stop>,
    log: &'static [u8],
    told: &'static [u8],
}

/// A folder with a log from before, of which this call fails.
fn folder_failing(rt: &impl Abort, alloc: Global, call: u64) -> MemoryFolder {
    let mut folder = MemoryFolder::new(alloc);
    folder.place("log", b"before").expect(rt, "memory");
    folder.fail_at(call).expect(rt, "memory");
    folder
}

/// A folder with a log from before, and a stream.
type Memory = Outside<MemoryFolder, MemorySink>;

/// What comes of writing the log.
fn written(outside: &mut Memory, notes: &[Vec<u8>]) -> Result<(), Stop> {
    write_log(outside, "log", notes)
}

impl Case {
    /// The log is written as the case says.
    fn expect(&self, rt: &impl Abort, alloc: Global, notes: &[Vec<u8>]) {
        let folder = folder_failing(rt, alloc, self.folder);
        let mut out = MemorySink::new(alloc);
        out.fail_at(self.out).expect(rt, "memory");
        let mut outside = Outside { folder, out };
        assert!(rt; written(&mut outside, notes) == self.came);
        self.expect_left(rt, outside);
    }

    /// The log and `out` are as the case says.
    fn expect_left(&self, rt: &impl Abort, outside: Memory) {
        assert_eq!(rt; outside.folder.file("log").unwrap_or(&[]), self.log);
        assert_eq!(rt; outside.out.bytes(), self.told);
    }
}

const CASES: [Case; 6] = [
    Case {
        folder: 9,
        out: 9,
        came: Ok(()),
        log: b"a\nb\nend\n",
        told: b"a\nb\ndone\n",
    },
    Case {
        folder: 1,
        out: 9,
        came: Err(Stop::Fault),
        log: b"before",
        told: b"",
    },
    Case {
        folder: 3,
        out: 9,
        came: Err(Stop::Fault),
        log: b"a\n",
        told: b"a\n",
    },
    Case {
        folder: 4,
        out: 9,
        came: Err(Stop::Fault),
        log: b"a\nb\n",
        told: b"a\nb\n",
    },
    Case {
        folder: 9,
        out: 1,
        came: Err(Stop::Fault),
        log: b"a\n",
        told: b"",
    },
    Case {
        folder: 9,
        out: 3,
        came: Err(Stop::Fault),
        log: b"a\nb\nend\n",
        told: b"a\nb\n",
    },
];

#[test]
fn a_script_stops_where_a_write_fails(rt: HostRuntime) {
    let mut notes = Vec::new(rt.alloc());
    for text in ["a\n", "b\n"] {
        let note = Vec::from_slice(rt.alloc(), text.as_bytes()).expect(&rt, "memory");
        notes.push(note).expect(&rt, "memory");
    }
    for case in &CASES {
        case.expect(&rt, rt.alloc(), &notes);
    }
}
