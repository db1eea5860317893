//! What a trial is given, and what came of it.

use abt_command::run_command;
use dcsp_outside::{Folder, MemoryFolder, MemorySink};
use dcsp_script::Outside;
use std::alloc::Global;
use std::process::Abort;

/// Two variables that differ and are equal.
pub const PAIR: &[u8] =
    b"var 0..1: x;\nvar 0..1: y;\nconstraint int_ne(x,y);\nconstraint int_eq(x,y);\nsolve satisfy;\n";

/// The log of a run of it.
pub const PAIR_LOG: &[u8] =
    b"ngd 1\n1 v2 [v1=0] <- c1 c2\n2 v2 [v1=1] <- c2 c1\n3 v1 [] <- n1 n2\nend\n";

/// Two variables that differ.
pub const APART: &[u8] =
    b"var 0..1: x :: output_var;\nvar 0..1: y :: output_var;\nconstraint int_ne(x,y);\nsolve satisfy;\n";

/// Three variables with one value each, and one that has none beside them.
pub const STAR: &[u8] =
    b"var 0..0: x1;\nvar 1..1: x2;\nvar 2..2: x3;\nvar 0..2: x4;\nconstraint int_ne(x1,x4);\nconstraint int_ne(x2,x4);\nconstraint int_ne(x3,x4);\nsolve satisfy;\n";

/// Three variables, of which the first two differ from the third.
pub const LINKED: &[u8] =
    b"var 0..1: x :: output_var;\nvar 1..1: y :: output_var;\nvar 0..1: z :: output_var;\n\
constraint int_ne(x,z);\nconstraint int_ne(y,z);\nsolve satisfy;\n";

/// A name and the bytes under it.
pub type File = (&'static str, &'static [u8]);

/// A file that no trial has.
pub const NO_FILE: File = ("", b"");

/// The names of the files and the words of a trial.
pub fn words_of(rt: &impl Abort, alloc: Global, given: &[&str]) -> Vec<String> {
    let mut words = Vec::new(alloc);
    for word in given {
        let word = String::from_str(alloc, word).expect(rt, "memory");
        words.push(word).expect(rt, "memory");
    }
    words
}

/// A folder with these files.
pub fn folder_of(rt: &impl Abort, alloc: Global, files: &[File]) -> MemoryFolder {
    let mut folder = MemoryFolder::new(alloc);
    for (name, bytes) in files {
        if !name.is_empty() {
            folder.place(name, bytes).expect(rt, "memory");
        }
    }
    folder
}

/// A folder with these files, of which this call fails and keeps so many bytes; no call where it is 0.
pub fn folder_failing(
    rt: &impl Abort,
    alloc: Global,
    files: &[File],
    call: u64,
    kept: usize,
) -> MemoryFolder {
    let mut folder = folder_of(rt, alloc, files);
    folder.fail_after(call, kept).expect(rt, "memory");
    folder
}

/// A stream of which this call fails and keeps so many bytes; no call where it is 0.
pub fn sink_failing(rt: &impl Abort, alloc: Global, call: u64, kept: usize) -> MemorySink {
    let mut sink = MemorySink::new(alloc);
    sink.fail_after(call, kept).expect(rt, "memory");
    sink
}

/// What a trial left.
#[derive(Drop)]
pub struct Left {
    /// The number that the program ended with.
    pub code: u8,
    pub folder: MemoryFolder,
    pub out: MemorySink,
    pub err: MemorySink,
}

impl Left {
    /// The program ended with this number, and put this.
    pub fn expect(&self, rt: &impl Abort, code: u8, out: &[u8], err: &[u8]) {
        assert_eq!(rt; self.code, code);
        assert_eq!(rt; self.out.bytes(), out);
        assert_eq!(rt; self.err.bytes(), err);
    }

    /// The file under this name has these bytes, or is not there where they are none.
    pub fn expect_text(&self, rt: &impl Abort, name: &str, bytes: &[u8]) {
        assert_eq!(rt; self.folder.file(name).unwrap_or(b""), bytes);
    }

    /// The file under this name, if it is there.
    pub fn expect_file(&self, rt: &impl Abort, name: &str, bytes: Option<&[u8]>) {
        assert_eq!(rt; self.folder.file(name), bytes);
    }

    /// Two files are alike.
    pub fn expect_alike(&self, rt: &impl Abort, one: &str, other: &str) {
        assert!(rt; self.folder.file(one) == self.folder.file(other));
    }

    /// Lets it go. A value is let go in a function of its own, where nothing else is known: its proof is long
    /// where much is.
    pub fn end(self) {}

    /// The folder alone.
    pub fn into_folder(self) -> MemoryFolder {
        self.folder
    }
}

/// Runs the program over these, and gives the number that it ends with.
pub fn ended<F: Folder>(
    alloc: Global,
    words: &[String],
    outside: &mut Outside<F, MemorySink>,
    err: &mut MemorySink,
) -> u8 {
    run_command(alloc, words, outside, err).code()
}

/// Runs the program over these.
pub fn run_words<F: Folder>(
    rt: &impl Abort,
    alloc: Global,
    words: &[&str],
    outside: &mut Outside<F, MemorySink>,
    err: &mut MemorySink,
) -> u8 {
    let words = words_of(rt, alloc, words);
    ended(alloc, &words, outside, err)
}

/// Runs the program over the folder and these streams.
pub fn run_with(
    rt: &impl Abort,
    alloc: Global,
    folder: MemoryFolder,
    out: MemorySink,
    mut err: MemorySink,
    words: &[&str],
) -> Left {
    let mut outside = Outside { folder, out };
    let code = run_words(rt, alloc, words, &mut outside, &mut err);
    let Outside { folder, out } = outside;
    Left {
        code,
        folder,
        out,
        err,
    }
}

/// Runs the program over a folder, which a trial may have left.
pub fn run_over(rt: &impl Abort, alloc: Global, folder: MemoryFolder, words: &[&str]) -> Left {
    let (out, err) = (MemorySink::new(alloc), MemorySink::new(alloc));
    run_with(rt, alloc, folder, out, err, words)
}

/// Runs the program. Call number `failing` of the folder fails, and no call where it is 0.
pub fn left_by(
    rt: &impl Abort,
    alloc: Global,
    files: &[File],
    words: &[&str],
    failing: u64,
) -> Left {
    let folder = folder_failing(rt, alloc, files, failing, 0);
    run_over(rt, alloc, folder, words)
}

/// Runs the program over these files; it ends with this number, and puts this.
pub fn expect_line(
    rt: &impl Abort,
    alloc: Global,
    files: &[File],
    words: &[&str],
    (code, out, err): (u8, &[u8], &[u8]),
) {
    let left = left_by(rt, alloc, files, words, 0);
    left.expect(rt, code, out, err);
    left.end();
}

/// What came of a line that runs agents.
#[derive(Drop)]
pub struct Case {
    pub words: &'static [&'static str],
    pub files: [File; 2],
    pub code: u8,
    pub out: &'static [u8],
    pub err: &'static [u8],
    /// The file under `l.ngd`, if any bytes are there.
    pub log: &'static [u8],
    /// The file under `r.sch`, if any bytes are there.
    pub record: &'static [u8],
}

impl Case {
    /// The line leaves what the case says.
    pub fn expect(&self, rt: &impl Abort, alloc: Global) {
        let left = left_by(rt, alloc, &self.files, self.words, 0);
        left.expect(rt, self.code, self.out, self.err);
        left.expect_text(rt, "l.ngd", self.log);
        left.expect_text(rt, "r.sch", self.record);
        left.end();
    }
}
