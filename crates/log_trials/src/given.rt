//! Small problems, and derivations from their steps.

ghost use Rattle.std.specs.Prelude.{◌≡◌, ◌<◌, ◌+◌, ◌∷◌, [], length, IsTrue};
ghost use Rattle.dcsp_rule.specs.Rules.{has_shape};

use dcsp_outside::{MemoryFolder, MemorySink};
use dcsp_problem::{
    ConstraintKind, Domain, IntList, Members, Problem, ProblemBuilder, Rule, Term, TermList,
};
use dcsp_script::Outside;
use ngd_log::{Derivation, read_log};
use std::alloc::Global;
use std::process::Abort;

/// Lets a problem go. A value is let go in a function of its own, where nothing else is known: its proof is long
/// where much is.
pub fn let_go(_problem: Problem) {}

/// Lets a derivation go.
pub fn let_steps_go(_derivation: Derivation) {}

/// A constraint between two variables.
fn between(rt: &impl Abort, alloc: Global, kind: ConstraintKind, first: u32, second: u32) -> Rule
    ensures { result ≡ Rule.Plain kind (Term.Var first ∷ Term.Var second ∷ []) [] [] (Members.Listed []) }
{
    let terms = vec![in alloc; Term::Var(first), Term::Var(second)];
    Rule::Plain {
        kind,
        scalars: TermList::from_vec(terms.expect(rt, "memory")),
        first: TermList::new(alloc),
        second: TermList::new(alloc),
        members: Members::Listed(IntList::new(alloc)),
    }
}

/// Adds a constraint between two variables.
pub fn add_between(
    rt: &impl Abort,
    alloc: Global,
    builder: &mut ProblemBuilder,
    kind: ConstraintKind,
    first: u32,
    second: u32,
)
    requires first { first < length builder.old.domains }
    requires second { second < length builder.old.domains }
    requires shape { IsTrue (has_shape (Rule.Plain kind (Term.Var first ∷ Term.Var second ∷ []) [] [] (Members.Listed []))) }
    ensures { builder.new.domains ≡ builder.old.domains }
{
    let rule = between(rt, alloc, kind, first, second);
    builder.add_rule(rule).expect(rt, "within the limits");
}

/// Adds a variable with these values.
pub fn add_variable(
    rt: &impl Abort,
    alloc: Global,
    builder: &mut ProblemBuilder,
    least: i64,
    greatest: i64,
)
    ensures { length builder.new.domains ≡ length builder.old.domains + 1 }
{
    let domain = Domain::range(alloc, least, greatest).expect(rt, "a range");
    builder.add_var(domain).expect(rt, "within the limits");
}

/// Two variables with the values 0 and 1, which differ and are equal.
pub fn smallest(rt: &impl Abort, alloc: Global) -> Problem
    ensures { length result.domains ≡ 2 }
{
    let mut builder = ProblemBuilder::new(alloc);
    add_variable(rt, alloc, &mut builder, 0, 1);
    add_variable(rt, alloc, &mut builder, 0, 1);
    add_between(rt, alloc, &mut builder, ConstraintKind::IntNe, 0, 1);
    add_between(rt, alloc, &mut builder, ConstraintKind::IntEq, 0, 1);
    builder.finish().expect(rt, "memory")
}

/// A folder and a stream in memory, which a trial looks at afterwards.
#[derive(Drop)]
pub struct Looked {
    pub at: Outside<MemoryFolder, MemorySink>,
}

impl Looked {
    /// A folder with this file, and a stream. Calls of either with these numbers fail.
    pub fn with_file(
        rt: &impl Abort,
        alloc: Global,
        (name, bytes): (&str, &[u8]),
        (folder_call, out_call): (u64, u64),
    ) -> Looked {
        let mut folder = MemoryFolder::new(alloc);
        folder.place(name, bytes).expect(rt, "memory");
        folder.fail_at(folder_call).expect(rt, "memory");
        let mut out = MemorySink::new(alloc);
        out.fail_at(out_call).expect(rt, "memory");
        Looked {
            at: Outside { folder, out },
        }
    }

    /// The file has these bytes, if it is there.
    pub fn expect_file(&self, rt: &impl Abort, name: &str, bytes: Option<&[u8]>) {
        assert_eq!(rt; self.at.folder.file(name), bytes);
    }

    /// This was put.
    pub fn expect_told(&self, rt: &impl Abort, bytes: &[u8]) {
        assert_eq!(rt; self.at.out.bytes(), bytes);
    }

    /// Lets both go.
    pub fn end(self) {}
}

/// The derivation whose log has these lines between its head and its end.
pub fn derivation_of(rt: &impl Abort, alloc: Global, steps: &str) -> Derivation {
    let text = format!(in alloc; "ngd 1\n{steps}end\n").expect(rt, "memory");
    match read_log(alloc, text.as_bytes()) {
        Ok(derivation) => derivation,
        Err(error) => panic!(rt; "{error:?}"),
    }
}
