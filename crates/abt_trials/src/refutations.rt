//! Formulas through `cnf` and `rup`: those without a model, and the least formulas and proofs.

use crate::given::{expect_line, run_over};
use dcsp_outside::MemoryFolder;
use itoa::Buffer;
use std::alloc::Global;
use std::process::Abort;

/// Adds a number and what stands behind it.
fn add_number(rt: &impl Abort, text: &mut Vec<u8>, number: u32, behind: &[u8]) {
    let mut digits = Buffer::new();
    text.extend_from_slice(digits.format(number).as_bytes())
        .expect(rt, "memory");
    text.extend_from_slice(behind).expect(rt, "memory");
}

/// Adds the clause that a variable and another are not both true.
fn add_apart(rt: &impl Abort, text: &mut Vec<u8>, one: u32, other: u32) {
    text.push(b'-').expect(rt, "memory");
    add_number(rt, text, one, b" -");
    add_number(rt, text, other, b" 0\n");
}

/// The variable that says that a pigeon sits in a hole, both counted from 1.
fn sits(holes: u32, pigeon: u32, hole: u32) -> u32 {
    pigeon
        .wrapping_sub(1)
        .wrapping_mul(holes)
        .wrapping_add(hole)
}

/// One more pigeon than holes: each sits in a hole, and no two in the same.
fn pigeons(rt: &impl Abort, alloc: Global, holes: u32) -> Vec<u8> {
    let mut text = Vec::from_slice(alloc, b"p cnf ").expect(rt, "memory");
    let most = holes.wrapping_add(1);
    add_number(rt, &mut text, sits(holes, most, holes), b" 0\n");
    for pigeon in 1..=most {
        for hole in 1..=holes {
            add_number(rt, &mut text, sits(holes, pigeon, hole), b" ");
        }
        text.extend_from_slice(b"0\n").expect(rt, "memory");
        for other in 1..pigeon {
            for hole in 1..=holes {
                let (one, two) = (sits(holes, other, hole), sits(holes, pigeon, hole));
                add_apart(rt, &mut text, one, two);
            }
        }
    }
    text
}

/// Two chains of exclusive ors over the same four bits, whose ends differ: bit 1 to 4, first chain 5 to 8, second 9 to 12.
const PARITY: &[u8] = b"p cnf 12 30\n1 -5 0\n-1 5 0\n\
2 5 -6 0\n2 -5 6 0\n-2 5 6 0\n-2 -5 -6 0\n\
3 6 -7 0\n3 -6 7 0\n-3 6 7 0\n-3 -6 -7 0\n\
4 7 -8 0\n4 -7 8 0\n-4 7 8 0\n-4 -7 -8 0\n1 -9 0\n-1 9 0\n\
2 9 -10 0\n2 -9 10 0\n-2 9 10 0\n-2 -9 -10 0\n\
3 10 -11 0\n3 -10 11 0\n-3 10 11 0\n-3 -10 -11 0\n\
4 11 -12 0\n4 -11 12 0\n-4 11 12 0\n-4 -11 -12 0\n8 12 0\n-8 -12 0\n";

/// A folder with this formula.
fn folder_with(rt: &impl Abort, alloc: Global, cnf: &[u8]) -> MemoryFolder {
    let mut folder = MemoryFolder::new(alloc);
    folder.place("f.cnf", cnf).expect(rt, "memory");
    folder
}

/// `cnf` must refute the formula and put this, and `rup` must accept the proof that it wrote.
fn expect_refuted(rt: &impl Abort, alloc: Global, cnf: &[u8], out: &[u8]) {
    let folder = folder_with(rt, alloc, cnf);
    let left = run_over(rt, alloc, folder, &["cnf", "f.cnf", "p.rup"]);
    left.expect(rt, 1, out, b"");
    let folder = left.into_folder();
    let left = run_over(rt, alloc, folder, &["rup", "f.cnf", "p.rup"]);
    left.expect(rt, 0, b"verified\n", b"");
    left.end();
}

#[test]
fn pigeons_of_four_holes(rt: HostRuntime) {
    let cnf = pigeons(&rt, rt.alloc(), 4);
    let out = b"s UNSATISFIABLE\nc deliveries 2281\n";
    expect_refuted(&rt, rt.alloc(), &cnf, out);
}

#[test]
fn pigeons_of_five_holes(rt: HostRuntime) {
    let cnf = pigeons(&rt, rt.alloc(), 5);
    let out = b"s UNSATISFIABLE\nc deliveries 16351\n";
    expect_refuted(&rt, rt.alloc(), &cnf, out);
}

#[test]
fn parity_of_two_chains(rt: HostRuntime) {
    let out = b"s UNSATISFIABLE\nc deliveries 651\n";
    expect_refuted(&rt, rt.alloc(), PARITY, out);
}

/// A formula, and what `cnf` answers and puts on it.
#[derive(Drop)]
struct Formula {
    cnf: &'static [u8],
    code: u8,
    out: &'static [u8],
}

const FORMULAS: [Formula; 5] = [
    // a tautology, alone and beside a clause
    Formula {
        cnf: b"p cnf 1 1\n1 -1 0\n",
        code: 0,
        out: b"s SATISFIABLE\nv -1 0\nc deliveries 0\n",
    },
    Formula {
        cnf: b"p cnf 2 2\n2 -2 1 0\n-2\n",
        code: 0,
        out: b"s SATISFIABLE\nv -1 -2 0\nc deliveries 1\n",
    },
    // no clause
    Formula {
        cnf: b"p cnf 2 0\n",
        code: 0,
        out: b"s SATISFIABLE\nv -1 -2 0\nc deliveries 0\n",
    },
    // an empty clause behind others, and at the end of the text
    Formula {
        cnf: b"p cnf 2 3\n1 2 0\n0\n-1 0\n",
        code: 1,
        out: b"s UNSATISFIABLE\nc deliveries 0\n",
    },
    Formula {
        cnf: b"p cnf 2 2\n1 2 0 0",
        code: 1,
        out: b"s UNSATISFIABLE\nc deliveries 0\n",
    },
];

#[test]
fn least_formulas(rt: HostRuntime) {
    for formula in &FORMULAS {
        let files = [("f.cnf", formula.cnf)];
        let told: (u8, &[u8], &[u8]) = (formula.code, formula.out, b"");
        expect_line(&rt, rt.alloc(), &files, &["cnf", "f.cnf", "p.rup"], told);
    }
}

/// A formula, a proof, and what `rup` answers and puts on them.
#[derive(Drop)]
struct Proof {
    cnf: &'static [u8],
    proof: &'static [u8],
    code: u8,
    out: &'static [u8],
}

/// Each sign of three variables.
const EIGHT: &[u8] = b"p cnf 3 8\n1 2 3 0\n1 2 -3 0\n1 -2 3 0\n1 -2 -3 0\n\
-1 2 3 0\n-1 2 -3 0\n-1 -2 3 0\n-1 -2 -3 0\n";

/// No clause over two variables.
const NONE: &[u8] = b"p cnf 2 0\n";

const PROOFS: [Proof; 11] = [
    // a right proof, and the same with a wrong clause in its middle
    Proof {
        cnf: EIGHT,
        proof: b"1 2 0\n1 0\n-1 2 0\n0\n",
        code: 0,
        out: b"verified\n",
    },
    Proof {
        cnf: EIGHT,
        proof: b"1 2 0\n3 0\n1 0\n-1 2 0\n0\n",
        code: 1,
        out: b"rejected clause 2\n",
    },
    // a clause that was wrong is not used: the empty clause would follow from it
    Proof {
        cnf: b"p cnf 2 2\n1 2 0\n1 -2 0\n",
        proof: b"1 0\n-1 0\n0\n",
        code: 1,
        out: b"rejected clause 2\n",
    },
    // a tautology in the formula and in the proof
    Proof {
        cnf: b"p cnf 2 5\n1 -1 0\n1 2 0\n1 -2 0\n-1 2 0\n-1 -2 0\n",
        proof: b"2 -2 0\n1 0\n0\n",
        code: 0,
        out: b"verified\n",
    },
    Proof {
        cnf: b"p cnf 1 1\n1 -1 0\n",
        proof: b"1 -1 0\n0\n",
        code: 1,
        out: b"rejected clause 2\n",
    },
    // no clause in the formula
    Proof {
        cnf: NONE,
        proof: b"",
        code: 1,
        out: b"rejected not empty\n",
    },
    Proof {
        cnf: NONE,
        proof: b"0\n",
        code: 1,
        out: b"rejected clause 1\n",
    },
    Proof {
        cnf: NONE,
        proof: b"2 -2 0\n",
        code: 1,
        out: b"rejected not empty\n",
    },
    // an empty clause in the formula: each clause has the property
    Proof {
        cnf: b"p cnf 2 2\n1 2 0\n0\n",
        proof: b"4096 0\n-1 0\n0\n",
        code: 0,
        out: b"verified\n",
    },
    Proof {
        cnf: b"p cnf 1 1\n0",
        proof: b"1 0\n",
        code: 1,
        out: b"rejected not empty\n",
    },
    // an empty clause in the middle of a proof
    Proof {
        cnf: EIGHT,
        proof: b"1 2 0\n1 0\n-1 2 0\n0\n3 0\n",
        code: 1,
        out: b"rejected not empty\n",
    },
];

#[test]
fn least_proofs(rt: HostRuntime) {
    for proof in &PROOFS {
        let files = [("f.cnf", proof.cnf), ("p.rup", proof.proof)];
        let told: (u8, &[u8], &[u8]) = (proof.code, proof.out, b"");
        expect_line(&rt, rt.alloc(), &files, &["rup", "f.cnf", "p.rup"], told);
    }
}

/// Adds a piece so many times.
fn add_many(rt: &impl Abort, text: &mut Vec<u8>, piece: &[u8], count: u32) {
    for _ in 0..count {
        text.extend_from_slice(piece).expect(rt, "memory");
    }
}

/// `rup` must answer so on a formula with so many of these pieces and this end, with a proof without clauses.
fn expect_many(
    rt: &impl Abort,
    alloc: Global,
    (piece, count): (&[u8], u32),
    end: &[u8],
    (code, out, err): (u8, &[u8], &[u8]),
) {
    let mut text = Vec::from_slice(alloc, b"p cnf 1 0\n").expect(rt, "memory");
    add_many(rt, &mut text, piece, count);
    text.extend_from_slice(end).expect(rt, "memory");
    let mut folder = folder_with(rt, alloc, &text);
    drop(text);
    folder.place("p.rup", b"").expect(rt, "memory");
    let left = run_over(rt, alloc, folder, &["rup", "f.cnf", "p.rup"]);
    left.expect(rt, code, out, err);
    left.end();
}

/// What `rup` answers on a formula that it reads.
const READ: (u8, &[u8], &[u8]) = (1, b"rejected not empty\n", b"");

#[test]
fn literals_of_a_clause(rt: HostRuntime) {
    let alloc = rt.alloc();
    expect_many(&rt, alloc, (b"1 -1 ", 65_536), b"0", READ);
    let at_zero = b"abt: cnf: limit elements 65537 at 131084\n";
    expect_many(&rt, alloc, (b"1 ", 65_537), b"0\n", (3, b"", at_zero));
    let at_end = b"abt: cnf: limit elements 65537 at 196621\n";
    expect_many(&rt, alloc, (b"-1 ", 65_537), b"", (3, b"", at_end));
}

#[test]
fn clauses_of_a_formula(rt: HostRuntime) {
    let alloc = rt.alloc();
    expect_many(&rt, alloc, (b"1 0\n", 262_144), b"% 1 0", READ);
    let at_zero = b"abt: cnf: limit rules 262145 at 1048588\n";
    expect_many(&rt, alloc, (b"1 0\n", 262_144), b"1 0", (3, b"", at_zero));
    let at_end = b"abt: cnf: limit rules 262145 at 1048588\n";
    expect_many(&rt, alloc, (b"1 0\n", 262_144), b"1\n", (3, b"", at_end));
}

#[test]
fn lengths_of_formulas(rt: HostRuntime) {
    let alloc = rt.alloc();
    expect_many(
        &rt,
        alloc,
        (b"                ", 1_048_575),
        b"      ",
        READ,
    );
    let said = b"abt: cnf: too long\n";
    expect_many(
        &rt,
        alloc,
        (b"                ", 1_048_575),
        b"       ",
        (3, b"", said),
    );
}
