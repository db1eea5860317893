//! The texts for the smallest numbers whole, and lengths and MD5 digests of large ones, both from
//! another program.

use dcsp_gen::{
    BinarySizes, MeetingSizes, SensorSizes, binary, colouring, meetings, pigeons, queens, sensors,
    sparse,
};
use md5::{Digest, Md5};
use std::process::Abort;
use std::test::Fail;

/// The text is this one.
fn expect_text(rt: &impl Abort, text: &[u8], expected: &str) {
    assert_eq!(rt; text, expected.as_bytes());
}

#[test]
fn small_texts(rt: HostRuntime) -> Result<(), Fail> {
    let alloc = rt.alloc();
    expect_text(
        &rt,
        &queens(alloc, 1)?,
        "var 1..1: q1;\narray [1..1] of var int: q :: output_array([1..1]) = [q1];\nsolve satisfy;\n",
    );
    expect_text(
        &rt,
        &queens(alloc, 2)?,
        "var 1..2: q1;\nvar 1..2: q2;\narray [1..2] of var int: q :: output_array([1..2]) = [q1,q2];\nconstraint int_ne(q1,q2);\nconstraint int_lin_ne([1,-1],[q1,q2],1);\nconstraint int_lin_ne([1,-1],[q1,q2],-1);\nsolve satisfy;\n",
    );
    expect_text(
        &rt,
        &colouring(alloc, 1, 3, 5)?,
        "var 1..3: c1;\narray [1..1] of var int: c :: output_array([1..1]) = [c1];\nsolve satisfy;\n",
    );
    expect_text(
        &rt,
        &colouring(alloc, 4, 3, 5)?,
        "var 1..3: c1;\nvar 1..3: c2;\nvar 1..3: c3;\nvar 1..3: c4;\narray [1..4] of var int: c :: output_array([1..4]) = [c1,c2,c3,c4];\nconstraint int_ne(c1,c3);\nconstraint int_ne(c2,c4);\nsolve satisfy;\n",
    );
    expect_text(
        &rt,
        &sparse(alloc, 3, 7)?,
        "var 1..4: c1;\nvar 1..4: c2;\nvar 1..4: c3;\narray [1..3] of var int: c :: output_array([1..3]) = [c1,c2,c3];\nconstraint int_ne(c1,c2);\nconstraint int_ne(c1,c2);\nconstraint int_ne(c1,c2);\nconstraint int_ne(c1,c3);\nconstraint int_ne(c1,c3);\nconstraint int_ne(c2,c3);\nsolve satisfy;\n",
    );
    expect_text(
        &rt,
        &pigeons(alloc, 3)?,
        "var 1..2: p1;\nvar 1..2: p2;\nvar 1..2: p3;\nconstraint int_ne(p1,p2);\nconstraint int_ne(p1,p3);\nconstraint int_ne(p2,p3);\nsolve satisfy;\n",
    );
    Ok(())
}

#[test]
fn binary_text(rt: HostRuntime) -> Result<(), Fail> {
    let sizes = BinarySizes {
        variables: 3,
        values: 2,
        edges: 2,
        forbidden: 1,
    };
    expect_text(
        &rt,
        &binary(rt.alloc(), sizes, 0)?,
        "var 0..1: x1;\nvar 0..1: x2;\nvar 0..1: x3;\narray [1..3] of var int: x :: output_array([1..3]) = [x1,x2,x3];\nconstraint fzn_table_int([x1,x2],[0,0,1,0,1,1]);\nconstraint fzn_table_int([x2,x3],[0,0,0,1,1,1]);\nsolve satisfy;\n",
    );
    Ok(())
}

/// People, meetings, people of each, hours, busy hours, seed, and the text.
const MEETINGS: [([u32; 5], u64, &str); 3] = [
    (
        [3, 2, 2, 3, 1],
        0,
        "var {2,3}: m1p2 :: output_var;\nvar {2,3}: m1p3 :: output_var;\nvar {2,3}: m2p2 :: output_var;\nvar {2,3}: m2p3 :: output_var;\nconstraint int_eq(m1p2,m1p3);\nconstraint int_eq(m2p2,m2p3);\nconstraint int_ne(m1p2,m2p2);\nconstraint int_ne(m1p3,m2p3);\nsolve satisfy;\n",
    ),
    (
        [1, 2, 1, 1, 0],
        0,
        "var {1}: m1p1 :: output_var;\nvar {1}: m2p1 :: output_var;\nconstraint int_ne(m1p1,m2p1);\nsolve satisfy;\n",
    ),
    (
        [4, 3, 2, 5, 1],
        9,
        "var {1,2,4,5}: m1p1 :: output_var;\nvar {2,3,4,5}: m1p4 :: output_var;\nvar {1,2,4,5}: m2p1 :: output_var;\nvar {1,3,4,5}: m2p3 :: output_var;\nvar {1,2,3,5}: m3p2 :: output_var;\nvar {1,3,4,5}: m3p3 :: output_var;\nconstraint int_eq(m1p1,m1p4);\nconstraint int_eq(m2p1,m2p3);\nconstraint int_eq(m3p2,m3p3);\nconstraint int_ne(m1p1,m2p1);\nconstraint int_ne(m2p3,m3p3);\nsolve satisfy;\n",
    ),
];

#[test]
fn meeting_texts(rt: HostRuntime) -> Result<(), Fail> {
    for ([people, count, each, hours, busy], seed, text) in MEETINGS {
        let sizes = MeetingSizes {
            people,
            meetings: count,
            each,
            hours,
            busy,
        };
        assert!(rt; sizes.fit());
        expect_text(&rt, &meetings(rt.alloc(), sizes, seed)?, text);
    }
    Ok(())
}

/// Rows, targets, sensors that see each, seed, and the text. In the second, 4 and 5 do not hear each other, nor do others.
const SENSORS: [([u32; 3], u64, &str); 2] = [
    (
        [2, 1, 3],
        0,
        "var {2,3,4}: t1s1 :: output_var;\nvar {2,3,4}: t1s2 :: output_var;\nvar {2,3,4}: t1s3 :: output_var;\nconstraint int_lt(t1s1,t1s2);\nconstraint int_lt(t1s2,t1s3);\nconstraint fzn_table_int([t1s1,t1s2],[2,3,2,4,3,4]);\nconstraint fzn_table_int([t1s1,t1s3],[2,3,2,4,3,4]);\nconstraint fzn_table_int([t1s2,t1s3],[2,3,2,4,3,4]);\nsolve satisfy;\n",
    ),
    (
        [4, 2, 3],
        1,
        "var {4,10,16}: t1s1 :: output_var;\nvar {4,10,16}: t1s2 :: output_var;\nvar {4,10,16}: t1s3 :: output_var;\nvar {4,5,10}: t2s1 :: output_var;\nvar {4,5,10}: t2s2 :: output_var;\nvar {4,5,10}: t2s3 :: output_var;\nconstraint int_lt(t1s1,t1s2);\nconstraint int_lt(t1s2,t1s3);\nconstraint fzn_table_int([t1s1,t1s2],[4,10,10,16]);\nconstraint fzn_table_int([t1s1,t1s3],[4,10,10,16]);\nconstraint fzn_table_int([t1s2,t1s3],[4,10,10,16]);\nconstraint int_lt(t2s1,t2s2);\nconstraint int_lt(t2s2,t2s3);\nconstraint fzn_table_int([t2s1,t2s2],[4,10,5,10]);\nconstraint fzn_table_int([t2s1,t2s3],[4,10,5,10]);\nconstraint fzn_table_int([t2s2,t2s3],[4,10,5,10]);\nconstraint int_ne(t1s1,t2s1);\nconstraint int_ne(t1s1,t2s2);\nconstraint int_ne(t1s1,t2s3);\nconstraint int_ne(t1s2,t2s1);\nconstraint int_ne(t1s2,t2s2);\nconstraint int_ne(t1s2,t2s3);\nconstraint int_ne(t1s3,t2s1);\nconstraint int_ne(t1s3,t2s2);\nconstraint int_ne(t1s3,t2s3);\nsolve satisfy;\n",
    ),
];

#[test]
fn sensor_texts(rt: HostRuntime) -> Result<(), Fail> {
    for ([side, targets, sees], seed, text) in SENSORS {
        let sizes = SensorSizes {
            side,
            targets,
            sees,
        };
        assert!(rt; sizes.fit());
        expect_text(&rt, &sensors(rt.alloc(), sizes, seed)?, text);
    }
    Ok(())
}

/// A text has this length and digest.
fn digest(rt: &impl Abort, text: &[u8], length: usize, expected: [u8; 16]) {
    assert_eq!(rt; text.len(), length);
    assert_eq!(rt; Md5::digest(text).as_slice(), expected.as_slice());
}

#[test]
fn large_texts(rt: HostRuntime) -> Result<(), Fail> {
    let alloc = rt.alloc();
    digest(
        &rt,
        &queens(alloc, 200)?,
        2394273,
        [
            0x00, 0xf0, 0x82, 0x27, 0x3f, 0x95, 0x87, 0xcf, 0xbd, 0x63, 0x26, 0xcd, 0xb1, 0x78,
            0xb7, 0xd2,
        ],
    );
    digest(
        &rt,
        &colouring(alloc, 200, 16, u64::MAX)?,
        151221,
        [
            0xfa, 0xb2, 0x64, 0xa2, 0xea, 0xaf, 0x6c, 0xc9, 0xe6, 0xb3, 0xf8, 0x9c, 0x24, 0x70,
            0xf6, 0x8d,
        ],
    );
    digest(
        &rt,
        &sparse(alloc, 4096, 12345)?,
        472999,
        [
            0x58, 0x99, 0xeb, 0x50, 0xe8, 0x3f, 0x07, 0xb4, 0x89, 0x63, 0xbe, 0xaf, 0x6f, 0xe5,
            0xb0, 0xa0,
        ],
    );
    digest(
        &rt,
        &pigeons(alloc, 200)?,
        579015,
        [
            0xc5, 0x77, 0x49, 0xf9, 0xe3, 0x9d, 0x2b, 0xe4, 0x5a, 0x1a, 0xfc, 0x70, 0x3d, 0x88,
            0x74, 0xd1,
        ],
    );
    Ok(())
}
