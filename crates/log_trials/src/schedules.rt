//! Words of a seed, and recorded choices as text.

use abt_schedule::{ChoiceList, Choices, ScheduleError, Seeded, read_schedule, write_schedule};
use std::alloc::Global;
use std::process::Abort;

/// The choices to come begin with these.
fn expect_choices<C: Choices>(rt: &impl Abort, choices: &mut C, wanted: &[u32]) {
    for choice in wanted {
        assert_eq!(rt; choices.next(), Some(*choice));
    }
}

#[test]
fn words_of_a_seed(rt: HostRuntime) {
    let mut one = Seeded::new(1);
    expect_choices(
        &rt,
        &mut one,
        &[866_585_574, 2_109_535_214, 3_403_630_417, 296_513_984],
    );
    let mut greatest = Seeded::new(u64::MAX);
    expect_choices(
        &rt,
        &mut greatest,
        &[2_553_256_318, 1_362_994_822, 3_759_657_484],
    );
}

/// The text of these choices, after what stands there.
fn expect_written(rt: &impl Abort, alloc: Global, choices: &[u32], written: &[u8]) {
    let mut list = ChoiceList::new(alloc);
    for choice in choices {
        assert!(rt; list.push(*choice).is_ok());
    }
    let mut text = Vec::from_slice(alloc, b"> ").expect(rt, "memory");
    assert!(rt; write_schedule(list.choices(), &mut text).is_ok());
    assert_eq!(rt; text.as_slice(), written);
}

#[test]
fn writes(rt: HostRuntime) {
    let written = b"> schedule 1\n0\n7\n4294967295\nend\n";
    expect_written(&rt, rt.alloc(), &[0, 7, u32::MAX], written);
}

#[test]
fn reads(rt: HostRuntime) {
    let Ok(mut listed) = read_schedule(rt.alloc(), b"schedule 1\n0\n7\nend\n") else {
        panic!(rt; "no schedule");
    };
    assert_eq!(rt; listed.left(), 2);
    expect_choices(&rt, &mut listed, &[0, 7]);
    assert_eq!(rt; listed.next(), None);
    assert_eq!(rt; listed.left(), 0);
}

/// The text is no schedule, and this is the number of its first bad line.
fn expect_bad_line(rt: &impl Abort, alloc: Global, text: &[u8], number: u64) {
    match read_schedule(alloc, text) {
        Ok(_) => panic!(rt; "{text:?} is no schedule"),
        Err(error) => assert_eq!(rt; error, ScheduleError::Line { number }, "{text:?}"),
    }
}

#[test]
fn names_the_first_bad_line(rt: HostRuntime) {
    for (text, line) in [
        (b"".as_slice(), 1),
        (b"schedule 1".as_slice(), 1),
        (b"schedule 2\nend\n".as_slice(), 1),
        (b"schedule 01\nend\n".as_slice(), 1),
        (b"schedule 1\r\nend\n".as_slice(), 1),
        (b"schedule 1\n".as_slice(), 2),
        (b"schedule 1\n07\nend\n".as_slice(), 2),
        (b"schedule 1\n00\nend\n".as_slice(), 2),
        (b"schedule 1\n-0\nend\n".as_slice(), 2),
        (b"schedule 1\n-1\nend\n".as_slice(), 2),
        (b"schedule 1\n+1\nend\n".as_slice(), 2),
        (b"schedule 1\n 1\nend\n".as_slice(), 2),
        (b"schedule 1\n1 \nend\n".as_slice(), 2),
        (b"schedule 1\n1,2\nend\n".as_slice(), 2),
        (b"schedule 1\n1\r\nend\n".as_slice(), 2),
        (b"schedule 1\n\nend\n".as_slice(), 2),
        (b"schedule 1\n4294967296\nend\n".as_slice(), 2),
        (b"schedule 1\n18446744073709551617\nend\n".as_slice(), 2),
        (b"schedule 1\nend".as_slice(), 2),
        (b"schedule 1\n0\n".as_slice(), 3),
        (b"schedule 1\n0\n7".as_slice(), 3),
        (b"schedule 1\n0\nEND\n".as_slice(), 3),
        (b"schedule 1\n0\nends\n".as_slice(), 3),
        (b"schedule 1\nend\n\n".as_slice(), 3),
        (b"schedule 1\nend\nx".as_slice(), 3),
        (b"schedule 1\nend\nend\n".as_slice(), 3),
        (b"schedule 1\n0\n7\n".as_slice(), 4),
    ] {
        expect_bad_line(&rt, rt.alloc(), text, line);
    }
}
