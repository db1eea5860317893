//! Logs of both versions, written and read, whole and in pieces.

ghost use Rattle.std.specs.Prelude.{◌≡◌, ◌≤◌, ◌+◌, ◌^◌, length, IfOk, Option, Some};
ghost use Rattle.ngd_log.specs.StepText.{IsStepNumber, IsInRange};

use dcsp_defs::{Nogood, Pair};
use ngd_log::{
    Derivation, Entries, Entry, HEAD, HEAD2, LogError, LogReader, Reason, ReasonList, Step, TAIL,
    read_log, write_deletion, write_step,
};
use std::alloc::Global;
use std::process::Abort;
use std::test::Fail;

const LOG: &[u8] = b"ngd 1\n1 v2 [v1=0] <- c1 c2\n2 v2 [v1=1] <- c2 c1\n3 v1 [] <- n1 n2\nend\n";

fn step(alloc: Global, variable: u32, pairs: &[Pair], reasons: &[Reason]) -> Result<Step, Fail>
    ensures variable { IfOk result (λ step. step.variable ≡ Some variable) }
    ensures nogood { IfOk result (λ step. step.nogood ≡ pairs.now) }
    ensures reasons { IfOk result (λ step. step.reasons ≡ reasons.now) }
{
    let nogood = Nogood::from_pairs(alloc, pairs).ok().ok_or("a nogood")?;
    let reasons = ReasonList::from_vec(Vec::from_slice(alloc, reasons)?);
    Ok(Step {
        variable: Some(variable),
        nogood,
        reasons,
    })
}

/// Step 1: the first variable has not the value 0.
fn first_step(alloc: Global) -> Result<Step, Fail>
    ensures { IfOk result (λ step. IsInRange step) }
{
    step(
        alloc,
        1,
        &[Pair { var: 0, value: 0 }],
        &[Reason::Rule(0), Reason::Rule(1)],
    )
}

/// Step 2: the first variable has not the value 1.
fn second_step(alloc: Global) -> Result<Step, Fail>
    ensures { IfOk result (λ step. IsInRange step) }
{
    step(
        alloc,
        1,
        &[Pair { var: 0, value: 1 }],
        &[Reason::Rule(1), Reason::Rule(0)],
    )
}

/// Step 3: there is no solution.
fn third_step(alloc: Global) -> Result<Step, Fail>
    ensures { IfOk result (λ step. IsInRange step) }
{
    step(alloc, 0, &[], &[Reason::Earlier(1), Reason::Earlier(2)])
}

/// Appends the line of a step.
fn add_line(number: u64, step: &Step, text: &mut Vec<u8>) -> Result<(), Fail>
    requires number { IsStepNumber number }
    requires step { IsInRange step.now }
{
    Ok(write_step(number, step, text).ok().ok_or("a line")?)
}

#[test]
fn writes(rt: HostRuntime) -> Result<(), Fail> {
    let alloc = rt.alloc();
    let mut text = Vec::new(alloc);
    text.extend_from_slice(HEAD)?;
    add_line(1, &first_step(alloc)?, &mut text)?;
    add_line(2, &second_step(alloc)?, &mut text)?;
    add_line(3, &third_step(alloc)?, &mut text)?;
    text.extend_from_slice(TAIL)?;
    assert_eq!(rt; text.as_slice(), LOG);
    Ok(())
}

#[test]
fn keeps_steps(rt: HostRuntime) -> Result<(), Fail> {
    let mut derivation = Derivation::new(rt.alloc());
    assert!(rt; derivation.is_empty());
    assert!(rt; derivation.push(first_step(rt.alloc())?).is_ok());
    assert!(rt; derivation.len() == 1);
    assert_eq!(rt; derivation.step(1).variable, Some(1));
    Ok(())
}

/// The text is a log of so many steps.
fn expect_log(rt: &impl Abort, alloc: Global, text: &[u8], steps: u64) {
    match read_log(alloc, text) {
        Ok(derivation) => assert_eq!(rt; derivation.len(), steps),
        Err(error) => panic!(rt; "{error:?}"),
    }
}

#[test]
fn reads(rt: HostRuntime) {
    let alloc = rt.alloc();
    expect_log(&rt, alloc, LOG, 3);
    expect_log(&rt, alloc, b"ngd 1\nend\n", 0);
    expect_log(&rt, alloc, b"ngd 1\n1 - [] <- c1\nend\n", 1);
    expect_log(&rt, alloc, b"ngd 1\n1 v1 [] <-\nend\n", 1);
    expect_log(
        &rt,
        alloc,
        b"ngd 1\n1 v4096 [v1=9223372036854775807,v2=-9223372036854775808] <- c262144 n4611686018427387904\nend\n",
        1,
    );
}

/// The text is no log, and this is the number of its first bad line.
fn expect_bad_line(rt: &impl Abort, alloc: Global, text: &[u8], number: u64) {
    match read_log(alloc, text) {
        Ok(_) => panic!(rt; "{text:?} is no log"),
        Err(error) => assert_eq!(rt; error, LogError::Line { number }, "{text:?}"),
    }
}

#[test]
fn names_a_bad_head_or_end(rt: HostRuntime) {
    let alloc = rt.alloc();
    expect_bad_line(&rt, alloc, b"", 1);
    expect_bad_line(&rt, alloc, b"ngd 1", 1);
    expect_bad_line(&rt, alloc, b"ngd 2\nend\n", 1);
    expect_bad_line(&rt, alloc, b"ngd 1\n", 2);
    expect_bad_line(&rt, alloc, &LOG[..LOG.len() - 4], 5);
    expect_bad_line(&rt, alloc, &LOG[..LOG.len() - 1], 5);
    expect_bad_line(&rt, alloc, b"ngd 1\nend\nend\n", 3);
    expect_bad_line(&rt, alloc, b"ngd 1\nend\n\n", 3);
}

#[test]
fn names_a_bad_number_or_space(rt: HostRuntime) {
    let alloc = rt.alloc();
    expect_bad_line(&rt, alloc, b"ngd 1\n01 v1 [] <-\nend\n", 2);
    expect_bad_line(&rt, alloc, b"ngd 1\n2 v1 [] <-\nend\n", 2);
    expect_bad_line(&rt, alloc, b"ngd 1\n1 v1 [] <-\n1 v1 [] <-\nend\n", 3);
    expect_bad_line(&rt, alloc, b"ngd 1\n1 v0 [] <-\nend\n", 2);
    expect_bad_line(&rt, alloc, b"ngd 1\n1 v4097 [] <-\nend\n", 2);
    expect_bad_line(&rt, alloc, b"ngd 1\n1  v1 [] <-\nend\n", 2);
    expect_bad_line(&rt, alloc, b"ngd 1\n1 v1 [] <- \nend\n", 2);
    expect_bad_line(&rt, alloc, b"ngd 1\n1 v1 [] <-\r\nend\n", 2);
}

#[test]
fn names_a_bad_nogood(rt: HostRuntime) {
    let alloc = rt.alloc();
    expect_bad_line(&rt, alloc, b"ngd 1\n1 v1 [v2=-0] <-\nend\n", 2);
    expect_bad_line(&rt, alloc, b"ngd 1\n1 v1 [v2=01] <-\nend\n", 2);
    expect_bad_line(
        &rt,
        alloc,
        b"ngd 1\n1 v1 [v2=9223372036854775808] <-\nend\n",
        2,
    );
    expect_bad_line(&rt, alloc, b"ngd 1\n1 v1 [v3=0,v2=0] <-\nend\n", 2);
    expect_bad_line(&rt, alloc, b"ngd 1\n1 v1 [v2=0,v2=1] <-\nend\n", 2);
    expect_bad_line(&rt, alloc, b"ngd 1\n1 - [v1=0] <- c1\nend\n", 2);
}

#[test]
fn names_a_bad_reason(rt: HostRuntime) {
    let alloc = rt.alloc();
    expect_bad_line(&rt, alloc, b"ngd 1\n1 v1 [] <- c0\nend\n", 2);
    expect_bad_line(&rt, alloc, b"ngd 1\n1 v1 [] <- c262145\nend\n", 2);
    expect_bad_line(
        &rt,
        alloc,
        b"ngd 1\n1 v1 [] <- n4611686018427387905\nend\n",
        2,
    );
    expect_bad_line(&rt, alloc, b"ngd 1\n1 - [] <-\nend\n", 2);
    expect_bad_line(&rt, alloc, b"ngd 1\n1 - [] <- n1\nend\n", 2);
    expect_bad_line(&rt, alloc, b"ngd 1\n1 - [] <- c1 c1\nend\n", 2);
}

/// How many steps and deletions are among the first entries.
fn counts(mut entries: Entries) -> (u64, u64) {
    let mut steps = 0u64;
    let mut deletions = 0u64;
    for _ in 0..8 {
        match entries.take_first() {
            Some(Entry::Step(_)) => steps = steps.wrapping_add(1),
            Some(Entry::Delete(_)) => deletions = deletions.wrapping_add(1),
            None => {}
        }
    }
    (steps, deletions)
}

/// The piece is fed, with this answer.
fn expect_fed(
    rt: &impl Abort,
    reader: &mut LogReader,
    piece: &[u8],
    entries: &mut Entries,
    answer: Result<(), LogError>,
)
    requires { reader.old.fed + length piece.now ≤ 2 ^ 63 }
    ensures { reader.new.fed ≡ reader.old.fed + length piece.now }
{
    assert_eq!(rt; reader.feed(piece, entries), answer);
}

/// The text ends here, with this answer.
fn expect_end(rt: &impl Abort, reader: &LogReader, answer: Result<(), LogError>) {
    assert_eq!(rt; reader.finish(), answer);
}

/// The first entry is a step with so many reasons, and no other follows.
fn expect_step(rt: &impl Abort, entries: &mut Entries, reasons: usize) {
    match entries.take_first() {
        Some(Entry::Step(step)) => assert_eq!(rt; step.reasons.len(), reasons),
        _ => panic!(rt; "no step"),
    }
    assert!(rt; entries.take_first().is_none());
}

/// Nothing is left.
fn expect_none(rt: &impl Abort, entries: &mut Entries) {
    assert!(rt; entries.take_first().is_none());
}

/// Lets the reader go.
fn end_reader(_reader: LogReader) {}

/// Lets the entries go.
fn end_entries(_entries: Entries) {}

#[test]
fn reads_in_two_pieces(rt: HostRuntime) {
    let mut reader = LogReader::new(rt.alloc());
    let mut entries = Entries::new(rt.alloc());
    let piece = b"ngd 1\n1 v2 [v1=0] <- c1 ";
    expect_fed(&rt, &mut reader, piece, &mut entries, Ok(()));
    expect_none(&rt, &mut entries);
    expect_end(&rt, &reader, Err(LogError::Line { number: 2 }));
    expect_fed(&rt, &mut reader, b"c2\n", &mut entries, Ok(()));
    expect_step(&rt, &mut entries, 2);
    end_reader(reader);
    end_entries(entries);
}

/// Byte by byte the text is fed.
fn feed_bytes(rt: &impl Abort, reader: &mut LogReader, text: &[u8], entries: &mut Entries)
    requires { reader.old.fed ≡ 0 }
{
    for byte in text {
        expect_fed(rt, reader, &[*byte], entries, Ok(()));
    }
}

/// The entries are so many steps and deletions.
fn expect_counts(rt: &impl Abort, entries: Entries, steps: u64, deletions: u64) {
    assert_eq!(rt; counts(entries), (steps, deletions));
}

/// Byte by byte the text is read as a log of so many steps and deletions.
fn expect_entries(rt: &impl Abort, alloc: Global, text: &[u8], steps: u64, deletions: u64) {
    let mut reader = LogReader::new(alloc);
    let mut entries = Entries::new(alloc);
    feed_bytes(rt, &mut reader, text, &mut entries);
    expect_end(rt, &reader, Ok(()));
    expect_counts(rt, entries, steps, deletions);
    end_reader(reader);
}

#[test]
fn reads_byte_by_byte(rt: HostRuntime) {
    let alloc = rt.alloc();
    expect_entries(&rt, alloc, LOG, 3, 0);
    expect_entries(&rt, alloc, b"ngd 2\nend\n", 0, 0);
    expect_entries(&rt, alloc, b"ngd 2\n1 v1 [] <-\nend\n", 1, 0);
    expect_entries(
        &rt,
        alloc,
        b"ngd 2\nd 1\n1 v1 [] <-\nd 1 2 4611686018427387904\n2 v1 [] <- n1\nend\n",
        2,
        2,
    );
}

/// The whole text is fed, whatever the answer.
fn feed_all(reader: &mut LogReader, text: &[u8], entries: &mut Entries)
    requires { reader.old.fed + length text.now ≤ 2 ^ 63 }
{
    let _told = reader.feed(text, entries);
}

/// The text is no log of version 2: this line is its first bad one, and so many steps stand before it.
fn expect_bad_entry(rt: &impl Abort, alloc: Global, text: &[u8], number: u64, steps: u64) {
    assert!(rt; text.len() < 1000);
    let mut reader = LogReader::new(alloc);
    let mut entries = Entries::new(alloc);
    feed_all(&mut reader, text, &mut entries);
    expect_end(rt, &reader, Err(LogError::Line { number }));
    assert_eq!(rt; counts(entries).0, steps);
    end_reader(reader);
}

#[test]
fn names_a_bad_line_of_version_2(rt: HostRuntime) {
    let alloc = rt.alloc();
    expect_bad_entry(&rt, alloc, b"ngd 3\nend\n", 1, 0);
    expect_bad_entry(&rt, alloc, b"ngd 2", 1, 0);
    expect_bad_entry(&rt, alloc, b"ngd 2\n", 2, 0);
    expect_bad_entry(&rt, alloc, b"ngd 1\n1 v1 [] <-\nd 1\nend\n", 3, 1);
    expect_bad_entry(&rt, alloc, b"ngd 2\nd 1\n2 v1 [] <-\nend\n", 3, 0);
    expect_bad_entry(&rt, alloc, b"ngd 2\n1 v1 [] <-\nend\n\n", 4, 1);
    expect_bad_entry(&rt, alloc, b"ngd 2\n1 v1 [] <-\nend\nd 1", 4, 1);
    expect_bad_entry(&rt, alloc, b"ngd 2\n1 v1 [] <-\nend", 3, 1);
}

#[test]
fn names_a_bad_deletion(rt: HostRuntime) {
    let alloc = rt.alloc();
    expect_bad_entry(&rt, alloc, b"ngd 2\nd\nend\n", 2, 0);
    expect_bad_entry(&rt, alloc, b"ngd 2\n1 v1 [] <-\nd 3 1\nend\n", 3, 1);
    expect_bad_entry(&rt, alloc, b"ngd 2\nd 3 3\nend\n", 2, 0);
    expect_bad_entry(&rt, alloc, b"ngd 2\nd 01\nend\n", 2, 0);
    expect_bad_entry(&rt, alloc, b"ngd 2\nd 0\nend\n", 2, 0);
    expect_bad_entry(&rt, alloc, b"ngd 2\nd 4611686018427387905\nend\n", 2, 0);
    expect_bad_entry(&rt, alloc, b"ngd 2\nd  1\nend\n", 2, 0);
    expect_bad_entry(&rt, alloc, b"ngd 2\nd 1 \nend\n", 2, 0);
}

#[test]
fn a_refusal_stands(rt: HostRuntime) {
    let mut reader = LogReader::new(rt.alloc());
    let mut entries = Entries::new(rt.alloc());
    let bad = Err(LogError::Line { number: 2 });
    expect_fed(&rt, &mut reader, b"ngd 2\nd", &mut entries, Ok(()));
    expect_fed(&rt, &mut reader, b"\n1", &mut entries, bad);
    expect_fed(&rt, &mut reader, b" v1 [] <-\nend\n", &mut entries, bad);
    expect_end(&rt, &reader, bad);
    expect_none(&rt, &mut entries);
    end_reader(reader);
    end_entries(entries);
}

#[test]
fn writes_deletions(rt: HostRuntime) -> Result<(), Fail> {
    let mut text = Vec::new(rt.alloc());
    text.extend_from_slice(HEAD2)?;
    write_deletion(&[1, 2, 10, 1 << 62], &mut text)
        .ok()
        .ok_or("a deletion")?;
    assert_eq!(rt;
        text.as_slice(),
        b"ngd 2\nd 1 2 10 4611686018427387904\n".as_slice()
    );
    Ok(())
}
