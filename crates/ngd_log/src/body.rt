//! What a reader of a log keeps between pieces, and how it takes a line and a piece.
ghost use Rattle.std.specs.Prelude.{◌≡◌, ◌≢◌, None, ℕ, ◌+◌, ◌<◌, ◌≤◌, ◌^◌, [], ◌++◌, List, length, OnOk, OnErr, IfSome, IsSome, IsNone};
ghost use Rattle.std.specs.List.{AllByRecursion};
ghost use Rattle.dcsp_defs.specs.declared.entry.Entry.{Entry as AnEntry};
ghost use Rattle.ngd_log.specs.EntryReading.{version_of};
ghost use Rattle.ngd_log.specs.Lent.{lent_in, RisesIn};
ghost use Rattle.ngd_log.specs.Lines.{IsLine, HasNoLineFeed};
ghost use Rattle.ngd_log.specs.Pieces.{kept, unheard, refusal_of, Feeds, FeedsFront, Follows, IsNextPlace, IsWithin, IsSound, IsLentAlone};

use crate::deletion::HEAD2;
use crate::entry_reader::{entry_front, owned_entry, read_entry};
use crate::log::{LogError, split_line};
use crate::reader::{Gathered, LineError};
use crate::standing::{EntryKind, Place, Standing, Version};
use crate::writer::{HEAD, TAIL};
use dcsp_common::Memory;
use dcsp_defs::Entries;

/// What a reader of a log keeps.
#[derive(Drop)]
pub struct ReaderBody {
    /// Where it stands after the whole lines.
    pub standing: Standing,
    /// The bytes of the line at hand.
    pub part: Vec<u8>,
    /// The number of bytes that it was fed.
    pub fed: u64,
    /// What the line read last is, where it is the line of an entry.
    pub kind: Option<EntryKind>,
    /// What the line read last says.
    pub gathered: Gathered,
}

/// Where a reader stands after a line, and what the line is.
#[derive(Clone, Copy)]
struct After {
    standing: Standing,
    kind: Option<EntryKind>,
}

/// After a line that is no entry's.
fn no_entry(standing: Standing) -> After
    ensures standing { result.standing ≡ standing }
    ensures kind { result.kind ≡ None }
{
    After {
        standing,
        kind: None,
    }
}

/// The version of a log with this first line.
fn version_of(line: &[u8]) -> Option<Version>
    ensures { result ≡ version_of line.now }
{
    if line == HEAD {
        return Some(Version::One);
    }
    if line == HEAD2 {
        return Some(Version::Two);
    }
    None
}

/// After the first line.
fn after_head(line: &[u8]) -> Standing
    requires whole { IsLine line.now }
    ensures stands { (entries : List AnEntry) → Follows Standing.Start result line.now entries entries }
    ensures within { (fed : ℕ) → IsWithin result (fed + 1) }
{
    match version_of(line) {
        Some(version) => Standing::Inside(Place {
            version,
            step: 1,
            line: 2,
        }),
        None => Standing::Refused(LogError::Line { number: 1 }),
    }
}

/// After the line of an entry of this kind.
fn after_entry(place: Place, kind: EntryKind) -> Place
    requires { IsWithin (Standing.Inside place) (2 ^ 63) }
    ensures { IsNextPlace place kind result }
{
    let step = match kind {
        EntryKind::Step => place.step + 1,
        EntryKind::Delete => place.step,
    };
    Place {
        version: place.version,
        step,
        line: place.line + 1,
    }
}

/// Reads a line that is neither the first nor stands after `end`. Inlined, so that no standing goes through memory.
#[inline(always)]
fn after_inside(gathered: &mut Gathered, place: Place, line: &[u8]) -> After
    requires whole { IsLine line.now }
    requires room { IsWithin (Standing.Inside place) (2 ^ 63) }
    ensures stands { Follows (Standing.Inside place) result.standing line.now [] (lent_in result.kind gathered.new) }
    ensures rising { AllByRecursion RisesIn (lent_in result.kind gathered.new) }
    ensures within { (fed : ℕ) → IsWithin (Standing.Inside place) fed → IsWithin result.standing (fed + 1) }
{
    if line == TAIL {
        return no_entry(Standing::Ended(place.line + 1));
    }
    match read_entry(gathered, place.version, place.step, line) {
        Ok(kind) => After {
            standing: Standing::Inside(after_entry(place, kind)),
            kind: Some(kind),
        },
        Err(LineError::Bad) => no_entry(Standing::Refused(LogError::Line { number: place.line })),
        Err(LineError::Memory) => no_entry(Standing::Refused(LogError::Memory)),
    }
}

/// Reads a line with its line feed.
#[inline(always)]
fn after_line(gathered: &mut Gathered, standing: Standing, line: &[u8]) -> After
    requires whole { IsLine line.now }
    requires room { IsWithin standing (2 ^ 63) }
    ensures stands { Follows standing result.standing line.now [] (lent_in result.kind gathered.new) }
    ensures rising { AllByRecursion RisesIn (lent_in result.kind gathered.new) }
    ensures within { (fed : ℕ) → IsWithin standing fed → IsWithin result.standing (fed + 1) }
{
    match standing {
        Standing::Start => no_entry(after_head(line)),
        Standing::Inside(place) => after_inside(gathered, place, line),
        Standing::Ended(number) => no_entry(Standing::Refused(LogError::Line { number })),
        Standing::Refused(error) => no_entry(Standing::Refused(error)),
    }
}

/// Takes the next entry, whose whole line a piece begins with, lends it, and gives what stands after its line; its line
/// feed is not looked for beforehand. Nothing is taken, and nothing lent, where the piece begins with anything else.
#[inline(always)]
pub fn take_entry<'t>(body: &mut ReaderBody, piece: &'t [u8]) -> Option<&'t [u8]>
    requires sound { IsSound (kept body.old) }
    requires room { body.old.fed + length piece.now ≤ 2 ^ 63 }
    ensures front { IfSome result (λ rest. FeedsFront (kept body.old) (kept body.new) piece.now rest.now [] (kept body.new).lent) }
    ensures shorter { IfSome result (λ rest. length rest.now < length piece.now) }
    ensures going { IsSome result → refusal_of body.new.standing ≡ None }
    ensures none { IsNone result → kept body.new ≡ unheard (kept body.old) }
    ensures sound { IsSound (kept body.new) }
{
    body.kind = None;
    if !body.part.is_empty() {
        return None;
    }
    let Standing::Inside(place) = body.standing else {
        return None;
    };
    let read = entry_front(&mut body.gathered, place.version, place.step, piece);
    let Ok((kind, rest)) = read else {
        return None;
    };
    body.fed += (piece.len() - rest.len()) as u64;
    body.standing = Standing::Inside(after_entry(place, kind));
    body.kind = Some(kind);
    Some(rest)
}

/// Takes a piece that ends with its only line feed, and lends what it is the line of.
pub fn take_line(body: &mut ReaderBody, line: &[u8])
    requires whole { IsLine line.now }
    requires sound { IsSound (kept body.old) }
    requires room { body.old.fed + length line.now ≤ 2 ^ 63 }
    ensures feeds { Feeds (kept body.old) (kept body.new) line.now [] (kept body.new).lent }
    ensures lent { IsLentAlone (kept body.old) (kept body.new) }
    ensures sound { IsSound (kept body.new) }
{
    body.fed += line.len() as u64;
    body.kind = None;
    if let Standing::Refused(_) = body.standing {
        return;
    }
    // Of a log that is taken by entries only the lines that two pieces share come here, and few others.
    let after = match body.part.extend_from_slice(line) {
        Ok(()) => after_line(&mut body.gathered, body.standing, &body.part),
        Err(_) => After {
            standing: Standing::Refused(LogError::Memory),
            kind: None,
        },
    };
    body.standing = after.standing;
    body.kind = after.kind;
    body.part.clear();
}

/// Takes a piece without a line feed.
pub fn take_part(body: &mut ReaderBody, part: &[u8])
    requires plain { HasNoLineFeed part.now }
    requires sound { IsSound (kept body.old) }
    requires room { body.old.fed + length part.now ≤ 2 ^ 63 }
    ensures feeds { (entries : List AnEntry) → Feeds (kept body.old) (kept body.new) part.now entries entries }
    ensures lent { (kept body.new).lent ≡ [] }
    ensures sound { IsSound (kept body.new) }
{
    body.fed += part.len() as u64;
    body.kind = None;
    match body.standing {
        Standing::Start | Standing::Inside(_) => {
            if body.part.extend_from_slice(part).is_err() {
                body.standing = Standing::Refused(LogError::Memory);
                body.part.clear();
            }
        }
        Standing::Ended(number) => {
            if !part.is_empty() {
                body.standing = Standing::Refused(LogError::Line { number });
            }
        }
        Standing::Refused(_) => {}
    }
}

/// Appends what is lent, in lists of its own.
fn append_lent(body: &ReaderBody, into: &mut Entries) -> Result<(), Memory>
    requires { AllByRecursion RisesIn (kept body.now).lent }
    ensures ok { OnOk result (into.new ≡ into.old ++ (kept body.now).lent) }
    ensures err { OnErr result (into.new ≡ into.old) }
    ensures some { OnErr result ((kept body.now).lent ≢ []) }
{
    let Some(kind) = body.kind else {
        return Ok(());
    };
    let alloc = *body.part.allocator();
    let entry = owned_entry(alloc, kind, &body.gathered)?;
    match into.push(entry) {
        Ok(()) => Ok(()),
        Err((_, memory)) => Err(memory),
    }
}

/// Takes a piece that ends with its only line feed. Its entry, if it is the line of one, is appended.
fn append_line(body: &mut ReaderBody, line: &[u8], into: &mut Entries)
    requires whole { IsLine line.now }
    requires sound { IsSound (kept body.old) }
    requires room { body.old.fed + length line.now ≤ 2 ^ 63 }
    ensures feeds { Feeds (kept body.old) (kept body.new) line.now into.old into.new }
    ensures sound { IsSound (kept body.new) }
{
    take_line(body, line);
    if append_lent(body, into).is_err() {
        body.standing = Standing::Refused(LogError::Memory);
    }
}

/// Takes a piece. The entries of the lines that it completes are appended.
pub fn take_piece(body: &mut ReaderBody, piece: &[u8], into: &mut Entries)
    requires sound { IsSound (kept body.old) }
    requires room { body.old.fed + length piece.now ≤ 2 ^ 63 }
    ensures feeds { Feeds (kept body.old) (kept body.new) piece.now into.old into.new }
    ensures sound { IsSound (kept body.new) }
{
    let mut rest = piece;
    while let Some((line, others)) = split_line(rest) {
        append_line(body, line, into);
        rest = others;
    }
    take_part(body, rest);
}
