//! Reading a log in pieces.
ghost use Rattle.std.specs.Prelude.{◌≡◌, ◌⊎◌, ◌↔◌, ℕ, ◌+◌, ◌<◌, ◌≤◌, ◌^◌, [], ◌++◌, List, length, Some, IfSome, IfNone, IfOk, OnOk, IsOk, IsErr, IsErrOf, Err};
ghost use Rattle.dcsp_defs.specs.declared.entry.Entry.{Entry as AnEntry};
ghost use Rattle.ngd_log.specs.EntryTexts.{EntriesOrBadLine, TextsDiffer, IsOneAnswer, IsHeadedTwo, IsLogOfEntries, IsFirstBadLine};
ghost use Rattle.ngd_log.specs.EntryReading.{good_entries};
ghost use Rattle.ngd_log.specs.Pieces.{refusal_of, Tells, joined, IsFed, TakesFront, Completes, IsRefused, GoodLines};
ghost use Rattle.ngd_log.specs.Lent.{lent_entries};

use crate::body::{ReaderBody, take_entry, take_line, take_part, take_piece};
use crate::log::{LogError, split_line};
use crate::reader::Gathered;
use crate::standing::{EntryKind, Standing};
use dcsp_common::Memory;
use dcsp_defs::{Entries, Lent};
use std::alloc::Global;
use std::marker::Model;

/// Reads a log of either version that comes in pieces, however it is cut.
///
/// It keeps the bytes after the last line feed, and of the entries the one of the line that it took last, which it
/// lends and whose lists it uses again. It keeps the allocator that it was made with.
#[derive(Drop)]
pub struct LogReader {
    body: ReaderBody,
}

impl Model for LogReader {
    ghost use Rattle.ngd_log.specs.Pieces.{Kept, kept, IsSound};

    ghost Value = { Kept };

    ghost view = { λ reader. kept reader.body };

    ghost invariant = { λ reader. IsSound (kept reader.body) };
}

impl LogReader {
    /// A reader that was fed nothing. It takes no memory.
    pub fn new(alloc: Global) -> LogReader
        ensures { IsFed result [] }
    {
        LogReader {
            body: ReaderBody {
                standing: Standing::Start,
                part: Vec::new(alloc),
                fed: 0,
                kind: None,
                gathered: Gathered::new(alloc),
            },
        }
    }

    /// Takes the next piece of the text, and appends the entries of the lines that it completes.
    ///
    /// The text with this piece has at most 2^63 bytes. `LogError::Line` comes exactly where in the text so far a line
    /// with its line feed is bad, or a byte follows the line `end`. It names the first, the entries of the good lines
    /// before it were appended, and each later call answers the same. After `LogError::Memory` each later call answers
    /// that, and what stands in `into` is open.
    pub fn feed(&mut self, piece: &[u8], into: &mut Entries) -> Result<(), LogError>
        requires { self.old.fed + length piece.now ≤ 2 ^ 63 }
        ensures fed { (text : List ℕ) → IsFed self.old text → IsFed self.new (text ++ piece.now) }
        ensures counted { self.new.fed ≡ self.old.fed + length piece.now }
        ensures entries { OnOk result ((text : List ℕ) → IsFed self.old text → Completes text piece.now into.old into.new) }
        ensures before_line { (number : ℕ) → IsErrOf result (LogError.Line number) → (text : List ℕ) → IsFed self.old text → Completes text piece.now into.old into.new }
        ensures line { (number : ℕ) → IsErrOf result (LogError.Line number) → (text : List ℕ) → IsFed self.old text → IsRefused (text ++ piece.now) number }
        ensures refuses { (number : ℕ) (text : List ℕ) → IsFed self.old text → IsRefused (text ++ piece.now) number → IsErrOf result (LogError.Line number) ⊎ IsErrOf result LogError.Memory }
        ensures stands { Tells (refusal_of self.new.standing) result }
        ensures again { IfSome (refusal_of self.old.standing) (λ error. result ≡ Err error) }
    {
        take_piece(&mut self.body, piece, into);
        self.body.standing.answer()
    }

    /// Takes the front of the next piece of the text up to its first line feed, or all of it where it has none, and
    /// lends the entry of that line. It answers what is left, and `None` where the piece had no line feed.
    ///
    /// The text with this piece has at most 2^63 bytes. A bad line and what follows it lend nothing, and are told by
    /// `finish`. After `Memory` each later call answers that, and so does `finish`. Inlined: each line takes a call.
    #[inline(always)]
    pub fn take_line<'t>(&mut self, piece: &'t [u8]) -> Result<Option<&'t [u8]>, Memory>
        requires { self.old.fed + length piece.now ≤ 2 ^ 63 }
        ensures line { IfOk result (λ rest. IfSome rest (λ others. TakesFront self.old self.new piece.now others.now)) }
        ensures shorter { IfOk result (λ rest. IfSome rest (λ others. length others.now < length piece.now)) }
        ensures part { IfOk result (λ rest. IfNone rest (TakesFront self.old self.new piece.now [])) }
        ensures silent { IfOk result (λ rest. IfNone rest (self.new.lent ≡ [])) }
        ensures counted { self.new.fed ≤ self.old.fed + length piece.now }
        ensures stands { IsErr result ↔ (refusal_of self.new.standing ≡ Some LogError.Memory) }
        ensures again { IfSome (refusal_of self.old.standing) (λ error. refusal_of self.new.standing ≡ Some error) }
    {
        if let Some(rest) = take_entry(&mut self.body, piece) {
            return Ok(Some(rest));
        }
        let Some((line, others)) = split_line(piece) else {
            take_part(&mut self.body, piece);
            self.body.standing.memory()?;
            return Ok(None);
        };
        take_line(&mut self.body, line);
        self.body.standing.memory()?;
        Ok(Some(others))
    }

    /// The entry of the line that was taken last, if it has one.
    pub fn lent(&self) -> Option<Lent<'_>>
        ensures { lent_entries result ≡ self.now.lent }
    {
        let gathered = &self.body.gathered;
        let Some(kind) = self.body.kind else {
            return None;
        };
        match kind {
            EntryKind::Step => Some(Lent::Step(gathered.step())),
            EntryKind::Delete => Some(Lent::Delete(&gathered.numbers)),
        }
    }

    /// Whether the text that was fed is a log of either version. It takes no memory.
    ///
    /// `LogError::Line` comes exactly where it is none, and names its first bad line: an unfinished or missing line is
    /// one. `LogError::Memory` comes exactly where a call of `feed` or `take_line` lacked memory.
    pub fn finish(&self) -> Result<(), LogError>
        ensures log { OnOk result ((text : List ℕ) → IsFed self.now text → IsLogOfEntries text (good_entries text)) }
        ensures line { (number : ℕ) → IsErrOf result (LogError.Line number) → (text : List ℕ) → IsFed self.now text → IsFirstBadLine text number }
        ensures accepts { (text : List ℕ) (entries : List AnEntry) → IsFed self.now text → IsLogOfEntries text entries → IsOk result ⊎ IsErrOf result LogError.Memory }
        ensures refuses { (text : List ℕ) (number : ℕ) → IsFed self.now text → IsFirstBadLine text number → IsErrOf result (LogError.Line number) ⊎ IsErrOf result LogError.Memory }
        ensures memory { IsErrOf result LogError.Memory ↔ (refusal_of self.now.standing ≡ Some LogError.Memory) }
    {
        self.body.standing.answer_at_end()
    }
}

/// The entries of a log of either version that comes in these pieces. However it is cut, the answer is that of the whole
/// text, which has at most 2^63 bytes.
///
/// `LogError::Line` comes exactly where the text is no log, and names its first bad line.
pub fn read_pieces(alloc: Global, pieces: &[Vec<u8>]) -> Result<Entries, LogError>
    requires { length (joined pieces.now) ≤ 2 ^ 63 }
    ensures log { IfOk result (λ entries. IsLogOfEntries (joined pieces.now) entries) }
    ensures line { (number : ℕ) → IsErrOf result (LogError.Line number) → IsFirstBadLine (joined pieces.now) number }
    ensures accepts { (entries : List AnEntry) → IsLogOfEntries (joined pieces.now) entries → IsOk result ⊎ IsErrOf result LogError.Memory }
    ensures refuses { (number : ℕ) → IsFirstBadLine (joined pieces.now) number → IsErrOf result (LogError.Line number) ⊎ IsErrOf result LogError.Memory }
{
    let mut reader = LogReader::new(alloc);
    let mut entries = Entries::new(alloc);
    for piece in pieces {
        // A refusal stands, and is answered at the end.
        let _told = reader.feed(piece, &mut entries);
    }
    match reader.finish() {
        Ok(()) => Ok(entries),
        Err(error) => Err(error),
    }
}

/// Each text is that of one list of entries, or has one first bad line.
pub fn entries_or_bad_line()
    ensures { (text : List ℕ) → EntriesOrBadLine text }
{}

/// Different entries have different texts, of either version, and no text begins another.
pub fn texts_differ()
    ensures { TextsDiffer }
{}

/// A text that has not the head of version 2 is the log of the same steps, or has the same first bad
/// line, for `read_log` and for `LogReader`.
pub fn one_answer()
    ensures { (text : List ℕ) → (IsHeadedTwo text → ⊥) → IsOneAnswer text }
{}

/// The entries of the good lines of a text: all of a log's, and else those before the first line that is no entry's.
pub fn good_lines()
    ensures { (text : List ℕ) → GoodLines text }
{}
