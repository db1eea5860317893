//! The words of a text, one after the other.
ghost use Rattle.std.specs.Prelude.{◌≡◌, ℕ, ◌+◌, ◌<◌, ◌≤◌, ◌^◌, ◌⊎◌, List, [], length, IfSome, IfNone, MatchOption, IsTrue, ◌↔◌, true, take, drop, Some, None};
ghost use Rattle.cnf_front.specs.Dimacs.{is_blank, step, words, word_length, word_at, IsNextWord, IsAtWord};

/// Where a byte stands.
#[derive(Clone, Copy, Debug)]
pub enum Stand {
    /// First in its line.
    Start,
    /// Later in its line.
    Inside,
    /// In a comment: in a line that begins with `c`.
    Comment,
}

/// What of a text is not read yet.
#[derive(Clone, Copy, Debug)]
pub struct Rest<'t> {
    pub stand: Stand,
    /// The place of the first byte.
    pub at: usize,
    pub bytes: &'t [u8],
}

/// A word and its place. The end of the text is the empty word.
#[derive(Clone, Copy, Debug)]
pub struct Word<'t> {
    pub bytes: &'t [u8],
    pub at: usize,
}

/// Whether a byte stands between words.
fn is_blank(byte: u8) -> bool
    ensures { result ≡ is_blank byte }
{
    byte == b' ' || byte == b'\t' || byte == b'\r' || byte == b'\n'
}

/// Where the byte after this one stands; none where this one begins a word.
#[tactic(auto, unfolding(crate::specs::Dimacs::step))]
fn step(stand: Stand, byte: u8) -> Option<Stand>
    ensures { result ≡ step stand byte }
{
    match stand {
        Stand::Comment => {
            if byte == b'\n' {
                Some(Stand::Start)
            } else {
                Some(Stand::Comment)
            }
        }
        Stand::Start => {
            if byte == b'c' {
                Some(Stand::Comment)
            } else {
                step_inside(byte)
            }
        }
        Stand::Inside => step_inside(byte),
    }
}

/// The same outside of comments.
#[tactic(auto, unfolding(crate::specs::Dimacs::step))]
fn step_inside(byte: u8) -> Option<Stand>
    ensures { result ≡ step Stand.Inside byte }
{
    if byte == b'\n' {
        return Some(Stand::Start);
    }
    if is_blank(byte) {
        Some(Stand::Inside)
    } else {
        None
    }
}

/// The rest from the next word on.
#[tactic(auto, unfolding(crate::specs::Dimacs::words))]
fn skip(from: Rest) -> Rest
    requires { from.at + length from.bytes.now < 2 ^ 32 }
    ensures same { words result.stand result.at result.bytes.now ≡ words from.entry.stand from.entry.at from.entry.bytes.now }
    ensures end { result.at + length result.bytes.now ≡ from.entry.at + length from.entry.bytes.now }
    ensures shorter { length result.bytes.now ≤ length from.entry.bytes.now }
    ensures word { IsAtWord result.stand result.bytes.now }
{
    let mut here = from;
    while let [byte, bytes @ ..] = here.bytes {
        let Some(stand) = step(here.stand, *byte) else {
            break;
        };
        here = Rest {
            stand,
            at: here.at + 1,
            bytes,
        };
    }
    here
}

/// How many bytes stand before the word's end.
#[tactic(auto, unfolding(crate::specs::Dimacs::word_length))]
fn word_length(bytes: &[u8]) -> usize
    ensures value { result ≡ word_length bytes.now }
    ensures within { result ≤ length bytes.now }
{
    let mut count = 0;
    let mut rest = bytes;
    while let [byte, others @ ..] = rest {
        if is_blank(*byte) {
            break;
        }
        count += 1;
        rest = others;
    }
    count
}

/// The next word, and what follows it.
pub(crate) fn next_word(from: Rest) -> (Word, Rest)
    requires { from.at + length from.bytes.now < 2 ^ 32 }
    ensures next { IsNextWord (words from.entry.stand from.entry.at from.entry.bytes.now) (word_at result.0.bytes.now result.0.at) (words result.1.stand result.1.at result.1.bytes.now) }
    ensures end { result.1.at + length result.1.bytes.now ≡ from.entry.at + length from.entry.bytes.now }
    ensures place { result.0.at < 2 ^ 32 }
    ensures shorter { 0 < length result.0.bytes.now → length result.1.bytes.now < length from.entry.bytes.now }
{
    let here = skip(from);
    let count = word_length(here.bytes);
    let (bytes, others) = here.bytes.split_at(count);
    let word = Word { bytes, at: here.at };
    let rest = Rest {
        stand: Stand::Inside,
        at: here.at + count,
        bytes: others,
    };
    (word, rest)
}
