//! One line, in a buffer of fixed size.

ghost use Rattle.std.specs.Prelude.{◌≡◌, ◌+◌, ◌≤◌, [], ◌++◌, length, decimal, codes};

use itoa::Buffer;
use std::marker::Model;

/// The most bytes of a line.
const MOST: usize = 96;

/// The bytes of one line, which take no memory of the heap.
#[derive(Drop)]
pub struct AnswerLine {
    bytes: [u8; MOST],
    length: usize,
}

impl Model for AnswerLine {
    ghost use Rattle.std.specs.Prelude.{ℕ, ◌≤◌, List, take};

    ghost Value = { List ℕ };

    ghost view = { λ line. take line.length line.bytes };

    ghost invariant = { λ line. line.length ≤ 96 };
}

impl AnswerLine {
    /// A line of these bytes.
    pub fn of(bytes: &[u8]) -> AnswerLine
        requires { length bytes.now ≤ 96 }
        ensures { result ≡ bytes.now }
    {
        let mut line = AnswerLine {
            bytes: [0; MOST],
            length: 0,
        };
        line.add(bytes);
        line
    }

    /// The line of these first bytes and a number.
    pub fn numbered(before: &[u8], number: u64) -> AnswerLine
        requires { length before.now ≤ 64 }
        ensures { result ≡ before.now ++ decimal number ++ codes "\n" }
    {
        AnswerLine::of(before).with_number(number).with(b"\n")
    }

    /// All bytes of the line.
    pub fn bytes(&self) -> &[u8]
        ensures { result.now ≡ self.now }
    {
        &self.bytes[..self.length]
    }

    /// The line with these bytes behind it.
    pub fn with(mut self, bytes: &[u8]) -> AnswerLine
        requires { length self + length bytes.now ≤ 96 }
        ensures { result ≡ self ++ bytes.now }
    {
        self.add(bytes);
        self
    }

    /// The line with this number behind it, in decimal digits: 20 at most.
    pub fn with_number(self, number: u64) -> AnswerLine
        requires { length self ≤ 76 }
        ensures number { result ≡ self ++ decimal number }
        ensures digits { length result ≤ length self + 20 }
    {
        self.with(Buffer::new().format(number).as_bytes())
    }

    /// Adds bytes at the end.
    fn add(&mut self, bytes: &[u8])
        requires { length self.old + length bytes.now ≤ 96 }
        ensures { self.new ≡ self.old ++ bytes.now }
    {
        let end = self.length + bytes.len();
        self.bytes[self.length..end].copy_from_slice(bytes);
        self.length = end;
    }
}
