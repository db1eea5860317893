//! A reader of tokens.

ghost use Rattle.std.specs.Prelude.{◌≤◌, length};

/// Reads the tokens of a text of at most 16,777,216 bytes from the left.
#[derive(Clone, Copy)]
pub struct TokenReader<'t> {
    pub(crate) text: &'t [u8],
    /// The first place that is not read, which is in no gap.
    pub(crate) at: usize,
    ghost small: { length text.now ≤ 16777216 },
    ghost within: { at ≤ length text.now },
}
