//! What a line acts on.

/// The outside of a line: the folder of its files, and the stream of its answers.
#[derive(Drop)]
pub struct Outside<F, S> {
    /// The folder that the line reads its files from and writes them to.
    pub folder: F,
    /// The stream that takes the line's answers.
    pub out: S,
}
