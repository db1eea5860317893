//! Derivations and their logs.
//!
//! A log is a text of lines, each ended by one line feed: `ngd 1`, a line for each step of a derivation in order, and
//! `end`. Numbers are decimal, without leading zeros and without `-0`. A step's line is `K vX [vA=N,vB=N] <- R R`: its
//! number from 1, its variable counted from 1, the pairs of its nogood, and its reasons, `cN` for the rule with number N
//! from 1 and `nN` for an earlier step. A step without a variable has the line `K - [] <- cN`.
//!
//! This is version 1. A log of version 2 has the first line `ngd 2`, and a line `d K K K` for each
//! deletion: the numbers of the steps that no later step cites. Deletions have no numbers.
#![tactic(auto)]

mod body;
mod deletion;
mod entry_reader;
mod field;
mod log;
mod pieces;
mod place;
mod reader;
mod standing;
mod writer;

pub use dcsp_common::Memory;
pub use dcsp_defs::{
    Derivation, Entries, Entry, Lent, LentStep, NumberList, Reason, ReasonList, Step,
};
pub use deletion::{HEAD2, write_deletion};
pub use field::{after, integer_at};
pub use log::{LogError, log_or_bad_line, logs_differ, next_lines, read_log};
pub use pieces::{
    LogReader, entries_or_bad_line, good_lines, one_answer, read_pieces, texts_differ,
};
pub use standing::Version;
pub use writer::{HEAD, TAIL, write_step, write_step_at};
