//! Choices: which message is delivered next.
//!
//! A run over messages in transit takes a number for each delivery. The numbers come of a seed or of a
//! recorded list. A schedule is the text of such a list: a line `schedule 1`, a line for each choice
//! in order, and a line `end`, each ended by one line feed. A choice is a decimal number from 0 to
//! 2^32 - 1 without leading zeros.
#![tactic(auto)]

mod choice_list;
mod choices;
mod listed;
mod schedule;
mod seeded;

pub use choice_list::ChoiceList;
pub use choices::Choices;
pub use dcsp_common::Memory;
pub use listed::Listed;
pub use schedule::{
    ScheduleError, next_lines, read_schedule, schedule_or_bad_line, schedules_differ,
    write_schedule,
};
pub use seeded::Seeded;
