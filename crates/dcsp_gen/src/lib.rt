//! Problems in FlatZinc that are made from numbers: queens, graph colouring, sparse colouring, pigeons, random
//! binary problems, meetings and sensors. Each text declares its variables, tells what a solution prints (not the
//! pigeons), states its constraints and asks for any solution. Random words are those of the generator
//! XSH RR 64/32 (O'Neill, "PCG: a family of simple fast space-efficient statistically good algorithms
//! for random number generation"), seeded by a number.
#![tactic(auto)]

mod binary_texts;
mod laws;
mod lines;
mod lists;
mod meeting_texts;
mod problems;
mod selection;
mod sensor_texts;

pub use binary_texts::{BinarySizes, binary};
pub use dcsp_common::Memory;
pub use laws::selections_are_exact;
pub use meeting_texts::{MeetingSizes, meetings};
pub use problems::{colouring, pigeons, queens, sparse};
pub use sensor_texts::{SensorSizes, sensors};
