//! Trials of folders and sinks, those in memory and the real ones, and of scripts of writes.
#![tactic(auto)]

#[cfg(test)]
mod files;
#[cfg(test)]
mod folders;
#[cfg(test)]
mod given;
#[cfg(test)]
mod scripts;
