//! Trials of the whole program over folders and streams in memory: what each line answers, writes and says.
#![tactic(auto)]

#[cfg(test)]
mod best;
#[cfg(test)]
mod checks;
#[cfg(test)]
mod exported;
#[cfg(test)]
mod formulas;
#[cfg(test)]
mod given;
#[cfg(test)]
mod hostile;
#[cfg(test)]
mod limits;
#[cfg(test)]
mod logs;
#[cfg(test)]
mod losses;
#[cfg(test)]
mod measured;
#[cfg(test)]
mod ordered;
#[cfg(test)]
mod plain;
#[cfg(test)]
mod refutations;
#[cfg(test)]
mod runs;
#[cfg(test)]
mod starved;
#[cfg(test)]
mod told;
#[cfg(test)]
mod wanting;
#[cfg(test)]
mod words;
