//! Trials of logs, schedules, generated models, formulas and their proofs as texts, of checks, cores and upgrades, and
//! of the lines that tell of them.
#![tactic(auto)]

#[cfg(test)]
mod checks;
#[cfg(test)]
mod cores;
#[cfg(test)]
mod formulas;
#[cfg(test)]
mod generated;
#[cfg(test)]
mod given;
#[cfg(test)]
mod log_lines;
#[cfg(test)]
mod logs;
#[cfg(test)]
mod model_lines;
#[cfg(test)]
mod propagation;
#[cfg(test)]
mod schedules;
#[cfg(test)]
mod upgrades;
