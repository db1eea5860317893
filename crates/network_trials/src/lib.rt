//! Trials of all agents of a problem: over reliable links, in whole runs, and over a medium that loses,
//! repeats and reorders.
#![tactic(auto)]

#[cfg(test)]
mod drawn;
#[cfg(test)]
mod given;
#[cfg(test)]
mod losses;
#[cfg(test)]
mod networks;
#[cfg(test)]
mod plain;
#[cfg(test)]
mod seats;
#[cfg(test)]
mod sessions;
#[cfg(test)]
mod spent;
