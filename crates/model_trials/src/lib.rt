//! Trials of problems and of what they are made of: lists, nogoods, domains, sums, constraints and rows. And of what is told of
//! them: answers, bounds and the best values.
#![tactic(auto)]

#[cfg(test)]
mod answers;
#[cfg(test)]
mod bounds;
#[cfg(test)]
mod constraints;
#[cfg(test)]
mod domains;
#[cfg(test)]
mod lists;
#[cfg(test)]
mod nogoods;
#[cfg(test)]
mod optima;
#[cfg(test)]
mod problems;
#[cfg(test)]
mod rows;
#[cfg(test)]
mod sums;
