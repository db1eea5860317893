//! Trials of how a text of FlatZinc is read: its tokens, items and names, and its problem.
#![tactic(auto)]

#[cfg(test)]
mod items;
#[cfg(test)]
mod models;
#[cfg(test)]
mod scopes;
#[cfg(test)]
mod tokens;
