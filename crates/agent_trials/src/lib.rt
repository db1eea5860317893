//! Trials of an agent and of its parts: messages and links, views, stores and reasons.
#![tactic(auto)]

#[cfg(test)]
mod agents;
#[cfg(test)]
mod given;
#[cfg(test)]
mod links;
#[cfg(test)]
mod messages;
#[cfg(test)]
mod reasons;
#[cfg(test)]
mod stores;
#[cfg(test)]
mod views;
