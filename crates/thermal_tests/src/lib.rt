//! Tests of whole runs: the commands, from words and bytes to text and status.
#![tactic(auto)]

#[cfg(test)]
mod bundles;
#[cfg(test)]
mod commands;
#[cfg(test)]
mod demo;
#[cfg(test)]
mod faults;
#[cfg(test)]
mod reports;
#[cfg(test)]
mod solving;
