//! Tests of the solver on bodies: repaired fluxes and cycles, plain passes, moves of cycles, sessions and a round.
#![tactic(auto)]

#[cfg(test)]
mod cycle_moves;
#[cfg(test)]
mod passes;
#[cfg(test)]
mod repairs;
#[cfg(test)]
mod sessions;
