//! What the reading of bundles, their checker and their writer agree on: a text has no fault exactly where it reads as a
//! certified bundle, a text has one first fault at most, and what was accepted is accepted again once it is written.
//! Laws alone.
#![tactic(auto)]

mod laws;

pub use laws::{
    checked_bundles_are_written_without_fault, faultless_records_are_certified_bundles,
    first_faults_are_one,
};
