//! The canonical text of a detail: the records of the detail format in a fixed order.
//!
//! The head; all environments; all materials; all boxes in their order; for each part its record with all
//! areas and then its layers; for each Ψ its record and its lengths; for each χ its record, its areas and its
//! lines. In dimension 2 the z coordinates of boxes are left out. Names stand for places, and numbers are
//! written with as few decimal places as write them.
//!
//! A record is written by the table of kinds that reads it. `specs/Canonical.antt` has the values of each thing of a
//! detail, and the records of a detail. Their text reads back as the same detail.
#![tactic(auto)]

mod detail;
mod fields;
mod laws;
mod record;
#[cfg(test)]
mod tests;
mod things;

pub use detail::{put_detail, write_detail};
pub use laws::canonical_reads_back;
pub use record::put_record;
