//! The canonical text of a bundle: the records of the bundle format, each in one form.
//!
//! The head; the canonical records of the detail (`tb_canonical`); for each case its environments, the lines of its
//! axes, the rows of its field and of its flux, its interval and its verdict; and the end. Numbers are written with as
//! few digits as write them, without quotes or remarks.
//!
//! `specs/Canonical.antt` has the records. The rows of values are those that a reader awaits on the grid of the case,
//! by the table of `tb_case_records`. The text of a bundle within limits reads back as the same bundle.
#![tactic(auto)]

mod bundle;
mod case;
mod laws;
mod record;
#[cfg(test)]
mod tests;
mod values;

pub use bundle::{BundleText, put_bundle, write_bundle};
pub use case::verdict_word;
pub use laws::{
    read_bundles_are_written, written_axes_read_back, written_bundles_read_back,
    written_cases_read_back, written_values_read_back,
};
