//! The bundle format: a detail, and for each of its cases a grid, a field, a flux, an interval and a verdict.
//!
//! A bundle is the record `bundle,1`, the records of a detail (`tb_reading`), the records of each case of the detail in
//! order (`tb_case_records`), and `end`. Records are those of `tb_records`; a record whose first field begins with `#`
//! is a remark, which is counted and passed over.
//!
//! The detail ends before the first record that begins with `case` or `end`. The base lines, and with them the hull,
//! are those of its boxes, whatever faults it has as a body. The first fault is that of the head, else that of the
//! detail, else that of the cases in order and of the end, else that of a record behind the end. Two details have no
//! right record behind them: one without a box, at its first `x` record, and one with fewer than two environments.
//!
//! A bundle that was read is within the limits of the format (`specs/Limits.antt`): so many values as its grids have
//! nodes and faces, each in its range, on grids that carry the base lines.
//!
//! `specs/Bundles.antt` has the reading of a list of records, `specs/Details.antt` that of its detail,
//! `specs/Bodies.antt` that of the records behind it.
#![tactic(auto)]

mod body;
mod bundle;
mod detail;

pub use body::{Body, masks_of, read_body, read_cases, read_one, take_end};
pub use bundle::{Bundle, read_bundle, take_head};
pub use detail::read_detail_part;
pub use tb_case_records::{BundleFault, BundleRefusal, CaseProof, RecordPlace, Verdict};
