//! The records of a case in a bundle: its environments, the lines of its grid, the values of its field and of its
//! flux, its interval and its verdict.
//!
//! | record | number of them | fields |
//! |---|---|---|
//! | `case,ENV[,ENV]` | 1 | the environments that are at 1 |
//! | `x,..` then `y,..` then `z,..` | 1 each | the lines of the axis in mm |
//! | `t,..` | (ny+1)·(nz+1) | nx+1 node values, rows in order of z, then y |
//! | for each layer of cells along z: | | |
//! | `fz,..` | ny | nx values of faces across z, at its low end |
//! | `fx,..` | ny | nx+1 values of faces across x |
//! | `fy,..` | ny+1 | nx values of faces across y |
//! | behind the last layer `fz,..` | ny | nx values of faces across z, at its high end |
//! | `interval,LO,HI` | 1 | the two ends in fW/K |
//! | `verdict,WORD,W` | 1 | `done`, `grid` or `sweeps`; the width in µW/K |
//!
//! `specs/Table.antt` has the faults of each kind of record, and the first fault of records that are awaited;
//! `specs/Cases.antt` the awaited records of a case, made from the axes among them, and what they say;
//! `specs/Limits.antt` the limits that a case whose records have no fault is within.
#![tactic(auto)]

mod axis;
mod case;
mod ends;
mod fault;
mod fault_text;
mod reader;
mod rows;
mod values;
mod words;

pub use axis::letter;
pub use case::{CaseProof, CaseShape, counts_of, read_case};
pub use ends::Verdict;
pub use fault::{BundleFault, BundleRefusal, RecordFault, RecordPlace};
pub use reader::RecordReader;
pub use rows::{RowKind, field, word_of};
pub use words::{is_exactly, take_words};
