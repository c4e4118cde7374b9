//! The detail format: a text of records is read as a detail, or its first fault is told, and a detail is written as its
//! canonical text.
//!
//! The two halves stand in crates of their own: `tb_reading` has the format's table, its faults and the reader,
//! `tb_canonical` the writer. This crate gives both under one name, and the laws that join them: what is written reads
//! back.
#![tactic(auto)]

mod laws;

pub use laws::{read_details_are_written, written_details_read_back};
pub use tb_canonical::{put_detail, write_detail};
pub use tb_reading::{DetailBuilder, DetailFault, DetailKind, DetailRefusal, read_detail};
