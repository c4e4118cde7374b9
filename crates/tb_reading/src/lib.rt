//! The detail format: a text of records is read as a detail, or its first fault is told.
//!
//! Records are those of `tb_records`. A record whose first field begins with `#` is a remark, which is
//! counted and passed over. The first other record is the head `detail,1,D`, with the dimension D, 2 or 3.
//! Behind it stand the following, in any order in which each name is declared before it is used.
//!
//! | record | dimension | meaning |
//! |---|---|---|
//! | `env,NAME` | | an environment |
//! | `mat,NAME,LAMBDA` | | a material |
//! | `solid,MAT,x0,x1,y0,y1,z0,z1` | | a solid box |
//! | `air,ENV,RS,x0,x1,y0,y1,z0,z1` | | an air box |
//! | `part,NAME,RSI,RSE,A_1,..,A_s` | | a planar part of 1 to 4 sections; no area means one of area 1 |
//! | `layer,PART,D,MAT_1,..,MAT_s` | | a layer at the part's end, with a material for each section |
//! | `psi,NAME,ENV,ENV` | 2 | a Ψ for a pair of environments |
//! | `length,PSI,PART,L` | 2 | a term U·l of a Ψ |
//! | `chi,NAME,ENV,ENV` | 3 | a χ for a pair of environments |
//! | `area,CHI,PART,A` | 3 | a term U·A of a χ |
//! | `line,CHI,PSI_LO,PSI_HI,L` | 3 | a term Ψ·l of a χ |
//!
//! In dimension 2 boxes have no z coordinates, and reach from 0 to 1000 mm there.
//!
//! The first fault is that of the first record that has one. Within a record it is that of its kind, of its
//! dimension, of its number of fields, of its fields from left to right, and of the count of what it adds.
//! Where no record has a fault, a detail may lack its head, or a part its layers.
//!
//! `specs/Kinds.antt` has the table of the kinds, `specs/Records.antt` the faults of a record behind those
//! before it, `specs/Details.antt` the detail as a selection from all records, and `specs/Reading.antt` the
//! reading of a list of numbered records, which other formats cite with numbers of their own.
#![tactic(auto)]

mod builder;
mod draft;
mod fault;
mod fault_text;
mod items;
mod kinds;
mod laws;
mod names;
mod records;
#[cfg(test)]
mod tests;
mod values;

pub use builder::{DetailBuilder, read_detail};
pub use fault::{DetailFault, DetailKind, DetailRefusal};
pub use kinds::{FieldCount, FieldRule, NameKind, RecordKind, places};
pub use laws::{number_of_no_record, read_details_are_in_limits, refusals_stay};
pub use values::{FieldValue, Values};
