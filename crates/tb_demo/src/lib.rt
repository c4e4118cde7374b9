//! The detail of the demo: a section through storeys with balcony slabs, made from their number. It is a large valid
//! detail that no input has to spell. How it is solved and what is written of it stands here too.
#![tactic(auto)]

mod memory;
mod section;
mod solving;
#[cfg(test)]
mod tests;

pub use memory::NoMemory;
pub use section::demo_detail;
pub use solving::{demo_grading, demo_level, demo_sweeps, demo_width};
