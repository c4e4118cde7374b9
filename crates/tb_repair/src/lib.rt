//! The repair of a flux: the one balanced flux that has given values off the outlets.
//!
//! [`repair`] balances the solid cells of a body on a grid one after the other, those farthest from the root of their
//! linked set first, each by the flow through its outlet. It takes no memory: a [`RepairWork`] holds the repaired flux.
#![tactic(auto)]

mod repair_work;

pub use repair_work::{RepairWork, repair};
pub use tb_trees::NoMemory;
