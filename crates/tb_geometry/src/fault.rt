// Faults of a body.
ghost use Rattle.std.specs.Prelude.{◌≡◌};

use std::alloc::AllocError;
use thiserror::Error;

/// What is wrong with a body. Boxes are counted from 1, coordinates are in 0.1 mm.
#[derive(Clone, Copy, Debug, PartialEq, Eq)]
pub enum BodyFault {
    /// There are fewer than two environments.
    TooFewEnvironments,
    /// No box is solid.
    NoSolid,
    /// The base grid has this many cells, more than 262,144.
    TooManyCells(u64),
    /// These two boxes share a unit cube, the first such pair.
    Overlap(u32, u32),
    /// The base cell with this low corner is in no box, the first such cell.
    Uncovered { x: u32, y: u32, z: u32 },
    /// From the solid base cell with this low corner no way through solid faces leads to a surface, the
    /// first such cell.
    Isolated { x: u32, y: u32, z: u32 },
}

/// Why there is no body.
#[derive(Clone, Copy, Debug, PartialEq, Eq, Error)]
pub enum BodyRefusal {
    #[error("the body is at fault")]
    Fault(BodyFault),
    #[error("memory ran out")]
    NoMemory,
}

impl From<AllocError> for BodyRefusal {
    ghost use Rattle.tb_geometry.specs.declared.fault.BodyRefusal.TheVariants.{NoMemory};

    ghost from_gives = { λ _ refusal. refusal ≡ NoMemory };

    fn from(_: AllocError) -> BodyRefusal {
        BodyRefusal::NoMemory
    }
}
