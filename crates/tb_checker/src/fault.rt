// Faults of a bundle.
use tb_bundle::BundleFault;
use tb_geometry::BodyFault;
use tb_grid::{CellId, FaceId};
use tb_terms::Interval;
use thiserror::Error;

/// What is wrong with a bundle. Cases are counted from 1, cells and faces from 0.
#[derive(Clone, Copy, Debug, PartialEq, Eq)]
pub enum CheckFault {
    /// The first fault of its records.
    Bundle(BundleFault),
    /// The first fault of its detail as a body.
    Body(BodyFault),
    /// In a case heat passes an adiabatic face, the first such face.
    OuterFlux(u8, FaceId),
    /// In a case a solid cell, the first such cell, is out of balance: this much leaves it, in nW per unit difference.
    Unbalanced(u8, CellId, i128),
    /// In a case the terms of the loss, each rounded up, are more than 2¹²⁰ fW/K.
    SumPastLimit(u8),
    /// In a case the claimed interval, which comes first, isn't that of the field and the flux, which comes second.
    IntervalDiffers(u8, Interval, Interval),
    /// In a case the verdict is `done` while the interval is wider than the wanted width, or it isn't `done` while it
    /// is not.
    VerdictDiffers(u8),
}

/// Why a bundle wasn't accepted.
#[derive(Clone, Copy, Debug, PartialEq, Eq, Error)]
pub enum CheckRefusal {
    #[error("the bundle is at fault")]
    Fault(CheckFault),
    #[error("memory ran out")]
    NoMemory,
}
