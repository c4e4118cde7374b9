// A body without a fault.
ghost use Rattle.std.specs.Prelude.{◌≡◌, length};
ghost use Rattle.tb_detail.specs.Limits.{InLimits};

use crate::base::base_grid;
use crate::boxes::{first_overlap, has_solid};
use crate::fault::{BodyFault, BodyRefusal};
use crate::holders::covering;
use crate::linking::linked;
use crate::occupant::{Occupant, occupants};
use std::alloc::Global;
use std::marker::Model;
use std::snapshot::Snapshot;
use tb_detail::Detail;
use tb_grid::Grid;

/// A body: the boxes of a detail that has no fault. Contracts see it as the detail.
#[derive(Drop)]
pub struct Body {
    pub(crate) detail: Snapshot<Detail>,
    pub(crate) base: Grid,
    pub(crate) holders: Vec<u16>,
    pub(crate) occupants: Vec<Occupant>,
    pub(crate) environments: u8,
}

impl Model for Body {
    ghost use Rattle.tb_detail.specs.declared.Detail.{Detail};

    ghost Value = { Detail };

    ghost use Rattle.tb_geometry.specs.Bodies.{Keeps};

    ghost view = { λ b. b.detail.value };

    ghost invariant = { λ b. Keeps b.detail.value b.base b.holders.items b.occupants.items b.environments };
}

// How many environments a detail has.
fn environments_of(detail: &Detail) -> usize
    ensures { result ≡ length detail.now.environments }
{
    detail.environments.items.len()
}

impl Body {
    ghost use Rattle.tb_geometry.specs.Base.{base_axes};
    ghost use Rattle.tb_geometry.specs.Faults.{Answers, IsAccepted};
    ghost use Rattle.tb_geometry.specs.Grids.{CarriesBody};

    /// The body of a detail.
    ///
    /// # Errors
    /// In this order:
    /// - `TooFewEnvironments` exactly where there are fewer than two environments;
    /// - `NoSolid` exactly where no box is solid;
    /// - `TooManyCells` exactly where the base grid has more than 262,144 cells, with their number;
    /// - `Overlap` exactly where two boxes share a unit cube, at the first such pair by the number of the earlier
    ///   box and then of the later;
    /// - `Uncovered` exactly where a base cell is in no box, with the low corner of the first by cell number;
    /// - `Isolated` exactly where from a solid base cell no way through solid cells that share faces leads to a
    ///   surface, with the low corner of the first.
    ///
    /// `NoMemory` may come at any time.
    pub fn new(alloc: Global, detail: &Detail) -> Result<Body, BodyRefusal>
        requires { InLimits detail.now }
        ensures { Answers detail.now result }
    {
        let environments = environments_of(detail);
        if environments < 2 {
            return Err(BodyRefusal::Fault(BodyFault::TooFewEnvironments));
        }
        let boxes = detail.boxes.items();
        if !has_solid(boxes) {
            return Err(BodyRefusal::Fault(BodyFault::NoSolid));
        }
        let base = base_grid(alloc, boxes)?;
        if let Some((i, j)) = first_overlap(boxes) {
            return Err(BodyRefusal::Fault(BodyFault::Overlap(i, j)));
        }
        let holders = covering(alloc, &base, boxes)?;
        linked(alloc, detail, &base, holders.as_slice())?;
        let occupants = occupants(alloc, detail.materials.items(), boxes)?;
        Ok(Body {
            detail: Snapshot::of(detail),
            base,
            holders,
            occupants,
            environments: environments as u8,
        })
    }

    /// The base grid: on each axis it has a line at each box coordinate.
    pub fn base(&self) -> &Grid
        ensures grid { result.now ≡ base_axes self.now.boxes }
        ensures limits { InLimits self.now }
        ensures accepted { IsAccepted self.now }
        ensures carries { CarriesBody result.now self.now }
    {
        &self.base
    }

    /// How many environments there are.
    pub fn environments(&self) -> u8
        ensures { result ≡ length self.now.environments }
    {
        self.environments
    }
}
