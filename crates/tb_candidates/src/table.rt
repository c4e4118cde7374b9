// The cells of a body on a grid in a case.
ghost use Rattle.std.specs.Prelude.{◌≡◌, ◌<◌, length};
ghost use Rattle.tb_geometry.specs.Base.{base_axes};
ghost use Rattle.tb_geometry.specs.Grids.{CarriesBody};

use std::alloc::{AllocError, Global};
use tb_cg::{CellAxis, Cells, Filling};
use tb_geometry::{Body, Case, Occupant};
use tb_grid::{Axis, AxisName, CellCounts, CellId, Grid};

// The cells along an axis.
#[derive(Drop)]
struct AxisTable {
    widths: Vec<u32>,
    bases: Vec<u32>,
}

impl AxisTable {
    // The cells of an axis, each in the interval of the base axis that holds its lower line.
    fn new(alloc: Global, axis: &Axis, base: &Axis) -> Result<AxisTable, AllocError> {
        let mut widths = Vec::new(alloc);
        let mut bases = Vec::new(alloc);
        for i in 0..axis.intervals() {
            widths.push(axis.width(i))?;
            bases.push(base.interval_of(axis.lines()[i as usize]).unwrap_or(0))?;
        }
        Ok(AxisTable { widths, bases })
    }

    fn cells(&self) -> CellAxis<'_> {
        CellAxis {
            widths: self.widths.as_slice(),
            bases: self.bases.as_slice(),
        }
    }
}

/// The cells of a body on a grid in a case: the lines of the grid, and what fills the base cells.
#[derive(Drop)]
pub struct CellTable {
    counts: CellCounts,
    x: AxisTable,
    y: AxisTable,
    z: AxisTable,
    base: CellCounts,
    fillings: Vec<Filling>,
}

// What an occupant is in a case: an environment is at 1 where it is in the case.
fn filling(occupant: Occupant, case: Case) -> Filling {
    match occupant {
        Occupant::Solid { lambda } => Filling::Solid { lambda },
        Occupant::Air { environment, rs } => Filling::Air {
            rs,
            is_warm: (case.mask >> (environment & 7)) & 1 == 1,
        },
    }
}

// What fills the base cells.
fn fillings(alloc: Global, body: &Body, case: Case) -> Result<Vec<Filling>, AllocError> {
    let counts = body.base().counts();
    let mut fillings = Vec::new(alloc);
    for number in 0..counts.cells() {
        let place = counts.cell_place(CellId(number));
        fillings.push(filling(body.filling(place), case))?;
    }
    Ok(fillings)
}

impl CellTable {
    /// The cells of a body on a grid that carries it, in a case.
    ///
    /// # Errors
    /// Memory ran out.
    pub fn new(
        alloc: Global,
        body: &Body,
        grid: &Grid,
        case: Case,
    ) -> Result<CellTable, AllocError> {
        let base = body.base();
        Ok(CellTable {
            counts: grid.counts(),
            x: AxisTable::new(alloc, grid.axis(AxisName::X), base.axis(AxisName::X))?,
            y: AxisTable::new(alloc, grid.axis(AxisName::Y), base.axis(AxisName::Y))?,
            z: AxisTable::new(alloc, grid.axis(AxisName::Z), base.axis(AxisName::Z))?,
            base: base.counts(),
            fillings: fillings(alloc, body, case)?,
        })
    }

    /// The cells, for the calls of `tb_cg`.
    pub fn cells(&self) -> Cells<'_> {
        Cells {
            counts: self.counts,
            x: self.x.cells(),
            y: self.y.cells(),
            z: self.z.cells(),
            base: self.base,
            fillings: self.fillings.as_slice(),
        }
    }
}
