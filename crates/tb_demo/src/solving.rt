// How the demo is solved.
ghost use Rattle.std.specs.Prelude.{◌≡◌, ◌≤◌, ◌*◌, IfOk};
ghost use Rattle.tb_places.specs.Places.{cell_count};
ghost use Rattle.tb_grid.specs.Grid.{counts_of};
ghost use Rattle.tb_grid.specs.Levels.{IsLevelOf};
ghost use Rattle.tb_geometry.specs.Base.{base_axes};
ghost use Rattle.tb_geometry.specs.Grids.{CarriesBody};
ghost use Rattle.tb_demo.specs.Line.{demo_grading, demo_sweeps, demo_width};
ghost use Rattle.tb_demo.specs.Section.{section};

use crate::memory::NoMemory;
use std::alloc::Global;
use tb_geometry::Body;
use tb_grid::{Grading, Grid, LevelFault};

/// How the level grid of the demo is made: each interval of the base grid is cut twice towards its ends, and never halved.
pub fn demo_grading() -> Grading
    ensures { result ≡ demo_grading }
{
    Grading {
        grade: 2,
        halve: 0,
        dimension: 2,
    }
}

/// The level grid of the body of a demo of so many storeys, 1 to 16: 20 by 12 cells a storey.
///
/// # Errors
/// `NoMemory` may come at any time.
pub fn demo_level(alloc: Global, storeys: u8, body: &Body) -> Result<Grid, NoMemory>
    requires some { 1 ≤ storeys }
    requires few { storeys ≤ 16 }
    requires body { body.now ≡ section storeys }
    ensures level { IfOk result (IsLevelOf demo_grading (base_axes (section storeys).boxes)) }
    ensures cells { IfOk result (λ grid. cell_count (counts_of grid) ≡ 240 * storeys) }
    ensures carries { IfOk result (λ grid. CarriesBody grid body.now) }
{
    match body.level_grid(alloc, demo_grading()) {
        Ok(grid) => Ok(grid),
        Err(LevelFault::TooLarge(_)) => unreachable!(),
        Err(LevelFault::NoMemory) => Err(NoMemory),
    }
}

/// How wide the interval of the demo's case may be, in µW/K: 100,000 a storey.
pub fn demo_width(storeys: u8) -> u64
    ensures { result ≡ demo_width storeys }
{
    100_000 * u64::from(storeys)
}

/// How many plain passes the demo's case may take: 50.
pub fn demo_sweeps() -> u32
    ensures { result ≡ demo_sweeps }
{
    50
}
