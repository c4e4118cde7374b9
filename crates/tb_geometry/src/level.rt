// The level grids of a body.
ghost use Rattle.std.specs.Prelude.{◌≡◌, ◌≤◌, IfOk};
ghost use Rattle.tb_grid.specs.Levels.{AnswersLevel};
ghost use Rattle.tb_geometry.specs.Base.{base_axes};
ghost use Rattle.tb_geometry.specs.Grids.{CarriesBody};

use crate::body::Body;
use std::alloc::Global;
use tb_grid::{Grading, Grid, LevelFault};

impl Body {
    /// The level grid of the base grid: see [`tb_grid::level_grid`]. The dimension is that of the body's detail.
    ///
    /// # Errors
    /// `TooLarge` exactly where an axis would have more than 1,024 lines, the first in the order x, y, z, or else
    /// where there would be more than 262,144 cells. `NoMemory` may come at any time.
    pub fn level_grid(&self, alloc: Global, grading: Grading) -> Result<Grid, LevelFault>
        requires halve { grading.halve ≤ 6 }
        requires dimension { grading.dimension ≡ self.now.dimension }
        ensures level { AnswersLevel grading (base_axes self.now.boxes) result }
        ensures carries { IfOk result (λ grid. CarriesBody grid self.now) }
    {
        tb_grid::level_grid(alloc, &self.base, grading)
    }
}
