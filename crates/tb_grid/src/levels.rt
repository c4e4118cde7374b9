// The level grid of a grid.
ghost use Rattle.std.specs.Prelude.{◌≡◌, ◌≤◌, ℕ, IfOk};
ghost use Rattle.tb_grid.specs.Grid.{IsGrid};
ghost use Rattle.tb_grid.specs.Levels.{AnswersAxis, AnswersLevel, IsWithinReach, grade_along, halve_along};

use crate::axis::Axis;
use crate::grid::{Grid, TooManyCells};
use crate::level::{GridFault, graded};
use std::alloc::Global;
use tb_places::AxisName;

/// How the level grid of a base grid is made.
#[derive(Clone, Copy, Debug, PartialEq, Eq)]
pub struct Grading {
    /// So many times each interval is cut towards its ends.
    pub grade: u8,
    /// So many times each interval is then halved, at most 6.
    pub halve: u8,
    /// 2 or 3. In dimension 2 the z axis keeps its lines.
    pub dimension: u8,
}

/// Why a level grid is too large.
#[derive(Clone, Copy, Debug, PartialEq, Eq)]
pub enum GridTooLarge {
    /// This axis would have this many lines, more than 1,024. It is the first such axis.
    Lines(AxisName, u32),
    /// No axis has too many lines, but there would be this many cells, more than 262,144.
    Cells(u64),
}

/// Why there is no level grid.
#[derive(Clone, Copy, Debug, PartialEq, Eq)]
pub enum LevelFault {
    TooLarge(GridTooLarge),
    /// Memory ran out.
    NoMemory,
}

impl Grading {
    // The grade and the number of halvings on an axis.
    fn along(self, axis: AxisName) -> (u8, u8)
        ensures grade { result.0 ≡ grade_along self axis }
        ensures halve { result.1 ≡ halve_along self axis }
    {
        match axis {
            AxisName::Z if self.dimension == 2 => (0, 0),
            _ => (self.grade, self.halve),
        }
    }
}

/// The level grid of a base grid: that of each axis, but in dimension 2 the z axis keeps its lines.
///
/// # Errors
/// `TooLarge` exactly where an axis would have more than 1,024 lines, the first in the order x, y, z, or else
/// where there would be more than 262,144 cells. `NoMemory` may come at any time.
pub fn level_grid(alloc: Global, base: &Grid, grading: Grading) -> Result<Grid, LevelFault>
    requires halve { grading.halve ≤ 6 }
    requires reach { IsWithinReach base.now }
    ensures level { AnswersLevel grading base.now result }
    ensures grid { IfOk result IsGrid }
    ensures base { IsGrid base.now }
    ensures flat { grading.dimension ≡ 2 → IfOk result (λ level. level.z ≡ base.now.z) }
{
    let x = level_axis(alloc, base, grading, AxisName::X)?;
    let y = level_axis(alloc, base, grading, AxisName::Y)?;
    let z = level_axis(alloc, base, grading, AxisName::Z)?;
    match Grid::new(x, y, z) {
        Ok(grid) => Ok(grid),
        Err(TooManyCells(cells)) => Err(LevelFault::TooLarge(GridTooLarge::Cells(cells))),
    }
}

// The level grid of one axis.
fn level_axis(
    alloc: Global,
    base: &Grid,
    grading: Grading,
    name: AxisName,
) -> Result<Axis, LevelFault>
    requires halve { grading.halve ≤ 6 }
    requires reach { IsWithinReach base.now }
    ensures axis { AnswersAxis grading base.now name result }
    ensures base { IsGrid base.now }
{
    let (grade, halve) = grading.along(name);
    match graded(alloc, base.axis(name), grade, halve) {
        Ok(axis) => Ok(axis),
        Err(GridFault::TooManyLines(count)) => {
            Err(LevelFault::TooLarge(GridTooLarge::Lines(name, count)))
        }
        Err(GridFault::NoMemory) => Err(LevelFault::NoMemory),
    }
}
