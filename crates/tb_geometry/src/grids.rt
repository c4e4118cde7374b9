// Which grids carry a body.
ghost use Rattle.std.specs.Prelude.{◌≡◌, ◌↔◌, ◌-◌, IsTrue, MatchOption, length, slice_index};
ghost use Rattle.std.specs.List.{Contains};
ghost use Rattle.tb_grid.specs.Grid.{IsGrid, lines_of};
ghost use Rattle.tb_places.specs.declared.AxisName.{AxisName};
ghost use Rattle.tb_geometry.specs.Base.{base_lines};
ghost use Rattle.tb_geometry.specs.Grids.{CarriesBody, CarriesLines, HasLines, IsFirstMissing};

use crate::body::Body;
use tb_grid::{Axis, AxisName, Grid};

impl Body {
    /// The lowest coordinate of a box on the axis of that name at which an axis has no line. It takes no memory.
    pub fn first_missing(&self, axis: &Axis, name: AxisName) -> Option<u32>
        ensures { let base = base_lines name self.now.boxes in
            MatchOption result (HasLines base axis.now) (IsFirstMissing base axis.now) }
    {
        first_lacking(self.base.axis(name), axis)
    }

    /// Whether a grid carries the body: each axis begins and ends at the hull, and has a line at each coordinate
    /// of a box. It takes no memory.
    pub fn carries(&self, grid: &Grid) -> bool
        ensures { IsTrue result ↔ CarriesBody grid.now self.now }
    {
        carries_base(&self.base, grid)
    }
}

// Whether a grid carries a base grid.
fn carries_base(base: &Grid, grid: &Grid) -> bool
    ensures carries { IsTrue result ↔ ((a : AxisName) → CarriesLines (lines_of base.now a) (lines_of grid.now a)) }
    ensures base { IsGrid base.now }
    ensures grid { IsGrid grid.now }
{
    carries_along(base, grid, AxisName::X)
        && carries_along(base, grid, AxisName::Y)
        && carries_along(base, grid, AxisName::Z)
}

// Whether a grid carries a base grid on an axis.
fn carries_along(base: &Grid, grid: &Grid, name: AxisName) -> bool
    ensures carries { IsTrue result ↔ CarriesLines (lines_of base.now name) (lines_of grid.now name) }
    ensures base { IsGrid base.now }
    ensures grid { IsGrid grid.now }
{
    carries_lines(base.axis(name), grid.axis(name))
}

// The lowest line of an axis of the base grid that an axis lacks.
fn first_lacking(base: &Axis, axis: &Axis) -> Option<u32>
    ensures { MatchOption result (HasLines base.now axis.now) (IsFirstMissing base.now axis.now) }
{
    for line in base.lines() {
        if axis.line_at(*line).is_none() {
            return Some(*line);
        }
    }
    None
}

// Whether an axis has all lines of an axis of the base grid, and begins and ends with them.
fn carries_lines(base: &Axis, axis: &Axis) -> bool
    ensures { IsTrue result ↔ CarriesLines base.now axis.now }
{
    first_lacking(base, axis).is_none()
        && axis.lines().first() == base.lines().first()
        && axis.lines().last() == base.lines().last()
}
