// What fills the cells of a grid that carries a body, and the kinds of its faces.
ghost use Rattle.std.specs.Prelude.{◌≡◌, ◌<◌, Some, length, option_map, slice_get, slice_index};
ghost use Rattle.tb_grid.specs.Axis.{IsBetweenEnds, IsIntervalOf};
ghost use Rattle.tb_places.specs.Along.{ahead, index_along};
ghost use Rattle.tb_grid.specs.Grid.{Axes, counts_of, lines_of};
ghost use Rattle.tb_places.specs.declared.AxisName.{AxisName};
ghost use Rattle.tb_places.specs.declared.Place.{Place};
ghost use Rattle.tb_places.specs.Inverse.{cell_place, face_place};
ghost use Rattle.tb_places.specs.Places.{IsCell, IsFace, cell_count, face_count};
ghost use Rattle.tb_model.specs.Mesh.{kind_between};
ghost use Rattle.tb_geometry.specs.Base.{IsBaseCell};
ghost use Rattle.tb_geometry.specs.Bodies.{filled_with};
ghost use Rattle.tb_geometry.specs.Grids.{CarriesBody, LiesInBaseCell, above_face, below_face, content_of, low_side, mesh_on, occupant_at};
ghost use Rattle.tb_model.specs.Mesh.{kind_at};

use crate::body::Body;
use crate::occupant::Occupant;
use tb_grid::{Axis, AxisName, CellId, FaceId, FacePlace, Grid, Place};
use tb_model::FaceKind;

impl Body {
    /// What fills a cell of a grid that carries the body. It takes no memory, and looks for no box: a binary
    /// search on each axis finds its base cell.
    pub fn occupant(&self, grid: &Grid, cell: CellId) -> Occupant
        requires carries { CarriesBody grid.now self.now }
        requires cell { cell.0 < cell_count (counts_of grid.now) }
        ensures { Some result ≡ occupant_at self.now grid.now (cell_place (counts_of grid.now) cell.0) }
    {
        self.occupant_at(grid, grid.counts().cell_place(cell))
    }

    /// The kind of a face of a grid that carries the body. It takes no memory.
    pub fn kind(&self, grid: &Grid, face: FaceId) -> FaceKind
        requires carries { CarriesBody grid.now self.now }
        requires face { face.0 < face_count (counts_of grid.now) }
        ensures { result ≡ let at = face_place (counts_of grid.now) face.0 in
            kind_at (mesh_on self.now grid.now) at.axis at.place }
    {
        let face = grid.counts().face_place(face);
        kind_from(self.below(grid, face), self.above(grid, face))
    }

    // What lies below a face: nothing, where the face stands at the first line of its axis.
    fn below(&self, grid: &Grid, face: FacePlace) -> Option<Occupant>
        requires carries { CarriesBody grid.now self.now }
        requires face { IsFace (counts_of grid.now) face.axis face.place }
        ensures { let side = below_face (mesh_on self.now grid.now) face in
            result ≡ option_map (filled_with self.now.materials) side }
    {
        if face.place.along(face.axis) == 0 {
            return None;
        }
        Some(self.occupant_at(grid, cell_below(face)))
    }

    // What lies above a face: nothing, where the face stands at the last line of its axis.
    fn above(&self, grid: &Grid, face: FacePlace) -> Option<Occupant>
        requires carries { CarriesBody grid.now self.now }
        requires face { IsFace (counts_of grid.now) face.axis face.place }
        ensures { let side = above_face (mesh_on self.now grid.now) face in
            result ≡ option_map (filled_with self.now.materials) side }
    {
        if face.place.along(face.axis) == grid.counts().along(face.axis) {
            return None;
        }
        Some(self.occupant_at(grid, face.place))
    }

    // What fills the cell at a place: what fills the base cell in which it lies.
    fn occupant_at(&self, grid: &Grid, cell: Place) -> Occupant
        requires carries { CarriesBody grid.now self.now }
        requires cell { IsCell (counts_of grid.now) cell }
        ensures { Some result ≡ occupant_at self.now grid.now cell }
    {
        self.filling(base_place(&self.base, grid, cell))
    }

    /// What fills a base cell, and so each cell that lies in it, of any grid that carries the body. It takes no
    /// memory.
    pub fn filling(&self, base_cell: Place) -> Occupant
        requires { IsBaseCell self.now.boxes base_cell }
        ensures { (g : Axes) (p : Place) → CarriesBody g self.now → IsCell (counts_of g) p
            → LiesInBaseCell self.now.boxes g p base_cell → Some result ≡ occupant_at self.now g p }
    {
        let number = self.base.counts().cell_number(base_cell);
        filling(self.holders.as_slice(), self.occupants.as_slice(), number)
    }
}

// What fills the holder of a base cell.
fn filling(holders: &[u16], occupants: &[Occupant], base_cell: CellId) -> Occupant
    requires cell { base_cell.0 < length holders.now }
    requires holder { slice_index holders.now base_cell.0 < length occupants.now }
    ensures { slice_get occupants.now (slice_index holders.now base_cell.0) ≡ Some result }
{
    let holder = holders[base_cell.0 as usize];
    occupants[holder as usize]
}

// The place of the base cell in which a cell of a grid lies.
fn base_place(base: &Grid, grid: &Grid, cell: Place) -> Place
    requires cell { IsCell (counts_of grid.now) cell }
    requires between { (a : AxisName) →
        IsBetweenEnds (lines_of base.now a) (low_side grid.now a cell) }
    ensures { (a : AxisName) → let line = low_side grid.now a cell in
        IsIntervalOf (lines_of base.now a) line (index_along a result) }
{
    Place {
        i: base_interval(base.axis(AxisName::X), grid.axis(AxisName::X), cell.i),
        j: base_interval(base.axis(AxisName::Y), grid.axis(AxisName::Y), cell.j),
        k: base_interval(base.axis(AxisName::Z), grid.axis(AxisName::Z), cell.k),
    }
}

// The interval of an axis of the base grid in which a line of another axis lies.
fn base_interval(base: &Axis, axis: &Axis, i: u32) -> u32
    requires line { i < length axis.now }
    requires between { IsBetweenEnds base.now (slice_index axis.now i) }
    ensures { IsIntervalOf base.now (slice_index axis.now i) result }
{
    match base.interval_of(axis.lines()[i as usize]) {
        Some(interval) => interval,
        None => unreachable!(),
    }
}

// The place of the cell below a face.
fn cell_below(face: FacePlace) -> Place
    requires { 0 < index_along face.axis face.place }
    ensures { ahead face.axis 1 result ≡ face.place }
{
    let Place { i, j, k } = face.place;
    match face.axis {
        AxisName::X => Place { i: i - 1, j, k },
        AxisName::Y => Place { i, j: j - 1, k },
        AxisName::Z => Place { i, j, k: k - 1 },
    }
}

// The kind of a face, from what lies on its two sides.
fn kind_from(below: Option<Occupant>, above: Option<Occupant>) -> FaceKind
    ensures { result ≡ kind_between (option_map content_of below) (option_map content_of above) }
{
    match (below, above) {
        (Some(Occupant::Solid { .. }), Some(Occupant::Solid { .. })) => FaceKind::Inner,
        (Some(Occupant::Solid { .. }), Some(Occupant::Air { environment, rs })) =>
            FaceKind::Surface {
                environment,
                rs,
                low_is_air: false,
            },
        (Some(Occupant::Air { environment, rs }), Some(Occupant::Solid { .. })) =>
            FaceKind::Surface {
                environment,
                rs,
                low_is_air: true,
            },
        (Some(Occupant::Solid { .. }), None) | (None, Some(Occupant::Solid { .. })) =>
            FaceKind::Shut,
        _ => FaceKind::Idle,
    }
}
