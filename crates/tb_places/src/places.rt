// Places in a grid, as they are seen along an axis and counted by rows.
ghost use Rattle.std.specs.Prelude.{◌≡◌, ◌+◌, ◌^◌, ◌<◌};
ghost use Rattle.tb_places.specs.declared.AxisName.{AxisName};
ghost use Rattle.tb_places.specs.Along.{ahead, corner_edge, index_along, place_along};
ghost use Rattle.tb_places.specs.Inverse.{face_by_rows, place_by_rows};
ghost use Rattle.tb_places.specs.Places.{second, third};

use crate::{AxisName, FacePlace, Place};

/// The two other axes, in the order x, y, z.
pub fn other_axes(axis: AxisName) -> (AxisName, AxisName)
    ensures second { result.0 ≡ second axis }
    ensures third { result.1 ≡ third axis }
{
    match axis {
        AxisName::X => (AxisName::Y, AxisName::Z),
        AxisName::Y => (AxisName::X, AxisName::Z),
        AxisName::Z => (AxisName::X, AxisName::Y),
    }
}

impl Place {
    /// The place with the index `i` along an axis, and `j` and `k` along the two others in order: what a loop over
    /// the lines of cells along that axis counts.
    pub fn on_line(axis: AxisName, i: u32, j: u32, k: u32) -> Place
        ensures { result ≡ place_along axis i j k }
    {
        match axis {
            AxisName::X => Place { i, j, k },
            AxisName::Y => Place { i: j, j: i, k },
            AxisName::Z => Place { i: j, j: k, k: i },
        }
    }

    /// The index along an axis.
    pub fn along(self, axis: AxisName) -> u32
        ensures { result ≡ index_along axis self }
    {
        match axis {
            AxisName::X => self.i,
            AxisName::Y => self.j,
            AxisName::Z => self.k,
        }
    }

    /// The next place along an axis.
    pub fn next(self, axis: AxisName) -> Place
        requires { index_along axis self + 1 < 2 ^ 32 }
        ensures { result ≡ ahead axis 1 self }
    {
        let Place { i, j, k } = self;
        match axis {
            AxisName::X => Place { i: i + 1, j, k },
            AxisName::Y => Place { i, j: j + 1, k },
            AxisName::Z => Place { i, j, k: k + 1 },
        }
    }

    /// The edge along an axis of the cell at this place, at a corner: `p + 2 * q`, where `p` and `q` are 0 on
    /// the low and 1 on the high side of the two other axes, in the order x, y, z.
    pub fn corner_edge(self, axis: AxisName, corner: u8) -> Place
        requires corner { corner < 4 }
        requires room { (self.i + 1 < 2 ^ 32) × (self.j + 1 < 2 ^ 32) × (self.k + 1 < 2 ^ 32) }
        ensures edge { result ≡ corner_edge axis corner self }
        ensures along { index_along axis result ≡ index_along axis self }
    {
        let Place { i, j, k } = self;
        let p = u32::from(corner % 2);
        let q = u32::from(corner / 2);
        match axis {
            AxisName::X => Place {
                i,
                j: j + p,
                k: k + q,
            },
            AxisName::Y => Place {
                i: i + p,
                j,
                k: k + q,
            },
            AxisName::Z => Place {
                i: i + p,
                j: j + q,
                k,
            },
        }
    }

    /// The place of a number that counts along x first, `row` to the row, and then along y, `rows` rows to the
    /// layer.
    pub fn by_rows(row: u32, rows: u32, number: u32) -> Place
        requires row { 0 < row }
        requires rows { 0 < rows }
        ensures { result ≡ place_by_rows row rows number }
    {
        let at = number / row;
        Place {
            i: number % row,
            j: at % rows,
            k: at / rows,
        }
    }
}

impl FacePlace {
    /// The face that is this number among those across an axis in layer `k`, `row` of them to the row.
    pub fn by_rows(axis: AxisName, row: u32, k: u32, number: u32) -> FacePlace
        requires { 0 < row }
        ensures { result ≡ face_by_rows axis row k number }
    {
        FacePlace {
            axis,
            place: Place {
                i: number % row,
                j: number / row,
                k,
            },
        }
    }
}
