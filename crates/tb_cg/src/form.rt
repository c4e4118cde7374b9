// The exact form of trilinear fields: its product with a vector.
ghost use Rattle.std.specs.Prelude.{◌≡◌, ◌^◌, ◌<◌, ◌≤◌, ◌+◌, length};

use crate::cells::{AXES, Cells, next};
use crate::kernel::{CellForm, FaceForm, Reach, add_cell, add_face};
use crate::points::Points;
use crate::ratio::{Ratio, scale_for};
use std::alloc::{AllocError, Global};
use tb_gradients::{Entry, Operator};
use tb_grid::{AxisName, CellId, Place};

/// The energy of trilinear fields as a quadratic form: the weights of the solid cells and of the surfaces, times one power
/// of two. The energy of a cell along an axis is the integral of a bilinear function's square, so each of four edges
/// counts 4, the two beside it 2 and the one across 1, in 36 parts of the weight.
#[derive(Drop)]
pub struct Form {
    pub points: Points,
    pub(crate) reach: Reach,
    pub(crate) cells: Vec<CellForm>,
    pub(crate) faces: Vec<FaceForm>,
}

// The weight of a solid cell along an axis.
fn cell_weight(cells: Cells, axis: AxisName, place: Place, lambda: u32) -> Ratio {
    Ratio::across(cells.area(axis, place), cells.width(axis, place), lambda)
}

// The greatest number of bits that a weight at a cell has.
fn bits_at(cells: Cells, place: Place) -> i32 {
    let mut bits = i32::MIN;
    let lambda = cells.conductivity(place);
    for axis in AXES {
        if let Some(lambda) = lambda {
            bits = bits.max(cell_weight(cells, axis, place, lambda).bits());
        }
        if let Some((film, _is_warm)) = cells.film(axis, place) {
            bits = bits.max(film.bits());
        }
    }
    bits
}

// The scale at which all weights have at most 54 bits.
fn scale_of(cells: Cells) -> i32 {
    let mut bits = i32::MIN;
    for number in 0..cells.counts.cells() {
        bits = bits.max(bits_at(cells, cells.counts.cell_place(CellId(number))));
    }
    scale_for(bits)
}

// How many cells are solid.
fn solids(cells: Cells) -> usize {
    let mut count = 0usize;
    for number in 0..cells.counts.cells() {
        let place = cells.counts.cell_place(CellId(number));
        count = count.saturating_add(usize::from(cells.conductivity(place).is_some()));
    }
    count
}

// How many surfaces there are.
fn surfaces(cells: Cells) -> usize {
    let mut count = 0usize;
    for number in 0..cells.counts.cells() {
        let place = cells.counts.cell_place(CellId(number));
        for axis in AXES {
            count = count.saturating_add(usize::from(cells.surface(axis, place).is_some()));
        }
    }
    count
}

// The place of a node, as it is stored.
fn stored(at: usize) -> u32 {
    u32::try_from(at).unwrap_or(u32::MAX)
}

// A distance of nodes.
fn reach_along(points: Points, axis: AxisName) -> usize
    ensures { result ≤ 2 ^ 21 }
{
    points.stride(axis).places.min(1 << 21)
}

// The weights of a solid cell.
fn cell_form(cells: Cells, points: Points, place: Place, lambda: u32, scale: i32) -> CellForm {
    CellForm {
        place: stored(points.at(place)),
        x: cell_weight(cells, AxisName::X, place, lambda).scaled(scale),
        y: cell_weight(cells, AxisName::Y, place, lambda).scaled(scale),
        z: cell_weight(cells, AxisName::Z, place, lambda).scaled(scale),
    }
}

// The surface between a cell and the next one along an axis, where there is one.
fn face_form(
    cells: Cells,
    points: Points,
    axis: AxisName,
    place: Place,
    scale: i32,
) -> Option<FaceForm> {
    let (film, is_warm) = cells.film(axis, place)?;
    let (second, third) = match axis {
        AxisName::X => (AxisName::Y, AxisName::Z),
        AxisName::Y => (AxisName::X, AxisName::Z),
        AxisName::Z => (AxisName::X, AxisName::Y),
    };
    Some(FaceForm {
        place: stored(points.at(next(axis, place))),
        second: stored(points.stride(second).places),
        third: stored(points.stride(third).places),
        is_warm,
        weight: film.scaled(scale),
    })
}

impl Form {
    /// The form of a grid's cells. It has all the memory that it will need.
    ///
    /// # Errors
    /// Memory ran out.
    pub fn new(alloc: Global, cells: Cells, points: Points) -> Result<Form, AllocError> {
        let scale = scale_of(cells);
        let mut cell_forms = Vec::with_capacity(alloc, solids(cells))?;
        let mut face_forms = Vec::with_capacity(alloc, surfaces(cells))?;
        for number in 0..cells.counts.cells() {
            let place = cells.counts.cell_place(CellId(number));
            if let Some(lambda) = cells.conductivity(place) {
                cell_forms.push(cell_form(cells, points, place, lambda, scale))?;
            }
            for axis in AXES {
                if let Some(face) = face_form(cells, points, axis, place, scale) {
                    face_forms.push(face)?;
                }
            }
        }
        Ok(Form {
            points,
            reach: Reach {
                x: reach_along(points, AxisName::X),
                y: reach_along(points, AxisName::Y),
                z: reach_along(points, AxisName::Z),
            },
            cells: cell_forms,
            faces: face_forms,
        })
    }

    /// Makes `q` the derivative of the energy at the field `p`, over `2^shift`, where the warm environments have a level
    /// and the others 0. Gives a number with as many bits as the greatest entry. None where an entry doesn't fit, or the
    /// lists have other lengths than the layout asks for, or the shift is above 125.
    pub fn derivative(&self, p: &[Entry], level: Entry, shift: u8, q: &mut [Entry]) -> Option<i64> {
        if p.len() != self.points.layout.places() || q.len() != p.len() || shift > 125 {
            return None;
        }
        q.fill(Entry::ZERO);
        // The weights of the modes are four times those of the cell.
        add_cells(self.cells.as_slice(), self.reach, p, shift + 2, q)?;
        add_faces(self.faces.as_slice(), level, p, shift, q)?;
        Some(magnitude(q))
    }
}

impl Operator for Form {
    fn multiply(&self, p: &[Entry], shift: u8, q: &mut [Entry]) -> Option<i64> {
        self.derivative(p, Entry::ZERO, shift, q)
    }
}

// Adds what the cells give, over `2^(shift - 2)`.
fn add_cells(
    cells: &[CellForm],
    reach: Reach,
    p: &[Entry],
    shift: u8,
    q: &mut [Entry],
) -> Option<()>
    requires same { length q.old ≡ length p.now }
{
    let most = reach.x + reach.y + reach.z;
    for cell in cells {
        let cell = *cell;
        if cell.place as usize + most >= p.len() {
            return None;
        }
        add_cell(cell, reach, p, shift, q)?;
    }
    Some(())
}

// Adds what the surfaces give.
fn add_faces(
    faces: &[FaceForm],
    level: Entry,
    p: &[Entry],
    shift: u8,
    q: &mut [Entry],
) -> Option<()>
    requires same { length q.old ≡ length p.now }
    requires few { length p.now ≤ 2 ^ 21 }
{
    for face in faces {
        let face = *face;
        if face.place as usize + face.second as usize + face.third as usize >= p.len() {
            return None;
        }
        let level = if face.is_warm { level } else { Entry::ZERO };
        add_face(face, level, p, shift, q)?;
    }
    Some(())
}

// A number with as many bits as the greatest entry.
fn magnitude(entries: &[Entry]) -> i64 {
    let mut bits = 0;
    for entry in entries {
        let value = entry.value();
        bits |= value ^ (value >> 63);
    }
    bits
}
