// The matrix that couples the nodes along the edges, as a preconditioner of the exact form.
use crate::field::WARM;
use crate::form::Form;
use crate::kernel::{CellForm, FaceForm};
use crate::points::Stride;
use tb_gradients::{Coupling, Entry, Matrix, Neighbour};
use tb_grid::AxisName;

// By how many bits the matrix is smaller than the form: a node has up to six edges of four cells, and each counts 9.
const LESS_BITS: u32 = 5;

// Nine parts of a weight: what an edge of a cell, or a corner of a surface, has of it.
fn lumped(weight: Coupling) -> Coupling {
    let ninefold = i128::from(weight.value()).saturating_mul(9) >> LESS_BITS;
    let value = i64::try_from(ninefold).unwrap_or(i64::MAX).max(1);
    Coupling::new(value).unwrap_or(Coupling::ZERO)
}

// The four nodes of a face of a box, from its lowest one, at these distances.
fn corners(place: usize, second: usize, third: usize) -> [usize; 4] {
    let beside = place.saturating_add(second);
    [
        place,
        beside,
        place.saturating_add(third),
        beside.saturating_add(third),
    ]
}

/// The temperatures of the nodes and the way of steepest descent from them, at the places of the nodes, by which nodes are
/// held: at 0 or at 1, where the descent would leave the range.
#[derive(Clone, Copy)]
pub struct Held<'a> {
    pub temperatures: &'a [Entry],
    pub descent: &'a [Entry],
}

impl Held<'_> {
    // Whether a node is held.
    fn holds(self, node: usize) -> bool {
        match (self.temperatures.get(node), self.descent.get(node)) {
            (Some(temperature), Some(way)) => {
                (temperature.value() <= 0 && way.value() <= 0)
                    || (temperature.value() >= WARM && way.value() >= 0)
            }
            _ => false,
        }
    }
}

// Couples a node with its environment, unless it is held.
fn couple_alone(matrix: &mut Matrix, held: Held, node: usize, coupling: Coupling) -> Option<()> {
    if held.holds(node) {
        return Some(());
    }
    matrix.couple(node, Neighbour::Surroundings, coupling)
}

// Couples a node with the one before it along an axis. One that is held is part of the other's surroundings.
fn couple_edge(
    matrix: &mut Matrix,
    held: Held,
    node: usize,
    stride: Stride,
    coupling: Coupling,
) -> Option<()> {
    let before = node.saturating_sub(stride.places);
    if held.holds(before) {
        couple_alone(matrix, held, node, coupling)
    } else if held.holds(node) {
        couple_alone(matrix, held, before, coupling)
    } else {
        matrix.couple(node, stride.neighbour, coupling)
    }
}

impl Form {
    // Couples the nodes of a cell along an axis, unless they share their places.
    fn couple_along(
        &self,
        matrix: &mut Matrix,
        held: Held,
        place: usize,
        axis: AxisName,
        weight: Coupling,
    ) -> Option<()> {
        let (second, third) = match axis {
            AxisName::X => (self.reach.y, self.reach.z),
            AxisName::Y => (self.reach.x, self.reach.z),
            AxisName::Z => (self.reach.x, self.reach.y),
        };
        let stride = self.points.stride(axis);
        if stride.places == 0 {
            return Some(());
        }
        let high = place.saturating_add(stride.places);
        for node in corners(high, second, third) {
            couple_edge(matrix, held, node, stride, lumped(weight))?;
        }
        Some(())
    }

    // Couples the nodes of a cell.
    fn couple_cell(&self, matrix: &mut Matrix, held: Held, cell: CellForm) -> Option<()> {
        let place = cell.place as usize;
        self.couple_along(matrix, held, place, AxisName::X, cell.x)?;
        self.couple_along(matrix, held, place, AxisName::Y, cell.y)?;
        self.couple_along(matrix, held, place, AxisName::Z, cell.z)
    }

    // Couples the nodes of a surface with its environment.
    fn couple_face(&self, matrix: &mut Matrix, held: Held, face: FaceForm) -> Option<()> {
        let nodes = corners(
            face.place as usize,
            face.second as usize,
            face.third as usize,
        );
        for node in nodes {
            couple_alone(matrix, held, node, lumped(face.weight))?;
        }
        Some(())
    }

    /// Makes the matrix that couples the nodes along the edges of the cells, and with the environments at the corners of the
    /// surfaces: close to the form, but with seven entries a row. Nodes that are held aren't coupled, so that a correction
    /// leaves them as they are. None where a sum doesn't fit, or the matrix has another layout.
    pub fn couple_nodes(&self, held: Held, matrix: &mut Matrix) -> Option<()> {
        matrix.clear();
        for cell in self.cells.as_slice() {
            self.couple_cell(matrix, held, *cell)?;
        }
        for face in self.faces.as_slice() {
            self.couple_face(matrix, held, *face)?;
        }
        Some(())
    }
}
