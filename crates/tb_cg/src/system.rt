// The system of the temperatures in the middles of the cells.
use crate::cells::{AXES, Cells, Link, next};
use crate::points::Points;
use crate::potential::potential;
use crate::ratio::scale_for;
use tb_gradients::{Coupling, Entry, Matrix, Neighbour, Solver};
use tb_grid::{AxisName, CellId, Place};

/// The exponent of the right-hand side: six couplings of 54 bits then fit an entry.
pub const RIGHT_SIDE_EXPONENT: i32 = 4;

// The greatest number of bits that a link at a cell has.
fn bits_at(cells: Cells, place: Place) -> i32 {
    let mut bits = i32::MIN;
    for axis in AXES {
        bits = bits.max(match cells.link(axis, place) {
            Some(Link::Inner { conductance }) => conductance.bits(),
            Some(Link::Surface { conductance, .. }) => conductance.bits(),
            None => i32::MIN,
        });
    }
    bits
}

/// The scale of the cells' system: couplings are times `2^scale`, in 10⁻⁸ W/K, and have at most 54 bits.
pub fn scale_of_links(cells: Cells) -> i32 {
    let mut bits = i32::MIN;
    for number in 0..cells.counts.cells() {
        bits = bits.max(bits_at(cells, cells.counts.cell_place(CellId(number))));
    }
    scale_for(bits)
}

// What a difference of potentials drives through a coupling, as a part of the right-hand side.
fn driven(coupling: Coupling, low: i64, high: i64) -> Entry {
    let difference = i128::from(low) - i128::from(high);
    let whole = i128::from(coupling.value()).saturating_mul(difference);
    Entry::new(whole >> (50 + RIGHT_SIDE_EXPONENT)).unwrap_or(Entry::ZERO)
}

fn negative(entry: Entry) -> Entry {
    Entry::new(-i128::from(entry.value())).unwrap_or(Entry::ZERO)
}

// Couples a cell with the next one along an axis, or with the environment.
fn couple_at(
    cells: Cells,
    points: Points,
    axis: AxisName,
    place: Place,
    scale: i32,
    flows: &[i64],
    matrix: &mut Matrix,
    solver: &mut Solver,
) -> Option<()> {
    let above = next(axis, place);
    let (Some(first), Some(second)) = (cells.filling(place), cells.filling(above)) else {
        return Some(());
    };
    let Some(link) = cells.link_between(axis, place, first, second) else {
        return Some(());
    };
    let low = potential(cells, flows, axis, place, first);
    let high = potential(cells, flows, axis, above, second);
    match link {
        Link::Inner { conductance } => {
            let coupling = conductance.scaled(scale);
            let driven = driven(coupling, low, high);
            matrix.couple(points.at(above), points.stride(axis).neighbour, coupling)?;
            solver.add_residual(points.at(place), negative(driven))?;
            solver.add_residual(points.at(above), driven)
        }
        Link::Surface {
            conductance,
            low_is_air,
            ..
        } => {
            let coupling = conductance.scaled(scale);
            let driven = driven(coupling, low, high);
            if low_is_air {
                matrix.couple(points.at(above), Neighbour::Surroundings, coupling)?;
                solver.add_residual(points.at(above), driven)
            } else {
                matrix.couple(points.at(place), Neighbour::Surroundings, coupling)?;
                solver.add_residual(points.at(place), negative(driven))
            }
        }
    }
}

// Couples a cell with the next ones.
fn couple_cell(
    cells: Cells,
    points: Points,
    place: Place,
    scale: i32,
    flows: &[i64],
    matrix: &mut Matrix,
    solver: &mut Solver,
) -> Option<()> {
    for axis in AXES {
        couple_at(cells, points, axis, place, scale, flows, matrix, solver)?;
    }
    Some(())
}

/// Makes the system of the temperatures in the middles of the solid cells: the matrix has the conductance from middle to
/// middle, or from middle to environment, and the solver's residual what the environments at 1 give, and what a present
/// flux asks for beside, both with the scale of [`scale_of_links`]. None where a sum doesn't fit, or the matrix or the
/// solver have another layout.
///
/// The present flux is in the index order of faces, in nW per unit difference. Where it is 0, or there is none, the
/// solution's flows ([`face_flows`](crate::face_flows)) are those of the resistances from middle to middle. Else they are
/// better than it, but for the rounding: a step of preconditioned descent.
pub fn couple_cells(
    cells: Cells,
    points: Points,
    scale: i32,
    flows: &[i64],
    matrix: &mut Matrix,
    solver: &mut Solver,
) -> Option<()> {
    matrix.clear();
    solver.clear_residual(RIGHT_SIDE_EXPONENT);
    for number in 0..cells.counts.cells() {
        let place = cells.counts.cell_place(CellId(number));
        couple_cell(cells, points, place, scale, flows, matrix, solver)?;
    }
    Some(())
}
