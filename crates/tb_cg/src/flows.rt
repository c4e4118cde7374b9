// The flows of the temperatures in the middles of the cells.
ghost use Rattle.std.specs.Prelude.{◌^◌, ◌≤◌, All, unsigned_abs};
ghost use Rattle.tb_cg.specs.Limits.{IsFlow};
ghost use Rattle.tb_places.specs.Places.{IsCell};
ghost use Rattle.tb_grid.specs.Views.{along_axes};

use crate::cells::{AXES, Cells, Filling, Link, next};
use crate::points::Points;
use crate::potential::potential;
use tb_gradients::{Coupling, Entry, SOLUTION_EXPONENT};
use tb_grid::{AxisName, CellId, Place};

/// The greatest flow through a face, in either direction, in nW per unit difference.
pub const MOST_FLOW: i64 = 1_000_000_000_000;

// The temperature at the place of a cell.
fn temperature(temperatures: &[Entry], at: usize) -> i64
    ensures { unsigned_abs result ≤ 2 ^ 53 }
{
    match temperatures.get(at) {
        Some(entry) => entry.value(),
        None => 0,
    }
}

// The flow from a temperature to another through a conductance that was scaled, in nW, rounded.
fn flow(conductance: Coupling, from: i64, to: i64, scale: i32) -> i64
    ensures { IsFlow result }
{
    let difference = i128::from(from) - i128::from(to);
    let down = u32::try_from(scale.saturating_sub(SOLUTION_EXPONENT))
        .unwrap_or(0)
        .min(120);
    let half = (1i128 << down) / 2;
    let whole = i128::from(conductance.value())
        .saturating_mul(difference)
        .saturating_mul(10)
        .saturating_add(half);
    within(i64::try_from(whole >> down).unwrap_or(if whole < 0 { i64::MIN } else { i64::MAX }))
}

// The nearest flow within the limits.
fn within(flow: i64) -> i64
    ensures { IsFlow result }
{
    if flow > MOST_FLOW {
        MOST_FLOW
    } else if flow < -MOST_FLOW {
        -MOST_FLOW
    } else {
        flow
    }
}

// The temperature of a cell, seen along an axis, or of an environment.
fn seen(
    cells: Cells,
    points: Points,
    axis: AxisName,
    place: Place,
    filling: Filling,
    temperatures: &[Entry],
    present: &[i64],
) -> i64
    ensures { unsigned_abs result ≤ 2 ^ 54 }
{
    temperature(temperatures, points.at(place)) + potential(cells, present, axis, place, filling)
}

// The flow from a cell to the next one along an axis.
fn flow_at(
    cells: Cells,
    points: Points,
    axis: AxisName,
    place: Place,
    scale: i32,
    temperatures: &[Entry],
    present: &[i64],
) -> i64
    ensures { IsFlow result }
{
    let above = next(axis, place);
    let (Some(first), Some(second)) = (cells.filling(place), cells.filling(above)) else {
        return 0;
    };
    let Some(link) = cells.link_between(axis, place, first, second) else {
        return 0;
    };
    let (Link::Inner { conductance } | Link::Surface { conductance, .. }) = link;
    let low = seen(cells, points, axis, place, first, temperatures, present);
    let high = seen(cells, points, axis, above, second, temperatures, present);
    flow(conductance.scaled(scale), low, high, scale)
}

// Sets a value where there is one.
fn set(values: &mut [i64], at: usize, value: i64)
    requires { IsFlow value }
    ensures { All IsFlow values.old → All IsFlow values.new }
{
    if at < values.len() {
        values[at] = value;
    }
}

/// The flows of these temperatures through the faces, in the index order of faces, in nW per unit difference, positive in
/// the direction of the face's axis: rounded, and within 10¹² in either direction. Temperatures are times 2⁻⁵⁰, at the
/// places of the cells. The scale and the present flux are those of [`couple_cells`](crate::couple_cells). Where a face has
/// no cell below it, the list keeps what it had: begin with zeros.
pub fn face_flows(
    cells: Cells,
    points: Points,
    temperatures: &[Entry],
    scale: i32,
    present: &[i64],
    flows: &mut [i64],
)
    ensures { All IsFlow flows.old → All IsFlow flows.new }
{
    for number in 0..cells.counts.cells() {
        let place = cells.counts.cell_place(CellId(number));
        face_flows_at(cells, points, temperatures, scale, place, present, flows);
    }
}

// The flows through the high faces of a cell.
fn face_flows_at(
    cells: Cells,
    points: Points,
    temperatures: &[Entry],
    scale: i32,
    place: Place,
    present: &[i64],
    flows: &mut [i64],
)
    requires { IsCell (along_axes cells.counts) place }
    ensures { All IsFlow flows.old → All IsFlow flows.new }
{
    for axis in AXES {
        let face = cells.counts.high_face(axis, place);
        let value = flow_at(cells, points, axis, place, scale, temperatures, present);
        set(flows, face.0 as usize, value);
    }
}
