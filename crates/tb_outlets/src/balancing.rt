// Cell after cell, the outlet is set so that nothing is lost in the cell.
ghost use Rattle.std.specs.Prelude.{◌≡◌, ◌*◌, ◌≤◌, ◌<◌, length, IsTrue, EachIndex, ◌↔◌, unsigned_abs, true, false, ◌-ℤ◌, slice_index_or, pos};
ghost use Rattle.tb_places.specs.Inverse.{cell_place};
ghost use Rattle.tb_places.specs.Places.{cell_count, face_count, IsCell};
ghost use Rattle.tb_grid.specs.Views.{along_axes};
ghost use Rattle.tb_outlets.specs.Flows.{net};
ghost use Rattle.tb_outlets.specs.Sides.{face_of, number_on};
ghost use Rattle.tb_outlets.specs.Balancing.{AreCells, IsOrder, IsWithinLimits, balance, balance_all, balancing, flow, most_flow, side_at};
ghost use Rattle.tb_outlets.specs.Repair.{cleared};
ghost use Rattle.tb_outlets.specs.declared.side.Side.TheVariants.{Low, High};

use crate::side::Side;
use tb_grid::{CellCounts, CellId, FaceId, Place};
use tb_places::AxisName;

/// The most that may flow through a face, in nW per unit difference: 1 kW.
pub const MOST_FLOW: u64 = 1_000_000_000_000;

/// The face on a side of the cell at a place.
pub(crate) fn face_on(counts: CellCounts, cell: Place, side: Side) -> FaceId
    requires { IsCell (along_axes counts) cell }
    ensures face { result.0 ≡ number_on (along_axes counts) side cell }
    ensures within { result.0 < face_count (along_axes counts) }
{
    match side {
        Side::Low(axis) => counts.low_face(axis, cell),
        Side::High(axis) => counts.high_face(axis, cell),
    }
}

/// The value at a face.
fn value_at(values: &[i64], face: FaceId) -> i64
    requires within { face.0 < length values.now }
    requires limits { IsWithinLimits values.now }
    ensures value { result ≡ flow values.now face.0 }
    ensures most { unsigned_abs result ≤ most_flow }
{
    values[face.0 as usize]
}

/// What leaves the cell at a place through its two faces across an axis.
fn net_along(counts: CellCounts, cell: Place, axis: AxisName, values: &[i64]) -> i64
    requires cell { IsCell (along_axes counts) cell }
    requires whole { length values.now ≡ face_count (along_axes counts) }
    requires limits { IsWithinLimits values.now }
    ensures value { result ≡ flow values.now (number_on (along_axes counts) (High axis) cell) -ℤ flow values.now (number_on (along_axes counts) (Low axis) cell) }
    ensures most { unsigned_abs result ≤ 2 * most_flow }
{
    let high = face_on(counts, cell, Side::High(axis));
    let low = face_on(counts, cell, Side::Low(axis));
    value_at(values, high) - value_at(values, low)
}

/// What leaves a cell.
fn net(counts: CellCounts, cell: CellId, values: &[i64]) -> i64
    requires cell { cell.0 < cell_count (along_axes counts) }
    requires whole { length values.now ≡ face_count (along_axes counts) }
    requires limits { IsWithinLimits values.now }
    ensures value { result ≡ net (face_of (along_axes counts)) (flow values.now) cell.0 }
    ensures most { unsigned_abs result ≤ 6 * most_flow }
{
    let place = counts.cell_place(cell);
    net_along(counts, place, AxisName::X, values)
        + net_along(counts, place, AxisName::Y, values)
        + net_along(counts, place, AxisName::Z, values)
}

/// The value at the face on a side of a cell with which nothing is lost in the cell.
fn balancing(counts: CellCounts, cell: CellId, side: Side, values: &[i64]) -> i64
    requires cell { cell.0 < cell_count (along_axes counts) }
    requires whole { length values.now ≡ face_count (along_axes counts) }
    requires limits { IsWithinLimits values.now }
    ensures value { result ≡ balancing (face_of (along_axes counts)) (flow values.now) cell.0 side }
    ensures most { unsigned_abs result ≤ 7 * most_flow }
{
    let net = net(counts, cell, values);
    let place = counts.cell_place(cell);
    let old = value_at(values, face_on(counts, place, side));
    match side {
        Side::Low(_) => old + net,
        Side::High(_) => old - net,
    }
}

/// Sets the outlet of a cell so that nothing is lost in the cell. Where the value would be past the limit nothing
/// changes, and the answer is false.
fn balance(counts: CellCounts, outlets: &[Side], cell: CellId, values: &mut [i64]) -> bool
    requires cell { cell.0 < cell_count (along_axes counts) }
    requires outlets { length outlets.now ≡ cell_count (along_axes counts) }
    requires whole { length values.old ≡ face_count (along_axes counts) }
    requires limits { IsWithinLimits values.old }
    ensures within { IsTrue result ↔ (unsigned_abs (balancing (face_of (along_axes counts)) (flow values.old) cell.0 (side_at outlets.now cell.0)) ≤ most_flow) }
    ensures set { IsTrue result → values.new ≡ balance (face_of (along_axes counts)) (side_at outlets.now) values.old cell.0 }
    ensures limits { IsWithinLimits values.new }
{
    let side = outlets[cell.0 as usize];
    let value = balancing(counts, cell, side, values);
    if value.unsigned_abs() > MOST_FLOW {
        return false;
    }
    let face = face_on(counts, counts.cell_place(cell), side);
    values[face.0 as usize] = value;
    true
}

/// Balances the cells of a list, one after the other. Where a value would be past the limit the answer is false.
pub(crate) fn balance_all(
    counts: CellCounts,
    outlets: &[Side],
    order: &[CellId],
    values: &mut [i64],
) -> bool
    requires cells { AreCells (cell_count (along_axes counts)) order.now }
    requires order { IsOrder (face_of (along_axes counts)) (side_at outlets.now) order.now }
    requires outlets { length outlets.now ≡ cell_count (along_axes counts) }
    requires whole { length values.old ≡ face_count (along_axes counts) }
    requires limits { IsWithinLimits values.old }
    ensures within { IsTrue result ↔ IsWithinLimits (balance_all (face_of (along_axes counts)) (side_at outlets.now) values.old order.now) }
    ensures set { IsTrue result → values.new ≡ balance_all (face_of (along_axes counts)) (side_at outlets.now) values.old order.now }
{
    for cell in order {
        if !balance(counts, outlets, *cell, values) {
            return false;
        }
    }
    true
}

/// Gives each face that carries heat its value, and the others 0.
pub(crate) fn clear(carries: &[bool], given: &[i64], values: &mut [i64])
    requires flags { length carries.now ≡ length values.old }
    requires given { length given.now ≡ length values.old }
    requires limits { IsWithinLimits given.now }
    ensures each { EachIndex values.new (λ f. flow values.new f ≡ cleared carries.now given.now f) }
    ensures limits { IsWithinLimits values.new }
{
    for face in 0..values.len() {
        values[face] = if carries[face] { given[face] } else { 0 };
    }
}
