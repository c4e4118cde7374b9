// The potentials that drive the flows, beyond the temperatures in the middles of the cells.
//
// In a cell the flow along an axis goes evenly from that through one face, f, to that through the other, g. With
// w = a/(b·c·λ) its exact loss along the axis is w·(f² + f·g + g²)/3, which is what the resistances from middle to faces
// give, w·(f² + g²)/2, less w·(g − f)²/6. So beside a given flux the best next one is driven by temperatures that are, seen
// along the axis, higher by w·(g − f)/6.
ghost use Rattle.std.specs.Prelude.{◌^◌, ◌≤◌, unsigned_abs};

use crate::cells::{Cells, Filling};
use tb_grid::{AxisName, FaceId, Place};

// The temperature 1.
const ONE: i64 = 1 << 50;

// The greatest potential of a solid cell: twice the temperature 1.
const MOST: i64 = 1 << 51;

// A flow of a list.
fn flow_at(flows: &[i64], face: FaceId) -> i64 {
    flows.get(face.0 as usize).copied().unwrap_or(0)
}

// What a cell's temperature is higher by, along an axis, where its flows are `low` and `high`.
fn bend(cells: Cells, axis: AxisName, place: Place, lambda: u32, low: i64, high: i64) -> i64
    ensures { unsigned_abs result ≤ 2 ^ 51 }
{
    if low == high {
        return 0;
    }
    let rise = i128::from(high) - i128::from(low);
    let width = i128::from(cells.width(axis, place));
    let over = rise.saturating_mul(width).saturating_mul(i128::from(ONE));
    let under = cells
        .area(axis, place)
        .saturating_mul(u128::from(lambda))
        .saturating_mul(60);
    let bend = over
        .checked_div(i128::try_from(under).unwrap_or(i128::MAX))
        .unwrap_or(0);
    i64::try_from(bend)
        .unwrap_or(if over < 0 { -MOST } else { MOST })
        .clamp(-MOST, MOST)
}

/// What drives the flow along an axis from the cell at a place, which is filled so, beside its temperature: of air all of
/// it, the level of its environment, and of a solid what the flux asks for. Times 2⁻⁵⁰.
pub fn potential(cells: Cells, flows: &[i64], axis: AxisName, place: Place, filling: Filling) -> i64
    ensures { unsigned_abs result ≤ 2 ^ 51 }
{
    match filling {
        Filling::Solid { lambda } => bent(cells, flows, axis, place, lambda),
        Filling::Air { is_warm: true, .. } => ONE,
        Filling::Air { .. } => 0,
    }
}

// What the flux asks for in a solid.
fn bent(cells: Cells, flows: &[i64], axis: AxisName, place: Place, lambda: u32) -> i64
    ensures { unsigned_abs result ≤ 2 ^ 51 }
{
    let counts = cells.counts;
    if flows.is_empty() || place.i >= counts.x || place.j >= counts.y || place.k >= counts.z {
        return 0;
    }
    let low = flow_at(flows, counts.low_face(axis, place));
    let high = flow_at(flows, counts.high_face(axis, place));
    bend(cells, axis, place, lambda, low, high)
}
